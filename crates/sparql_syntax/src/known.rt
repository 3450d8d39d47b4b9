//! Whether prefixes are declared before they are used.
ghost use Rattle.std.specs.Prelude.{◌≡◌, ◌&&◌, [], IfOk, OnOk};
ghost use Rattle.sparql_syntax.specs.Known as spec;

use indexmap::IndexSet;
use rdf_grammar::Key;
use rdf_terms::NoMemory;
use sparql_drafts::{declare_prefix, knows_blocks, knows_name};
use sparql_grammar::{GraphOrDefault, GraphRefAll, Modify, Name, Operation, Part};
use sparql_queries::knows_group;
use std::alloc::Global;

// Each of these answers whether the prefix of each name is declared.

fn knows_graphs<'a>(declared: &IndexSet<Key<'a>>, graphs: &GraphRefAll<'a>) -> bool
    ensures { result ≡ spec.known_graph_ref_all declared.now.keys graphs.now }
{
    match graphs {
        GraphRefAll::Graph(name) => knows_name(declared, name),
        GraphRefAll::Default | GraphRefAll::Named | GraphRefAll::All => true,
    }
}

fn knows_place<'a>(declared: &IndexSet<Key<'a>>, place: &GraphOrDefault<'a>) -> bool
    ensures { result ≡ spec.known_graph_or_default declared.now.keys place.now }
{
    match place {
        GraphOrDefault::Default => true,
        GraphOrDefault::Graph(name) => knows_name(declared, name),
    }
}

fn knows_places<'a>(
    declared: &IndexSet<Key<'a>>,
    from: &GraphOrDefault<'a>,
    to: &GraphOrDefault<'a>,
) -> bool
    ensures { let knows = spec.known_graph_or_default declared.now.keys in
        result ≡ (knows from.now && knows to.now) }
{
    knows_place(declared, from) && knows_place(declared, to)
}

fn knows_with<'a>(declared: &IndexSet<Key<'a>>, name: &Option<Name<'a>>) -> bool
    ensures { result ≡ spec.known_with declared.now.keys name.now }
{
    match name {
        Some(name) => knows_name(declared, name),
        None => true,
    }
}

fn knows_modify<'a>(declared: &IndexSet<Key<'a>>, modify: &Modify<'a>) -> bool
    ensures { result ≡ spec.known_modify declared.now.keys modify.now }
{
    knows_with(declared, &modify.with)
        && knows_blocks(declared, modify.delete.as_slice())
        && knows_blocks(declared, modify.insert.as_slice())
        && knows_group(declared, &modify.group)
}

#[tactic(auto, unfolding(crate::specs::Known::known_operation))]
fn knows_operation<'a>(declared: &IndexSet<Key<'a>>, operation: &Operation<'a>) -> bool
    ensures { result ≡ spec.known_operation declared.now.keys operation.now }
{
    match operation {
        Operation::InsertData(blocks)
        | Operation::DeleteData(blocks)
        | Operation::DeleteWhere(blocks) => knows_blocks(declared, blocks.as_slice()),
        Operation::Modify(modify) => knows_modify(declared, modify),
        Operation::Create { graph, .. } => knows_name(declared, graph),
        Operation::Clear { graphs, .. } | Operation::Drop { graphs, .. } => {
            knows_graphs(declared, graphs)
        }
        Operation::Copy { from, to, .. }
        | Operation::Move { from, to, .. }
        | Operation::Add { from, to, .. } => knows_places(declared, from, to),
    }
}

fn knows_part<'a>(declared: &IndexSet<Key<'a>>, part: &Part<'a>) -> bool
    ensures { result ≡ spec.known_part declared.now.keys part.now }
{
    match part {
        Part::Operation(operation) => knows_operation(declared, operation),
        Part::Declaration(_) => true,
    }
}

// Adds the prefix that a part declares, if it does.
fn declare<'a>(declared: &mut IndexSet<Key<'a>>, part: &Part<'a>) -> Result<(), NoMemory>
    ensures { OnOk result (declared.new.keys ≡ spec.declared_behind declared.old.keys part.now) }
{
    if let Part::Declaration(declaration) = part {
        declare_prefix(declared, declaration)?;
    }
    Ok(())
}

/// Whether each prefix is declared before it is used.
///
/// # Errors
/// [`NoMemory`] where memory is wanting.
pub(crate) fn knows_parts<'a>(alloc: Global, parts: &[Part<'a>]) -> Result<bool, NoMemory>
    ensures { IfOk result (λ knows. knows ≡ spec.declares_first [] parts.now) }
{
    let mut declared = IndexSet::new(alloc);
    for part in parts {
        if !knows_part(&declared, part) {
            return Ok(false);
        }
        declare(&mut declared, part)?;
    }
    Ok(true)
}
