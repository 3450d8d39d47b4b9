//! What one operation does, and what stands against it.
ghost use Rattle.std.specs.Prelude.{◌≡◌, ◌+◌, ◌≤◌, false, None, IfOk, OnOk};
ghost use Rattle.std.specs.FinSet.{contains};
ghost use Rattle.rdf_terms.specs.declared.term.Term.TheVariants.{Iri as iri_term};
ghost use Rattle.rdf_dataset.specs.State.{last_number, with_name};
ghost use Rattle.rdf_dataset.specs.Insertion.{with_data};
ghost use Rattle.sparql_eval.specs.Graphs.{graph_of, is_there};
ghost use Rattle.sparql_eval.specs.Operations.{after, is_silent, missing_of, obstacle, unless};
ghost use Rattle.sparql_eval.specs.Inside.Staging.{has_pattern};

use crate::fault::ApplyFault;
use crate::graphs::{Names, Transfer, empty_graphs, transfer_graph};
use crate::quads::remove_all;
use rdf_dataset::{Source, Staged};
use rdf_terms::{Iri, NoMemory, Quad, Term};
use sparql_trees::{Data, GraphOrDefault, GraphRefAll, Operation};
use std::alloc::Global;

/// The counter of blank nodes goes no further.
pub(crate) const LAST_NUMBER: u64 = 1_000_000_000_000_000_000;

fn is_named<D: Source>(iri: &Iri, view: &Staged<'_, D>) -> Result<bool, NoMemory>
    ensures { IfOk result (λ named. named ≡ contains view.now.now.names (iri_term iri.now)) }
{
    Ok(view.has_name(&Term::Iri(iri.copy()?)))
}

fn is_there<D: Source>(graph: &GraphOrDefault, view: &Staged<'_, D>) -> Result<bool, NoMemory>
    ensures { IfOk result (λ there. there ≡ is_there view.now.now (graph_of graph.now)) }
{
    match graph {
        GraphOrDefault::Default => Ok(true),
        GraphOrDefault::Graph(iri) => is_named(iri, view),
    }
}

fn unless(right: bool, fault: ApplyFault) -> Option<ApplyFault>
    ensures { result ≡ unless right fault }
{
    if right { None } else { Some(fault) }
}

// CLEAR and DROP of one graph want it to be there.
fn missing_of<D: Source>(
    graphs: &GraphRefAll,
    view: &Staged<'_, D>,
) -> Result<Option<ApplyFault>, NoMemory>
    ensures { IfOk result (λ missing. missing ≡ missing_of view.now.now graphs.now) }
{
    match graphs {
        GraphRefAll::Graph(iri) => Ok(unless(is_named(iri, view)?, ApplyFault::MissingGraph)),
        GraphRefAll::Default | GraphRefAll::Named | GraphRefAll::All => Ok(None),
    }
}

/// What stands against an operation without a pattern.
pub(crate) fn obstacle<D: Source>(
    operation: &Operation,
    view: &Staged<'_, D>,
) -> Result<Option<ApplyFault>, NoMemory>
    requires { has_pattern operation.now ≡ false }
    ensures { IfOk result (λ found. found ≡ obstacle view.now.now operation.now) }
{
    match operation {
        Operation::InsertData(data) => {
            let room = LAST_NUMBER - view.next_blank();
            Ok(unless(data.blanks() <= room, ApplyFault::BlankNumbers))
        }
        Operation::DeleteData(_) => Ok(None),
        Operation::Modify(_) => unreachable!(),
        Operation::Create { graph, .. } => {
            Ok(unless(!is_named(graph, view)?, ApplyFault::GraphExists))
        }
        Operation::Clear { graphs, .. } | Operation::Drop { graphs, .. } => {
            missing_of(graphs, view)
        }
        Operation::Copy { from, .. } | Operation::Move { from, .. } | Operation::Add { from, .. } =>
            { Ok(unless(is_there(from, view)?, ApplyFault::MissingGraph)) }
    }
}

/// Whether the operation is SILENT.
pub(crate) fn is_silent(operation: &Operation) -> bool
    ensures { result ≡ is_silent operation.now }
{
    match operation {
        Operation::InsertData(_) | Operation::DeleteData(_) | Operation::Modify(_) => false,
        Operation::Create { silent, .. }
        | Operation::Clear { silent, .. }
        | Operation::Drop { silent, .. }
        | Operation::Copy { silent, .. }
        | Operation::Move { silent, .. }
        | Operation::Add { silent, .. } => *silent,
    }
}

/// Equal quads.
pub(crate) fn copies(alloc: Global, quads: &[Quad]) -> Result<Vec<Quad>, NoMemory>
    ensures { IfOk result (λ copied. copied.items ≡ quads.now) }
{
    let mut copied = Vec::with_capacity(alloc, quads.len())?;
    for quad in quads {
        copied.push(quad.copy()?)?;
    }
    Ok(copied)
}

fn insert_data<D: Source>(
    alloc: Global,
    inserted: &Data,
    view: &mut Staged<'_, D>,
) -> Result<(), NoMemory>
    requires room { view.old.now.next + inserted.now.blanks ≤ last_number }
    ensures ok { OnOk result
        (view.new.now ≡ with_data view.old.now inserted.now.quads inserted.now.blanks) }
    ensures beneath { view.new.under ≡ view.old.under }
{
    let quads = copies(alloc, inserted.quads())?;
    let first = view.insert_data(quads, inserted.blanks())?;
    prove!(first.is_some());
    Ok(())
}

fn create<D: Source>(graph: &Iri, view: &mut Staged<'_, D>) -> Result<(), NoMemory>
    ensures ok { OnOk result (view.new.now ≡ with_name view.old.now (iri_term graph.now)) }
    ensures beneath { view.new.under ≡ view.old.under }
{
    view.add_name(Term::Iri(graph.copy()?))?;
    Ok(())
}

/// Does an operation without a pattern that nothing stands against.
pub(crate) fn perform<D: Source>(
    alloc: Global,
    operation: &Operation,
    view: &mut Staged<'_, D>,
) -> Result<(), NoMemory>
    requires plain { has_pattern operation.now ≡ false }
    requires free { obstacle view.old.now operation.now ≡ None }
    ensures ok { OnOk result (view.new.now ≡ after view.old.now operation.now) }
    ensures beneath { view.new.under ≡ view.old.under }
{
    match operation {
        Operation::InsertData(data) => insert_data(alloc, data, view),
        Operation::DeleteData(data) => remove_all(data.quads(), view),
        Operation::Modify(_) => unreachable!(),
        Operation::Create { graph, .. } => create(graph, view),
        Operation::Clear { graphs, .. } => empty_graphs(graphs, Names::Stay, view),
        Operation::Drop { graphs, .. } => empty_graphs(graphs, Names::Go, view),
        Operation::Copy { from, to, .. } => transfer_graph(alloc, Transfer::Copy, from, to, view),
        Operation::Move { from, to, .. } => transfer_graph(alloc, Transfer::Move, from, to, view),
        Operation::Add { from, to, .. } => transfer_graph(alloc, Transfer::Add, from, to, view),
    }
}
