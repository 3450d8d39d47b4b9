//! The drafts of a request's operations: what they say before the static rules are asked.
ghost use Rattle.std.specs.Prelude.{◌≡◌, ◌&&◌, ◌++◌, [], OnOk, MatchResult, IsTrue, Some, None, map};
ghost use Rattle.std.specs.List.{list_all};
ghost use Rattle.std.specs.Option.{option_copied, option_map};
ghost use Rattle.sparql_drafts.specs.Kept.{Fails, Gives, Tells};
ghost use Rattle.sparql_grammar.specs.Proper as proper;
ghost use Rattle.sparql_grammar.specs.Proper.{holds};
ghost use Rattle.sparql_grammar.specs.QuadGroups.{quads_group};
ghost use Rattle.sparql_syntax.specs.Blanks.{BlankNumbersAreBelow};
ghost use Rattle.sparql_syntax.specs.Meaning as spec;
ghost use Rattle.sparql_trees.specs.declared.operation.Operation.TheVariants as op;

use rdf_terms::{Iri, Items, NoMemory, Vocabulary};
use rdf_tokens::Slice;
use sparql_drafts::{DraftFault, Quads, Scope};
use sparql_grammar::{
    Block, GraphOrDefault as WrittenPlace, GraphRefAll as WrittenGraphs, Modify, Name,
    Operation as Written, Part,
};
use sparql_queries::{pattern_of, quads_pattern_of};
use sparql_trees::{GraphOrDefault, GraphRefAll, Operation, Pattern};
use std::alloc::Global;

/// DELETE/INSERT or DELETE WHERE before its static rules are asked.
#[derive(Drop)]
pub(crate) struct Modification<'a> {
    /// The graph of WITH.
    pub(crate) with: Option<Iri>,
    pub(crate) delete: Quads<'a>,
    pub(crate) insert: Quads<'a>,
    pub(crate) pattern: Pattern,
    /// The blank node labels of each basic graph pattern.
    pub(crate) labels: Items<Items<Slice<'a>>>,
}

/// An operation before its static rules are asked.
#[derive(Drop)]
pub(crate) enum Draft<'a> {
    InsertData(Quads<'a>),
    DeleteData(Quads<'a>),
    Modify(Modification<'a>),
    /// One that no rule speaks of.
    Other(Operation),
}

// Puts a draft behind the others, if there is one.
fn add<'a>(drafts: &mut Items<Draft<'a>>, draft: Option<Draft<'a>>) -> Result<(), NoMemory>
    ensures { OnOk result (drafts.new ≡ drafts.old ++ spec.listed draft.entry) }
{
    if let Some(draft) = draft {
        drafts.push(draft)?;
    }
    Ok(())
}

fn graph_ref_all<'a>(
    scope: &mut Scope<'a>,
    graphs: &WrittenGraphs<'a>,
) -> Result<GraphRefAll, DraftFault>
    requires proper { IsTrue (proper.proper_graph_ref_all graphs.now) }
    ensures tells { Tells (spec.graph_ref_all graphs.now scope.old.prologue) result }
    ensures prologue { scope.new.prologue ≡ scope.old.prologue }
{
    match graphs {
        WrittenGraphs::Graph(name) => Ok(GraphRefAll::Graph(scope.iri(name)?)),
        WrittenGraphs::Default => Ok(GraphRefAll::Default),
        WrittenGraphs::Named => Ok(GraphRefAll::Named),
        WrittenGraphs::All => Ok(GraphRefAll::All),
    }
}

fn graph_or_default<'a>(
    scope: &mut Scope<'a>,
    place: &WrittenPlace<'a>,
) -> Result<GraphOrDefault, DraftFault>
    requires proper { IsTrue (proper.proper_graph_or_default place.now) }
    ensures tells { Tells (spec.graph_or_default place.now scope.old.prologue) result }
    ensures prologue { scope.new.prologue ≡ scope.old.prologue }
{
    match place {
        WrittenPlace::Default => Ok(GraphOrDefault::Default),
        WrittenPlace::Graph(name) => Ok(GraphOrDefault::Graph(scope.iri(name)?)),
    }
}

fn both<'a>(
    scope: &mut Scope<'a>,
    from: &WrittenPlace<'a>,
    to: &WrittenPlace<'a>,
) -> Result<(GraphOrDefault, GraphOrDefault), DraftFault>
    requires proper { let is_proper = proper.proper_graph_or_default in
        IsTrue (is_proper from.now && is_proper to.now) }
    ensures tells { Tells (spec.both from.now to.now scope.old.prologue) result }
    ensures prologue { scope.new.prologue ≡ scope.old.prologue }
{
    let from = graph_or_default(scope, from)?;
    let to = graph_or_default(scope, to)?;
    Ok((from, to))
}

// The graph of WITH, if there is one.
fn with_graph<'a>(scope: &mut Scope<'a>, name: &Option<Name<'a>>) -> Result<Option<Iri>, DraftFault>
    requires proper { IsTrue (proper.proper_graph_name name.now) }
    ensures tells { Tells (spec.with_graph name.now scope.old.prologue) result }
    ensures prologue { scope.new.prologue ≡ scope.old.prologue }
{
    match name {
        Some(name) => Ok(Some(scope.iri(name)?)),
        None => Ok(None),
    }
}

// The template of DELETE, and that of INSERT.
fn templates<'a>(
    scope: &mut Scope<'a>,
    delete: &[Block<'a>],
    insert: &[Block<'a>],
) -> Result<(Quads<'a>, Quads<'a>), DraftFault>
    requires proper { IsTrue (proper.proper_blocks delete.now && proper.proper_blocks insert.now) }
    ensures tells { Tells (spec.templates delete.now insert.now scope.old.prologue) result }
    ensures prologue { scope.new.prologue ≡ scope.old.prologue }
{
    let delete = scope.data(delete)?;
    let insert = scope.data(insert)?;
    Ok((delete, insert))
}

// The draft of DELETE/INSERT.
#[tactic(auto, using(sparql_drafts::proofs::CallerLemmas::then_fails, sparql_drafts::proofs::CallerLemmas::map_fails), unfolding(crate::specs::Meaning::modification))]
fn modify<'a>(
    alloc: Global,
    scope: &mut Scope<'a>,
    written: &Modify<'a>,
) -> Result<Modification<'a>, DraftFault>
    requires proper { IsTrue (proper.proper_modify written.now) }
    ensures tells { let parts = written.now in
        Tells (spec.modification parts.with parts.delete parts.insert parts.group
        scope.old.prologue) result }
    ensures prologue { OnOk result (scope.new.prologue ≡ scope.old.prologue) }
{
    let with = with_graph(scope, &written.with)?;
    let (delete, insert) = templates(scope, written.delete.as_slice(), written.insert.as_slice())?;
    let mut labels = Items::new(alloc);
    let pattern = pattern_of(alloc, scope, &mut labels, &written.group)?;
    Ok(Modification {
        with,
        delete,
        insert,
        pattern,
        labels,
    })
}

// The draft of DELETE WHERE: what is deleted is also the group.
#[tactic(auto, using(sparql_drafts::proofs::CallerLemmas::then_fails, sparql_drafts::proofs::CallerLemmas::map_fails), unfolding(crate::specs::Meaning::modification))]
fn delete_where<'a>(
    alloc: Global,
    scope: &mut Scope<'a>,
    blocks: &[Block<'a>],
) -> Result<Modification<'a>, DraftFault>
    requires proper { IsTrue (proper.proper_blocks blocks.now) }
    ensures tells { Tells (spec.modification None blocks.now [] (quads_group blocks.now)
        scope.old.prologue) result }
    ensures prologue { OnOk result (scope.new.prologue ≡ scope.old.prologue) }
{
    let (delete, insert) = templates(scope, blocks, &[])?;
    let mut labels = Items::new(alloc);
    let pattern = quads_pattern_of(alloc, scope, &mut labels, blocks)?;
    Ok(Modification {
        with: None,
        delete,
        insert,
        pattern,
        labels,
    })
}

fn copy_between(silent: bool, ends: (GraphOrDefault, GraphOrDefault)) -> Operation
    ensures { result ≡ op.Copy silent ends.0 ends.1 }
{
    let (from, to) = ends;
    Operation::Copy { silent, from, to }
}

fn move_between(silent: bool, ends: (GraphOrDefault, GraphOrDefault)) -> Operation
    ensures { result ≡ op.Move silent ends.0 ends.1 }
{
    let (from, to) = ends;
    Operation::Move { silent, from, to }
}

fn add_between(silent: bool, ends: (GraphOrDefault, GraphOrDefault)) -> Operation
    ensures { result ≡ op.Add silent ends.0 ends.1 }
{
    let (from, to) = ends;
    Operation::Add { silent, from, to }
}

// The draft of an operation.
#[tactic(auto, unfolding(crate::specs::Meaning::operation, crate::specs::Known::known_operation, sparql_grammar::specs::Proper::proper_operation))]
fn operation_draft<'a>(
    alloc: Global,
    scope: &mut Scope<'a>,
    operation: &Written<'a>,
) -> Result<Draft<'a>, DraftFault>
    requires proper { IsTrue (proper.proper_operation operation.now) }
    ensures tells { Tells (spec.operation operation.now scope.old.prologue) result }
    ensures prologue { OnOk result (scope.new.prologue ≡ scope.old.prologue) }
{
    let other = match operation {
        Written::InsertData(blocks) => {
            return Ok(Draft::InsertData(scope.data(blocks.as_slice())?));
        }
        Written::DeleteData(blocks) => {
            return Ok(Draft::DeleteData(scope.data(blocks.as_slice())?));
        }
        Written::DeleteWhere(blocks) => {
            return Ok(Draft::Modify(delete_where(alloc, scope, blocks.as_slice())?));
        }
        Written::Modify(written) => return Ok(Draft::Modify(modify(alloc, scope, written)?)),
        Written::Create { silent, graph } => Operation::Create {
            silent: *silent,
            graph: scope.iri(graph)?,
        },
        Written::Clear { silent, graphs } => Operation::Clear {
            silent: *silent,
            graphs: graph_ref_all(scope, graphs)?,
        },
        Written::Drop { silent, graphs } => Operation::Drop {
            silent: *silent,
            graphs: graph_ref_all(scope, graphs)?,
        },
        Written::Copy { silent, from, to } => copy_between(*silent, both(scope, from, to)?),
        Written::Move { silent, from, to } => move_between(*silent, both(scope, from, to)?),
        Written::Add { silent, from, to } => add_between(*silent, both(scope, from, to)?),
    };
    Ok(Draft::Other(other))
}

// The draft of a part: an operation has one, and a declaration is in force from here on.
#[tactic(auto, unfolding(crate::specs::Meaning::part))]
fn part_draft<'a>(
    alloc: Global,
    scope: &mut Scope<'a>,
    part: &Part<'a>,
) -> Result<Option<Draft<'a>>, DraftFault>
    requires proper { IsTrue (proper.proper_part part.now) }
    ensures gives { Gives (spec.part part.now scope.old.prologue) result scope.new.prologue }
{
    match part {
        Part::Declaration(declaration) => {
            scope.declare(declaration)?;
            Ok(None)
        }
        Part::Operation(operation) => Ok(Some(operation_draft(alloc, scope, operation)?)),
    }
}

// The draft of a part, whose tree is then let go.
fn part_taken<'a>(
    alloc: Global,
    scope: &mut Scope<'a>,
    part: Part<'a>,
) -> Result<Option<Draft<'a>>, DraftFault>
    requires proper { IsTrue (proper.proper_part part) }
    ensures gives { Gives (spec.part part.entry scope.old.prologue) result scope.new.prologue }
{
    part_draft(alloc, scope, &part)
}

// Puts the drafts of the parts behind the others.
fn add_all<'a>(
    alloc: Global,
    scope: &mut Scope<'a>,
    drafts: &mut Items<Draft<'a>>,
    parts: Vec<Part<'a>>,
) -> Result<(), DraftFault>
    requires proper { IsTrue (list_all holds (map proper.proper_part parts.items)) }
    ensures { let drafts_behind = spec.drafts_behind drafts.old parts.entry.items in
        let behind = option_map (λ r. r.0) (drafts_behind scope.old.prologue) in
        MatchResult result (λ done. behind ≡ Some drafts.new) (λ fault. Fails behind fault) }
{
    for part in parts {
        let draft = part_taken(alloc, scope, part)?;
        add(drafts, draft)?;
    }
    Ok(())
}

// The drafts of the parts, whose trees are let go.
fn all_drafts<'a>(
    alloc: Global,
    scope: &mut Scope<'a>,
    parts: Vec<Part<'a>>,
) -> Result<Items<Draft<'a>>, DraftFault>
    requires proper { IsTrue (list_all holds (map proper.proper_part parts.items)) }
    ensures { let drafts = spec.drafts parts.entry.items scope.old.prologue in
        Tells (option_map (λ r. r.0) drafts) result }
{
    let mut drafts = Items::new(alloc);
    match add_all(alloc, scope, &mut drafts, parts) {
        Err(fault) => Err(fault),
        Ok(()) => Ok(drafts),
    }
}

/// The drafts of a request's operations in order: names have their IRIs, and blank nodes are numbered
/// from 0 in the data of each operation, by their places in the text (SPARQL 1.1 Update, section 3).
///
/// # Errors
/// [`DraftFault::NoIri`] where a name has no IRI; [`DraftFault::NoMemory`] where memory is wanting.
pub(crate) fn drafts_of<'a>(
    alloc: Global,
    vocabulary: &Vocabulary,
    base: Option<&Iri>,
    parts: Vec<Part<'a>>,
) -> Result<Items<Draft<'a>>, DraftFault>
    requires { IsTrue (list_all holds (map proper.proper_part parts.items)) }
    ensures { Tells (spec.drafts_of (option_copied base.entry) parts.entry.items) result }
{
    let mut scope = Scope::new(alloc, vocabulary, base)?;
    let drafts = all_drafts(alloc, &mut scope, parts);
    // (Let go in one call, which is proved sooner.)
    drop(scope);
    drafts
}

/// The data of each operation has blank nodes of its own, whose numbers are just those below their
/// count.
pub fn blank_numbers_are_below()
    ensures { BlankNumbersAreBelow }
{}
