//! The pattern that quads are (SPARQL 1.1 Update, section 3.1.3.3).
ghost use Rattle.std.specs.Prelude.{◌≡◌, OnOk, IsTrue, map};
ghost use Rattle.std.specs.List.{list_all};
ghost use Rattle.sparql_drafts.specs.Kept.{Gives};
ghost use Rattle.sparql_grammar.specs.GroupReading.{together};
ghost use Rattle.sparql_grammar.specs.Proper as proper;
ghost use Rattle.sparql_grammar.specs.Proper.{holds};
ghost use Rattle.sparql_grammar.specs.QuadGroups.{members_by, quads_group};
ghost use Rattle.sparql_queries.specs.Collected.{collected_behind};
ghost use Rattle.sparql_queries.specs.Groups as spec;

use crate::group::{basic, named};
use rdf_terms::Items;
use rdf_tokens::Slice;
use sparql_drafts::{DraftFault, Scope};
use sparql_grammar::{Block, Triples};
use sparql_trees::{Member, Pattern};
use std::alloc::Global;

// These members, and behind them the triples that stand together, if there are any.
fn with_triples<'a>(
    alloc: Global,
    scope: &mut Scope<'a>,
    labels: &mut Items<Items<Slice<'a>>>,
    mut members: Items<Member>,
    triples: &[Triples<'a>],
) -> Result<Items<Member>, DraftFault>
    requires proper { IsTrue (list_all holds (map proper.proper_triples triples.now)) }
    ensures gives { let says = map (spec.member_in scope.old.prologue) (together triples.now) in
        Gives (collected_behind members says labels.old) result labels.new }
    ensures prologue { scope.new.prologue ≡ scope.old.prologue }
{
    if triples.is_empty() {
        return Ok(members);
    }
    let pattern = basic(alloc, scope, labels, triples)?;
    members.push(Member::Basic(pattern))?;
    Ok(members)
}

// These members, and behind them what a block says.
fn with_block<'a>(
    alloc: Global,
    scope: &mut Scope<'a>,
    labels: &mut Items<Items<Slice<'a>>>,
    mut members: Items<Member>,
    block: &Block<'a>,
) -> Result<Items<Member>, DraftFault>
    requires proper { IsTrue (proper.proper_block block.now) }
    ensures gives { let says = map (spec.member_in scope.old.prologue)
        (members_by block.now.graph block.now.triples) in
        Gives (collected_behind members says labels.old) result labels.new }
    ensures prologue { scope.new.prologue ≡ scope.old.prologue }
{
    match &block.graph {
        None => with_triples(alloc, scope, labels, members, block.triples.as_slice()),
        Some(name) => {
            let name = named(alloc, scope, name)?;
            let empty = Items::new(alloc);
            let inside = with_triples(alloc, scope, labels, empty, block.triples.as_slice())?;
            let pattern = Pattern {
                members: inside,
                filters: Items::new(alloc),
            };
            members.push(Member::Graph(name, pattern))?;
            Ok(members)
        }
    }
}

/// The pattern that quads are: that of the group of the same text (SPARQL 1.1 Update, section
/// 3.1.3.3), as [`pattern_of`](crate::pattern_of) gives it.
///
/// # Errors
/// [`DraftFault::NoIri`] where a name has no IRI; [`DraftFault::NoMemory`] where memory is wanting.
pub fn quads_pattern_of<'a>(
    alloc: Global,
    scope: &mut Scope<'a>,
    labels: &mut Items<Items<Slice<'a>>>,
    blocks: &[Block<'a>],
) -> Result<Pattern, DraftFault>
    requires proper { IsTrue (list_all holds (map proper.proper_block blocks.now)) }
    ensures gives { let says = spec.group scope.old.prologue (quads_group blocks.now) in
        Gives (says labels.old) result labels.new }
    ensures prologue { OnOk result (scope.new.prologue ≡ scope.old.prologue) }
{
    let mut members = Items::new(alloc);
    for block in blocks {
        members = with_block(alloc, scope, labels, members, block)?;
    }
    Ok(Pattern {
        members,
        filters: Items::new(alloc),
    })
}
