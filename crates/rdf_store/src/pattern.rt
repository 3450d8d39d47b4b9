//! What a look-up wants, by the numbers of its terms.
ghost use Rattle.std.specs.Prelude.{◌≡◌, IsTrue, IfNone, IfSome, option_copied};
ghost use Rattle.rdf_orders.specs.Quads as ids;
ghost use Rattle.rdf_orders.specs.Quads.{IdQuad};
ghost use Rattle.rdf_terms.specs.Quad.{QuadParts};
ghost use Rattle.rdf_store.specs.Stored.{matches};
ghost use Rattle.rdf_store.specs.Inside.Numbers.{AreNumbersOf, WantsSame, WantsNone, WantsSameGraph, WantsNoGraph};

use crate::numbers::{find_graph, find_term};
use rdf_terms::{GraphName, Term, TermTable, terms_are_held_once};

/// The numbers of a graph and of the terms of the bound places.
#[derive(Drop)]
pub(crate) struct Pattern {
    pub(crate) graph: u64,
    pub(crate) subject: Option<u64>,
    pub(crate) predicate: Option<u64>,
    pub(crate) object: Option<u64>,
}

// The number that a graph wants, where some graph has it.
fn wanted_graph(table: &TermTable, graph: &GraphName) -> Option<u64>
    ensures found { IfSome result (λ number. WantsSameGraph table.now number graph.now) }
    ensures absent { IfNone result (WantsNoGraph table.now graph.now) }
{
    terms_are_held_once(table);
    find_graph(table, graph)
}

// The number that a place wants, if it is bound, where the table holds its term.
fn wanted(table: &TermTable, place: Option<&Term>) -> Option<Option<u64>>
    ensures found { IfSome result (λ number.
        WantsSame table.now number (option_copied place.entry)) }
    ensures absent { IfNone result (WantsNone table.now (option_copied place.entry)) }
{
    terms_are_held_once(table);
    let Some(term) = place else {
        return Some(None);
    };
    let number = find_term(table, term)?;
    Some(Some(number))
}

/// What is wanted, by numbers, or `None` where no quad of terms of the table matches.
pub(crate) fn pattern_of(
    table: &TermTable,
    graph: &GraphName,
    subject: Option<&Term>,
    predicate: Option<&Term>,
    object: Option<&Term>,
) -> Option<Pattern>
    ensures found { IfSome result (λ p. (k : IdQuad) (q : QuadParts) → AreNumbersOf table.now k q →
        ids.matches p.graph p.subject p.predicate p.object k ≡ matches graph.now
        (option_copied subject.entry) (option_copied predicate.entry)
        (option_copied object.entry) q) }
    ensures absent { IfNone result ((k : IdQuad) (q : QuadParts) → AreNumbersOf table.now k q →
        ¬ IsTrue (matches graph.now (option_copied subject.entry)
        (option_copied predicate.entry) (option_copied object.entry) q)) }
{
    let graph = wanted_graph(table, graph)?;
    let subject = wanted(table, subject)?;
    let predicate = wanted(table, predicate)?;
    let object = wanted(table, object)?;
    Some(Pattern {
        graph,
        subject,
        predicate,
        object,
    })
}
