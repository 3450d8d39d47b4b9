//! The terms and quads that the small numbers tell. Their blank nodes have numbers below 4.
ghost use Rattle.std.specs.Prelude.{ℕ, ◌≤◌, IsTrue, IfSome};
ghost use Rattle.rdf_terms.specs.Quad.{may_name_graph};
ghost use Rattle.rdf_terms.specs.declared.quad.GraphName.TheVariants.{Named as named};
ghost use Rattle.rdf_dataset.specs.State.{IsTermBelow, IsGraphBelow, IsQuadBelow};

use crate::keys::Key;
use rdf_terms::{GraphName, Iri, Literal, Quad, Term};
use std::alloc::Global;

fn iri(alloc: Global, text: &str) -> Option<Term>
    ensures right { IfSome result (λ t. IsTrue (may_name_graph (named t))) }
    ensures below { IfSome result (λ t. (next : ℕ) → 4 ≤ next → IsTermBelow next t) }
{
    match Iri::new(alloc, text) {
        Ok(iri) => Some(Term::Iri(iri)),
        Err(_) => None,
    }
}

fn literal(alloc: Global) -> Option<Term>
    ensures { IfSome result (λ t. (next : ℕ) → 4 ≤ next → IsTermBelow next t) }
{
    match Literal::tagged(alloc, "x", "en") {
        Ok(Some(literal)) => Some(Term::Literal(literal)),
        _ => None,
    }
}

/// The name of a graph.
pub fn name(alloc: Global, number: u8) -> Option<Term>
    ensures right { IfSome result (λ t. IsTrue (may_name_graph (named t))) }
    ensures below { IfSome result (λ t. (next : ℕ) → 4 ≤ next → IsTermBelow next t) }
{
    match number {
        1 => iri(alloc, "a:g"),
        2 => Some(Term::Blank(3)),
        _ => iri(alloc, "a:h"),
    }
}

fn graph(alloc: Global, number: u8) -> Option<GraphName>
    ensures { IfSome result (λ g. (next : ℕ) → 4 ≤ next → IsGraphBelow next g) }
{
    if number == 0 {
        return Some(GraphName::Default);
    }
    match name(alloc, number) {
        Some(name) => Some(GraphName::Named(name)),
        None => None,
    }
}

fn predicate(alloc: Global, number: u8) -> Option<Term>
    ensures { IfSome result (λ t. (next : ℕ) → 4 ≤ next → IsTermBelow next t) }
{
    match number {
        0 => iri(alloc, "a:p"),
        _ => iri(alloc, "a:q"),
    }
}

fn node(alloc: Global, number: u8) -> Option<Term>
    ensures { IfSome result (λ t. (next : ℕ) → 4 ≤ next → IsTermBelow next t) }
{
    match number {
        0 => Some(Term::Blank(0)),
        1 => iri(alloc, "a:s"),
        _ => literal(alloc),
    }
}

/// The quad that the numbers tell.
pub fn quad(alloc: Global, key: Key) -> Option<Quad>
    ensures { IfSome result (λ q. (next : ℕ) → 4 ≤ next → IsQuadBelow next q) }
{
    let graph = graph(alloc, key.graph)?;
    let subject = node(alloc, key.subject)?;
    let predicate = predicate(alloc, key.predicate)?;
    let object = node(alloc, key.object)?;
    Quad::new(graph, subject, predicate, object)
}
