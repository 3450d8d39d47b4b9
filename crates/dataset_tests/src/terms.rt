//! Terms and quads by their texts: `_:N`, of which N is below 4, `<IRI>`, `"TEXT"`, and of a graph `default`.
ghost use Rattle.std.specs.Prelude.{◌≡◌, ℕ, ◌≤◌, IfSome};
ghost use Rattle.rdf_dataset.specs.State.{IsTermBelow, IsGraphBelow, IsQuadBelow};

use rdf_terms::{GraphName, Iri, Literal, Quad, Term};
use std::alloc::Global;

/// A counter from which on each term here has its number.
pub(crate) const NUMBERS: u64 = 4;

/// The texts of a quad's places.
#[derive(Clone, Copy)]
pub(crate) struct Places<'a> {
    pub(crate) graph: &'a str,
    pub(crate) subject: &'a str,
    pub(crate) predicate: &'a str,
    pub(crate) object: &'a str,
}

/// The places of a text `GRAPH SUBJECT PREDICATE OBJECT`.
pub(crate) fn places_of(text: &str) -> Option<Places<'_>> {
    let mut words = text.split(' ');
    Some(Places {
        graph: words.next()?,
        subject: words.next()?,
        predicate: words.next()?,
        object: words.next()?,
    })
}

pub(crate) fn term(alloc: Global, text: &str) -> Option<Term>
    ensures { IfSome result (λ t. (next : ℕ) → 4 ≤ next → IsTermBelow next t) }
{
    if let Some(number) = text.strip_prefix("_:") {
        return blank(number);
    }
    if let Some(text) = text.strip_prefix('"') {
        return literal(alloc, text);
    }
    iri(alloc, text)
}

fn blank(number: &str) -> Option<Term>
    ensures { IfSome result (λ t. (next : ℕ) → 4 ≤ next → IsTermBelow next t) }
{
    match number.parse::<u64>() {
        Ok(number) => Some(Term::Blank(number % 4)),
        Err(_) => None,
    }
}

fn iri(alloc: Global, text: &str) -> Option<Term>
    ensures { IfSome result (λ t. (next : ℕ) → IsTermBelow next t) }
{
    let text = text.trim_start_matches('<').trim_end_matches('>');
    match Iri::new(alloc, text) {
        Ok(iri) => Some(Term::Iri(iri)),
        Err(_) => None,
    }
}

fn literal(alloc: Global, text: &str) -> Option<Term>
    ensures { IfSome result (λ t. (next : ℕ) → IsTermBelow next t) }
{
    let datatype = Iri::new(alloc, "http://www.w3.org/2001/XMLSchema#string").ok()?;
    match Literal::new(alloc, text.trim_end_matches('"'), datatype) {
        Ok(literal) => Some(Term::Literal(literal)),
        Err(_) => None,
    }
}

pub(crate) fn graph(alloc: Global, text: &str) -> Option<GraphName>
    ensures { IfSome result (λ g. (next : ℕ) → 4 ≤ next → IsGraphBelow next g) }
{
    if text == "default" {
        return Some(GraphName::Default);
    }
    match term(alloc, text) {
        Some(name) => Some(GraphName::Named(name)),
        None => None,
    }
}

/// The quad of a text `GRAPH SUBJECT PREDICATE OBJECT`.
pub(crate) fn quad(alloc: Global, text: &str) -> Option<Quad>
    ensures { IfSome result (λ q. (next : ℕ) → 4 ≤ next → IsQuadBelow next q) }
{
    let places = places_of(text)?;
    match graph(alloc, places.graph) {
        Some(graph) => match term(alloc, places.subject) {
            Some(subject) => quad_of(alloc, graph, subject, places),
            None => None,
        },
        None => None,
    }
}

// The quad in this graph and of this subject.
fn quad_of(alloc: Global, graph: GraphName, subject: Term, places: Places<'_>) -> Option<Quad>
    requires graph { (next : ℕ) → 4 ≤ next → IsGraphBelow next graph }
    requires subject { (next : ℕ) → 4 ≤ next → IsTermBelow next subject }
    ensures { IfSome result (λ q. (next : ℕ) → 4 ≤ next → IsQuadBelow next q) }
{
    match term(alloc, places.predicate) {
        Some(predicate) => match term(alloc, places.object) {
            Some(object) => Quad::new(graph, subject, predicate, object),
            None => None,
        },
        None => None,
    }
}
