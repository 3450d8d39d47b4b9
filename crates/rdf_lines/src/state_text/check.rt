//! Whether parts are those of a sound state, each once and in order.
ghost use Rattle.std.specs.Prelude.{◌≡◌, None};
ghost use Rattle.std.specs.List.{list_all};
ghost use Rattle.rdf_lines.specs.Inside.StateListing as listing;

use super::StateText;
use rdf_terms::{GraphName, Quad, Term, compare_terms};
use std::cmp::Ordering;

/// The counter of blank nodes goes no further.
const LAST_NUMBER: u64 = 1_000_000_000_000_000_000;

fn is_term_below(next: u64, term: &Term) -> bool
    ensures { result ≡ listing.is_term_below next term.now }
{
    match term {
        Term::Blank(number) => *number < next,
        _ => true,
    }
}

fn is_graph_below(next: u64, graph: &GraphName) -> bool
    ensures { result ≡ listing.is_graph_below next graph.now }
{
    match graph {
        GraphName::Default => true,
        GraphName::Named(name) => is_term_below(next, name),
    }
}

fn is_quad_below(next: u64, quad: &Quad) -> bool
    ensures { result ≡ listing.is_quad_below next quad.now }
{
    is_graph_below(next, quad.graph())
        && is_term_below(next, quad.subject())
        && is_term_below(next, quad.predicate())
        && is_term_below(next, quad.object())
}

fn names_are_below(next: u64, names: &[Term]) -> bool
    ensures { result ≡ list_all (listing.is_term_below next) names.now }
{
    names.iter().all(|name| is_term_below(next, name))
}

fn quads_are_below(next: u64, quads: &[Quad]) -> bool
    ensures { result ≡ list_all (listing.is_quad_below next) quads.now }
{
    quads.iter().all(|quad| is_quad_below(next, quad))
}

// Whether each item is greater than the one before it.
fn rises<T: Ord>(items: &[T]) -> bool
    ensures { result ≡ listing.rises T.cmp None items.now }
{
    let mut last: Option<&T> = None;
    for item in items {
        if let Some(less) = last {
            if less.cmp(item) != Ordering::Less {
                return false;
            }
        }
        last = Some(item);
    }
    true
}

// The names from the first on that isn't less than this one.
fn names_from<'a>(names: &'a [Term], name: &Term) -> &'a [Term]
    ensures { result.now ≡ listing.names_from name.now names.now }
{
    let mut rest = names;
    while let Some((first, more)) = rest.split_first() {
        if compare_terms(first, name) != Ordering::Less {
            return rest;
        }
        rest = more;
    }
    rest
}

// Whether the name is the first of these.
fn is_first(names: &[Term], name: &Term) -> bool
    ensures { result ≡ listing.is_first name.now names.now }
{
    match names.first() {
        Some(first) => compare_terms(first, name) == Ordering::Equal,
        None => false,
    }
}

// Whether each graph that has a quad has its name, where both lists are in order. It walks along
// both once.
fn are_named(names: &[Term], quads: &[Quad]) -> bool
    ensures { result ≡ listing.are_named names.now quads.now }
{
    let mut rest = names;
    for quad in quads {
        if let GraphName::Named(name) = quad.graph() {
            rest = names_from(rest, name);
            if !is_first(rest, name) {
                return false;
            }
        }
    }
    true
}

fn both_rise(names: &[Term], quads: &[Quad]) -> bool
    ensures { result ≡ listing.both_rise names.now quads.now }
{
    rises(names) && rises(quads)
}

fn are_below(next: u64, names: &[Term], quads: &[Quad]) -> bool
    ensures { result ≡ listing.are_below next names.now quads.now }
{
    names_are_below(next, names) && quads_are_below(next, quads)
}

/// Whether they are.
pub fn is_sound(state: &StateText) -> bool
    ensures { result ≡ listing.is_sound state.now.next
        state.now.names.items state.now.quads.items }
{
    state.next <= LAST_NUMBER
        && both_rise(&state.names, &state.quads)
        && are_below(state.next, &state.names, &state.quads)
        && are_named(&state.names, &state.quads)
}
