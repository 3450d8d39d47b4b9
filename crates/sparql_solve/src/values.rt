//! What two mappings have at one column, compared (SPARQL 1.1 Query, section 18.3).
ghost use Rattle.std.specs.Prelude.{◌≡◌, Some, IfOk};
ghost use Rattle.std.specs.Option.{option_copied};
ghost use Rattle.sparql_values.specs.Mapping.{agrees, same_term, same_value};
ghost use Rattle.sparql_algebra.specs.Solutions.{both_have};
ghost use Rattle.sparql_solve.specs.Pairs.{holds};
ghost use Rattle.sparql_solve.specs.Under.{lies};

use rdf_terms::{NoMemory, Term};

/// What may hold of two values at one column.
#[derive(Clone, Copy)]
pub enum Pair {
    /// They aren't two different terms.
    Agree,
    /// The first is nothing or the same as the other.
    Lie,
    /// Not both are terms.
    Apart,
}

/// By the order, which compares texts faster than `==` does.
pub(crate) fn is_same(a: &Term, b: &Term) -> bool
    ensures { result ≡ same_term a.now b.now }
{
    a.cmp(b).is_eq()
}

/// Whether two values aren't two different terms.
pub(crate) fn agree(x: &Option<Term>, y: &Option<Term>) -> bool
    ensures { result ≡ agrees (x.now, y.now) }
{
    match (x, y) {
        (Some(s), Some(t)) => is_same(s, t),
        _ => true,
    }
}

/// Whether the value is no other term.
pub(crate) fn agree_with(value: Option<&Term>, term: &Term) -> bool
    ensures { result ≡ agrees (option_copied value.entry, Some term.now) }
{
    match value {
        Some(own) => is_same(own, term),
        None => true,
    }
}

/// Whether both values are terms.
pub(crate) fn both_have(x: &Option<Term>, y: &Option<Term>) -> bool
    ensures { result ≡ both_have (x.now, y.now) }
{
    x.is_some() && y.is_some()
}

/// Whether the value is nothing or the same as the other.
pub(crate) fn lies(x: &Option<Term>, y: &Option<Term>) -> bool
    ensures { result ≡ lies (x.now, y.now) }
{
    match (x, y) {
        (Some(s), Some(t)) => is_same(s, t),
        (Some(_), None) => false,
        (None, _) => true,
    }
}

/// Whether two values are one term, or both nothing.
pub(crate) fn is_same_value(x: Option<&Term>, y: Option<&Term>) -> bool
    ensures { result ≡ same_value (option_copied x.entry) (option_copied y.entry) }
{
    match (x, y) {
        (Some(s), Some(t)) => is_same(s, t),
        (None, None) => true,
        _ => false,
    }
}

/// A copy of the value.
pub(crate) fn copy_value(value: Option<&Term>) -> Result<Option<Term>, NoMemory>
    ensures { IfOk result (λ copy. copy ≡ option_copied value.entry) }
{
    Ok(match value {
        Some(term) => Some(term.copy()?),
        None => None,
    })
}

/// Whether it holds of a term and what the other mapping has at its column.
pub(crate) fn holds(pair: Pair, term: &Term, other: Option<&Term>) -> bool
    ensures { result ≡ holds pair (Some term.now, option_copied other.entry) }
{
    match (pair, other) {
        (Pair::Agree | Pair::Lie, Some(other)) => is_same(term, other),
        (Pair::Agree | Pair::Apart, None) => true,
        (Pair::Lie, None) | (Pair::Apart, Some(_)) => false,
    }
}
