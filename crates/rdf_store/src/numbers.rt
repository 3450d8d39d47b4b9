//! The numbers of terms, graphs and quads in a table, and the quads that numbers stand for.
ghost use Rattle.std.specs.Prelude.{◌≡◌, ℕ, [], All, IsOk, IfOk, IfNone, IfSome, OnOk, OnErr};
ghost use Rattle.rdf_terms.specs.Table.{IsIdOf};
ghost use Rattle.rdf_orders.specs.Quads.{IdQuad, quad_of};
ghost use Rattle.rdf_store.specs.Inside.Numbers.{IsGraphNumber, AreNumbersOf, AppendsKey, IsGrown, AreKeys, AreIds, HasTerms, parts_of, graph_at, term_at};

use rdf_orders::Key;
use rdf_terms::{GraphName, NoMemory, Quad, Term, TermId, TermTable, terms_are_held_once};
use std::alloc::Global;

/// The default graph's number. That of a graph with a name is one more than its name's.
pub(crate) const DEFAULT: u64 = 0;

/// The least number of a graph with a name.
pub(crate) const FIRST_NAMED: u64 = 1;

/// The number of a term, where the table holds it.
pub(crate) fn find_term(table: &TermTable, term: &Term) -> Option<u64>
    ensures found { IfSome result (λ id. IsIdOf table.now id term.now) }
    ensures absent { IfNone result ((id : ℕ) → ¬ IsIdOf table.now id term.now) }
{
    match table.find(term) {
        Some(id) => Some(id.0),
        None => None,
    }
}

/// The number of a graph, where the table holds its name.
pub(crate) fn find_graph(table: &TermTable, graph: &GraphName) -> Option<u64>
    ensures found { IfSome result (λ id. IsGraphNumber table.now id graph.now) }
    ensures absent { IfNone result ((id : ℕ) → ¬ IsGraphNumber table.now id graph.now) }
{
    terms_are_held_once(table);
    match graph {
        GraphName::Default => Some(DEFAULT),
        GraphName::Named(name) => {
            let number = find_term(table, name)?;
            Some(number + 1)
        }
    }
}

/// The key in `Spo` of a quad, where the table holds its terms.
pub(crate) fn find_quad(table: &TermTable, quad: &Quad) -> Option<Key>
    ensures found { IfSome result (λ key. AreNumbersOf table.now (quad_of key) quad.now) }
    ensures absent { IfNone result ((k : IdQuad) → ¬ AreNumbersOf table.now k quad.now) }
{
    let graph = find_graph(table, quad.graph())?;
    let subject = find_term(table, quad.subject())?;
    let predicate = find_term(table, quad.predicate())?;
    let object = find_term(table, quad.object())?;
    Some([graph, subject, predicate, object])
}

/// The number of a term, which the table keeps if it is new. A copy of a term shares its text, so it is
/// looked for once.
pub(crate) fn number_term(table: &mut TermTable, term: &Term) -> Result<u64, NoMemory>
    ensures number { IfOk result (λ id. IsIdOf table.new id term.now) }
    ensures grown { IsGrown table.old table.new }
{
    let term = term.copy()?;
    let id = table.intern(term)?;
    Ok(id.0)
}

// The number of a term, which is that of a known one where the two are equal.
fn number_like(table: &mut TermTable, known: u64, term: &Term) -> Result<u64, NoMemory>
    requires { IsIdOf table.old known (term_at table.old known) }
    ensures number { IfOk result (λ id. IsIdOf table.new id term.now) }
    ensures grown { IsGrown table.old table.new }
{
    if *table.term(TermId(known)) == *term {
        return Ok(known);
    }
    number_term(table, term)
}

/// The number of a graph, whose name the table keeps if it is new.
pub(crate) fn number_graph(table: &mut TermTable, graph: &GraphName) -> Result<u64, NoMemory>
    ensures number { IfOk result (λ id. IsGraphNumber table.new id graph.now) }
    ensures grown { IsGrown table.old table.new }
{
    let GraphName::Named(name) = graph else {
        return Ok(DEFAULT);
    };
    let number = number_term(table, name)?;
    terms_are_held_once(table);
    Ok(number + 1)
}

// The number of a graph, which is that of a known one where the two are equal.
fn number_like_graph(table: &mut TermTable, known: u64, graph: &GraphName) -> Result<u64, NoMemory>
    requires { IsGraphNumber table.old known (graph_at table.old known) }
    ensures number { IfOk result (λ id. IsGraphNumber table.new id graph.now) }
    ensures grown { IsGrown table.old table.new }
{
    let Some(known) = known.checked_sub(1) else {
        return number_graph(table, graph);
    };
    let GraphName::Named(name) = graph else {
        return Ok(DEFAULT);
    };
    let found = number_like(table, known, name)?;
    terms_are_held_once(table);
    Ok(found + 1)
}

/// The key in `Spo` of a quad, of whose terms the table keeps the new ones.
pub(crate) fn number_quad(table: &mut TermTable, quad: &Quad) -> Result<Key, NoMemory>
    ensures number { IfOk result (λ key. AreNumbersOf table.new (quad_of key) quad.now) }
    ensures grown { IsGrown table.old table.new }
{
    let graph = number_graph(table, quad.graph())?;
    let subject = number_term(table, quad.subject())?;
    let predicate = number_term(table, quad.predicate())?;
    let object = number_term(table, quad.object())?;
    Ok([graph, subject, predicate, object])
}

// The key in `Spo` of a quad that stands behind the one with the key `before`. Neighbours often have
// one graph, subject or predicate, which isn't looked for again then.
fn number_behind(table: &mut TermTable, before: &Key, quad: &Quad) -> Result<Key, NoMemory>
    requires { HasTerms table.old (quad_of before.now) }
    ensures number { IfOk result (λ key. AreNumbersOf table.new (quad_of key) quad.now) }
    ensures grown { IsGrown table.old table.new }
{
    let graph = number_like_graph(table, before[0], quad.graph())?;
    let subject = number_like(table, before[1], quad.subject())?;
    let predicate = number_like(table, before[2], quad.predicate())?;
    let object = number_term(table, quad.object())?;
    Ok([graph, subject, predicate, object])
}

// The key in `Spo` of a quad that stands behind others or is the first.
fn number_next(table: &mut TermTable, keys: &[Key], quad: &Quad) -> Result<Key, NoMemory>
    requires { All (λ key. HasTerms table.old (quad_of key)) keys.now }
    ensures number { IfOk result (λ key. AreNumbersOf table.new (quad_of key) quad.now) }
    ensures grown { IsGrown table.old table.new }
{
    match keys.last() {
        Some(before) => number_behind(table, before, quad),
        None => number_quad(table, quad),
    }
}

/// Puts the key in `Spo` of a quad behind others, whose terms the table has. It keeps those of the
/// quad that are new.
pub(crate) fn append_key(
    table: &mut TermTable,
    keys: &mut Vec<Key>,
    quad: &Quad,
) -> Result<(), NoMemory>
    requires { All (λ key. HasTerms table.old (quad_of key)) keys.old.items }
    ensures ok { OnOk result (AppendsKey table.new keys.old.items keys.new.items quad.now) }
    ensures err { OnErr result (keys.new.items ≡ keys.old.items) }
    ensures grown { IsGrown table.old table.new }
{
    let key = number_next(table, keys, quad)?;
    keys.push(key)?;
    Ok(())
}

/// The keys in `Spo` of quads. Where there are none it takes no memory.
pub(crate) fn number_quads(
    alloc: Global,
    table: &mut TermTable,
    quads: &[Quad],
) -> Result<Vec<Key>, NoMemory>
    ensures numbers { IfOk result (λ keys. AreKeys table.new keys.items quads.now) }
    ensures grown { IsGrown table.old table.new }
    ensures free { quads.now ≡ [] → IsOk result }
{
    let mut keys = Vec::new(alloc);
    for quad in quads {
        append_key(table, &mut keys, quad)?;
    }
    Ok(keys)
}

/// The numbers of terms. Where there are none it takes no memory.
pub(crate) fn number_terms(
    alloc: Global,
    table: &mut TermTable,
    terms: &[Term],
) -> Result<Vec<u64>, NoMemory>
    ensures numbers { IfOk result (λ numbers. AreIds table.new numbers.items terms.now) }
    ensures grown { IsGrown table.old table.new }
    ensures free { terms.now ≡ [] → IsOk result }
{
    let mut numbers = Vec::new(alloc);
    for term in terms {
        let number = number_term(table, term)?;
        numbers.push(number)?;
    }
    Ok(numbers)
}

// The graph that has a number.
#[inline(always)]
fn graph_of(table: &TermTable, number: u64) -> Result<GraphName, NoMemory>
    requires { IsGraphNumber table.now number (graph_at table.now number) }
    ensures { IfOk result (λ graph. graph ≡ graph_at table.now number) }
{
    match number.checked_sub(1) {
        Some(name) => Ok(GraphName::Named(term_of(table, name)?)),
        None => Ok(GraphName::Default),
    }
}

// The term that has a number.
#[inline(always)]
fn term_of(table: &TermTable, number: u64) -> Result<Term, NoMemory>
    requires { IsIdOf table.now number (term_at table.now number) }
    ensures { IfOk result (λ term. term ≡ term_at table.now number) }
{
    table.term(TermId(number)).copy()
}

// The terms that have two numbers.
#[inline(always)]
fn terms_of(table: &TermTable, first: u64, second: u64) -> Result<(Term, Term), NoMemory>
    requires first { IsIdOf table.now first (term_at table.now first) }
    requires second { IsIdOf table.now second (term_at table.now second) }
    ensures { IfOk result (λ both. both ≡ (term_at table.now first, term_at table.now second)) }
{
    let first = term_of(table, first)?;
    let second = term_of(table, second)?;
    Ok((first, second))
}

/// The quad that has a key in `Spo`.
#[inline(always)]
pub(crate) fn quad_from(table: &TermTable, key: &Key) -> Result<Quad, NoMemory>
    requires { HasTerms table.now (quad_of key.now) }
    ensures { IfOk result (λ quad. quad ≡ parts_of table.now key.now) }
{
    let graph = graph_of(table, key[0])?;
    let subject = term_of(table, key[1])?;
    let (predicate, object) = terms_of(table, key[2], key[3])?;
    match Quad::new(graph, subject, predicate, object) {
        Some(quad) => Ok(quad),
        None => unreachable!(),
    }
}
