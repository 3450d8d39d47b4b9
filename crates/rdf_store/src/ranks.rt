//! Quads in order: they are sorted by the ranks of their terms, so that terms are compared once for
//! all the quads that have them.
ghost use Rattle.std.specs.Prelude.{◌≡◌, ◌≤◌, ◌<◌, List, All, length, map, IfOk, IfSome, IsSorted, IsPermutation};
ghost use Rattle.rdf_terms.specs.declared.term.Term.{Term};
ghost use Rattle.std.specs.List.Sorted.{IsStrictlySortedBy};
ghost use Rattle.rdf_terms.specs.Order.{quad_cmp, term_cmp};
ghost use Rattle.rdf_terms.specs.Table.{IsIdOf, AreHeldOnce};
ghost use Rattle.rdf_orders.specs.Quads.{quad_of};
ghost use Rattle.rdf_store.specs.Inside.Numbers.{IsGraphNumber, HasTerms, graph_at, parts_of, term_at};
ghost use Rattle.rdf_store.specs.Inside.Ranks.{AreNumbered, AreRanked, HasRanks, StandsAt, parts_ranked, terms_in};

use crate::look_ups::append_tree;
use rdf_orders::{Key, KeyTree};
use rdf_terms::{GraphName, NoMemory, Quad, Term, TermId, TermTable, terms_are_held_once};
use std::alloc::Global;

/// A term, and its number in a table.
#[derive(PartialEq, Eq, PartialOrd, Ord, Drop)]
struct Numbered<'t> {
    term: &'t Term,
    number: u64,
}

/// A quad by the ranks of its graph, its subject and its predicate, and by its object. The default
/// graph has rank 0, a named one the rank of its name and one more.
#[derive(PartialEq, Eq, PartialOrd, Ord, Drop)]
struct Ranked<'t> {
    graph: usize,
    subject: usize,
    predicate: usize,
    object: &'t Term,
}

/// Terms, and where the term of a number stands among them, which is its rank once they are sorted.
#[derive(Drop)]
struct Ranks<'t> {
    terms: Vec<Numbered<'t>>,
    places: Vec<usize>,
}

// Notes a place under a number, and 0 under those before it that have none.
fn note(places: &mut Vec<usize>, number: usize, place: usize) -> Result<(), NoMemory> {
    for _ in places.len()..number {
        places.push(0)?;
    }
    match places.get_mut(number) {
        Some(noted) => *noted = place,
        None => places.push(place)?,
    }
    Ok(())
}

// Notes the place of each term under its number.
fn note_places(terms: &[Numbered<'_>], places: &mut [usize]) {
    for (place, term) in terms.iter().enumerate() {
        if let Some(noted) = places.get_mut(term.number as usize) {
            *noted = place;
        }
    }
}

impl<'t> Ranks<'t> {
    // No terms.
    fn new(alloc: Global) -> Ranks<'t>
        ensures { (table : List Term) → AreNumbered table result.terms.items }
    {
        Ranks {
            terms: Vec::new(alloc),
            places: Vec::new(alloc),
        }
    }

    // The place of the term that has the number, if it is there.
    fn place(&self, number: u64) -> Option<usize>
        ensures { IfSome result (λ place. StandsAt self.now.terms.items place number) }
    {
        let place = *self.places.get(number as usize)?;
        let found = self.terms.get(place)?;
        if found.number == number {
            Some(place)
        } else {
            None
        }
    }

    // Adds the term that has the number, unless it is there.
    fn add(&mut self, table: &'t TermTable, number: u64) -> Result<(), NoMemory>
        requires held { IsIdOf table.now number (term_at table.now number) }
        requires numbered { AreNumbered table.now self.old.terms.items }
        ensures { AreNumbered table.now self.new.terms.items }
    {
        if self.place(number).is_some() {
            return Ok(());
        }
        note(&mut self.places, number as usize, self.terms.len())?;
        self.terms.push(Numbered {
            term: table.term(TermId(number)),
            number,
        })?;
        Ok(())
    }

    // Adds the graph's name, the subject and the predicate of the quad that has the key.
    fn add_front(&mut self, table: &'t TermTable, key: &Key) -> Result<(), NoMemory>
        requires terms { HasTerms table.now (quad_of key.now) }
        requires numbered { AreNumbered table.now self.old.terms.items }
        ensures { AreNumbered table.now self.new.terms.items }
    {
        if let Some(name) = key[0].checked_sub(1) {
            self.add(table, name)?;
        }
        self.add(table, key[1])?;
        self.add(table, key[2])
    }

    // Brings the terms in order.
    fn sort(&mut self)
        ensures { (table : List Term) → AreHeldOnce table →
            AreNumbered table self.old.terms.items → AreRanked table self.new.terms.items }
    {
        self.terms.sort_unstable();
        self.terms.dedup();
        note_places(&self.terms, &mut self.places);
    }

    // The graphs' names, the subjects and the predicates of the quads that have the keys, in order.
    fn of_fronts(alloc: Global, table: &'t TermTable, keys: &KeyTree) -> Result<Ranks<'t>, NoMemory>
        requires { All (λ key. HasTerms table.now (quad_of key)) keys.now.keys }
        ensures { IfOk result (λ ranks. AreRanked table.now ranks.terms.items) }
    {
        let mut ranks = Ranks::new(alloc);
        for key in keys.iter() {
            ranks.add_front(table, &key)?;
        }
        terms_are_held_once(table);
        ranks.sort();
        Ok(ranks)
    }

    // The rank of the graph that has the number, if its name is there.
    fn rank_graph(&self, table: &TermTable, number: u64) -> Option<usize>
        requires graph { IsGraphNumber table.now number (graph_at table.now number) }
        requires numbered { AreNumbered table.now self.now.terms.items }
        ensures within { IfSome result (λ rank. rank ≤ length (terms_in self.now.terms.items)) }
        ensures is { IfSome result (λ rank.
            graph_at (terms_in self.now.terms.items) rank ≡ graph_at table.now number) }
    {
        let Some(name) = number.checked_sub(1) else {
            return Some(0);
        };
        let place = self.place(name)?;
        Some(place + 1)
    }

    // The rank of the term that has the number, if it is there.
    fn rank(&self, table: &TermTable, number: u64) -> Option<usize>
        requires held { IsIdOf table.now number (term_at table.now number) }
        requires numbered { AreNumbered table.now self.now.terms.items }
        ensures within { IfSome result (λ rank. rank < length (terms_in self.now.terms.items)) }
        ensures is { IfSome result (λ rank.
            term_at (terms_in self.now.terms.items) rank ≡ term_at table.now number) }
    {
        self.place(number)
    }

    // The quad that has the key, by its ranks, if its terms are there.
    fn ranked(&self, table: &'t TermTable, key: &Key) -> Option<Ranked<'t>>
        requires terms { HasTerms table.now (quad_of key.now) }
        requires numbered { AreNumbered table.now self.now.terms.items }
        ensures has { IfSome result (HasRanks (terms_in self.now.terms.items)) }
        ensures is { IfSome result (λ ranked.
            parts_ranked (terms_in self.now.terms.items) ranked ≡ parts_of table.now key.now) }
    {
        let graph = self.rank_graph(table, key[0])?;
        let subject = self.rank(table, key[1])?;
        let predicate = self.rank(table, key[2])?;
        Some(Ranked {
            graph,
            subject,
            predicate,
            object: table.term(TermId(key[3])),
        })
    }

    // The quads that have the keys, by their ranks, if their terms are there.
    fn all_ranked(
        &self,
        alloc: Global,
        table: &'t TermTable,
        keys: &KeyTree,
    ) -> Result<Option<Vec<Ranked<'t>>>, NoMemory>
        requires terms { All (λ key. HasTerms table.now (quad_of key)) keys.now.keys }
        requires numbered { AreNumbered table.now self.now.terms.items }
        ensures has { IfOk result (λ found. IfSome found (λ all.
            All (HasRanks (terms_in self.now.terms.items)) all.items)) }
        ensures are { IfOk result (λ found. IfSome found (λ all.
            map (parts_ranked (terms_in self.now.terms.items)) all.items
            ≡ map (parts_of table.now) keys.now.keys)) }
    {
        let mut all = Vec::with_capacity(alloc, keys.len())?;
        for key in keys.iter() {
            let Some(ranked) = self.ranked(table, &key) else {
                return Ok(None);
            };
            all.push(ranked)?;
        }
        Ok(Some(all))
    }

    // The graph that has the rank.
    fn graph(&self, rank: usize) -> Result<GraphName, NoMemory>
        requires { rank ≤ length (terms_in self.now.terms.items) }
        ensures { IfOk result (λ graph.
            graph ≡ graph_at (terms_in self.now.terms.items) rank) }
    {
        match rank.checked_sub(1) {
            Some(name) => Ok(GraphName::Named(self.term(name)?)),
            None => Ok(GraphName::Default),
        }
    }

    // The term that has the rank.
    fn term(&self, rank: usize) -> Result<Term, NoMemory>
        requires { rank < length (terms_in self.now.terms.items) }
        ensures { IfOk result (λ term. term ≡ term_at (terms_in self.now.terms.items) rank) }
    {
        self.terms[rank].term.copy()
    }

    // The terms that have two ranks.
    fn term_pair(&self, first: usize, second: usize) -> Result<(Term, Term), NoMemory>
        requires first { first < length (terms_in self.now.terms.items) }
        requires second { second < length (terms_in self.now.terms.items) }
        ensures { IfOk result (λ both. both ≡ (
          term_at (terms_in self.now.terms.items) first,
          term_at (terms_in self.now.terms.items) second,
        )) }
    {
        let first = self.term(first)?;
        let second = self.term(second)?;
        Ok((first, second))
    }

    // The quad that has the ranks.
    fn quad(&self, ranked: &Ranked<'_>) -> Result<Quad, NoMemory>
        requires { HasRanks (terms_in self.now.terms.items) ranked.now }
        ensures { IfOk result (λ quad.
            quad ≡ parts_ranked (terms_in self.now.terms.items) ranked.now) }
    {
        let graph = self.graph(ranked.graph)?;
        let (subject, predicate) = self.term_pair(ranked.subject, ranked.predicate)?;
        let object = ranked.object.copy()?;
        match Quad::new(graph, subject, predicate, object) {
            Some(quad) => Ok(quad),
            None => unreachable!(),
        }
    }

    // The quads that have the ranks.
    fn quads(&self, alloc: Global, all: &[Ranked<'_>]) -> Result<Vec<Quad>, NoMemory>
        requires { All (HasRanks (terms_in self.now.terms.items)) all.now }
        ensures { IfOk result (λ quads. quads.items
            ≡ map (parts_ranked (terms_in self.now.terms.items)) all.now) }
    {
        let mut quads = Vec::with_capacity(alloc, all.len())?;
        for ranked in all {
            let quad = self.quad(ranked)?;
            quads.push(quad)?;
        }
        Ok(quads)
    }

    // The quads that have the ranks, in order.
    fn sorted_quads(&self, alloc: Global, all: Vec<Ranked<'_>>) -> Result<Vec<Quad>, NoMemory>
        requires rises { IsStrictlySortedBy term_cmp (terms_in self.now.terms.items) }
        requires has { All (HasRanks (terms_in self.now.terms.items)) all.items }
        ensures same { IfOk result (λ quads. IsPermutation
            (map (parts_ranked (terms_in self.now.terms.items)) all.entry.items) quads.items) }
        ensures sorted { IfOk result (λ quads. IsSorted quad_cmp quads.items) }
    {
        let mut all = all;
        all.sort_unstable();
        self.quads(alloc, all.as_slice())
    }
}

// Whether the graph's name, the subject and the predicate have numbers below a bound.
fn is_below(key: &Key, bound: u64) -> bool {
    let [graph, subject, predicate, _] = *key;
    graph <= bound && subject < bound && predicate < bound
}

// The quads that have these keys in `Spo`, in order by the ranks of their terms. There are none
// where the table has many more terms than they do: a list of its numbers is too long then.
fn quads_by_rank(
    alloc: Global,
    table: &TermTable,
    keys: &KeyTree,
) -> Result<Option<Vec<Quad>>, NoMemory>
    requires { All (λ key. HasTerms table.now (quad_of key)) keys.now.keys }
    ensures same { IfOk result (λ found. IfSome found (λ quads.
        IsPermutation (map (parts_of table.now) keys.now.keys) quads.items)) }
    ensures sorted { IfOk result (λ found. IfSome found (λ quads.
        IsSorted quad_cmp quads.items)) }
{
    let bound = keys.len().saturating_mul(4) as u64;
    if !keys.iter().all(|key| is_below(&key, bound)) {
        return Ok(None);
    }
    let ranks = Ranks::of_fronts(alloc, table, keys)?;
    let Some(all) = ranks.all_ranked(alloc, table, keys)? else {
        return Ok(None);
    };
    let quads = ranks.sorted_quads(alloc, all)?;
    Ok(Some(quads))
}

// The quads that have these keys in `Spo`, in order: their terms are compared as often as they are.
fn quads_by_term(alloc: Global, table: &TermTable, keys: &KeyTree) -> Result<Vec<Quad>, NoMemory>
    requires { All (λ key. HasTerms table.now (quad_of key)) keys.now.keys }
    ensures same { IfOk result (λ quads.
        IsPermutation (map (parts_of table.now) keys.now.keys) quads.items) }
    ensures sorted { IfOk result (λ quads. IsSorted quad_cmp quads.items) }
{
    let mut quads = Vec::new(alloc);
    append_tree(table, keys, &mut quads)?;
    quads.sort_unstable();
    Ok(quads)
}

/// The quads that have these keys in `Spo`, in order.
pub(crate) fn quads_in_order(
    alloc: Global,
    table: &TermTable,
    keys: &KeyTree,
) -> Result<Vec<Quad>, NoMemory>
    requires { All (λ key. HasTerms table.now (quad_of key)) keys.now.keys }
    ensures same { IfOk result (λ quads.
        IsPermutation (map (parts_of table.now) keys.now.keys) quads.items) }
    ensures sorted { IfOk result (λ quads. IsSorted quad_cmp quads.items) }
{
    match quads_by_rank(alloc, table, keys)? {
        Some(quads) => Ok(quads),
        None => quads_by_term(alloc, table, keys),
    }
}
