//! Lists of what a store holds.
ghost use Rattle.std.specs.Prelude.{◌≡◌, ◌≤◌, ◌+◌, ◌-◌, ◌++◌, ◌∷◌, [], false, All, length, map, min, option_copied, take, IfOk, IsTrue, OnOk, OnErr};
ghost use Rattle.std.specs.FinSet as set;
ghost use Rattle.rdf_terms.specs.Table.{IsIdOf};
ghost use Rattle.rdf_orders.specs.Quads.{quad_of};
ghost use Rattle.rdf_orders.specs.Runs.{raised_by};
ghost use Rattle.rdf_terms.specs.Lists.{AppendsOnce, ListsSorted};
ghost use Rattle.rdf_store.specs.Stored.{AppendsSome, in_named, matches};
ghost use Rattle.rdf_store.specs.Inside.Numbers.{HasTerms, parts_of, term_at};
ghost use Rattle.rdf_store.specs.Inside.Runs.{GivesFront};

use crate::numbers::{FIRST_NAMED, quad_from};
use crate::pattern::{Pattern, pattern_of};
use crate::ranks::quads_in_order;
use crate::store::Store;
use rdf_orders::{Key, KeyTree, Run};
use rdf_terms::{
    GraphName, NoMemory, Quad, Term, TermId, TermTable, or_truncate, terms_are_held_once,
};
use std::alloc::Global;
use std::collections::BTreeSet;

// So many keys of a run are held without a list.
const FEW: usize = 8;

// Appends the quad that has a key in `Spo`.
#[inline(always)]
fn append_quad(table: &TermTable, key: &Key, out: &mut Vec<Quad>) -> Result<(), NoMemory>
    requires { HasTerms table.now (quad_of key.now) }
    ensures ok { OnOk result (out.new.items
        ≡ out.old.items ++ parts_of table.now key.now ∷ []) }
    ensures err { OnErr result (out.new.items ≡ out.old.items) }
{
    let quad = quad_from(table, key)?;
    out.push(quad)?;
    Ok(())
}

// Appends the term that has a number.
fn append_term(table: &TermTable, number: u64, out: &mut Vec<Term>) -> Result<(), NoMemory>
    requires { IsIdOf table.now number (term_at table.now number) }
    ensures ok { OnOk result (out.new.items
        ≡ out.old.items ++ term_at table.now number ∷ []) }
    ensures err { OnErr result (out.new.items ≡ out.old.items) }
{
    let term = table.term(TermId(number)).copy()?;
    out.push(term)?;
    Ok(())
}

// Appends the quads that have these keys in `Spo`, or changes nothing. An empty list gets just the
// room that they take.
fn append_all(table: &TermTable, keys: &[Key], out: &mut Vec<Quad>) -> Result<(), NoMemory>
    requires { All (λ key. HasTerms table.now (quad_of key)) keys.now }
    ensures ok { OnOk result (out.new.items
        ≡ out.old.items ++ map (parts_of table.now) keys.now) }
    ensures err { OnErr result (out.new.items ≡ out.old.items) }
{
    if out.is_empty() {
        out.reserve_exact(keys.len())?;
    }
    let before = out.len();
    for key in keys {
        or_truncate(append_quad(table, key, out), out, before)?;
    }
    Ok(())
}

// What was taken of a run.
#[derive(Clone, Copy)]
struct Front {
    many: usize,
    /// Whether nothing is left of it.
    is_all: bool,
}

// Takes the first keys of a run, at most so many and no more than a few.
#[inline(always)]
fn first_keys(run: &mut Run<'_>, most: usize, keys: &mut [Key; FEW]) -> Front
    ensures few { result.many ≤ FEW }
    ensures parted { run.old.left ≡ take result.many keys.new ++ run.new.left }
    ensures whole { IsTrue result.is_all → run.new.left ≡ [] }
    ensures stopped { result.is_all ≡ false → result.many ≡ min most FEW }
    ensures most { result.many ≤ most }
    ensures counted { run.new.looked ≡ raised_by result.many run.old.looked }
{
    let mut many = 0;
    while many < FEW && many < most {
        let Some(key) = run.next_key() else {
            return Front { many, is_all: true };
        };
        keys[many] = key;
        many += 1;
    }
    Front {
        many,
        is_all: false,
    }
}

// Appends further keys of a run until these are so many, and answers whether nothing is left of it.
fn more_keys(run: &mut Run<'_>, most: usize, keys: &mut Vec<Key>) -> Result<bool, NoMemory>
    requires { length keys.old.items ≤ most }
    ensures parted { OnOk result (keys.old.items ++ run.old.left ≡ keys.new.items ++ run.new.left) }
    ensures whole { IfOk result (λ all. IsTrue all → run.new.left ≡ []) }
    ensures stopped { IfOk result (λ all. all ≡ false → length keys.new.items ≡ most) }
    ensures most { OnOk result (length keys.new.items ≤ most) }
    ensures counted { OnOk result (run.new.looked
        ≡ raised_by (length keys.new.items - length keys.old.items) run.old.looked) }
{
    while keys.len() < most {
        match run.next_key() {
            Some(key) => keys.push(key)?,
            None => return Ok(true),
        }
    }
    Ok(false)
}

// Appends the first quads of a run, at most so many, or changes nothing, and answers whether these
// were all. A few of them take no list of keys.
fn append_front(
    alloc: Global,
    table: &TermTable,
    run: &mut Run<'_>,
    most: usize,
    out: &mut Vec<Quad>,
) -> Result<bool, NoMemory>
    requires { All (λ key. HasTerms table.now (quad_of key)) run.old.left }
    ensures front { IfOk result (λ all. GivesFront table.now all
        run.old.left run.new.left out.old.items out.new.items) }
    ensures counted { OnOk result (run.new.looked
        ≡ raised_by (length out.new.items - length out.old.items) run.old.looked) }
    ensures stopped { IfOk result (λ all. all ≡ false →
        length out.new.items ≡ length out.old.items + most) }
    ensures few { OnOk result (length out.new.items ≤ length out.old.items + most) }
    ensures err { OnErr result (out.new.items ≡ out.old.items) }
{
    let mut few = [[0; 4]; FEW];
    let front = first_keys(run, most, &mut few);
    if front.is_all || most <= FEW {
        append_all(table, &few[..front.many], out)?;
        return Ok(front.is_all);
    }
    let mut keys = Vec::from_slice(alloc, &few)?;
    let is_all = more_keys(run, most, &mut keys)?;
    append_all(table, &keys, out)?;
    Ok(is_all)
}

// Appends the quads of a run, or changes nothing.
#[inline(always)]
fn append_run(
    alloc: Global,
    table: &TermTable,
    run: &mut Run<'_>,
    out: &mut Vec<Quad>,
) -> Result<(), NoMemory>
    requires { All (λ key. HasTerms table.now (quad_of key)) run.old.left }
    ensures ok { OnOk result (out.new.items
        ≡ out.old.items ++ map (parts_of table.now) run.old.left) }
    ensures counted { OnOk result (run.new.looked
        ≡ raised_by (length out.new.items - length out.old.items) run.old.looked) }
    ensures err { OnErr result (out.new.items ≡ out.old.items) }
{
    append_front(alloc, table, run, usize::MAX, out)?;
    Ok(())
}

/// Appends the quads that have the keys in `Spo` of a tree, or changes nothing.
pub(crate) fn append_tree(
    table: &TermTable,
    keys: &KeyTree,
    out: &mut Vec<Quad>,
) -> Result<(), NoMemory>
    requires { All (λ key. HasTerms table.now (quad_of key)) keys.now.keys }
    ensures ok { OnOk result (out.new.items
        ≡ out.old.items ++ map (parts_of table.now) keys.now.keys) }
    ensures err { OnErr result (out.new.items ≡ out.old.items) }
{
    let before = out.len();
    for key in keys.iter() {
        or_truncate(append_quad(table, &key, out), out, before)?;
    }
    Ok(())
}

// Appends the terms that have the numbers of a tree, or changes nothing.
fn append_terms(
    table: &TermTable,
    numbers: &BTreeSet<u64>,
    out: &mut Vec<Term>,
) -> Result<(), NoMemory>
    requires { All (λ id. IsIdOf table.now id (term_at table.now id)) numbers.now.keys }
    ensures ok { OnOk result (out.new.items
        ≡ out.old.items ++ map (term_at table.now) numbers.now.keys) }
    ensures err { OnErr result (out.new.items ≡ out.old.items) }
{
    let before = out.len();
    for number in numbers {
        or_truncate(append_term(table, *number, out), out, before)?;
    }
    Ok(())
}

impl Store {
    /// Appends each quad once, in any order.
    ///
    /// # Errors
    /// [`NoMemory`] where memory is wanting: nothing is appended then.
    pub fn append_quads(&self, out: &mut Vec<Quad>) -> Result<(), NoMemory>
        ensures ok { OnOk result (AppendsOnce self.now.quads out.old.items out.new.items) }
        ensures err { OnErr result (out.new.items ≡ out.old.items) }
    {
        terms_are_held_once(&self.table);
        append_tree(&self.table, self.sets.keys(), out)
    }

    /// The quads, each once, in order. Where the table of terms isn't much longer than they are, each
    /// term is compared with others once for all quads whose graph, subject or predicate it is.
    ///
    /// # Errors
    /// [`NoMemory`] where memory is wanting.
    pub fn quads_sorted(&self) -> Result<Vec<Quad>, NoMemory>
        ensures { IfOk result (λ quads. ListsSorted self.now.quads quads.items) }
    {
        terms_are_held_once(&self.table);
        let quads = quads_in_order(self.alloc, &self.table, self.sets.keys())?;
        Ok(quads)
    }

    /// Appends each graph name once, in any order.
    ///
    /// # Errors
    /// [`NoMemory`] where memory is wanting: nothing is appended then.
    pub fn append_names(&self, out: &mut Vec<Term>) -> Result<(), NoMemory>
        ensures ok { OnOk result (AppendsOnce self.now.names out.old.items out.new.items) }
        ensures err { OnErr result (out.new.items ≡ out.old.items) }
    {
        terms_are_held_once(&self.table);
        append_terms(&self.table, self.sets.names(), out)
    }

    /// Appends each quad of the graph that has the terms of the bound places once, in any order,
    /// and answers how many were looked at: just those.
    ///
    /// # Errors
    /// [`NoMemory`] where memory is wanting: nothing is appended then.
    pub fn matches(
        &self,
        graph: &GraphName,
        subject: Option<&Term>,
        predicate: Option<&Term>,
        object: Option<&Term>,
        out: &mut Vec<Quad>,
    ) -> Result<usize, NoMemory>
        ensures found { OnOk result (AppendsOnce (set.retain self.now.quads (matches graph.now
            (option_copied subject.entry) (option_copied predicate.entry)
            (option_copied object.entry))) out.old.items out.new.items) }
        ensures looked { IfOk result
            (λ looked. length out.new.items ≡ length out.old.items + looked) }
        ensures err { OnErr result (out.new.items ≡ out.old.items) }
    {
        terms_are_held_once(&self.table);
        let Some(pattern) = pattern_of(&self.table, graph, subject, predicate, object) else {
            return Ok(0);
        };
        let Pattern {
            graph,
            subject,
            predicate,
            object,
        } = pattern;
        let mut run = self.sets.run(graph, subject, predicate, object);
        append_run(self.alloc, &self.table, &mut run, out)?;
        Ok(run.looked())
    }
    /// Appends some of the quads that [`matches`](Store::matches) appends, each once, and answers
    /// whether these are all; where they aren't, they are `most`. It looks at no others.
    ///
    /// # Errors
    /// [`NoMemory`] where memory is wanting: nothing is appended then.
    pub fn some_matches(
        &self,
        graph: &GraphName,
        subject: Option<&Term>,
        predicate: Option<&Term>,
        object: Option<&Term>,
        most: usize,
        out: &mut Vec<Quad>,
    ) -> Result<bool, NoMemory>
        ensures found { IfOk result (λ all. AppendsSome (set.retain self.now.quads
            (matches graph.now (option_copied subject.entry) (option_copied predicate.entry)
            (option_copied object.entry))) all out.old.items out.new.items) }
        ensures stopped { IfOk result (λ all. all ≡ false →
            length out.new.items ≡ length out.old.items + most) }
        ensures few { OnOk result (length out.new.items ≤ length out.old.items + most) }
        ensures err { OnErr result (out.new.items ≡ out.old.items) }
    {
        terms_are_held_once(&self.table);
        let Some(pattern) = pattern_of(&self.table, graph, subject, predicate, object) else {
            return Ok(true);
        };
        let Pattern {
            graph,
            subject,
            predicate,
            object,
        } = pattern;
        let mut run = self.sets.run(graph, subject, predicate, object);
        append_front(self.alloc, &self.table, &mut run, most, out)
    }

    /// Appends each quad of the named graphs once, in any order, and answers how many were looked at:
    /// just those.
    ///
    /// # Errors
    /// [`NoMemory`] where memory is wanting: nothing is appended then.
    pub fn named_quads(&self, out: &mut Vec<Quad>) -> Result<usize, NoMemory>
        ensures found { OnOk result (AppendsOnce (set.retain self.now.quads in_named)
            out.old.items out.new.items) }
        ensures looked { IfOk result
            (λ looked. length out.new.items ≡ length out.old.items + looked) }
        ensures err { OnErr result (out.new.items ≡ out.old.items) }
    {
        terms_are_held_once(&self.table);
        let keys: Vec<Key> = self.sets.keys_from(FIRST_NAMED).collect(self.alloc)?;
        append_all(&self.table, &keys, out)?;
        Ok(keys.len())
    }
}
