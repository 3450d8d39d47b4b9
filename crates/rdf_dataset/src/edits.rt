//! A net that grows by one change after another. Each method is told whether what lies beneath has
//! the quad or the name.
ghost use Rattle.std.specs.Prelude.{◌≡◌, ◌≤◌, ◌+◌, length, option_copied, not, IfOk, OnOk, OnErr};
ghost use Rattle.std.specs.FinSet as set;
ghost use Rattle.rdf_terms.specs.Lists.{ListsOnce};
ghost use Rattle.rdf_terms.specs.Order.{term_cmp};
ghost use Rattle.rdf_sets.specs.Delta.{IsDelta};
ghost use Rattle.rdf_dataset.specs.Inside.Delta.{IsQuadDelta};
ghost use Rattle.rdf_dataset.specs.State.{State, Names, Quads, IsKnownGraph, in_named, matches, net_between, with_quad, without_quad, with_name, without_name};

use crate::net::Net;
use crate::quad_edits::QuadEdits;
use rdf_sets::{Tree, TreeDelta};
use rdf_terms::{GraphName, NoMemory, Quad, Term};
use std::alloc::Global;
use std::marker::Model;

/// A net that still grows: what a staged view changed so far, in trees that are looked into at each
/// change. In the end it becomes a [`Net`].
#[derive(Drop)]
pub(crate) struct Edits {
    pub(crate) quads: QuadEdits,
    pub(crate) names: TreeDelta<Term>,
    pub(crate) before: u64,
    pub(crate) after: u64,
}

impl Model for Edits {
    ghost use Rattle.std.specs.FinSet as set;
    ghost use Rattle.rdf_dataset.specs.State.{Change, change_code};

    ghost Value = { Change };

    ghost coded = { change_code };

    ghost view = { λ n. record {
      added = n.quads.added.quads;
      removed = set.from_list n.quads.removed;
      names_added = set.from_list n.names.added;
      names_removed = set.from_list n.names.removed;
      before = n.before;
      after = n.after;
    } };
}

impl Edits {
    /// From any state with this counter to itself.
    pub(crate) fn none(alloc: Global, counter: u64) -> Edits
        ensures { (s : State) → s.next ≡ counter → result ≡ net_between s s }
    {
        Edits {
            quads: QuadEdits::none(alloc),
            names: TreeDelta::none(alloc),
            before: counter,
            after: counter,
        }
    }

    /// The same as a net.
    pub(crate) fn into_net(self, alloc: Global) -> Result<Net, NoMemory>
        ensures { IfOk result (λ net. net ≡ self) }
    {
        let Edits {
            quads,
            names,
            before,
            after,
        } = self;
        Ok(Net {
            quads: quads.into_delta(alloc)?,
            names: names.into_delta(alloc)?,
            before,
            after,
        })
    }

    /// Whether the quad is there at the end.
    pub(crate) fn has_quad(&self, beneath: bool, quad: &Quad) -> bool
        ensures { (s t : State) → self.now ≡ net_between s t →
            beneath ≡ set.contains s.quads quad.now → result ≡ set.contains t.quads quad.now }
    {
        self.quads.contains(beneath, quad)
    }

    /// Whether the name is there at the end.
    pub(crate) fn has_name(&self, beneath: bool, name: &Term) -> bool
        ensures { (s t : State) → self.now ≡ net_between s t →
            beneath ≡ set.contains s.names name.now → result ≡ set.contains t.names name.now }
    {
        self.names.contains(beneath, name)
    }

    pub(crate) fn add_name(&mut self, beneath: bool, name: Term) -> Result<bool, NoMemory>
        ensures ok { OnOk result ((s t : State) → self.old ≡ net_between s t →
            beneath ≡ set.contains s.names name →
            self.new ≡ net_between s (with_name t name)) }
        ensures new { IfOk result (λ new. (s t : State) → self.old ≡ net_between s t →
            beneath ≡ set.contains s.names name →
            new ≡ not (set.contains t.names name)) }
        ensures err { OnErr result (self.new ≡ self.old) }
    {
        self.names.insert(beneath, name)
    }

    pub(crate) fn drop_name(&mut self, beneath: bool, name: &Term) -> Result<bool, NoMemory>
        ensures ok { OnOk result ((s t : State) → self.old ≡ net_between s t →
            beneath ≡ set.contains s.names name.now →
            self.new ≡ net_between s (without_name t name.now)) }
        ensures was { IfOk result (λ was. (s t : State) → self.old ≡ net_between s t →
            beneath ≡ set.contains s.names name.now →
            was ≡ set.contains t.names name.now) }
        ensures err { OnErr result (self.new ≡ self.old) }
    {
        self.names.remove(beneath, name)
    }

    pub(crate) fn remove(&mut self, beneath: bool, quad: &Quad) -> Result<bool, NoMemory>
        ensures ok { OnOk result ((s t : State) → self.old ≡ net_between s t →
            beneath ≡ set.contains s.quads quad.now →
            self.new ≡ net_between s (without_quad t quad.now)) }
        ensures was { IfOk result (λ was. (s t : State) → self.old ≡ net_between s t →
            beneath ≡ set.contains s.quads quad.now →
            was ≡ set.contains t.quads quad.now) }
        ensures err { OnErr result (self.new ≡ self.old) }
    {
        self.quads.remove(beneath, quad)
    }

    pub(crate) fn insert(
        &mut self,
        beneath: bool,
        named: bool,
        quad: &Quad,
    ) -> Result<bool, NoMemory>
        ensures ok { OnOk result ((s t : State) → self.old ≡ net_between s t →
            beneath ≡ set.contains s.quads quad.now → IsKnownGraph s.names named quad.now.graph →
            self.new ≡ net_between s (with_quad t quad.now)) }
        ensures new { IfOk result (λ new. (s t : State) → self.old ≡ net_between s t →
            beneath ≡ set.contains s.quads quad.now →
            new ≡ not (set.contains t.quads quad.now)) }
        ensures err { OnErr result (self.new ≡ self.old) }
    {
        let GraphName::Named(name) = quad.graph() else {
            return self.quads.insert(beneath, quad);
        };
        let name = name.copy()?;
        insert_in_graph(&mut self.names, &mut self.quads, beneath, named, name, quad)
    }

    /// Makes the sorted names at the beginning those at the end.
    pub(crate) fn amend_names(&self, found: &mut Vec<Term>) -> Result<(), NoMemory>
        ensures ok { OnOk result ((s t : State) → self.now ≡ net_between s t →
            ListsOnce s.names found.old.items → ListsOnce t.names found.new.items) }
    {
        found.retain(|name| !self.names.removed.contains(name));
        self.names.added.append_copies(found)
    }

    /// Makes the matching quads at the beginning those at the end, and answers
    /// how many more were looked at.
    pub(crate) fn amend_quads(
        &self,
        found: &mut Vec<Quad>,
        graph: &GraphName,
        subject: Option<&Term>,
        predicate: Option<&Term>,
        object: Option<&Term>,
    ) -> Result<usize, NoMemory>
        ensures ok { OnOk result ((s t : State) → self.now ≡ net_between s t →
            ListsOnce (set.retain s.quads (matches graph.now (option_copied subject.entry)
            (option_copied predicate.entry) (option_copied object.entry))) found.old.items →
            ListsOnce (set.retain t.quads (matches graph.now (option_copied subject.entry)
            (option_copied predicate.entry) (option_copied object.entry))) found.new.items) }
        ensures looked { IfOk result
            (λ looked. length found.new.items ≤ length found.old.items + looked) }
    {
        self.quads.amend(found, graph, subject, predicate, object)
    }

    /// Makes the quads of named graphs at the beginning those at the end, and answers how many more
    /// were looked at.
    pub(crate) fn amend_named(&self, found: &mut Vec<Quad>) -> Result<usize, NoMemory>
        ensures ok { OnOk result ((s t : State) → self.now ≡ net_between s t →
            ListsOnce (set.retain s.quads in_named) found.old.items →
            ListsOnce (set.retain t.quads in_named) found.new.items) }
        ensures looked { IfOk result
            (λ looked. length found.new.items ≤ length found.old.items + looked) }
    {
        self.quads.amend_named(found)
    }
}

// Puts a quad and its graph's name in, or neither. What lies beneath has the name or not.
fn insert_in_graph(
    names: &mut TreeDelta<Term>,
    quads: &mut QuadEdits,
    beneath: bool,
    named: bool,
    name: Term,
    quad: &Quad,
) -> Result<bool, NoMemory>
    ensures ok { OnOk result (((s t : Names) → IsDelta s t names.old.added names.old.removed →
        named ≡ set.contains s name →
        IsDelta s (set.insert t name) names.new.added names.new.removed)
        × ((s t : Quads) → IsQuadDelta s t quads.old.added.quads quads.old.removed →
        beneath ≡ set.contains s quad.now →
        IsQuadDelta s (set.insert t quad.now) quads.new.added.quads quads.new.removed)) }
    ensures new { IfOk result (λ new. (s t : Quads) →
        IsQuadDelta s t quads.old.added.quads quads.old.removed →
        beneath ≡ set.contains s quad.now → new ≡ not (set.contains t quad.now)) }
    ensures err { OnErr result ((set.from_list {R = term_cmp} names.new.added
        ≡ set.from_list names.old.added)
        × (names.new.removed ≡ names.old.removed) × (quads.new ≡ quads.old)) }
{
    if named {
        let new = quads.insert(beneath, quad)?;
        names.removed.remove(&name);
        return Ok(new);
    }
    insert_with_name(&mut names.added, quads, beneath, name, quad)
}

// Puts the name and the quad in, or neither: the name is taken back where the quad is refused.
fn insert_with_name(
    names: &mut Tree<Term>,
    quads: &mut QuadEdits,
    beneath: bool,
    name: Term,
    quad: &Quad,
) -> Result<bool, NoMemory>
    ensures names { OnOk result (set.from_list {R = term_cmp} names.new
        ≡ set.insert (set.from_list names.old) name) }
    ensures ok { OnOk result ((s t : Quads) →
        IsQuadDelta s t quads.old.added.quads quads.old.removed →
        beneath ≡ set.contains s quad.now →
        IsQuadDelta s (set.insert t quad.now) quads.new.added.quads quads.new.removed) }
    ensures new { IfOk result (λ new. (s t : Quads) →
        IsQuadDelta s t quads.old.added.quads quads.old.removed →
        beneath ≡ set.contains s quad.now → new ≡ not (set.contains t quad.now)) }
    ensures err_names { OnErr result
        (set.from_list {R = term_cmp} names.new ≡ set.from_list names.old) }
    ensures err_quads { OnErr result (quads.new ≡ quads.old) }
{
    let again = name.copy()?;
    let added = names.insert(name)?;
    match quads.insert(beneath, quad) {
        Ok(new) => Ok(new),
        Err(refused) => {
            take_back(names, added, &again);
            Err(refused)
        }
    }
}

// Makes the tree what it was before the name went in, which was new or not.
fn take_back(names: &mut Tree<Term>, added: bool, name: &Term)
    ensures { (before : Names) → set.from_list {R = term_cmp} names.old
        ≡ set.insert before name.now → added ≡ not (set.contains before name.now) →
        set.from_list {R = term_cmp} names.new ≡ before }
{
    if added {
        names.remove(name);
    }
}
