//! A dataset as sorted lists: the plain form, for tests beside the other one.
ghost use Rattle.std.specs.Prelude.{◌≡◌, ◌≤◌, [], IsOk, IfOk, OnOk, OnErr};
ghost use Rattle.std.specs.FinSet as set;
ghost use Rattle.rdf_dataset.specs.Inside.Delta.{IsStateDelta};
ghost use Rattle.rdf_terms.specs.Lists.{ListsSorted};
ghost use Rattle.plain_dataset.specs.Rising.{AreRising};
ghost use Rattle.rdf_dataset.specs.State.{State, IsSound, Begins, Ends, net_between, empty_state, last_number};

use crate::matching::append_matching;
use rdf_dataset::{Net, Source, sources_are_sound};
use rdf_sets::{Sorted, append_copies};
use rdf_terms::{GraphName, NoMemory, Quad, Term};
use std::alloc::Global;
use std::marker::Model;

/// A sound state as sorted lists of quads and graph names, and the number of the next blank node: each look-up walks
/// over all quads. It does what [`Dataset`](rdf_dataset::Dataset) does, and is there for comparison.
#[derive(Drop)]
pub struct PlainDataset {
    quads: Sorted<Quad>,
    names: Sorted<Term>,
    next: u64,
}

impl Model for PlainDataset {
    ghost use Rattle.std.specs.FinSet as set;
    ghost use Rattle.rdf_dataset.specs.State.{State, state_code, IsSound};

    ghost Value = { State };

    ghost coded = { state_code };

    ghost view = { λ d. record {
      quads = set.from_list d.quads;
      names = set.from_list d.names;
      next = d.next;
    } };

    ghost invariant = { λ d. IsSound (record {
      quads = set.from_list d.quads;
      names = set.from_list d.names;
      next = d.next;
    }) };
}

impl PlainDataset {
    /// No quads, no names, and blank nodes numbered from 0. It takes no memory.
    pub fn new(alloc: Global) -> PlainDataset
        ensures { result ≡ empty_state 0 }
    {
        PlainDataset::starting_at(alloc, 0)
    }

    /// No quads, no names, and blank nodes numbered from `next`. It takes no memory.
    pub fn starting_at(alloc: Global, next: u64) -> PlainDataset
        requires { next ≤ last_number }
        ensures { result ≡ empty_state next }
    {
        PlainDataset {
            quads: Sorted::new(alloc),
            names: Sorted::new(alloc),
            next,
        }
    }

    /// The quads, each once, in order.
    ///
    /// # Errors
    /// [`NoMemory`] where memory is wanting.
    pub fn quads(&self) -> Result<Vec<Quad>, NoMemory>
        ensures { IfOk result (λ quads. ListsSorted self.now.quads quads.items) }
    {
        Ok(self.quads.copy()?.into_vec())
    }

    /// The graph names, each once, in order.
    ///
    /// # Errors
    /// [`NoMemory`] where memory is wanting.
    pub fn names_sorted(&self) -> Result<Vec<Term>, NoMemory>
        ensures { IfOk result (λ names. ListsSorted self.now.names names.items) }
    {
        Ok(self.names.copy()?.into_vec())
    }

    /// Goes to the state where a net that begins here ends. It takes no memory where the net added
    /// no quad and no name.
    ///
    /// # Errors
    /// [`NoMemory`] where memory is wanting: nothing has changed then.
    pub fn commit(&mut self, net: &Net) -> Result<(), NoMemory>
        requires begins { Begins net.now self.old }
        ensures ok { OnOk result ((t : State) → net.now ≡ net_between self.old t → self.new ≡ t) }
        ensures ends { OnOk result (Ends net.now self.new) }
        ensures err { OnErr result (self.new ≡ self.old) }
        ensures free { net.now.added ≡ set.empty → net.now.names_added ≡ set.empty → IsOk result }
    {
        sources_are_sound(self);
        self.go_to(
            net.added(),
            net.removed(),
            net.names_added(),
            net.names_removed(),
            net.after(),
        )
    }

    /// Goes back to the state where a net that ends here begins. It takes no memory where the net
    /// removed no quad and no name.
    ///
    /// # Errors
    /// [`NoMemory`] where memory is wanting: nothing has changed then.
    pub fn revert(&mut self, net: &Net) -> Result<(), NoMemory>
        requires ends { Ends net.now self.old }
        ensures ok { OnOk result ((s : State) → net.now ≡ net_between s self.old → self.new ≡ s) }
        ensures begins { OnOk result (Begins net.now self.new) }
        ensures err { OnErr result (self.new ≡ self.old) }
        ensures free { net.now.removed ≡ set.empty → net.now.names_removed ≡ set.empty →
            IsOk result }
    {
        sources_are_sound(self);
        let counter = net.before();
        self.go_to(
            net.removed(),
            net.added(),
            net.names_removed(),
            net.names_added(),
            counter,
        )
    }

    // All growths come first, and what they made is taken back where one is refused.
    fn go_to(
        &mut self,
        added: &[Quad],
        removed: &[Quad],
        names_added: &[Term],
        names_removed: &[Term],
        next: u64,
    ) -> Result<(), NoMemory>
        requires rising { AreRising added.now removed.now names_added.now names_removed.now }
        requires leads { (t : State) × IsSound t
            × IsStateDelta self.old t added.now removed.now names_added.now names_removed.now next }
        ensures ok { OnOk result ((t : State) →
            IsStateDelta self.old t added.now removed.now names_added.now names_removed.now next →
            self.new ≡ t) }
        ensures err { OnErr result (self.new ≡ self.old) }
        ensures free { added.now ≡ [] → names_added.now ≡ [] → IsOk result }
    {
        self.quads.unite(added)?;
        if let Err(refused) = self.names.unite(names_added) {
            self.quads.subtract(added);
            return Err(refused);
        }
        self.quads.subtract(removed);
        self.names.subtract(names_removed);
        self.next = next;
        Ok(())
    }
}

impl Source for PlainDataset {
    ghost contents = { λ d. d };

    fn contains(&self, quad: &Quad) -> bool {
        self.quads.contains(quad)
    }

    fn has_name(&self, name: &Term) -> bool {
        self.names.contains(name)
    }

    fn next_blank(&self) -> u64 {
        self.next
    }

    fn names(&self, out: &mut Vec<Term>) -> Result<(), NoMemory> {
        append_copies(out, self.names.as_slice())
    }

    fn matches(
        &self,
        graph: &GraphName,
        subject: Option<&Term>,
        predicate: Option<&Term>,
        object: Option<&Term>,
        out: &mut Vec<Quad>,
    ) -> Result<usize, NoMemory> {
        let quads = self.quads.as_slice();
        append_matching(out, quads, graph, subject, predicate, object)?;
        Ok(quads.len())
    }
}
