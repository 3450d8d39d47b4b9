//! A dataset.
ghost use Rattle.std.specs.Prelude.{◌≡◌, ◌≤◌, ◌+◌, [], false, length, option_copied, IsOk, IfOk, OnOk, OnErr};
ghost use Rattle.std.specs.FinSet as set;
ghost use Rattle.rdf_dataset.specs.Inside.Delta.{IsStateDelta};
ghost use Rattle.rdf_terms.specs.Lists.{AppendsOnce, ListsSorted};
ghost use Rattle.rdf_dataset.specs.State.{State, AppendsSome, IsSound, Begins, Ends, in_named, net_between, empty_state, listed_state, last_number, matches};

use crate::net::Net;
use crate::source::{Source, sources_are_sound};
use rdf_sets::{Sorted, in_order};
use rdf_store::Store;
use rdf_terms::{GraphName, NoMemory, Quad, Term};
use std::alloc::Global;
use std::marker::Model;

/// A sound state: quads, graph names, and the number of the next blank node. Each term is kept once,
/// also when its quads are gone, and a look-up looks only at the quads that it finds.
#[derive(Drop)]
pub struct Dataset {
    pub(crate) store: Store,
    pub(crate) next: u64,
    pub(crate) alloc: Global,
}

impl Model for Dataset {
    ghost use Rattle.rdf_dataset.specs.State.{State, state_code, IsSound};

    ghost Value = { State };

    ghost coded = { state_code };

    ghost view = { λ d. record {
      quads = d.store.quads;
      names = d.store.names;
      next = d.next;
    } };

    ghost invariant = { λ d. IsSound (record {
      quads = d.store.quads;
      names = d.store.names;
      next = d.next;
    }) };
}

impl Dataset {
    /// No quads, no names, and blank nodes numbered from 0. It takes no memory.
    pub fn new(alloc: Global) -> Dataset
        ensures { result ≡ empty_state 0 }
    {
        Dataset::starting_at(alloc, 0)
    }

    /// No quads, no names, and blank nodes numbered from `next`. It takes no memory.
    pub fn starting_at(alloc: Global, next: u64) -> Dataset
        requires { next ≤ last_number }
        ensures { result ≡ empty_state next }
    {
        Dataset {
            store: Store::new(alloc),
            next,
            alloc,
        }
    }

    /// The sound state of these quads and graph names, and of the number of the next blank node. An item
    /// given twice counts once.
    ///
    /// # Errors
    /// [`NoMemory`] where memory is wanting.
    pub fn from_state(
        alloc: Global,
        next: u64,
        names: &[Term],
        quads: &[Quad],
    ) -> Result<Dataset, NoMemory>
        requires { IsSound (listed_state next names.now quads.now) }
        ensures { IfOk result (λ dataset. dataset ≡ listed_state next names.now quads.now) }
    {
        let mut store = Store::new(alloc);
        store.insert_all(quads, names)?;
        Ok(Dataset { store, next, alloc })
    }

    /// The quads, each once, in order.
    ///
    /// # Errors
    /// [`NoMemory`] where memory is wanting.
    pub fn quads(&self) -> Result<Vec<Quad>, NoMemory>
        ensures { IfOk result (λ quads. ListsSorted self.now.quads quads.items) }
    {
        let quads = self.store.quads_sorted()?;
        Ok(quads)
    }

    /// The graph names, each once, in order.
    ///
    /// # Errors
    /// [`NoMemory`] where memory is wanting.
    pub fn names_sorted(&self) -> Result<Vec<Term>, NoMemory>
        ensures { IfOk result (λ names. ListsSorted self.now.names names.items) }
    {
        let mut names = Vec::new(self.alloc);
        self.store.append_names(&mut names)?;
        Ok(in_order(names))
    }

    /// Goes to the state where a net that begins here ends. It takes no memory where the net added
    /// no quad and no name.
    ///
    /// # Errors
    /// [`NoMemory`] where memory is wanting: nothing has changed then.
    pub fn commit(&mut self, net: &Net) -> Result<(), NoMemory>
        requires begins { Begins net.now self.old }
        ensures ok { OnOk result ((t : State) → net.now ≡ net_between self.old t → self.new ≡ t) }
        ensures ends { OnOk result (Ends net.now self.new) }
        ensures err { OnErr result (self.new ≡ self.old) }
        ensures free { net.now.added ≡ set.empty → net.now.names_added ≡ set.empty → IsOk result }
    {
        sources_are_sound(self);
        self.go_to(
            &net.quads.added,
            &net.quads.removed,
            &net.names.added,
            &net.names.removed,
            net.after,
        )
    }

    /// Goes back to the state where a net that ends here begins. It takes no memory where the net
    /// removed no quad and no name.
    ///
    /// # Errors
    /// [`NoMemory`] where memory is wanting: nothing has changed then.
    pub fn revert(&mut self, net: &Net) -> Result<(), NoMemory>
        requires ends { Ends net.now self.old }
        ensures ok { OnOk result ((s : State) → net.now ≡ net_between s self.old → self.new ≡ s) }
        ensures begins { OnOk result (Begins net.now self.new) }
        ensures err { OnErr result (self.new ≡ self.old) }
        ensures free { net.now.removed ≡ set.empty → net.now.names_removed ≡ set.empty →
            IsOk result }
    {
        sources_are_sound(self);
        self.go_to(
            &net.quads.removed,
            &net.quads.added,
            &net.names.removed,
            &net.names.added,
            net.before,
        )
    }

    // All growths come first; where they are refused, nothing has changed.
    fn go_to(
        &mut self,
        added: &Sorted<Quad>,
        removed: &Sorted<Quad>,
        names_added: &Sorted<Term>,
        names_removed: &Sorted<Term>,
        next: u64,
    ) -> Result<(), NoMemory>
        requires { (t : State) × IsSound t
            × IsStateDelta self.old t added.now removed.now names_added.now names_removed.now next }
        ensures ok { OnOk result ((t : State) →
            IsStateDelta self.old t added.now removed.now names_added.now names_removed.now next →
            self.new ≡ t) }
        ensures err { OnErr result (self.new ≡ self.old) }
        ensures free { added.now ≡ [] → names_added.now ≡ [] → IsOk result }
    {
        let store = &mut self.store;
        store.insert_all(added.as_slice(), names_added.as_slice())?;
        store.remove_all(removed.as_slice(), names_removed.as_slice());
        self.next = next;
        Ok(())
    }
}

impl Source for Dataset {
    ghost contents = { λ d. d };

    fn contains(&self, quad: &Quad) -> bool {
        self.store.contains(quad)
    }

    fn has_name(&self, name: &Term) -> bool {
        self.store.has_name(name)
    }

    fn next_blank(&self) -> u64 {
        self.next
    }

    fn names(&self, out: &mut Vec<Term>) -> Result<(), NoMemory> {
        self.store.append_names(out)
    }

    /// The same, and the answer is just the number of the quads appended.
    fn matches(
        &self,
        graph: &GraphName,
        subject: Option<&Term>,
        predicate: Option<&Term>,
        object: Option<&Term>,
        out: &mut Vec<Quad>,
    ) -> Result<usize, NoMemory>
        ensures found { OnOk result (AppendsOnce
            (set.retain self.now.quads (matches graph.now (option_copied subject.entry)
            (option_copied predicate.entry) (option_copied object.entry)))
            out.old.items out.new.items) }
        ensures looked { IfOk result
            (λ looked. length out.new.items ≡ length out.old.items + looked) }
        ensures err { OnErr result (out.new.items ≡ out.old.items) }
    {
        self.store.matches(graph, subject, predicate, object, out)
    }

    /// The same, of one range of quads, and the answer is just the number of the quads appended.
    fn named_quads(&self, out: &mut Vec<Quad>) -> Result<usize, NoMemory>
        ensures found { OnOk result (AppendsOnce (set.retain self.now.quads in_named)
            out.old.items out.new.items) }
        ensures looked { IfOk result
            (λ looked. length out.new.items ≡ length out.old.items + looked) }
        ensures err { OnErr result (out.new.items ≡ out.old.items) }
    {
        self.store.named_quads(out)
    }

    /// The same: never more than `most`, and no others are looked at.
    fn some_matches(
        &self,
        graph: &GraphName,
        subject: Option<&Term>,
        predicate: Option<&Term>,
        object: Option<&Term>,
        most: usize,
        out: &mut Vec<Quad>,
    ) -> Result<bool, NoMemory>
        ensures found { IfOk result (λ all. AppendsSome (set.retain self.now.quads
            (matches graph.now (option_copied subject.entry) (option_copied predicate.entry)
            (option_copied object.entry))) all out.old.items out.new.items) }
        ensures stopped { IfOk result (λ all. all ≡ false →
            length out.new.items ≡ length out.old.items + most) }
        ensures few { OnOk result (length out.new.items ≤ length out.old.items + most) }
        ensures err { OnErr result (out.new.items ≡ out.old.items) }
    {
        self.store
            .some_matches(graph, subject, predicate, object, most, out)
    }
}
