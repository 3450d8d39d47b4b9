//! What changed between two states.
ghost use Rattle.std.specs.Prelude.{◌≡◌, ℕ, IfOk};
ghost use Rattle.rdf_dataset.specs.State.{State, net_between, turned};
ghost use Rattle.rdf_terms.specs.Lists.{ListsSorted};

use rdf_sets::Delta;
use rdf_terms::{NoMemory, Quad, Term};
use std::alloc::Global;
use std::marker::Model;

/// Quads and graph names that were added and removed, and the blank counter before and after, as sorted
/// lists: what is kept to be undone. A contract sees a net as a `Change`, of sets.
#[derive(Drop)]
pub struct Net {
    pub(crate) quads: Delta<Quad>,
    pub(crate) names: Delta<Term>,
    pub(crate) before: u64,
    pub(crate) after: u64,
}

impl Model for Net {
    ghost use Rattle.std.specs.FinSet as set;
    ghost use Rattle.rdf_dataset.specs.State.{Change, change_code};

    ghost Value = { Change };

    ghost coded = { change_code };

    ghost view = { λ n. record {
      added = set.from_list n.quads.added;
      removed = set.from_list n.quads.removed;
      names_added = set.from_list n.names.added;
      names_removed = set.from_list n.names.removed;
      before = n.before;
      after = n.after;
    } };
}

impl Net {
    /// The net from any state with this counter to itself. It takes no memory.
    pub fn empty(alloc: Global, counter: u64) -> Net
        ensures { (s : State) → s.next ≡ counter → result ≡ net_between s s }
    {
        Net {
            quads: Delta::none(alloc),
            names: Delta::none(alloc),
            before: counter,
            after: counter,
        }
    }

    /// The quads that were added, each once, in order.
    pub fn added(&self) -> &[Quad]
        ensures { ListsSorted self.now.added result.now }
    {
        self.quads.added.members()
    }

    /// The quads that were removed, each once, in order.
    pub fn removed(&self) -> &[Quad]
        ensures { ListsSorted self.now.removed result.now }
    {
        self.quads.removed.members()
    }

    /// The graph names that were added, each once, in order.
    pub fn names_added(&self) -> &[Term]
        ensures { ListsSorted self.now.names_added result.now }
    {
        self.names.added.members()
    }

    /// The graph names that were removed, each once, in order.
    pub fn names_removed(&self) -> &[Term]
        ensures { ListsSorted self.now.names_removed result.now }
    {
        self.names.removed.members()
    }

    // How many quads and names it has in all.
    pub(crate) fn size(&self) -> usize {
        let quads = self.added().len().saturating_add(self.removed().len());
        let names = self
            .names_added()
            .len()
            .saturating_add(self.names_removed().len());
        quads.saturating_add(names)
    }

    /// The number of the next blank node before the change.
    pub fn before(&self) -> u64
        ensures { result ≡ self.now.before }
    {
        self.before
    }

    /// The number of the next blank node after it.
    pub fn after(&self) -> u64
        ensures { result ≡ self.now.after }
    {
        self.after
    }

    /// The net the other way. It takes no memory.
    pub fn reversed(self) -> Net
        ensures value { result ≡ turned self }
        ensures between { (s t : State) → self ≡ net_between s t → result ≡ net_between t s }
    {
        let Net {
            quads,
            names,
            before,
            after,
        } = self;
        Net {
            quads: quads.reversed(),
            names: names.reversed(),
            before: after,
            after: before,
        }
    }

    /// An equal net.
    ///
    /// # Errors
    /// [`NoMemory`] where memory is wanting.
    pub fn copy(&self) -> Result<Net, NoMemory>
        ensures { IfOk result (λ copy. copy ≡ self.now) }
    {
        Ok(Net {
            quads: self.quads.copy()?,
            names: self.names.copy()?,
            before: self.before,
            after: self.after,
        })
    }

    /// What [`then`](Net::then) answers of two nets that are given away: their quads and names are moved, and only
    /// what cancels out is copied.
    ///
    /// # Errors
    /// [`NoMemory`] where memory is wanting.
    pub fn joined(self, next: Net) -> Result<Net, NoMemory>
        ensures { IfOk result (λ both. (s t u : State) → self ≡ net_between s t →
            next ≡ net_between t u → both ≡ net_between s u) }
    {
        let Net {
            quads,
            names,
            before,
            ..
        } = self;
        let after = next.after;
        let Net {
            quads: later_quads,
            names: later_names,
            ..
        } = next;
        Ok(Net {
            quads: quads.joined(later_quads)?,
            names: names.joined(later_names)?,
            before,
            after,
        })
    }

    /// The net from the beginning of this one to the end of the next, which begins where this one
    /// ends: what comes and goes, or goes and comes back, is in neither list.
    ///
    /// # Errors
    /// [`NoMemory`] where memory is wanting.
    pub fn then(&self, next: &Net) -> Result<Net, NoMemory>
        ensures { IfOk result (λ both. (s t u : State) → self.now ≡ net_between s t →
            next.now ≡ net_between t u → both ≡ net_between s u) }
    {
        Ok(Net {
            quads: self.quads.then(&next.quads)?,
            names: self.names.then(&next.names)?,
            before: self.before,
            after: next.after,
        })
    }
}
