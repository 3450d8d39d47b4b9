//! What was added to a set and what was removed from it, while that changes.
ghost use Rattle.std.specs.Prelude.{◌≡◌, not, IfOk, OnOk, OnErr};
ghost use Rattle.std.specs.FinSet as set;
ghost use Rattle.rdf_sets.specs.Delta.{IsDelta};

use crate::delta::Delta;
use crate::item::Item;
use crate::tree::Tree;
use rdf_terms::NoMemory;
use std::alloc::Global;

/// A [`crate::Delta`] that still grows, in trees. Each method is told whether the first set has the item
/// that it is about.
#[derive(Drop)]
pub struct TreeDelta<T: Item> {
    /// What the second alone has.
    pub added: Tree<T>,
    /// What the first alone has.
    pub removed: Tree<T>,
}

impl<T: Item> TreeDelta<T> {
    /// From a set to itself.
    pub fn none(alloc: Global) -> TreeDelta<T>
        ensures { (s : set.FinSet T.order) → IsDelta s s result.added result.removed }
    {
        TreeDelta {
            added: Tree::new(alloc),
            removed: Tree::new(alloc),
        }
    }

    /// Whether the second set has the item.
    pub fn contains(&self, beneath: bool, item: &T) -> bool
        ensures { (s t : set.FinSet T.order) → IsDelta s t self.now.added self.now.removed →
            beneath ≡ set.contains s item.now → result ≡ set.contains t item.now }
    {
        if beneath {
            !self.removed.contains(item)
        } else {
            self.added.contains(item)
        }
    }

    /// Puts an item into the second set, and answers whether it is new there.
    ///
    /// # Errors
    /// [`NoMemory`] where memory is wanting: nothing has changed then.
    pub fn insert(&mut self, beneath: bool, item: T) -> Result<bool, NoMemory>
        ensures ok { OnOk result ((s t : set.FinSet T.order) →
            IsDelta s t self.old.added self.old.removed → beneath ≡ set.contains s item →
            IsDelta s (set.insert t item) self.new.added self.new.removed) }
        ensures new { IfOk result (λ new. (s t : set.FinSet T.order) →
            IsDelta s t self.old.added self.old.removed → beneath ≡ set.contains s item →
            new ≡ not (set.contains t item)) }
        ensures err { OnErr result (self.new ≡ self.old) }
    {
        if beneath {
            Ok(self.removed.remove(&item))
        } else {
            self.added.insert(item)
        }
    }

    /// Takes an item out of the second set, and answers whether it was there.
    ///
    /// # Errors
    /// [`NoMemory`] where memory is wanting: nothing has changed then.
    pub fn remove(&mut self, beneath: bool, item: &T) -> Result<bool, NoMemory>
        ensures ok { OnOk result ((s t : set.FinSet T.order) →
            IsDelta s t self.old.added self.old.removed → beneath ≡ set.contains s item.now →
            IsDelta s (set.remove t item.now) self.new.added self.new.removed) }
        ensures was { IfOk result (λ was. (s t : set.FinSet T.order) →
            IsDelta s t self.old.added self.old.removed → beneath ≡ set.contains s item.now →
            was ≡ set.contains t item.now) }
        ensures err { OnErr result (self.new ≡ self.old) }
    {
        if beneath {
            self.removed.insert(item.copied()?)
        } else {
            Ok(self.added.remove(item))
        }
    }

    /// The same as sorted lists.
    ///
    /// # Errors
    /// [`NoMemory`] where memory is wanting.
    pub fn into_delta(self, alloc: Global) -> Result<Delta<T>, NoMemory>
        ensures added { IfOk result (λ delta. delta.added ≡ self.added) }
        ensures removed { IfOk result (λ delta. delta.removed ≡ self.removed) }
    {
        Ok(Delta {
            added: self.added.into_sorted(alloc)?,
            removed: self.removed.into_sorted(alloc)?,
        })
    }
}
