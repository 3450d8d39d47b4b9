//! What was added to a set and what was removed from it, as sorted lists.
ghost use Rattle.std.specs.Prelude.{◌≡◌, IfOk};
ghost use Rattle.std.specs.FinSet as set;
ghost use Rattle.rdf_sets.specs.Delta.{IsDelta};

use crate::item::Item;
use crate::sorted::Sorted;
use rdf_terms::NoMemory;
use std::alloc::Global;

/// What is in the second of two sets alone, and what is in the first alone, as sorted lists: one half of
/// a net, of quads or of names.
#[derive(Drop)]
pub struct Delta<T: Item> {
    /// What the second alone has.
    pub added: Sorted<T>,
    /// What the first alone has.
    pub removed: Sorted<T>,
}

impl<T: Item> Delta<T> {
    /// From a set to itself.
    pub fn none(alloc: Global) -> Delta<T>
        ensures { (s : set.FinSet T.order) → IsDelta s s result.added result.removed }
    {
        Delta {
            added: Sorted::new(alloc),
            removed: Sorted::new(alloc),
        }
    }

    /// The other way.
    pub fn reversed(self) -> Delta<T>
        ensures added { result.added ≡ self.removed }
        ensures removed { result.removed ≡ self.added }
    {
        Delta {
            added: self.removed,
            removed: self.added,
        }
    }

    /// An equal one.
    ///
    /// # Errors
    /// [`NoMemory`] where memory is wanting.
    pub fn copy(&self) -> Result<Delta<T>, NoMemory>
        ensures added { IfOk result (λ copy. copy.added ≡ self.now.added) }
        ensures removed { IfOk result (λ copy. copy.removed ≡ self.now.removed) }
    {
        Ok(Delta {
            added: self.added.copy()?,
            removed: self.removed.copy()?,
        })
    }

    /// From the first set of this to the second of the next, as [`then`](Delta::then) says, by moves: only what
    /// cancels out is copied.
    ///
    /// # Errors
    /// [`NoMemory`] where memory is wanting.
    pub fn joined(self, next: Delta<T>) -> Result<Delta<T>, NoMemory>
        ensures { IfOk result (λ both. (s t u : set.FinSet T.order) →
            IsDelta s t self.added self.removed →
            IsDelta t u next.added next.removed →
            IsDelta s u both.added both.removed) }
    {
        let Delta {
            mut added,
            mut removed,
        } = self;
        let Delta {
            added: mut more,
            removed: mut gone,
        } = next;
        added.cancel(&mut gone)?;
        more.cancel(&mut removed)?;
        let added = added.joined(more)?;
        let removed = gone.joined(removed)?;
        Ok(Delta { added, removed })
    }

    /// From the first set of this to the second of the next.
    ///
    /// # Errors
    /// [`NoMemory`] where memory is wanting.
    pub fn then(&self, next: &Delta<T>) -> Result<Delta<T>, NoMemory>
        ensures { IfOk result (λ both. (s t u : set.FinSet T.order) →
            IsDelta s t self.now.added self.now.removed →
            IsDelta t u next.now.added next.now.removed →
            IsDelta s u both.added both.removed) }
    {
        let added = both_without(&self.added, &next.removed, &next.added, &self.removed)?;
        let removed = both_without(&next.removed, &self.added, &self.removed, &next.added)?;
        Ok(Delta { added, removed })
    }
}

// The items of one list that aren't in a second, with the items of a third that aren't in a fourth.
fn both_without<T: Item>(
    first: &Sorted<T>,
    but: &Sorted<T>,
    second: &Sorted<T>,
    nor: &Sorted<T>,
) -> Result<Sorted<T>, NoMemory>
    ensures { IfOk result (λ both. set.from_list {R = T.order} both ≡
        set.union (set.difference (set.from_list first.now) (set.from_list but.now))
        (set.difference (set.from_list second.now) (set.from_list nor.now))) }
{
    let mut both = first.copy()?;
    both.subtract(but.as_slice());
    let mut more = second.copy()?;
    more.subtract(nor.as_slice());
    both.unite(more.as_slice())?;
    Ok(both)
}
