//! A set of items that grows and shrinks one by one.
ghost use Rattle.std.specs.Prelude.{◌≡◌, [], ◌++◌, List, not, IfOk, OnOk, OnErr};
ghost use Rattle.std.specs.FinSet as set;
ghost use Rattle.std.specs.List.Sorted.{IsStrictlySortedBy};

use crate::item::Item;
use crate::sorted::{Sorted, append_copy};
use rdf_terms::{NoMemory, or_truncate};
use std::alloc::Global;
use std::collections::BTreeSet;
use std::marker::Model;

/// Items in a search tree.
#[derive(Drop)]
pub struct Tree<T: Item> {
    items: BTreeSet<T>,
}

impl<T: Item> Model for Tree<T> {
    ghost use Rattle.std.specs.Prelude.{List};

    ghost Value = { List T };

    ghost view = { λ t. t.items.keys };
}

impl<T: Item> Tree<T> {
    /// No items.
    pub fn new(alloc: Global) -> Tree<T>
        ensures { result ≡ [] }
    {
        Tree {
            items: BTreeSet::new(alloc),
        }
    }

    /// Whether the item is there.
    pub fn contains(&self, item: &T) -> bool
        ensures { result ≡ set.contains (set.from_list {R = T.order} self.now) item.now }
    {
        self.items.contains(item)
    }

    /// Adds the item, and answers whether it is new.
    ///
    /// # Errors
    /// [`NoMemory`] where memory is wanting: nothing has changed then.
    pub fn insert(&mut self, item: T) -> Result<bool, NoMemory>
        ensures ok { OnOk result (set.from_list {R = T.order} self.new
            ≡ set.insert (set.from_list self.old) item) }
        ensures new { IfOk result (λ new. new ≡ not (set.contains
            (set.from_list {R = T.order} self.old) item)) }
        ensures err { OnErr result (self.new ≡ self.old) }
    {
        Ok(self.items.insert(item)?)
    }

    /// Takes the item out, and answers whether it was there.
    pub fn remove(&mut self, item: &T) -> bool
        ensures items { set.from_list {R = T.order} self.new
            ≡ set.remove (set.from_list self.old) item.now }
        ensures was { result ≡ set.contains (set.from_list {R = T.order} self.old) item.now }
    {
        self.items.remove(item)
    }

    /// The same items as a sorted list.
    ///
    /// # Errors
    /// [`NoMemory`] where memory is wanting.
    pub fn into_sorted(self, alloc: Global) -> Result<Sorted<T>, NoMemory>
        ensures { IfOk result (λ sorted. sorted ≡ self) }
    {
        let mut items = Vec::with_capacity(alloc, self.items.len())?;
        for item in self.items {
            items.push(item)?;
        }
        Ok(Sorted::from_rising(items))
    }

    /// Appends equal items in strictly rising order.
    ///
    /// # Errors
    /// [`NoMemory`] where memory is wanting: nothing is appended then.
    pub fn append_copies(&self, out: &mut Vec<T>) -> Result<(), NoMemory>
        ensures ok { OnOk result (out.new.items ≡ out.old.items ++ self.now) }
        ensures sorted { IsStrictlySortedBy T.order self.now }
        ensures err { OnErr result (out.new.items ≡ out.old.items) }
    {
        let before = out.len();
        for item in &self.items {
            or_truncate(append_copy(out, item), out, before)?;
        }
        Ok(())
    }
}
