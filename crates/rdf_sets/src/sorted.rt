//! A set of items, kept as a sorted list without repeats.
ghost use Rattle.std.specs.Prelude.{◌≡◌, [], ◌∷◌, ◌++◌, ◌≤◌, ◌+◌, List, length, take, filter, not, IsOk, IfOk, IfErr, OnOk, OnErr, MatchOption};
ghost use Rattle.std.specs.FinSet as set;
ghost use Rattle.std.specs.List.{AllByRecursion};
ghost use Rattle.std.specs.List.Sorted.{IsStrictlySortedBy};
ghost use Rattle.std.specs.declared.cmp.Ordering.TheVariants.{Less};
ghost use Rattle.rdf_sets.specs.Inside.Places.{IsFoundAt, IsGapAt};
ghost use Rattle.rdf_sets.specs.Inside.Merging.{PopsGreatest};
ghost use Rattle.rdf_terms.specs.Lists.{ListsOnce, ListsSorted};

use crate::item::Item;
use rdf_terms::{NoMemory, or_truncate};
use std::alloc::Global;
use std::cmp::Ordering;
use std::marker::Model;

/// Items in strictly rising order.
#[derive(Drop)]
pub struct Sorted<T: Item> {
    items: Vec<T>,
}

impl<T: Item> Model for Sorted<T> {
    ghost use Rattle.std.specs.Prelude.{List};
    ghost use Rattle.std.specs.List.Sorted.{IsStrictlySortedBy};

    ghost Value = { List T };

    ghost view = { λ s. s.items.items };

    ghost invariant = { λ s. IsStrictlySortedBy T.order s.items.items };
}

impl<T: Item> Sorted<T> {
    /// No items.
    pub fn new(alloc: Global) -> Sorted<T>
        ensures { result ≡ [] }
    {
        Sorted {
            items: Vec::new(alloc),
        }
    }

    /// The items of a list that is sorted already.
    pub fn from_rising(items: Vec<T>) -> Sorted<T>
        requires { IsStrictlySortedBy T.order items.items }
        ensures { result ≡ items.items }
    {
        Sorted { items }
    }

    /// The items of any list, each once.
    pub fn from_list(items: Vec<T>) -> Sorted<T>
        ensures { set.from_list {R = T.order} result ≡ set.from_list items.items }
    {
        let mut each = items;
        each.sort_unstable();
        each.dedup();
        Sorted { items: each }
    }

    /// The items.
    pub fn as_slice(&self) -> &[T]
        ensures items { result.now ≡ self.now }
        ensures sorted { IsStrictlySortedBy T.order self.now }
    {
        self.items.as_slice()
    }

    /// The items, each once, in order.
    pub fn members(&self) -> &[T]
        ensures { ListsSorted (set.from_list {R = T.order} self.now) result.now }
    {
        self.as_slice()
    }

    /// The same items as a list.
    pub fn into_vec(self) -> Vec<T>
        ensures { ListsSorted (set.from_list {R = T.order} self) result.items }
    {
        let Sorted { items } = self;
        items
    }

    // Where the item stands, or where it would go.
    fn search(&self, item: &T) -> Result<usize, usize>
        ensures found { IfOk result (IsFoundAt T.order self.now item.now) }
        ensures absent { IfErr result (IsGapAt T.order self.now item.now) }
    {
        self.items.binary_search_by(|other| other.compare(item))
    }

    /// Whether the item is there.
    pub fn contains(&self, item: &T) -> bool
        ensures { result ≡ set.contains (set.from_list {R = T.order} self.now) item.now }
    {
        self.search(item).is_ok()
    }

    /// Takes the items of a rising list out.
    pub fn subtract(&mut self, gone: &[T])
        requires { IsStrictlySortedBy T.order gone.now }
        ensures { set.from_list {R = T.order} self.new
            ≡ set.difference (set.from_list self.old) (set.from_list gone.now) }
    {
        if gone.is_empty() {
            return;
        }
        let kept = keep_others(&mut self.items, gone);
        self.items.truncate(kept);
    }

    /// Takes out of both lists what stands in both.
    ///
    /// # Errors
    /// [`NoMemory`] where memory is wanting: nothing has changed then. It takes none where no item stands in both.
    pub fn cancel(&mut self, other: &mut Sorted<T>) -> Result<(), NoMemory>
        ensures one { OnOk result (set.from_list {R = T.order} self.new
            ≡ set.difference (set.from_list self.old) (set.from_list other.old)) }
        ensures other { OnOk result (set.from_list {R = T.order} other.new
            ≡ set.difference (set.from_list other.old) (set.from_list self.old)) }
        ensures err_one { OnErr result (self.new ≡ self.old) }
        ensures err_other { OnErr result (other.new ≡ other.old) }
    {
        let common = self.common(other)?;
        self.subtract(common.as_slice());
        other.subtract(common.as_slice());
        Ok(())
    }

    // Equal items to those that the other list has too.
    fn common(&self, other: &Sorted<T>) -> Result<Sorted<T>, NoMemory>
        ensures { IfOk result (λ common. common ≡ filter
            (λ x. set.contains (set.from_list {R = T.order} other.now) x) self.now) }
    {
        let alloc = *self.items.allocator();
        let items = common_items(alloc, self.as_slice(), other.as_slice())?;
        Ok(Sorted { items })
    }

    /// An equal list.
    ///
    /// # Errors
    /// [`NoMemory`] where memory is wanting.
    pub fn copy(&self) -> Result<Sorted<T>, NoMemory>
        ensures { IfOk result (λ copy. copy ≡ self.now) }
    {
        let mut items = Vec::new(*self.items.allocator());
        append_copies(&mut items, &self.items)?;
        Ok(Sorted { items })
    }

    /// The items of both lists, which are moved and not copied.
    ///
    /// # Errors
    /// [`NoMemory`] where memory is wanting.
    pub fn joined(self, more: Sorted<T>) -> Result<Sorted<T>, NoMemory>
        ensures { IfOk result (λ both. set.from_list {R = T.order} both
            ≡ set.union (set.from_list self) (set.from_list more)) }
    {
        let Sorted { items: mut both } = self;
        let Sorted { items: more } = more;
        merge_into(&mut both, more)?;
        Ok(Sorted { items: both })
    }

    /// Adds the items of a rising list. It takes no memory where there are none.
    ///
    /// # Errors
    /// [`NoMemory`] where memory is wanting: nothing has changed then.
    pub fn unite(&mut self, more: &[T]) -> Result<(), NoMemory>
        requires { IsStrictlySortedBy T.order more.now }
        ensures ok { OnOk result (set.from_list {R = T.order} self.new
            ≡ set.union (set.from_list self.old) (set.from_list more.now)) }
        ensures err { OnErr result (self.new ≡ self.old) }
        ensures free { more.now ≡ [] → IsOk result }
    {
        if more.is_empty() {
            return Ok(());
        }
        let mut copies = Vec::new(*self.items.allocator());
        append_copies(&mut copies, more)?;
        merge_into(&mut self.items, copies)
    }
}

/// A list of the members of a set, brought in order.
pub fn in_order<T: Item>(items: Vec<T>) -> Vec<T>
    ensures { (members : set.FinSet T.order) → ListsOnce members items.items →
        ListsSorted members result.items }
{
    let mut items = items;
    items.sort_unstable();
    items
}

/// Appends equal items.
///
/// # Errors
/// [`NoMemory`] where memory is wanting: nothing is appended then.
pub fn append_copies<T: Item>(out: &mut Vec<T>, items: &[T]) -> Result<(), NoMemory>
    ensures ok { OnOk result (out.new.items ≡ out.old.items ++ items.now) }
    ensures err { OnErr result (out.new.items ≡ out.old.items) }
{
    let before = out.len();
    for item in items {
        or_truncate(append_copy(out, item), out, before)?;
    }
    Ok(())
}

/// Appends an equal item.
///
/// # Errors
/// [`NoMemory`] where memory is wanting: nothing is appended then.
pub fn append_copy<T: Item>(out: &mut Vec<T>, item: &T) -> Result<(), NoMemory>
    ensures ok { OnOk result (out.new.items ≡ out.old.items ++ item.now ∷ []) }
    ensures err { OnErr result (out.new.items ≡ out.old.items) }
{
    out.push(item.copied()?)?;
    Ok(())
}

// Equal items to those of the first list that are in the second too, in order. It walks along both once.
fn common_items<T: Item>(alloc: Global, items: &[T], others: &[T]) -> Result<Vec<T>, NoMemory>
    requires items { IsStrictlySortedBy T.order items.now }
    requires others { IsStrictlySortedBy T.order others.now }
    ensures { IfOk result (λ common. common.items ≡ filter
        (λ x. set.contains (set.from_list {R = T.order} others.now) x) items.now) }
{
    let mut common = Vec::new(alloc);
    let mut passed = 0;
    for place in 0..items.len() {
        let item = &items[place];
        match find_from(others, passed, item) {
            Ok(found) => {
                passed = found;
                append_copy(&mut common, item)?;
            }
            Err(gap) => passed = gap,
        }
    }
    Ok(common)
}

// How many both are. More than a list can hold are refused by the list itself.
fn room_for_both<T: Item>(items: &[T], more: &mut Vec<T>) -> Result<usize, NoMemory>
    ensures ok { IfOk result (λ room. room ≡ length items.now + length more.old.items) }
    ensures kept { more.new.items ≡ more.old.items }
{
    match items.len().checked_add(more.len()) {
        Some(room) => Ok(room),
        None => {
            more.reserve(items.len())?;
            unreachable!()
        }
    }
}

// Merges two lists from their ends; the memory is taken before any item moves.
fn merge_into<T: Item>(items: &mut Vec<T>, more: Vec<T>) -> Result<(), NoMemory>
    requires items { IsStrictlySortedBy T.order items.old.items }
    requires more { IsStrictlySortedBy T.order more.items }
    ensures sorted { IsStrictlySortedBy T.order items.new.items }
    ensures ok { OnOk result (set.from_list {R = T.order} items.new.items
        ≡ set.union (set.from_list items.old.items) (set.from_list more.items)) }
    ensures err { OnErr result (items.new.items ≡ items.old.items) }
{
    let mut more = more;
    let room = room_for_both(items, &mut more)?;
    let mut merged = Vec::with_capacity(*items.allocator(), room)?;
    while let Some(item) = pop_greatest(items, &mut more) {
        merged.push(item).unwrap();
    }
    merged.reverse();
    *items = merged;
    Ok(())
}

// The greatest of the items at the two ends; one that stands at both is taken from both.
fn pop_greatest<T: Item>(items: &mut Vec<T>, more: &mut Vec<T>) -> Option<T>
    ensures { MatchOption result ((items.old.items ≡ []) × (more.old.items ≡ []))
        (PopsGreatest T.order items.old.items more.old.items items.new.items more.new.items) }
{
    let Some(item) = items.last() else {
        return more.pop();
    };
    let Some(other) = more.last() else {
        return items.pop();
    };
    match item.compare(other) {
        Ordering::Less => more.pop(),
        Ordering::Equal => {
            more.pop();
            items.pop()
        }
        Ordering::Greater => items.pop(),
    }
}

// Moves the items that aren't among the other ones to the front, in order, and answers how many they are.
fn keep_others<T: Item>(items: &mut Vec<T>, others: &[T]) -> usize
    requires items { IsStrictlySortedBy T.order items.old.items }
    requires others { IsStrictlySortedBy T.order others.now }
    ensures { take result items.new.items ≡ filter
        (λ x. not (set.contains (set.from_list {R = T.order} others.now) x)) items.old.items }
{
    let mut kept = 0;
    let mut passed = 0;
    for place in 0..items.len() {
        match find_from(others, passed, &items[place]) {
            Ok(found) => passed = found,
            Err(gap) => {
                passed = gap;
                items.swap(kept, place);
                kept += 1;
            }
        }
    }
    kept
}

// Where the item stands, or where it would go, at or behind a place before which all is less.
fn find_from<T: Item>(items: &[T], from: usize, item: &T) -> Result<usize, usize>
    requires sorted { IsStrictlySortedBy T.order items.now }
    requires inside { from ≤ length items.now }
    requires before { AllByRecursion (λ y. T.order y item.now ≡ Less) (take from items.now) }
    ensures found { IfOk result (IsFoundAt T.order items.now item.now) }
    ensures less { IfOk result (λ place. AllByRecursion
        (λ y. T.order y item.now ≡ Less) (take place items.now)) }
    ensures absent { IfErr result (IsGapAt T.order items.now item.now) }
{
    let mut place = from;
    while place < items.len() {
        match items[place].compare(item) {
            Ordering::Less => place += 1,
            Ordering::Equal => return Ok(place),
            Ordering::Greater => return Err(place),
        }
    }
    Err(place)
}
