//! A search tree of keys, which take four bytes a number as long as each of them fits 32 bits.
ghost use Rattle.std.specs.Prelude.{◌≡◌, ◌++◌, map, not, IfOk, OnOk, OnErr, ℕ, List, IsTrue};
ghost use Rattle.std.specs.Bool.{OnFalse};
ghost use Rattle.std.specs.List.{AllByRecursion};
ghost use Rattle.std.specs.declared.ops.Bound.TheVariants.{Unbounded};
ghost use Rattle.std.specs.BTreeMap.Range.{range_contains};
ghost use Rattle.std.specs.BTreeSet.{btree_set_len, contains, keys_between, IsEmpty, IsFromIterResult, IsOrdered, IsUnchanged};
ghost use Rattle.rdf_orders.specs.Quads.{key_cmp, key_in, quad_of};
ghost use Rattle.rdf_orders.specs.Inside.Widths.{IsNarrow, floor_key, GainsOne, LosesOne};

use crate::key_iters::{AllKeys, KeyIter, KeyRange, SomeKeys};
use crate::narrow::{NarrowKey, floor, narrow, widen};
use crate::order::{Key, Order};
use rdf_terms::NoMemory;
use std::alloc::Global;
use std::collections::BTreeSet;
use std::marker::Model;
use std::ops::Bound;

/// A search tree of keys, of either width.
#[derive(Drop)]
pub(crate) enum Nodes {
    Narrow(BTreeSet<NarrowKey>),
    Wide(BTreeSet<Key>),
}

/// Keys, each once, in their order. A number takes four bytes, and eight as soon as a key has come
/// in one of whose numbers doesn't fit four.
#[derive(Drop)]
pub struct KeyTree {
    nodes: Nodes,
    alloc: Global,
}

impl Model for KeyTree {
    ghost use Rattle.std.specs.Prelude.{ℕ, List};
    ghost use Rattle.std.specs.BTreeSet.{BTreeSet};

    ghost Value = { BTreeSet (List ℕ) };

    ghost use Rattle.rdf_orders.specs.Inside.Widths.{tree_in, FitTheirWidth};

    ghost view = { λ t. tree_in t.nodes };

    ghost invariant = { λ t. FitTheirWidth t.nodes };
}

// The keys of a narrow tree, in a wide one.
fn widened(alloc: Global, tree: &BTreeSet<NarrowKey>) -> Result<BTreeSet<Key>, NoMemory>
    ensures { IfOk result (IsFromIterResult key_cmp tree.now.keys) }
{
    let wide = |key: &NarrowKey|
        ensures { result ≡ key.now }
    { widen(key) };
    Ok(tree.iter().map(wide).collect(alloc)?)
}

// The bound that lets the same narrow keys in.
fn narrow_bound(start: Bound<Key>) -> Bound<NarrowKey>
    ensures { (k : List ℕ) → IsNarrow k → range_contains key_cmp result Unbounded k
        ≡ range_contains key_cmp start Unbounded k }
{
    match start {
        Bound::Included(key) => match narrow(&key) {
            Some(key) => Bound::Included(key),
            None => Bound::Excluded(floor(&key)),
        },
        Bound::Excluded(key) => Bound::Excluded(floor(&key)),
        Bound::Unbounded => Bound::Unbounded,
    }
}

// Whether the numbers of each key fit 32 bits.
fn are_narrow(keys: &[Key]) -> bool
    ensures { IsTrue result → AllByRecursion IsNarrow keys.now }
{
    for key in keys {
        if narrow(key).is_none() {
            return false;
        }
    }
    true
}

// The keys in an order of the quads whose keys in `Spo` are those of a tree and of a list, in a
// narrow tree, where they are narrow.
fn narrow_tree(
    alloc: Global,
    order: Order,
    spo: &KeyTree,
    quads: &[Key],
) -> Result<BTreeSet<NarrowKey>, NoMemory>
    ensures { IfOk result (IsFromIterResult key_cmp
        (map (λ x. floor_key (key_in order (quad_of x))) (spo.now.keys ++ quads.now))) }
{
    let key_of = move |key: Key|
        ensures { result ≡ floor_key (key_in order (quad_of key)) }
    { floor(&order.arrange(&key)) };
    let quads = quads.iter().copied();
    Ok(spo.iter().chain(quads).map(key_of).collect(alloc)?)
}

// The same keys in a wide tree.
fn wide_tree(
    alloc: Global,
    order: Order,
    spo: &KeyTree,
    quads: &[Key],
) -> Result<BTreeSet<Key>, NoMemory>
    ensures { IfOk result (IsFromIterResult key_cmp
        (map (λ x. key_in order (quad_of x)) (spo.now.keys ++ quads.now))) }
{
    let key_of = move |key: Key|
        ensures { result ≡ key_in order (quad_of key) }
    { order.arrange(&key) };
    let quads = quads.iter().copied();
    Ok(spo.iter().chain(quads).map(key_of).collect(alloc)?)
}

impl KeyTree {
    /// The keys in an order of the quads whose keys in `Spo` are those of a tree and of a list, each
    /// once, in a new tree that is built at once: a narrow one, if they are narrow.
    pub(crate) fn built(
        alloc: Global,
        order: Order,
        spo: &KeyTree,
        quads: &[Key],
    ) -> Result<KeyTree, NoMemory>
        ensures { IfOk result (λ tree. IsFromIterResult key_cmp
            (map (λ x. key_in order (quad_of x)) (spo.now.keys ++ quads.now)) tree) }
    {
        let nodes = match &spo.nodes {
            Nodes::Narrow(_) if are_narrow(quads) => {
                Nodes::Narrow(narrow_tree(alloc, order, spo, quads)?)
            }
            _ => Nodes::Wide(wide_tree(alloc, order, spo, quads)?),
        };
        Ok(KeyTree { nodes, alloc })
    }

    /// No keys.
    pub(crate) fn new(alloc: Global) -> KeyTree
        ensures { IsEmpty result }
    {
        KeyTree {
            nodes: Nodes::Narrow(BTreeSet::new(alloc)),
            alloc,
        }
    }

    /// How many keys there are.
    pub fn len(&self) -> usize
        ensures len { result ≡ btree_set_len self.now }
        ensures ordered { IsOrdered key_cmp self.now }
    {
        match &self.nodes {
            Nodes::Narrow(tree) => tree.len(),
            Nodes::Wide(tree) => tree.len(),
        }
    }

    /// The keys, in their order.
    pub fn iter(&self) -> KeyIter<'_>
        ensures { result ≡ self.now.keys }
    {
        let keys = match &self.nodes {
            Nodes::Narrow(tree) => AllKeys::Narrow(tree.iter()),
            Nodes::Wide(tree) => AllKeys::Wide(tree.iter()),
        };
        KeyIter { keys }
    }

    /// The keys from a bound on, in their order.
    pub(crate) fn range_from(&self, start: Bound<Key>) -> KeyRange<'_>
        ensures between { result ≡ keys_between key_cmp start Unbounded self.now }
        ensures ordered { IsOrdered key_cmp self.now }
    {
        let keys = match &self.nodes {
            Nodes::Narrow(tree) => {
                SomeKeys::Narrow(tree.range((narrow_bound(start), Bound::Unbounded)))
            }
            Nodes::Wide(tree) => SomeKeys::Wide(tree.range((start, Bound::Unbounded))),
        };
        KeyRange { keys }
    }

    /// Whether the key is there.
    pub(crate) fn contains(&self, key: &Key) -> bool
        ensures { result ≡ contains key_cmp self.now key.now }
    {
        match &self.nodes {
            Nodes::Narrow(tree) => match narrow(key) {
                Some(key) => tree.contains(&key),
                None => false,
            },
            Nodes::Wide(tree) => tree.contains(key),
        }
    }

    /// Adds the key, and answers whether it is new. The first one that isn't narrow takes the memory
    /// of all of them, in a wide tree.
    ///
    /// # Errors
    /// [`NoMemory`] where memory is wanting: nothing has changed then.
    pub(crate) fn insert(&mut self, key: &Key) -> Result<bool, NoMemory>
        ensures added { IfOk result (λ added. added ≡ not (contains key_cmp self.old key.now)) }
        ensures updates { OnOk result (GainsOne self.old self.new key.now) }
        ensures unchanged { IfOk result (λ added. OnFalse added (IsUnchanged self.old self.new)) }
        ensures err { OnErr result (IsUnchanged self.old self.new) }
    {
        match &mut self.nodes {
            Nodes::Narrow(tree) => match narrow(key) {
                Some(key) => Ok(tree.insert(key)?),
                None => {
                    let mut wide = widened(self.alloc, tree)?;
                    let added = wide.insert(*key)?;
                    self.nodes = Nodes::Wide(wide);
                    Ok(added)
                }
            },
            Nodes::Wide(tree) => Ok(tree.insert(*key)?),
        }
    }

    /// Takes the key out, and answers whether it was there. It takes no memory.
    pub(crate) fn remove(&mut self, key: &Key) -> bool
        ensures test { result ≡ contains key_cmp self.old key.now }
        ensures updates { LosesOne self.old self.new key.now }
    {
        match &mut self.nodes {
            Nodes::Narrow(tree) => match narrow(key) {
                Some(key) => tree.remove(&key),
                None => false,
            },
            Nodes::Wide(tree) => tree.remove(key),
        }
    }
}
