//! Where the keys of a run begin in the tree of its order.
ghost use Rattle.std.specs.Prelude.{◌≡◌, ◌≤◌, ℕ, List, length, option_copied};
ghost use Rattle.std.specs.BTreeMap.Range.{IsLeBy};
ghost use Rattle.rdf_orders.specs.Quads.{key_cmp};
ghost use Rattle.rdf_orders.specs.Runs.{BeginsWith};
ghost use Rattle.rdf_orders.specs.Inside.Ahead.{AreKeysAhead};
ghost use Rattle.rdf_orders.specs.Inside.Starts.{StartsRun};

use crate::key_iters::KeyRange;
use crate::order::{Key, Order};
use crate::quad_sets::QuadSets;
use std::ops::Bound;

// The least key that begins with the prefix.
fn least_key(prefix: &[u64]) -> Key
    requires { length prefix.now ≤ 4 }
    ensures begins { BeginsWith prefix.now result }
    ensures least { (k : List ℕ) → length k ≡ 4 → BeginsWith prefix.now k →
        IsLeBy key_cmp result k }
{
    let mut key = [0; 4];
    key[..prefix.len()].copy_from_slice(prefix);
    key
}

// Where the keys begin that are ahead.
fn start_of(prefix: &[u64], after: Option<&Key>) -> Bound<Key>
    requires { length prefix.now ≤ 4 }
    ensures { StartsRun prefix.now (option_copied after.entry) result }
{
    let least = least_key(prefix);
    match after {
        Some(after) if *after >= least => Bound::Excluded(*after),
        _ => Bound::Included(least),
    }
}

impl QuadSets {
    /// The keys of the order, from where those begin that begin with the prefix and are greater than
    /// `after`. It takes no memory.
    pub(crate) fn keys_ahead(
        &self,
        order: Order,
        prefix: &[u64],
        after: Option<&Key>,
    ) -> KeyRange<'_>
        requires { length prefix.now ≤ 4 }
        ensures { AreKeysAhead self.now.quads order prefix.now (option_copied after.entry) result }
    {
        let start = start_of(prefix, after);
        self.trees.of(order).range_from(start)
    }
}
