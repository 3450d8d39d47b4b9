//! What a look-up goes to.
ghost use Rattle.std.specs.Prelude.{◌≡◌, ℕ, MatchOption, is_some, if◌then◌else◌, option_copied};
ghost use Rattle.rdf_orders.specs.Quads.{IdQuads};
ghost use Rattle.rdf_orders.specs.Runs.{IsNextKey, NoneAhead, raised_by};

use crate::order::{Key, Order};

/// One set of quads in all three orders, and a count of the keys that it answered.
pub trait Orders {
    ghost quads: { Self → IdQuads };

    ghost count: { Self → ℕ };

    /// The least key of the order that begins with the prefix and is greater than `after`. Each key
    /// answered raises the count by one, up to the greatest `usize`, where it stays. It takes no
    /// memory.
    fn next_in(&mut self, order: Order, prefix: &[u64], after: Option<&Key>) -> Option<Key>
        ensures next { MatchOption result
            (NoneAhead (quads self.old) order prefix.now (option_copied after.entry))
            (IsNextKey (quads self.old) order prefix.now (option_copied after.entry)) }
        ensures counted { count self.new
            ≡ raised_by (if is_some result then 1 else 0) (count self.old) }
        ensures kept { quads self.new ≡ quads self.old };
}
