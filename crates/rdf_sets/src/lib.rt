//! Sets of terms and of quads, as sorted lists and as search trees, and what one of two such sets
//! has that the other hasn't.
//!
//! `rdf_dataset` calls it, for nets and staged views. It finds no quads by a part of them: that is
//! what `rdf_orders` is for.
#![tactic(auto)]

mod delta;
mod item;
mod sorted;
mod tree;
mod tree_delta;

pub use delta::Delta;
pub use item::Item;
pub use sorted::{Sorted, append_copies, append_copy, in_order};
pub use tree::Tree;
pub use tree_delta::TreeDelta;
