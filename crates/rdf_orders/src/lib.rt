//! Sets of quads of numbers, kept in three orders: for each choice of bound places the quads
//! wanted stand together in one of them. What a store keeps of a dataset (RDF 1.1 Concepts,
//! section 4) once its terms have numbers.
//!
//! `rdf_store` calls it. It knows no terms and no texts, and which numbers there are is its
//! caller's.
#![tactic(auto)]

mod key_iters;
mod key_tree;
mod laws;
mod look_ups;
mod narrow;
mod next;
mod order;
mod orders;
mod quad_sets;
mod run;
mod trees;
mod walk;

pub use key_iters::{KeyIter, KeyRange};
pub use key_tree::KeyTree;
pub use laws::matching_quads_stand_together;
pub use look_ups::{look_up, look_up_some};
pub use order::{Key, Order};
pub use orders::Orders;
pub use quad_sets::QuadSets;
pub use run::Run;
pub use walk::Walk;
