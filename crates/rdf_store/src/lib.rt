//! Quads and graph names, kept by the numbers of their terms: a table of terms, and three orders of
//! quads of numbers behind it. Callers speak of quads and terms alone (RDF 1.1 Concepts, section
//! 4).
//!
//! `rdf_dataset` calls it. It has no blank counter, no nets and no history, and a term stays in its
//! table when its quads go.
#![tactic(auto)]

mod look_ups;
mod numbers;
mod pattern;
mod quad_list;
mod ranks;
mod store;

pub use quad_list::QuadList;
pub use store::Store;
