//! A dataset as sorted lists, for tests beside [`Dataset`](rdf_dataset::Dataset) (RDF 1.1 Concepts, section 4).
//!
//! `dataset_model` calls it; the program doesn't. What it does costs the size of the dataset.
#![tactic(auto)]

mod matching;
mod plain;

pub use plain::PlainDataset;
