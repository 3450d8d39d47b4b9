//! The solutions of patterns over a dataset, and the results of queries (SPARQL 1.1 Query, sections
//! 16 and 18).
//!
//! `sparql_eval` calls it, for updates, and hands it on to those that ask queries. It changes
//! nothing, reads no text, and writes none: rows are terms.
#![tactic(auto)]

mod above;
mod asking;
mod basic;
mod bins;
mod chunks;
mod coded;
mod counted;
mod evaluation;
mod evaluator;
mod filters;
mod flags;
mod grown;
mod joins;
mod keyed;
mod keys;
mod laws;
mod look_ups;
mod mappings;
mod matching;
mod members;
mod minus;
mod names;
mod once;
mod order;
mod partners;
mod parts;
mod place;
mod results;
mod rows;
mod shapes;
mod sharing;
mod shown;
mod sides;
mod term_bins;
mod values;

pub use keys::runs_give_merges;
pub use laws::{look_ups_are_merges, rows_are_followed};
pub use mappings::Mapping;
pub use results::{
    SolutionMappings, Solutions, ask, ask_with, select, select_with, solve, sorted_solutions,
};
pub use rows::Row;
pub use sparql_values::SortedNames;
