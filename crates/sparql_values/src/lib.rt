//! The values of expressions (SPARQL 1.1 Query, section 17): terms, errors, and truth.
//!
//! `sparql_solve` calls it for filters, and the definitions of `sparql_algebra` speak of its own.
//! Decimals, doubles and dates have no value here, and a whole number has 128 bits.
#![tactic(auto)]

mod columns;
mod comparison;
mod evaluator;
mod function;
mod laws;
mod literal;
mod mapping;
mod number;
mod sorted_names;
mod truth;
mod value;

pub use columns::Columns;
pub use evaluator::is_satisfied;
pub use laws::{
    comparison_tables_hold, comparisons_keep_their_laws, expression_tables_hold, logic_tables_hold,
    mappings_are_merged, results_are_read_back, term_tables_hold,
};
pub use sorted_names::SortedNames;
