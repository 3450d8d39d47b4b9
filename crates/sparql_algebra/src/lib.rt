//! The algebra of SPARQL's patterns: what a pattern's solutions are, how often each is counted, and
//! what the results of queries are (SPARQL 1.1 Query, sections 16.1, 16.3 and 18). It holds
//! definitions, and laws of them; an evaluator stands above it.
//!
//! The contracts of `sparql_solve`, `sparql_eval` and `rdf_session` speak of it. It runs nothing.
#![tactic(auto)]

mod examples;
mod laws;
mod under;
mod words;

pub use examples::the_standards_examples_hold;
pub use laws::{
    counts_are_the_algebra, counts_depend_on_the_state, merges_grow, minus_takes_away, one_answer,
    one_selection, one_solution_list, operators_keep_their_laws, solutions_agree,
    solutions_are_of_the_dataset, variables_of_minus,
};
pub use under::{
    joined_under_the_left, operators_under_a_mapping, patterns_see_their_own, sides_found_alone,
};
pub use words::{groups_are_translated, mappings_are_kept};
