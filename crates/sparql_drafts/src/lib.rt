//! What the text of a SPARQL request says before its static rules are asked: names with their IRIs,
//! triples, and blank nodes numbered by their places (SPARQL 1.1 Query, sections 4.1 and 4.2).
//!
//! `sparql_queries` and `sparql_syntax` call it. It has neither groups nor filters, and asks no
//! static rule.
#![tactic(auto)]

mod draft;
mod fault;
mod known;
mod laws;
mod meaning;
mod scope;

pub use draft::{QuadPattern, Quads, VarOrIri, VarOrTerm};
pub use fault::DraftFault;
pub use known::{
    declare_prefix, knows_all_triples, knows_blocks, knows_literal, knows_name, knows_var_or_iri,
};
pub use laws::{
    abbreviations_stand_for_triples, blank_numbers_are_below, declarations_are_in_force,
    nodes_stand_for_terms, triples_stand_in_their_graph, triples_stand_with_their_nodes,
};
pub use scope::Scope;
