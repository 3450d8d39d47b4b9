//! What queries and updates say: patterns with resolved terms, columns, and templates (SPARQL 1.1
//! Query, sections 4, 5 and 16; SPARQL 1.1 Update, section 3.1.3).
//!
//! `sparql_syntax` calls it. It asks no static rule, and doesn't say what a pattern finds.
#![tactic(auto)]

mod basic;
mod expression;
mod group;
mod known;
mod laws;
mod quads;
mod query;
mod template;

pub use group::pattern_of;
pub use known::{knows_group, knows_query};
pub use laws::{groups_are_as_written, templates_stand_in_their_graph};
pub use quads::quads_pattern_of;
pub use query::{Said, said_by};
pub use template::quad_patterns;
