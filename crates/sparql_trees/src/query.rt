//! Queries (SPARQL 1.1 Query, section 16).

use crate::pattern::Pattern;
use rdf_terms::{Items, Text};

/// SELECT (section 16.1).
#[derive(Drop)]
pub struct Select {
    /// Whether each row stands once (section 18.2.5).
    pub distinct: bool,
    /// The names of the columns from left to right, without `?` or `$`. For `*` they are the visible
    /// variables of the pattern in the order of their names.
    pub columns: Items<Text>,
    pub pattern: Pattern,
}

/// A query (2: Query).
#[derive(Drop)]
pub enum Query {
    Select(Select),
    /// ASK: whether the pattern has a solution (section 16.3).
    Ask(Pattern),
}
