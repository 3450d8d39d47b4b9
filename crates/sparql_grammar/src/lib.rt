//! The grammar of SPARQL (SPARQL 1.1 Query, section 19.8): requests and queries as trees whose
//! names are as written.
//!
//! `sparql_syntax` calls it, and the crates between the two read its trees. It resolves no name,
//! numbers no blank node, and asks no static rule.
#![tactic(auto)]

mod body;
mod grammar;
mod group;
mod laws;
mod operations;
mod prologue;
mod query;
mod tree;
mod update;

pub use laws::{
    filters_end_no_triples, one_query_tree, one_request_tree, quads_are_groups, queries_are_proper,
    requests_are_proper,
};
pub use query::parse_query;
pub use tree::{
    Block, Columns, Declaration, Expression, GraphOrDefault, GraphRefAll, Group, Literal, Member,
    Modify, Name, Node, Operation, Part, Property, Query, QueryForm, Triples, VarOrIri, Verb,
};
pub use update::parse_update;
