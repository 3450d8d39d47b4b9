//! Queries and updates of SPARQL 1.1 as trees, whose terms are resolved (SPARQL 1.1 Query, sections 5
//! and 16; SPARQL 1.1 Update, section 3).
//!
//! `sparql_syntax` and what stands below it make them, `sparql_solve` and `sparql_eval` follow
//! them. It has neither texts nor meanings.
#![tactic(auto)]

mod boxed;
mod data;
mod expression;
mod operation;
mod pattern;
mod query;
mod template;
mod visible;

pub use boxed::Boxed;
pub use data::{Data, GroundData};
pub use expression::{Comparison, Expression, Function, Sign};
pub use operation::{GraphOrDefault, GraphRefAll, Operation, Request};
pub use pattern::{BasicGraphPattern, Member, Pattern, TriplePattern, VarOrIri, VarOrTerm};
pub use query::{Query, Select};
pub use template::{Modify, QuadPattern, Template};
pub use visible::{
    forms_bring_into_scope, named_variables, one_list_of_visible_variables, visible_variables,
};
