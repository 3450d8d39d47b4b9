//! Tables of cases, in the form that `tests/run` reads.
//!
//! The programs `word_tests`, `acceptance` and `eval_tests` run them; `rdfkeep` doesn't.
#![tactic(auto)]

mod case;
mod table;

pub use case::{Case, Part};
pub use table::read_table;
