//! SPARQL's terminals: tokens as its grammar sees them (SPARQL 1.1 Query, section 19.8), and the
//! words that this profile leaves out.
//!
//! The crates of SPARQL's grammar call it, and `sparql_syntax` for the words. It has no
//! productions.
#![tactic(auto)]

mod laws;
mod lexeme;
mod outside;
mod terminal;

pub use laws::lexemes_have_forms;
pub use lexeme::{Lexeme, Parser};
pub use outside::is_left_out;
pub use terminal::Terminal;
