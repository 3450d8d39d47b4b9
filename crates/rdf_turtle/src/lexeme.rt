//! Tokens as Turtle's grammar sees them, and the cursor over them.

use crate::terminal::Terminal;

/// A token: its terminal, and the slice of the text that it is.
pub type Lexeme<'a> = rdf_grammar::Lexeme<'a, Terminal>;

/// Lexemes to read.
pub(crate) type Parser<'l, 'a> = rdf_grammar::Parser<'l, 'a, Terminal>;
