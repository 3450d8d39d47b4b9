//! Tokens with their characters, as a grammar tells them apart.

use rdf_tokens::Slice;

/// A token: its terminal, and the slice of the text that it is.
#[derive(Debug, Drop)]
pub struct Lexeme<'a, T> {
    /// What the grammar takes it for.
    pub terminal: T,
    /// The slice of the text.
    pub text: Slice<'a>,
}
