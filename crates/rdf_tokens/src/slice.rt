//! Slices of a text.
ghost use Rattle.std.specs.Prelude.{◌≡◌};
ghost use Rattle.std.specs.Str.{chars};
ghost use Rattle.rdf_tokens.specs.Tokens.{Stands, HasItsForm};

use crate::token::Token;
use std::marker::Model;

/// A slice of a text: characters that stand together, and the byte of the text at which it starts. A contract sees its characters, by their code points.
#[derive(Debug, Drop)]
pub struct Slice<'a> {
    text: &'a str,
    start: usize,
}

impl<'a> Model for Slice<'a> {
    ghost use Rattle.std.specs.Prelude.{ℕ, List};
    ghost use Rattle.std.specs.Str.{chars, IsUtf8};

    ghost Value = { List ℕ };

    ghost view = { λ s. chars s.text.now };

    ghost invariant = { λ s. IsUtf8 s.text.now };
}

impl<'a> Slice<'a> {
    /// The slice `text`, which starts at that byte.
    pub fn new(text: &'a str, start: usize) -> Slice<'a>
        ensures { result ≡ chars text.now }
    {
        Slice { text, start }
    }

    /// The same slice once more.
    pub fn fork(&self) -> Slice<'a>
        ensures { result ≡ self.now }
    {
        Slice {
            text: self.text,
            start: self.start,
        }
    }

    /// The byte at which it starts. No contract tells it, since slices with the same characters are one
    /// value: it serves for the line of a fault alone.
    pub fn start(&self) -> usize {
        self.start
    }

    /// Its characters.
    pub fn as_str(&self) -> &'a str
        ensures { chars result.now ≡ self.now }
    {
        self.text
    }
}

/// The slice of a token of this text.
pub fn slice_of<'a>(text: &'a str, token: &Token) -> Slice<'a>
    requires { HasItsForm (chars text.now) token.now }
    ensures { Stands (chars text.now) token.now.start token.now.stop result }
{
    Slice::new(&text[token.start..token.stop], token.start)
}
