//! The tokens of a text with the bytes where they start, read one at a time.
ghost use Rattle.std.specs.Prelude.{◌≡◌, ◌∷◌, [], MatchOption};
ghost use Rattle.std.specs.Str.{chars};
ghost use Rattle.rdf_tokens.specs.Walks.{AreFoundIn};

use crate::reader::{Next, TokenReader};
use crate::slice::Slice;
use crate::token::Kind;
use std::marker::Model;

/// What stands in a text between gaps, and the byte of the text where it starts.
#[derive(Debug, Drop)]
pub enum Found<'a> {
    /// A token: where it starts, its form, and the slice of the text that it is.
    Token(usize, Kind, Slice<'a>),
    /// Something at which no token begins.
    NoToken(usize),
}

/// A walk over the tokens of a text, which contracts see as the list of what it comes to from here on.
/// Nothing of the text is held.
#[derive(Drop)]
pub struct TokenWalk<'a> {
    reader: TokenReader<'a>,
    size: usize,
}

impl<'a> Model for TokenWalk<'a> {
    ghost use Rattle.std.specs.Prelude.{List};
    ghost use Rattle.rdf_tokens.specs.declared.walk.Found.{Found as Thing};
    ghost use Rattle.rdf_tokens.specs.Inside.WalkReading.{found_of};

    ghost Value = { List Thing };

    ghost view = { λ w. found_of w.size w.reader };
}

impl<'a> TokenWalk<'a> {
    /// A walk from the start of a text: over its tokens, up to the end or to the first place where none
    /// begins (Turtle 1.1, section 6.5; SPARQL 1.1 Query, section 19.8).
    pub fn over(text: &'a str) -> TokenWalk<'a>
        ensures { AreFoundIn (chars text.now) result }
    {
        TokenWalk {
            reader: TokenReader::new(text),
            size: text.len(),
        }
    }

    /// Takes what comes next, if something does.
    pub fn next(&mut self) -> Option<Found<'a>>
        ensures { MatchOption result ((self.old ≡ []) × (self.new ≡ []))
            (λ found. self.old ≡ found ∷ self.new) }
    {
        let start = self.size.saturating_sub(self.reader.left_behind_gap());
        match self.reader.next() {
            Next::Token(kind, slice) => Some(Found::Token(start, kind, slice)),
            Next::End => None,
            Next::NoToken => Some(Found::NoToken(start)),
        }
    }
}
