//! Tokens read from the text when they are asked for.
ghost use Rattle.std.specs.Prelude.{◌≡◌, ◌≤◌, false};
ghost use Rattle.std.specs.Str.{chars};
ghost use Rattle.rdf_terms.specs.Reading.{byte_count};
ghost use Rattle.rdf_tokens.specs.Inside.TokenReading.{skip_gap};
ghost use Rattle.rdf_tokens.specs.NextTokens.{IsNext};
ghost use Rattle.rdf_tokens.specs.Sizes.{longest};

use crate::gap::skip_gap;
use crate::slice::Slice;
use crate::token::Kind;
use crate::tokenizer::{is_end, token};
use rdf_terms::Cursor;
use std::marker::Model;

/// What comes next in a text.
#[derive(Debug, Drop)]
pub enum Next<'a> {
    /// A token: its form, and the slice of the text that it is.
    Token(Kind, Slice<'a>),
    /// Nothing but a gap.
    End,
    /// Something at which no token begins.
    NoToken,
}

/// A place in a text where a token may begin. A contract sees the characters that follow it.
#[derive(Drop)]
pub struct TokenReader<'a> {
    rest: Cursor<'a>,
    // no prefixed name begins where more bytes follow
    nameless: usize,
    total: usize,
}

impl<'a> Model for TokenReader<'a> {
    ghost use Rattle.std.specs.Prelude.{ℕ, List};
    ghost use Rattle.rdf_tokens.specs.Inside.Places.{IsBetweenTokens};

    ghost Value = { List ℕ };

    ghost view = { λ r. r.rest };

    ghost invariant = { λ r. IsBetweenTokens r.rest r.nameless };
}

impl<'a> TokenReader<'a> {
    /// The place before the first token.
    pub fn new(text: &'a str) -> TokenReader<'a>
        ensures { result ≡ chars text.now }
    {
        TokenReader {
            rest: Cursor::new(text),
            nameless: text.len(),
            total: text.len(),
        }
    }

    /// Another reader at this place.
    pub fn fork(&self) -> TokenReader<'a>
        ensures { result ≡ self.now }
    {
        TokenReader {
            rest: self.rest.fork(),
            nameless: self.nameless,
            total: self.total,
        }
    }

    /// How many bytes follow.
    pub fn left(&self) -> usize
        ensures bytes { result ≡ byte_count self.now }
        ensures fits { result ≤ longest }
    {
        self.rest.left()
    }

    // How many bytes follow where the next token begins, or where none does.
    pub(crate) fn left_behind_gap(&self) -> usize
        ensures { result ≡ byte_count (skip_gap false self.now) }
    {
        skip_gap(&self.rest).left()
    }

    /// Takes the next token (Turtle 1.1, section 6.5; SPARQL 1.1 Query, section 19.8), the longest that
    /// begins behind white space and comments. Behind it the next one follows, and behind a place
    /// where none begins, nothing.
    #[inline(always)]
    pub fn next(&mut self) -> Next<'a>
        ensures { IsNext self.old result self.new }
    {
        let start = skip_gap(&self.rest);
        if is_end(&start) {
            self.rest = start;
            return Next::End;
        }
        let mut nameless = self.nameless;
        match token(&start, &mut nameless) {
            Some((kind, behind)) => {
                let text = start.text_up_to(&behind);
                let slice = Slice::new(text, self.total.saturating_sub(start.left()));
                self.rest = behind;
                self.nameless = nameless;
                Next::Token(kind, slice)
            }
            None => {
                self.rest = Cursor::new("");
                Next::NoToken
            }
        }
    }
}
