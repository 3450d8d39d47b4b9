//! The lexemes behind the next: listed, or read from the text when they are asked for.
ghost use Rattle.std.specs.Prelude.{◌≡◌, ◌∷◌, [], length, MatchOption};
ghost use Rattle.std.specs.Str.{chars};
ghost use Rattle.rdf_grammar.specs.Inside.LexemeReading.{lexemes_of};
ghost use Rattle.rdf_grammar.specs.Lexemes.{unread};

use crate::lexeme::Lexeme;
use crate::terminal::Terminal;
use rdf_tokens::{Kind, Next, Slice, TokenReader};
use std::marker::Model;

// What stands for a place where no token begins.
fn unread<'a, T: Terminal>() -> Lexeme<'a, T>
    ensures { result ≡ unread T.of }
{
    Lexeme {
        terminal: T::of(Kind::Symbol, ""),
        text: Slice::new("", 0),
    }
}

// The next lexeme of a text.
#[inline(always)]
fn read_lexeme<'a, T: Terminal>(text: &mut TokenReader<'a>) -> Option<Lexeme<'a, T>>
    ensures { MatchOption result
        ((lexemes_of T.of text.old ≡ []) × (lexemes_of T.of text.new ≡ []))
        (λ found. lexemes_of T.of text.old ≡ found ∷ lexemes_of T.of text.new) }
{
    match text.next() {
        Next::Token(kind, slice) => Some(Lexeme {
            terminal: T::of(kind, slice.as_str()),
            text: slice,
        }),
        Next::End => None,
        Next::NoToken => Some(unread()),
    }
}

// How many lexemes a text has.
fn count_read<T: Terminal>(text: &TokenReader<'_>) -> usize
    ensures { result ≡ length (lexemes_of T.of text.now) }
{
    let mut rest = text.fork();
    let most = text.left();
    for count in 0..most {
        match read_lexeme::<T>(&mut rest) {
            Some(_) => {}
            None => return count,
        }
    }
    most
}

// The same lexeme once more.
fn again<'a, T: Terminal>(lexeme: &Lexeme<'a, T>) -> Lexeme<'a, T>
    ensures { result ≡ lexeme.now }
{
    Lexeme {
        terminal: lexeme.terminal,
        text: lexeme.text.fork(),
    }
}

/// Lexemes that follow, which contracts see as their list: those of a list, or those of a text, each
/// read when it is asked for.
#[derive(Drop)]
pub(crate) struct Rest<'l, 'a, T: Terminal> {
    text: Option<TokenReader<'a>>,
    listed: &'l [Lexeme<'a, T>],
}

impl<'l, 'a, T: Terminal> Model for Rest<'l, 'a, T> {
    ghost use Rattle.rdf_grammar.specs.Inside.LexemeReading.{following};
    ghost use Rattle.rdf_grammar.specs.Terminals.{Lexemes};

    ghost Value = { Lexemes T };

    ghost view = { λ r. following T.of r.text r.listed.now };
}

impl<'a, T: Terminal> Rest<'a, 'a, T> {
    /// Those of a text.
    pub fn read(text: &'a str) -> Rest<'a, 'a, T>
        ensures { result ≡ lexemes_of T.of (chars text.now) }
    {
        Rest {
            text: Some(TokenReader::new(text)),
            listed: &[],
        }
    }
}

impl<'l, 'a, T: Terminal> Rest<'l, 'a, T> {
    /// Those of a list.
    pub fn listed(lexemes: &'l [Lexeme<'a, T>]) -> Rest<'l, 'a, T>
        ensures { result ≡ lexemes.now }
    {
        Rest {
            text: None,
            listed: lexemes,
        }
    }

    /// The same lexemes once more.
    pub fn fork(&self) -> Rest<'l, 'a, T>
        ensures { result ≡ self.now }
    {
        let text = match &self.text {
            Some(text) => Some(text.fork()),
            None => None,
        };
        Rest {
            text,
            listed: self.listed,
        }
    }

    /// How many they are.
    pub fn count(&self) -> usize
        ensures { result ≡ length self.now }
    {
        match &self.text {
            Some(text) => count_read::<T>(text),
            None => self.listed.len(),
        }
    }

    /// Takes the first.
    #[inline(always)]
    pub fn take(&mut self) -> Option<Lexeme<'a, T>>
        ensures { MatchOption result ((self.old ≡ []) × (self.new ≡ []))
            (λ first. self.old ≡ first ∷ self.new) }
    {
        if let Some(text) = &mut self.text {
            return read_lexeme(text);
        }
        match self.listed {
            [] => None,
            [first, listed @ ..] => {
                self.listed = listed;
                Some(again(first))
            }
        }
    }
}
