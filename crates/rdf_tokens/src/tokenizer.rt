//! The token list of a text.
ghost use Rattle.std.specs.Prelude.{◌≡◌, ℕ, List, [], ◌∷◌, Ok, MatchBool, IfOk, IfErr};
ghost use Rattle.std.specs.Str.{chars};
ghost use Rattle.rdf_tokens.specs.Faults.{TellsFault};
ghost use Rattle.rdf_tokens.specs.Inside.TokenReading.{as_kind, or_else, iri_end_at, pname_at, word_at, token_at, number_or_symbol_at, NoPnameBefore};
ghost use Rattle.rdf_tokens.specs.declared.token.Kind.TheVariants.{Iri, Pname, Word};
ghost use Rattle.rdf_tokens.specs.Tokens.{Tokenizes, HasOneTokenList, HasSomeTokenList, TokensHaveForms};

use crate::dotted::{blank, pname};
use crate::fault::TokenFault;
use crate::gap::skip_gap;
use crate::name::{variable, word};
use crate::number::number;
use crate::quoted::text;
use crate::symbol::{stands_alone, symbol};
use crate::token::{Kind, Token};
use rdf_terms::{Cursor, is_pn_chars_base};
use std::alloc::Global;

/// A token of this kind, where one ends.
#[inline(always)]
fn of_kind<'a>(kind: Kind, end: Option<Cursor<'a>>) -> Option<(Kind, Cursor<'a>)>
    ensures { result ≡ as_kind kind end.entry }
{
    Some((kind, end?))
}

/// A number, or otherwise a symbol.
#[tactic(auto, unfolding(crate::specs::Inside::TokenReading::number_or_symbol_at))]
#[inline(always)]
fn number_or_symbol<'a>(cursor: &Cursor<'a>) -> Option<(Kind, Cursor<'a>)>
    ensures { result ≡ number_or_symbol_at cursor.now }
{
    match number(cursor) {
        Some(found) => Some(found),
        None => of_kind(Kind::Symbol, symbol(cursor)),
    }
}

/// An IRI, or otherwise a symbol.
#[inline(always)]
fn iri_or_symbol<'a>(cursor: &Cursor<'a>) -> Option<(Kind, Cursor<'a>)>
    ensures { let iri = as_kind Iri (iri_end_at cursor.now) in
        result ≡ or_else iri (number_or_symbol_at cursor.now) }
{
    match cursor.iri_end() {
        Some(behind) => Some((Kind::Iri, behind)),
        None => number_or_symbol(cursor),
    }
}

/// A prefixed name, or otherwise a word. `nameless` is [`pname`]'s.
#[inline(always)]
fn pname_or_word<'a>(cursor: &Cursor<'a>, nameless: &mut usize) -> Option<(Kind, Cursor<'a>)>
    requires { NoPnameBefore cursor.now nameless.old }
    ensures token { let name = as_kind Pname (pname_at cursor.now) in
        result ≡ or_else name (as_kind Word (word_at cursor.now)) }
    ensures nameless { NoPnameBefore cursor.now nameless.new }
{
    match pname(cursor, nameless) {
        Some(behind) => Some((Kind::Pname, behind)),
        None => of_kind(Kind::Word, word(cursor)),
    }
}

/// The longest token that begins here, and the place behind it. `nameless` is [`pname`]'s.
#[tactic(auto, unfolding(crate::specs::Inside::TokenReading::token_at))]
#[inline(always)]
pub(crate) fn token<'a>(cursor: &Cursor<'a>, nameless: &mut usize) -> Option<(Kind, Cursor<'a>)>
    requires { NoPnameBefore cursor.now nameless.old }
    ensures token { result ≡ token_at cursor.now }
    ensures nameless { NoPnameBefore cursor.now nameless.new }
{
    let mut behind = cursor.fork();
    let c = behind.bump()?;
    if stands_alone(c) {
        return Some((Kind::Symbol, behind));
    }
    if c == '<' {
        return iri_or_symbol(cursor);
    }
    if matches!(c, '"' | '\'') {
        return of_kind(Kind::Text, text(c, cursor));
    }
    if matches!(c, '?' | '$') {
        return of_kind(Kind::Var, variable(&behind));
    }
    if c == '@' {
        return of_kind(Kind::AtWord, behind.tag_end());
    }
    if c == '_' {
        return of_kind(Kind::BlankLabel, blank(&behind));
    }
    if is_pn_chars_base(c) || c == ':' {
        return pname_or_word(cursor, nameless);
    }
    number_or_symbol(cursor)
}

/// Whether nothing follows.
pub(crate) fn is_end(cursor: &Cursor<'_>) -> bool
    ensures { MatchBool result (cursor.now ≡ []) ((c : ℕ) × (others : List ℕ)
        × (cursor.now ≡ c ∷ others)) }
{
    match cursor.peek() {
        Some(_) => false,
        None => true,
    }
}

/// The tokens of a text (Turtle 1.1, section 6.5; SPARQL 1.1 Query, section 19.8), each the longest that
/// begins at its place, with white space and comments between them.
///
/// # Errors
/// [`TokenFault::NoToken`] with the first byte where no token begins, if there is one: the text then has
/// no token list. [`TokenFault::NoMemory`] where memory is wanting.
pub fn tokens(alloc: Global, text: &str) -> Result<Vec<Token>, TokenFault>
    ensures said { IfOk result (λ list. Tokenizes (chars text.now) (Ok list.items)) }
    ensures fault { IfErr result (λ fault. TellsFault (chars text.now) fault) }
{
    let mut list = Vec::new(alloc);
    let mut rest = Cursor::new(text);
    let mut nameless = text.len();
    loop {
        let start = skip_gap(&rest);
        if is_end(&start) {
            return Ok(list);
        }
        let place = text.len() - start.left();
        let Some((kind, behind)) = token(&start, &mut nameless) else {
            return Err(TokenFault::NoToken(place));
        };
        list.push(Token {
            kind,
            start: place,
            stop: text.len() - behind.left(),
        })?;
        rest = behind;
    }
}

/// A text has one token list at most, or one place where there is none.
pub fn one_token_list()
    ensures { HasOneTokenList }
{}

/// Each text has a token list, or a place where no token begins.
pub fn some_token_list()
    ensures { HasSomeTokenList }
{}

/// In a text's token list, the slice of each token has the form of its kind.
pub fn tokens_have_forms()
    ensures { TokensHaveForms }
{}
