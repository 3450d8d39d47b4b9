//! Escapes, the characters that they may stand for, and texts with their escapes read.
ghost use Rattle.std.specs.Prelude.{◌≡◌, ◌<◌, IfOk, IfSome, string_bytes, option_map};
ghost use Rattle.rdf_terms.specs.Reading.{hex_at, hex4_at, numeric_at, escape_at, character_at, iri_character_at, string_character_at};
ghost use Rattle.rdf_terms.specs.Escapes.{IsCharacter, Unescapes, WritesOnce};
ghost use Rattle.rdf_terms.specs.ReadingLaws.{IsSoundReader, IsCompleteReader, IsEscapeBehind};

use crate::character::is_forbidden_in_iri;
use crate::cursor::Cursor;
use crate::fault::NoMemory;
use std::alloc::Global;

impl<'a> Cursor<'a> {
    /// The value of a hexadecimal digit, and the place behind it.
    #[tactic(auto, unfolding(crate::specs::Reading::hex_at))]
    pub fn hex(&self) -> Option<(u32, Cursor<'a>)>
        ensures value { result ≡ hex_at self.now }
        ensures small { IfSome result (λ t. t.0 < 16) }
    {
        let mut rest = self.fork();
        let digit = rest.bump()?.to_digit(16)?;
        Some((digit, rest))
    }

    /// The value of four hexadecimal digits, and the place behind them.
    #[tactic(auto, unfolding(crate::specs::Reading::hex4_at))]
    fn hex4(&self) -> Option<(u32, Cursor<'a>)>
        ensures value { result ≡ hex4_at self.now }
        ensures small { IfSome result (λ t. t.0 < 65536) }
    {
        let (a, rest) = self.hex()?;
        let (b, rest) = rest.hex()?;
        let (c, rest) = rest.hex()?;
        let (d, rest) = rest.hex()?;
        Some((a * 4096 + b * 256 + c * 16 + d, rest))
    }

    /// UCHAR: an escape by number, behind its backslash.
    #[tactic(auto, unfolding(crate::specs::Reading::numeric_at, crate::specs::Reading::scalar_only))]
    fn numeric(&self) -> Option<(char, Cursor<'a>)>
        ensures { result ≡ numeric_at self.now }
    {
        let mut rest = self.fork();
        match rest.bump()? {
            'u' => {
                let (code, rest) = rest.hex4()?;
                Some((char::from_u32(code)?, rest))
            }
            'U' => {
                let (high, rest) = rest.hex4()?;
                let (low, rest) = rest.hex4()?;
                Some((char::from_u32(high * 65536 + low)?, rest))
            }
            _ => None,
        }
    }

    /// UCHAR or ECHAR: any escape, behind its backslash.
    #[tactic(auto, unfolding(crate::specs::Reading::escape_at, crate::specs::Characters::short_escape))]
    pub(crate) fn escape(&self) -> Option<(char, Cursor<'a>)>
        ensures { result ≡ escape_at self.now }
    {
        let mut rest = self.fork();
        match rest.bump()? {
            'u' | 'U' => self.numeric(),
            't' => Some(('\t', rest)),
            'b' => Some(('\u{8}', rest)),
            'n' => Some(('\n', rest)),
            'r' => Some(('\r', rest)),
            'f' => Some(('\u{C}', rest)),
            c @ ('"' | '\'' | '\\') => Some((c, rest)),
            _ => None,
        }
    }

    /// One character, itself or an escape.
    #[tactic(auto, unfolding(crate::specs::Reading::character_at))]
    pub fn character(&self) -> Option<(char, Cursor<'a>)>
        ensures { result ≡ character_at self.now }
    {
        let mut rest = self.fork();
        let c = rest.bump()?;
        if c == '\\' {
            rest.escape()
        } else {
            Some((c, rest))
        }
    }

    /// One character of an IRI.
    #[tactic(auto, unfolding(crate::specs::Reading::iri_character_at, crate::specs::Reading::allowed_only))]
    pub(crate) fn iri_character(&self) -> Option<(char, Cursor<'a>)>
        ensures { result ≡ iri_character_at self.now }
    {
        let mut rest = self.fork();
        let first = rest.bump()?;
        let (c, rest) = if first == '\\' {
            rest.numeric()?
        } else {
            (first, rest)
        };
        if is_forbidden_in_iri(c) {
            None
        } else {
            Some((c, rest))
        }
    }

    /// One character of a string between such quotes.
    #[tactic(auto, unfolding(crate::specs::Reading::string_character_at))]
    pub(crate) fn string_character(&self, quote: char) -> Option<(char, Cursor<'a>)>
        ensures { result ≡ string_character_at quote self.now }
    {
        let mut rest = self.fork();
        let c = rest.bump()?;
        if c == '\\' {
            return rest.escape();
        }
        if c == quote || matches!(c, '\n' | '\r') {
            None
        } else {
            Some((c, rest))
        }
    }
}

/// The text that `text` writes, each UCHAR and ECHAR read (Turtle 1.1, section 6.4), or `None`
/// where a backslash begins no escape, or an escape's number is a surrogate's or past U+10FFFF.
///
/// # Errors
/// [`NoMemory`] where memory is wanting.
pub fn unescape(alloc: Global, text: &str) -> Result<Option<String>, NoMemory>
    ensures { IfOk result (λ o. Unescapes text.now (option_map string_bytes o)) }
{
    let mut rest = Cursor::new(text);
    let mut value = String::with_capacity(alloc, text.len())?;
    while rest.peek().is_some() {
        let Some((c, behind)) = rest.character() else {
            return Ok(None);
        };
        value.push(c)?;
        rest = behind;
    }
    Ok(Some(value))
}

/// A text writes one value at most.
pub fn one_value()
    ensures { WritesOnce }
{}

/// What is read behind a backslash is an escape, UCHAR or ECHAR (Turtle 1.1, section 6.5), and an
/// escape is read, whatever follows it.
pub fn escapes_are_read()
    ensures sound { IsSoundReader IsEscapeBehind escape_at }
    ensures complete { IsCompleteReader IsEscapeBehind escape_at }
{}

/// What is read as a character stands for itself or is an escape, and one is read, whatever
/// follows it.
pub fn characters_are_read()
    ensures sound { IsSoundReader IsCharacter character_at }
    ensures complete { IsCompleteReader IsCharacter character_at }
{}
