//! White space and comments between tokens.
ghost use Rattle.std.specs.Prelude.{◌≡◌, false};
ghost use Rattle.rdf_terms.specs.Skips.{skip};
ghost use Rattle.rdf_tokens.specs.Characters.{is_white};
ghost use Rattle.rdf_tokens.specs.Inside.Shortcuts.{in_line};
ghost use Rattle.rdf_tokens.specs.Inside.TokenReading.{skip_gap};

use crate::character::{is_line_end, is_white};
use rdf_terms::Cursor;

/// Whether a comment goes on with a character.
fn in_line(c: char) -> bool
    ensures { result ≡ in_line c }
{
    !is_line_end(c)
}

#[inline(always)]
fn skip_white<'a>(cursor: &Cursor<'a>) -> Cursor<'a>
    ensures { result ≡ skip is_white cursor.now }
{
    cursor.skip(is_white)
}

fn skip_line<'a>(cursor: &Cursor<'a>) -> Cursor<'a>
    ensures { result ≡ skip in_line cursor.now }
{
    cursor.skip(in_line)
}

/// The place behind white space and comments (Turtle 1.1, sections 6.1 and 6.2).
#[inline(always)]
pub fn skip_gap<'a>(cursor: &Cursor<'a>) -> Cursor<'a>
    ensures { result ≡ skip_gap false cursor.now }
{
    let mut rest = skip_white(cursor);
    while let Some(comment) = rest.expect('#') {
        let line_end = skip_line(&comment);
        rest = skip_white(&line_end);
    }
    rest
}
