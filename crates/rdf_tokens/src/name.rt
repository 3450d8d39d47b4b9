//! Bare words and variables.
ghost use Rattle.std.specs.Prelude.{◌≡◌};
ghost use Rattle.rdf_tokens.specs.Inside.TokenReading.{word_at, variable_at};

use crate::character::{is_name_start, is_variable_part, is_word_part};
use rdf_terms::Cursor;

/// The place behind a bare word: an ASCII letter, then ASCII letters, digits and `_`.
#[tactic(auto, unfolding(crate::specs::Inside::TokenReading::word_at))]
pub fn word<'a>(cursor: &Cursor<'a>) -> Option<Cursor<'a>>
    ensures { result ≡ word_at cursor.now }
{
    cursor.skip_some(|c| c.is_ascii_alphabetic(), is_word_part)
}

/// The place behind VARNAME (SPARQL 1.1 Query, section 19.8), from behind its `?` or `$`.
#[tactic(auto, unfolding(crate::specs::Inside::TokenReading::variable_at))]
pub fn variable<'a>(cursor: &Cursor<'a>) -> Option<Cursor<'a>>
    ensures { result ≡ variable_at cursor.now }
{
    cursor.skip_some(is_name_start, is_variable_part)
}
