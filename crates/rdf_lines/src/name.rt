//! Gaps, and the labels of blank nodes.
ghost use Rattle.std.specs.Prelude.{◌≡◌, IfOk, MatchOption, Some, None};
ghost use Rattle.rdf_lines.specs.Grammar as grammar;
ghost use Rattle.rdf_terms.specs.Dotted.{dotted_at};
ghost use Rattle.rdf_terms.specs.Skips.{one_of};
ghost use Rattle.rdf_lines.specs.Reading.{first_is, skip_white, label_end_at, label_at};

use rdf_terms::{Cursor, NoMemory, Text, is_pn_chars, is_pn_chars_u};
use std::alloc::Global;

/// Whether the next character is the wanted one.
#[tactic(auto, unfolding(crate::specs::Reading::first_is))]
pub fn first_is(at: &Cursor<'_>, wanted: char) -> bool
    ensures { result ≡ first_is wanted at.now }
{
    match at.peek() {
        Some(c) => c == wanted,
        None => false,
    }
}

/// The place behind spaces and tabs.
pub fn skip_white<'a>(at: &Cursor<'a>) -> Cursor<'a>
    ensures { result ≡ skip_white at.now }
{
    at.skip(|c| matches!(c, ' ' | '\t'))
}

/// Whether a label may begin with the character: PN_CHARS_U, which holds `:` in the line formats, or a digit.
#[tactic(auto, unfolding(crate::specs::Grammar::is_label_start))]
fn is_label_start(c: char) -> bool
    ensures { result ≡ grammar.is_label_start c }
{
    is_pn_chars_u(c) || matches!(c, ':' | '0'..='9')
}

/// Whether a label may go on with the character: PN_CHARS, which holds `:` in the line formats.
#[tactic(auto, unfolding(crate::specs::Grammar::is_label_part))]
fn is_label_part(c: char) -> bool
    ensures { result ≡ grammar.is_label_part c }
{
    is_pn_chars(c) || c == ':'
}

/// The place behind the rest of a label: a dot belongs to it only where more of the label follows.
fn label_rest<'a>(at: &Cursor<'a>) -> Cursor<'a>
    ensures { result ≡ dotted_at (one_of grammar.is_label_part) at.now }
{
    at.dotted(|at| at.one_of(is_label_part))
}

/// The place behind a label, from behind its `_:`.
#[tactic(auto, unfolding(crate::specs::Reading::label_end_at))]
fn label_end<'a>(at: &Cursor<'a>) -> Option<Cursor<'a>>
    ensures { result ≡ label_end_at at.now }
{
    let mut rest = at.fork();
    if is_label_start(rest.bump()?) {
        Some(label_rest(&rest))
    } else {
        None
    }
}

/// BLANK_NODE_LABEL: a label without its `_:`, as it stands in the line; and the place behind it.
#[tactic(auto, unfolding(crate::specs::Reading::label_at, crate::specs::Reading::name_at))]
pub fn label_slice<'a>(at: &Cursor<'a>) -> Option<(&'a str, Cursor<'a>)>
    ensures { MatchOption result (label_at at.now ≡ None) (λ r. label_at at.now
        ≡ Some (r.0.now, r.1)) }
{
    let colon = at.expect('_')?;
    let name = colon.expect(':')?;
    let rest = label_end(&name)?;
    Some((name.text_up_to(&rest), rest))
}

/// The same, with the label's text.
pub fn blank_node_label<'a>(
    alloc: Global,
    at: &Cursor<'a>,
) -> Result<Option<(Text, Cursor<'a>)>, NoMemory>
    ensures { IfOk result (λ r. r ≡ label_at at.now) }
{
    let Some((label, rest)) = label_slice(at) else {
        return Ok(None);
    };
    Ok(Some((Text::new(alloc, label)?, rest)))
}
