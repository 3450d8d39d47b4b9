//! Numbers.
ghost use Rattle.std.specs.Prelude.{◌≡◌};
ghost use Rattle.rdf_tokens.specs.Inside.TokenReading.{skip_sign, digits_at, exponent_at, with_exponent, fraction_at, dot_exponent_at, whole_at, unsigned_at, number_at};

use crate::character::{is_exponent_letter, is_sign};
use crate::token::Kind;
use rdf_terms::Cursor;

/// The place behind one or more digits.
#[tactic(auto, unfolding(crate::specs::Inside::TokenReading::digits_at))]
fn digits<'a>(cursor: &Cursor<'a>) -> Option<Cursor<'a>>
    ensures { result ≡ digits_at cursor.now }
{
    cursor.skip_some(|c| c.is_ascii_digit(), |c| c.is_ascii_digit())
}

/// The place behind a sign, where there is one.
#[tactic(auto, unfolding(crate::specs::Inside::TokenReading::skip_sign))]
fn skip_sign<'a>(cursor: &Cursor<'a>) -> Cursor<'a>
    ensures { result ≡ skip_sign cursor.now }
{
    let mut rest = cursor.fork();
    match rest.bump() {
        Some(c) if is_sign(c) => rest,
        _ => cursor.fork(),
    }
}

/// The place behind EXPONENT (Turtle 1.1, section 6.5).
#[tactic(auto, unfolding(crate::specs::Inside::TokenReading::exponent_at))]
fn exponent<'a>(cursor: &Cursor<'a>) -> Option<Cursor<'a>>
    ensures { result ≡ exponent_at cursor.now }
{
    let mut rest = cursor.fork();
    if is_exponent_letter(rest.bump()?) {
        digits(&skip_sign(&rest))
    } else {
        None
    }
}

/// A double where an exponent follows, otherwise what was read so far.
#[tactic(auto, unfolding(crate::specs::Inside::TokenReading::with_exponent))]
#[inline(always)]
fn with_exponent<'a>(kind: Kind, cursor: &Cursor<'a>) -> (Kind, Cursor<'a>)
    ensures { result ≡ with_exponent kind cursor.now }
{
    match exponent(cursor) {
        Some(rest) => (Kind::Double, rest),
        None => (kind, cursor.fork()),
    }
}

/// A dot, digits, and perhaps an exponent.
#[tactic(auto, unfolding(crate::specs::Inside::TokenReading::fraction_at))]
#[inline(always)]
fn fraction<'a>(cursor: &Cursor<'a>) -> Option<(Kind, Cursor<'a>)>
    ensures { result ≡ fraction_at cursor.now }
{
    let rest = digits(&cursor.expect('.')?)?;
    Some(with_exponent(Kind::Decimal, &rest))
}

/// The place behind a dot and an exponent.
#[tactic(auto, unfolding(crate::specs::Inside::TokenReading::dot_exponent_at))]
fn dot_exponent<'a>(cursor: &Cursor<'a>) -> Option<Cursor<'a>>
    ensures { result ≡ dot_exponent_at cursor.now }
{
    exponent(&cursor.expect('.')?)
}

/// What digits that end here are the beginning of.
#[tactic(auto, unfolding(crate::specs::Inside::TokenReading::whole_at))]
#[inline(always)]
fn whole<'a>(cursor: &Cursor<'a>) -> (Kind, Cursor<'a>)
    ensures { result ≡ whole_at cursor.now }
{
    if let Some(found) = fraction(cursor) {
        return found;
    }
    match dot_exponent(cursor) {
        Some(rest) => (Kind::Double, rest),
        None => with_exponent(Kind::Integer, cursor),
    }
}

/// A number without a sign.
#[tactic(auto, unfolding(crate::specs::Inside::TokenReading::unsigned_at))]
#[inline(always)]
fn unsigned<'a>(cursor: &Cursor<'a>) -> Option<(Kind, Cursor<'a>)>
    ensures { result ≡ unsigned_at cursor.now }
{
    match digits(cursor) {
        Some(rest) => Some(whole(&rest)),
        None => fraction(cursor),
    }
}

/// INTEGER, DECIMAL or DOUBLE (Turtle 1.1, section 6.5), the longest that begins here, and the place behind it.
#[tactic(auto, unfolding(crate::specs::Inside::TokenReading::number_at))]
#[inline(always)]
pub fn number<'a>(cursor: &Cursor<'a>) -> Option<(Kind, Cursor<'a>)>
    ensures { result ≡ number_at cursor.now }
{
    unsigned(&skip_sign(cursor))
}
