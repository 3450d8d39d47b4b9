//! Terms that stand in a line as canonical form writes them (RDF 1.1 N-Triples, section 4).
ghost use Rattle.std.specs.Prelude.{◌≡◌, ◌<◌, ◌++◌, ◌∷◌, [], ℕ, true, codes, length, nat_eq, position, List, IfSome, IsTrue, ◌==◌, ◌||◌};
ghost use Rattle.std.specs.Char.{is_ascii_uppercase};
ghost use Rattle.std.specs.Cmp.Lexicographic.{pointwise};
ghost use Rattle.std.specs.List.{flat_map, list_all, list_any};
ghost use Rattle.rdf_terms.specs.Iri.{has_scheme, is_scheme, is_scheme_byte};
ghost use Rattle.rdf_terms.specs.TermText.{escaped};
ghost use Rattle.rdf_lines.specs.Reading as spec;
ghost use Rattle.rdf_lines.specs.Inside.Slices.{ReadsIri, ReadsLiteral, ReadsSuffix};

use crate::name::{first_is, skip_white};
use rdf_terms::Cursor;

fn is_scheme_byte(b: u8) -> bool
    ensures { result ≡ is_scheme_byte b }
{
    b.is_ascii_alphanumeric() || matches!(b, b'+' | b'-' | b'.')
}

fn are_scheme_bytes(text: &[u8]) -> bool
    ensures { result ≡ list_all is_scheme_byte text.now }
{
    text.iter().all(|b| is_scheme_byte(*b))
}

fn is_scheme(text: &[u8]) -> bool
    ensures { result ≡ is_scheme text.now }
{
    !text.is_empty() && text[0].is_ascii_alphabetic() && are_scheme_bytes(text)
}

// Where the first colon stands.
fn first_colon(text: &[u8]) -> Option<usize>
    ensures first { result ≡ position (λ c. c == 58) text.now }
    ensures within { IfSome result (λ n. n < length text.now) }
{
    text.iter().position(|b| *b == b':')
}

// Whether what stands before the first colon is a scheme (RFC 3986, section 3.1).
fn has_scheme(text: &[u8]) -> bool
    ensures { IsTrue result → has_scheme text.now ≡ true }
{
    match first_colon(text) {
        Some(colon) => is_scheme(&text[..colon]),
        None => false,
    }
}

// Whether an IRI, behind its `<`, has a scheme.
fn begins_with_scheme(text: &[u8]) -> bool
    ensures { (iri : List ℕ) → text.now ≡ 60 ∷ (iri ++ 62 ∷ []) → IsTrue result →
        has_scheme iri ≡ true }
{
    match text {
        [_, behind @ ..] => has_scheme(behind),
        [] => false,
    }
}

/// An IRI that has its scheme and no escape, in its angle brackets; and the place behind it.
pub fn canonical_iri<'a>(at: &Cursor<'a>) -> Option<(&'a str, Cursor<'a>)>
    ensures { IfSome result (λ r. ReadsIri at.now r.0.now r.1) }
{
    let body = at.expect('<')?;
    let stop = body.past_iri_run();
    let rest = stop.expect('>')?;
    let text = at.text_up_to(&rest);
    if begins_with_scheme(text.as_bytes()) {
        Some((text, rest))
    } else {
        None
    }
}

// The place behind an escape that canonical form writes, from behind its backslash.
fn escape_end<'a>(at: &Cursor<'a>) -> Option<Cursor<'a>>
    ensures { IfSome result (λ rest. (c : ℕ) × (92 ∷ at.now ≡ escaped c ++ rest)) }
{
    let mut rest = at.fork();
    match rest.bump()? {
        '"' | '\\' | 'n' | 'r' => Some(rest),
        _ => None,
    }
}

// The place behind a string with no escape but those that canonical form writes.
fn string_end<'a>(at: &Cursor<'a>) -> Option<Cursor<'a>>
    ensures { IfSome result (λ rest. (cs : List ℕ)
        × (at.now ≡ 34 ∷ (flat_map escaped cs ++ 34 ∷ rest))) }
{
    let mut rest = at.expect('"')?;
    loop {
        let stop = rest.past_string_run('"');
        if let Some(behind) = stop.expect('"') {
            return Some(behind);
        }
        let escape = stop.expect('\\')?;
        rest = escape_end(&escape)?;
    }
}

fn has_capital(text: &[u8]) -> bool
    ensures { result ≡ list_any is_ascii_uppercase text.now }
{
    text.iter().any(|b| b.is_ascii_uppercase())
}

// The place behind a tag without capitals, from behind its `@`.
fn tag_end<'a>(name: &Cursor<'a>) -> Option<Cursor<'a>>
    ensures { IfSome result (ReadsSuffix (64 ∷ name.now)) }
{
    let rest = name.tag_end()?;
    if has_capital(name.text_up_to(&rest).as_bytes()) {
        None
    } else {
        Some(rest)
    }
}

// Whether the text is the datatype of strings alone, in its angle brackets.
fn is_string_type(text: &str) -> bool
    ensures { result ≡ pointwise nat_eq text.now
        (codes "<http://www.w3.org/2001/XMLSchema#string>") }
{
    text == "<http://www.w3.org/2001/XMLSchema#string>"
}

// The place behind a datatype other than xsd:string, from behind its first `^`.
fn datatype_end<'a>(one: &Cursor<'a>) -> Option<Cursor<'a>>
    ensures { IfSome result (ReadsSuffix (94 ∷ one.now)) }
{
    let both = one.expect('^')?;
    let (text, rest) = canonical_iri(&both)?;
    if is_string_type(text) {
        None
    } else {
        Some(rest)
    }
}

// Whether a tag or a datatype stands here.
fn has_mark(at: &Cursor<'_>) -> bool
    ensures { result ≡ (spec.first_is 64 at.now || spec.first_is 94 at.now) }
{
    first_is(at, '@') || first_is(at, '^')
}

// The place behind what follows a string.
fn suffix_end<'a>(at: &Cursor<'a>) -> Option<Cursor<'a>>
    ensures { IfSome result (ReadsSuffix at.now) }
{
    if let Some(name) = at.expect('@') {
        return tag_end(&name);
    }
    if let Some(one) = at.expect('^') {
        return datatype_end(&one);
    }
    if has_mark(&skip_white(at)) {
        None
    } else {
        Some(at.fork())
    }
}

/// A literal that is written as canonical form writes it, and the place behind it.
pub fn canonical_literal<'a>(at: &Cursor<'a>) -> Option<(&'a str, Cursor<'a>)>
    ensures { IfSome result (λ r. ReadsLiteral at.now r.0.now r.1) }
{
    let string = string_end(at)?;
    let rest = suffix_end(&string)?;
    Some((at.text_up_to(&rest), rest))
}
