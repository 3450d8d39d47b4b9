//! What stands at the front of a state text's rest.
ghost use Rattle.std.specs.Prelude.{◌≡◌, ◌++◌, ℕ, List, IfOk, IsTrue, MatchOption, codes};
ghost use Rattle.rdf_terms.specs.Iri.{is_iri};
ghost use Rattle.rdf_terms.specs.Quad.{is_quad};
ghost use Rattle.rdf_terms.specs.TermText.{term_text};
ghost use Rattle.rdf_terms.specs.declared.quad.Quad.{Quad};
ghost use Rattle.rdf_terms.specs.declared.term.Term.{Term};
ghost use Rattle.rdf_lines.specs.QuadText.{quad_text};
ghost use Rattle.rdf_lines.specs.StateText.{is_graph_name};
ghost use Rattle.rdf_lines.specs.Inside.StateListing.{HasNoFeed, IsFirstLine};

use super::number::number;
use super::said::line_quad;
use crate::suffixes::Suffixes;
use crate::write::write_quad;
use memchr::memchr;
use rdf_terms::{Iri, IriFault, NoMemory, Quad, Term};
use std::alloc::Global;
use std::str;

/// What stands behind a text at the front of another.
pub fn behind<'a>(text: &'a [u8], front: &[u8]) -> Option<&'a [u8]>
    ensures { MatchOption result ((more : List ℕ) → ¬ (text.now ≡ front.now ++ more))
        (λ more. text.now ≡ front.now ++ more.now) }
{
    text.strip_prefix(front)
}

// What stands before a text at the end of another.
fn before<'a>(text: &'a [u8], back: &[u8]) -> Option<&'a [u8]>
    ensures { MatchOption result ((less : List ℕ) → ¬ (text.now ≡ less ++ back.now))
        (λ less. text.now ≡ less.now ++ back.now) }
{
    text.strip_suffix(back)
}

/// The first line, without its LF, and what stands behind that.
pub fn first_line(text: &[u8]) -> Option<(&[u8], &[u8])>
    ensures { MatchOption result (HasNoFeed text.now)
        (λ r. IsFirstLine text.now r.0.now r.1.now) }
{
    match memchr(b'\n', text) {
        Some(end) => {
            let (line, ended) = text.split_at(end);
            Some((line, ended.split_at(1).1))
        }
        None => None,
    }
}

fn iri(alloc: Global, bytes: &[u8]) -> Result<Option<Iri>, NoMemory>
    ensures { IfOk result (λ r. MatchOption r (¬ (IsTrue (is_iri bytes.now)))
        (λ iri. (iri ≡ bytes.now) × IsTrue (is_iri bytes.now))) }
{
    let Ok(text) = str::from_utf8(bytes) else {
        return Ok(None);
    };
    match Iri::new(alloc, text) {
        Ok(iri) => Ok(Some(iri)),
        Err(IriFault::NoMemory(refused)) => Err(refused),
        Err(_) => Ok(None),
    }
}

// What stands between `<` and `>`.
fn between_angles(text: &[u8]) -> Option<&[u8]>
    ensures { MatchOption result
        ((inner : List ℕ) → ¬ (text.now ≡ codes "<" ++ inner ++ codes ">"))
        (λ inner. text.now ≡ codes "<" ++ inner.now ++ codes ">") }
{
    match behind(text, b"<") {
        Some(inner) => before(inner, b">"),
        None => None,
    }
}

// The IRI or blank node whose text this is.
fn name(alloc: Global, text: &[u8]) -> Result<Option<Term>, NoMemory>
    ensures { IfOk result (λ r. MatchOption r
        ((t : Term) → IsTrue (is_graph_name t) → ¬ (text.now ≡ term_text t))
        (λ t. IsTrue (is_graph_name t) × (text.now ≡ term_text t))) }
{
    if let Some(digits) = behind(text, b"_:b") {
        return Ok(number(digits).map(Term::Blank));
    }
    let Some(inner) = between_angles(text) else {
        return Ok(None);
    };
    match iri(alloc, inner)? {
        Some(iri) => Ok(Some(Term::Iri(iri))),
        None => Ok(None),
    }
}

/// The name whose text and an LF stand at the front, and what stands behind.
pub fn first_name<'a>(alloc: Global, text: &'a [u8]) -> Result<Option<(Term, &'a [u8])>, NoMemory>
    ensures { IfOk result (λ r. MatchOption r
        ((t : Term) (more : List ℕ) → IsTrue (is_graph_name t) →
        ¬ (text.now ≡ term_text t ++ (codes "\n" ++ more)))
        (λ r. IsTrue (is_graph_name r.0)
        × (text.now ≡ term_text r.0 ++ (codes "\n" ++ r.1.now)))) }
{
    let Some((line, more)) = first_line(text) else {
        return Ok(None);
    };
    match name(alloc, line)? {
        Some(name) => Ok(Some((name, more))),
        None => Ok(None),
    }
}

/// The quad whose line stands at the front, and what stands behind. The list is for the line as it is
/// written.
pub fn first_quad<'a>(
    alloc: Global,
    suffixes: &mut Suffixes,
    written: &mut Vec<u8>,
    text: &'a [u8],
) -> Result<Option<(Quad, &'a [u8])>, NoMemory>
    ensures { IfOk result (λ r. MatchOption r
        ((q : Quad) (more : List ℕ) → IsTrue (is_quad q) → ¬ (text.now ≡ quad_text q ++ more))
        (λ r. IsTrue (is_quad r.0) × (text.now ≡ quad_text r.0 ++ r.1.now))) }
{
    let Some((line, _)) = first_line(text) else {
        return Ok(None);
    };
    let Some(quad) = line_quad(alloc, suffixes, line)? else {
        return Ok(None);
    };
    written.clear();
    write_quad(&quad, written)?;
    match behind(text, written) {
        Some(more) => Ok(Some((quad, more))),
        None => Ok(None),
    }
}
