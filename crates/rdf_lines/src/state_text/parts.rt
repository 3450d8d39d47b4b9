//! The parts of a state text.
ghost use Rattle.std.specs.Prelude.{◌≡◌, ◌<◌, ◌^◌, ℕ, List, IfOk, MatchOption};
ghost use Rattle.rdf_lines.specs.Inside.StateListing.{counted, AreNamesBefore, HasNoNames, AreQuadsOf, HasNoQuads, ArePartsOf, HasNoParts};

use super::StateText;
use super::lines::{behind, first_line, first_name, first_quad};
use super::number::number;
use crate::shared::{kept_term, push_shared};
use crate::suffixes::Suffixes;
use rdf_terms::{NoMemory, Quad, Term, TermTable};
use std::alloc::Global;

// The counter, and what stands behind its line.
fn next_and_more(bytes: &[u8]) -> Option<(u64, &[u8])>
    ensures { MatchOption result
        ((n : ℕ) (more : List ℕ) → n < 2 ^ 64 → ¬ (bytes.now ≡ counted n more))
        (λ r. (r.0 < 2 ^ 64) × (bytes.now ≡ counted r.0 r.1.now)) }
{
    let Some(counted) = behind(bytes, b"#% rdfkeep state 2\n#% next ") else {
        return None;
    };
    let Some((digits, more)) = first_line(counted) else {
        return None;
    };
    match number(digits) {
        Some(next) => Some((next, more)),
        None => None,
    }
}

// The names, and what stands behind their lines.
fn names_and_more<'a>(
    alloc: Global,
    terms: &mut TermTable,
    text: &'a [u8],
) -> Result<Option<(Vec<Term>, &'a [u8])>, NoMemory>
    ensures { IfOk result (λ r. MatchOption r (HasNoNames text.now)
        (λ r. AreNamesBefore text.now r.0.items r.1.now)) }
{
    let mut names = Vec::new(alloc);
    let mut rest = text;
    while let Some(name_and_more) = behind(rest, b"#% graph ") {
        let Some((name, more)) = first_name(alloc, name_and_more)? else {
            return Ok(None);
        };
        names.push(kept_term(terms, name)?)?;
        rest = more;
    }
    Ok(Some((names, rest)))
}

// The quads whose lines a text is.
fn quads(alloc: Global, terms: &mut TermTable, text: &[u8]) -> Result<Option<Vec<Quad>>, NoMemory>
    ensures { IfOk result (λ r. MatchOption r (HasNoQuads text.now)
        (λ quads. AreQuadsOf text.now quads.items)) }
{
    let mut suffixes = Suffixes::new(alloc);
    let mut written = Vec::new(alloc);
    let mut quads = Vec::new(alloc);
    let mut rest = text;
    while !rest.is_empty() {
        let Some((quad, more)) = first_quad(alloc, &mut suffixes, &mut written, rest)? else {
            return Ok(None);
        };
        push_shared(terms, &mut quads, quad)?;
        rest = more;
    }
    Ok(Some(quads))
}

/// The counter, the names and the quads that bytes write, sound or not.
pub fn read_parts(alloc: Global, bytes: &[u8]) -> Result<Option<StateText>, NoMemory>
    ensures { IfOk result (λ r. MatchOption r (HasNoParts bytes.now)
        (λ s. ArePartsOf bytes.now s.next s.names.items s.quads.items)) }
{
    let Some((next, more)) = next_and_more(bytes) else {
        return Ok(None);
    };
    let mut terms = TermTable::new(alloc);
    let Some((names, more)) = names_and_more(alloc, &mut terms, more)? else {
        return Ok(None);
    };
    let Some(quads) = quads(alloc, &mut terms, more)? else {
        return Ok(None);
    };
    Ok(Some(StateText { next, names, quads }))
}
