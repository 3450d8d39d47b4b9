//! One term of each kind: made, copied and written.
use rdf_terms::{Iri, IriFault, Literal, Term, Text, write_term};
use std::alloc::Global;
use told_parts::{memory_is_back, requests_count};

/// Whether each term that is made, copied and written anew after a refusal is written as it should
/// be, and the vector was as before after each refusal.
pub fn outcome(alloc: Global) -> &'static str {
    requests_count(alloc);
    let blank = is_kept(alloc, &Term::Blank(7), b"ab_:b7");
    match (blank, iri(alloc), typed(alloc), tagged(alloc)) {
        (true, Some(true), Some(true), Some(true)) => "terms: as without a refusal",
        _ => "terms: changed by a refusal",
    }
}

fn iri(alloc: Global) -> Option<bool> {
    let made = match Iri::new(alloc, "a:b") {
        Err(IriFault::NoMemory(_)) => {
            memory_is_back(alloc);
            Iri::new(alloc, "a:b")
        }
        made => made,
    };
    Some(is_kept(alloc, &Term::Iri(made.ok()?), b"ab<a:b>"))
}

fn typed(alloc: Global) -> Option<bool> {
    let literal = match typed_literal(alloc) {
        None => {
            memory_is_back(alloc);
            typed_literal(alloc)?
        }
        Some(literal) => literal,
    };
    Some(is_kept(alloc, &Term::Literal(literal), b"ab\"1\\n\"^^<a:d>"))
}

fn typed_literal(alloc: Global) -> Option<Literal> {
    let datatype = Iri::new(alloc, "a:d").ok()?;
    let lexical = Text::new(alloc, "1\n").ok()?;
    Literal::from_text(alloc, lexical, datatype).ok()
}

fn tagged(alloc: Global) -> Option<bool> {
    let made = match Literal::tagged(alloc, "x", "EN") {
        Err(_) => {
            memory_is_back(alloc);
            Literal::tagged(alloc, "x", "EN").ok()?
        }
        Ok(made) => made,
    };
    Some(is_kept(alloc, &Term::Literal(made?), b"ab\"x\"@en"))
}

// Writes a copy of the term behind `ab`.
fn is_kept(alloc: Global, term: &Term, wanted: &[u8]) -> bool {
    let copied = match term.copy() {
        Err(_) => {
            memory_is_back(alloc);
            term.copy()
        }
        copied => copied,
    };
    match (copied, begun(alloc)) {
        (Ok(copy), Some(text)) => appends(alloc, &copy, text, wanted),
        _ => false,
    }
}

fn begun(alloc: Global) -> Option<Vec<u8>> {
    match b"ab".to_vec(alloc) {
        Err(_) => {
            memory_is_back(alloc);
            b"ab".to_vec(alloc).ok()
        }
        Ok(text) => Some(text),
    }
}

fn appends(alloc: Global, term: &Term, mut text: Vec<u8>, wanted: &[u8]) -> bool {
    let before = text.len();
    let written = write_term(term, &mut text);
    if written.is_ok() {
        return text.as_slice() == wanted;
    }
    memory_is_back(alloc);
    let kept = text.len() == before;
    kept && write_term(term, &mut text).is_ok() && text.as_slice() == wanted
}
