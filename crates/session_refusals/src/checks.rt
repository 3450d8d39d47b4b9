//! Checks of documents, tried where any request for memory may be refused.
use crate::conversions::{LINES, TURTLE};
use rdf_session::Format;
use rdf_streams::{ConvertFault, check};
use rdf_terms::Iri;
use std::alloc::Global;
use told_parts::{Told, memory_is_back, requests_count};

/// Whether a refused check of N-Quads counts the statements when it is made again.
pub fn quads(alloc: Global) -> Told {
    let is_kept = is_kept(alloc, Format::NQuads, LINES, 4);
    Told::kept("check of N-Quads", is_kept)
}

/// The same of Turtle.
pub fn turtle(alloc: Global) -> Told {
    let is_kept = is_kept(alloc, Format::Turtle, TURTLE, 5);
    Told::kept("check of Turtle", is_kept)
}

// The document has so many statements.
fn is_kept(alloc: Global, format: Format, text: &[u8], statements: u64) -> bool {
    match Iri::new(alloc, "a:b") {
        Ok(base) => is_counted(alloc, format, &base, text, statements),
        Err(_) => false,
    }
}

fn is_counted(alloc: Global, format: Format, base: &Iri, text: &[u8], statements: u64) -> bool {
    match attempt(alloc, format, base, text, statements) {
        Some(is_right) => is_right,
        None => attempt(alloc, format, base, text, statements) == Some(true),
    }
}

// Whether a check counts so many; nothing where it is refused.
fn attempt(
    alloc: Global,
    format: Format,
    base: &Iri,
    text: &[u8],
    statements: u64,
) -> Option<bool> {
    let mut reader = text;
    requests_count(alloc);
    let answer = check(alloc, format, Some(base), &mut reader);
    memory_is_back(alloc);
    match answer {
        Ok(count) => Some(count == statements),
        Err(ConvertFault::NoMemory(_)) => None,
        Err(_) => Some(false),
    }
}
