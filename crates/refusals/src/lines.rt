//! A document of four lines, read again where memory was wanting. The line at which that was told is the
//! part's place.
use rdf_lines::{FaultKind, LineFormat, read_lines};
use rdf_terms::{GraphName, Quad, Term};
use std::alloc::Global;
use told_parts::{Told, memory_is_back, requests_count};

const TEXT: &[u8] =
    b"_:a <a:p> \"\\u0061\"@EN <a:e> .\n_:b <a:p> \"\\u0062\"@EN <a:f> .\n_:c <a:p> \"\\u0063\"@EN <a:g> .\n_:d <a:p> \"\\u0064\"@EN <a:h> .\n";

/// Whether the document is read, after a refusal too, and the line at which that was told.
pub fn outcome(alloc: Global) -> Told {
    let name = "lines, 4 places";
    match read(alloc) {
        Some(refused_at) => Told::kept(name, true).at(refused_at),
        None => Told::kept(name, false),
    }
}

// The line at which the first reading was refused, if it was; nothing where the document isn't read.
fn read(alloc: Global) -> Option<Option<u64>> {
    requests_count(alloc);
    let first = read_lines(alloc, LineFormat::NQuads, TEXT);
    memory_is_back(alloc);
    match first {
        Ok(quads) => are_read(quads.as_slice(), None),
        Err(fault) => match fault.kind {
            FaultKind::NoMemory(_) => {
                let again = read_lines(alloc, LineFormat::NQuads, TEXT).ok()?;
                are_read(again.as_slice(), Some(fault.line))
            }
            _ => None,
        },
    }
}

// The same line, where the quads are those of the document.
fn are_read(quads: &[Quad], line: Option<u64>) -> Option<Option<u64>> {
    let mut number = 0u64;
    for quad in quads {
        if !is_read(quad, number) {
            return None;
        }
        number = number.saturating_add(1);
    }
    if number == 4 { Some(line) } else { None }
}

fn is_read(quad: &Quad, number: u64) -> bool {
    *quad.subject() == Term::Blank(number) && *quad.graph() != GraphName::Default
}
