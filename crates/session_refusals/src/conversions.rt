//! Conversions from each format, tried where any request for memory may be refused.
use rdf_session::Format;
use rdf_streams::{ConvertFault, convert};
use rdf_terms::Iri;
use std::alloc::Global;
use told_parts::{Told, memory_is_back, requests_count};

/// A document of four lines, in N-Quads.
pub const LINES: &[u8] =
    b"<http://e/s> <http://e/p> \"a\\u0041\\\"b\"@EN-us <http://e/g> . # c\n_:x:y <http://e/p> _:z1 .\n<http://e/s><http://e/p>_:x:y.\n<http://e/s> <http://e/p> \"1\"^^<http://www.w3.org/2001/XMLSchema#string> .\n";

const LINES_OUT: &[u8] =
    b"<http://e/s> <http://e/p> \"aA\\\"b\"@en-us <http://e/g> .\n_:b0 <http://e/p> _:b1 .\n<http://e/s> <http://e/p> _:b0 .\n<http://e/s> <http://e/p> \"1\" .\n";

const TRIPLES: &[u8] = b"_:x <a:p> \"\\u0041\"@EN .\n_:y <a:p> _:x .\n";

const TRIPLES_OUT: &[u8] = b"_:b0 <a:p> \"A\"@en .\n_:b1 <a:p> _:b0 .\n";

/// A document of five triples, in Turtle.
pub const TURTLE: &[u8] = b"@prefix p: <x> . <s> p:p 1. _:a <p> ( [] ), \"\\n\"@EN .";

const TURTLE_OUT: &[u8] =
    b"<a:s> <a:xp> \"1\"^^<http://www.w3.org/2001/XMLSchema#integer> .\n_:b0 <a:p> _:b1 .\n_:b1 <http://www.w3.org/1999/02/22-rdf-syntax-ns#first> _:b2 .\n_:b1 <http://www.w3.org/1999/02/22-rdf-syntax-ns#rest> <http://www.w3.org/1999/02/22-rdf-syntax-ns#nil> .\n_:b0 <a:p> \"\\n\"@en .\n";

// More than any of these conversions writes.
const ROOM: usize = 1024;

/// Whether each line that a refused conversion of N-Quads wrote is right, and it writes the whole when it is
/// made again.
pub fn quads(alloc: Global) -> Told {
    let is_kept = is_kept(alloc, Format::NQuads, LINES, LINES_OUT, LINES_OUT);
    Told::kept("conversion of N-Quads", is_kept)
}

/// The same of N-Triples.
pub fn triples(alloc: Global) -> Told {
    let is_kept = is_kept(alloc, Format::NTriples, TRIPLES, TRIPLES_OUT, TRIPLES_OUT);
    Told::kept("conversion of N-Triples", is_kept)
}

/// Whether a refused conversion of Turtle writes nothing, and the whole when it is made again.
pub fn turtle(alloc: Global) -> Told {
    let is_kept = is_kept(alloc, Format::Turtle, TURTLE, TURTLE_OUT, b"");
    Told::kept("conversion of Turtle", is_kept)
}

// Where it is refused it may have written a front of `before`.
fn is_kept(alloc: Global, format: Format, text: &[u8], wanted: &[u8], before: &[u8]) -> bool {
    match attempt(alloc, format, text, wanted, before) {
        Some(is_right) => is_right,
        None => attempt(alloc, format, text, wanted, before) == Some(true),
    }
}

// Whether a conversion writes what is wanted; nothing where it is refused.
fn attempt(
    alloc: Global,
    format: Format,
    text: &[u8],
    wanted: &[u8],
    before: &[u8],
) -> Option<bool> {
    match Vec::with_capacity(alloc, ROOM) {
        Ok(mut output) => {
            let answer = converted(alloc, format, text, &mut output);
            judged(answer, output.as_slice(), wanted, before)
        }
        Err(_) => Some(false),
    }
}

fn judged(
    answer: Option<Result<(), ConvertFault>>,
    output: &[u8],
    wanted: &[u8],
    before: &[u8],
) -> Option<bool> {
    match answer {
        Some(Ok(())) => Some(output == wanted),
        Some(Err(ConvertFault::NoMemory(_))) if is_front(output, before) => None,
        _ => Some(false),
    }
}

// Whether these are lines of the text up to the end of one.
fn is_front(output: &[u8], text: &[u8]) -> bool {
    text.starts_with(output) && (output.is_empty() || output.ends_with(b"\n"))
}

// What a conversion answers that writes to the output.
fn converted(
    alloc: Global,
    format: Format,
    text: &[u8],
    output: &mut Vec<u8>,
) -> Option<Result<(), ConvertFault>> {
    match Iri::new(alloc, "a:b") {
        Ok(base) => {
            let mut reader = text;
            requests_count(alloc);
            let answer = convert(alloc, format, Some(base), &mut reader, output);
            memory_is_back(alloc);
            Some(answer)
        }
        Err(_) => None,
    }
}
