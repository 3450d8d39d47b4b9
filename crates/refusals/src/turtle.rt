//! A Turtle document, and a text that uses a prefix without its declaration, each read again where memory
//! was wanting. What they are read to is known.
use rdf_lines::write_quad;
use rdf_terms::{NoMemory, Quad};
use rdf_turtle::{TurtleFault, TurtleFaultKind, read_turtle};
use std::alloc::Global;
use told_parts::{memory_is_back, requests_count};

// It has a base, a prefix, three kinds of literals, a list, labelled nodes and nested ones without a label.
const DOCUMENT: &[u8] =
    b"@base <a://e/> . PREFIX p: <p/>\n<s> p:p \"\\n\"@EN , 1 , \"x\"^^p:d .\n_:a p:q ( <o> _:a ) .\n[] p:r [ p:r _:a ] .\n<> a p:c ; p:p _:b .\n";

const LINES: &[u8] =
    b"<a://e/s> <a://e/p/p> \"\\n\"@en .\n<a://e/s> <a://e/p/p> \"1\"^^<http://www.w3.org/2001/XMLSchema#integer> .\n<a://e/s> <a://e/p/p> \"x\"^^<a://e/p/d> .\n_:b0 <a://e/p/q> _:b1 .\n_:b1 <http://www.w3.org/1999/02/22-rdf-syntax-ns#first> <a://e/o> .\n_:b1 <http://www.w3.org/1999/02/22-rdf-syntax-ns#rest> _:b2 .\n_:b2 <http://www.w3.org/1999/02/22-rdf-syntax-ns#first> _:b0 .\n_:b2 <http://www.w3.org/1999/02/22-rdf-syntax-ns#rest> <http://www.w3.org/1999/02/22-rdf-syntax-ns#nil> .\n_:b3 <a://e/p/r> _:b4 .\n_:b4 <a://e/p/r> _:b0 .\n<a://e/> <http://www.w3.org/1999/02/22-rdf-syntax-ns#type> <a://e/p/c> .\n<a://e/> <a://e/p/p> _:b5 .\n";

const UNDECLARED: &[u8] = b"PREFIX p: <a:>\n<a:s> p:p p:o .\n<a:s> p:p q:o .\n";

/// Whether each text that is refused has no line, and is read as it should be when it is read again.
pub fn outcome(alloc: Global) -> &'static str {
    requests_count(alloc);
    if is_document_read(alloc) && is_fault_told(alloc) {
        "turtle: as without a refusal"
    } else {
        "turtle: changed by a refusal"
    }
}

fn is_document_read(alloc: Global) -> bool {
    match read(alloc, DOCUMENT) {
        Ok(quads) => are_lines(alloc, quads.as_slice()),
        Err(_) => false,
    }
}

fn is_fault_told(alloc: Global) -> bool {
    match read(alloc, UNDECLARED) {
        Ok(_) => false,
        Err(fault) => fault.line == 3 && fault.kind == TurtleFaultKind::UnknownPrefix,
    }
}

// What the text is read to, or where that was refused, what it is read to again.
fn read(alloc: Global, text: &[u8]) -> Result<Vec<Quad>, TurtleFault> {
    match read_turtle(alloc, text, None) {
        Err(fault) if is_refused(fault) => {
            memory_is_back(alloc);
            read_turtle(alloc, text, None)
        }
        answer => answer,
    }
}

fn is_refused(fault: TurtleFault) -> bool {
    fault.line == 0 && matches!(fault.kind, TurtleFaultKind::NoMemory(_))
}

fn are_lines(alloc: Global, quads: &[Quad]) -> bool {
    let text = match text_of(alloc, quads) {
        Err(_) => {
            memory_is_back(alloc);
            text_of(alloc, quads)
        }
        text => text,
    };
    match text {
        Ok(text) => text.as_slice() == LINES,
        Err(_) => false,
    }
}

fn text_of(alloc: Global, quads: &[Quad]) -> Result<Vec<u8>, NoMemory> {
    let mut text = Vec::new(alloc);
    for quad in quads {
        write_quad(quad, &mut text)?;
    }
    Ok(text)
}
