//! Calls on terms.
use rdf_terms::{
    GraphName, Iri, Literal, Quad, Term, TermTable, Text, integer_value, is_forbidden_in_iri,
    is_pn_chars, is_pn_chars_base, is_pn_chars_u,
};
use std::alloc::Global;
use told_parts::{Told, memory_is_back, requests_count};

pub fn outcome(alloc: Global) -> Told {
    Told::kept("terms without memory", are_answered(alloc) == Some(true))
}

fn are_answered(alloc: Global) -> Option<bool> {
    let integers = are_integers(&typed(alloc, "-07")?, &typed(alloc, "x")?, alloc);
    let classes = are_classes(alloc);
    Some(integers && classes && is_table(alloc)? && is_quad(alloc))
}

fn are_integers(number: &Literal, word: &Literal, alloc: Global) -> bool {
    requests_count(alloc);
    let are_right = integer_value(number) == Some(-7) && integer_value(word).is_none();
    memory_is_back(alloc);
    are_right
}

fn typed(alloc: Global, text: &str) -> Option<Literal> {
    let datatype = Iri::new(alloc, "http://www.w3.org/2001/XMLSchema#integer").ok()?;
    let lexical = Text::new(alloc, text).ok()?;
    Literal::from_text(alloc, lexical, datatype).ok()
}

fn iri(alloc: Global, text: &str) -> Option<Term> {
    Some(Term::Iri(Iri::new(alloc, text).ok()?))
}

fn are_classes(alloc: Global) -> bool {
    requests_count(alloc);
    let base = is_pn_chars_base('é') && !is_pn_chars_base('_') && !is_pn_chars_base('7');
    let with_underscore = is_pn_chars_u('_') && !is_pn_chars_u('-');
    let chars = is_pn_chars('7') && is_pn_chars('-') && !is_pn_chars('.');
    let iris = is_forbidden_in_iri(' ') && !is_forbidden_in_iri('é');
    memory_is_back(alloc);
    base && with_underscore && chars && iris
}

// A table of one term.
fn is_table(alloc: Global) -> Option<bool> {
    let mut table = TermTable::new(alloc);
    table.intern(iri(alloc, "a:s")?).ok()?;
    Some(finds(alloc, &table, &iri(alloc, "a:s")?, &iri(alloc, "a:t")?))
}

fn finds(alloc: Global, table: &TermTable, held: &Term, other: &Term) -> bool {
    requests_count(alloc);
    let finds = gives_back(table, held) && table.find(other).is_none();
    memory_is_back(alloc);
    finds
}

// Whether the table finds the term, and gives it back by its id.
fn gives_back(table: &TermTable, term: &Term) -> bool {
    match table.find(term) {
        Some(id) => table.term(id) == term,
        None => false,
    }
}

fn is_quad(alloc: Global) -> bool {
    match iri(alloc, "a:g") {
        Some(name) => match iri(alloc, "a:s") {
            Some(subject) => is_quad_of(alloc, GraphName::Named(name), subject),
            None => false,
        },
        None => false,
    }
}

fn is_quad_of(alloc: Global, graph: GraphName, subject: Term) -> bool {
    match iri(alloc, "a:p") {
        Some(predicate) => match iri(alloc, "a:o") {
            Some(object) => is_made(alloc, graph, subject, predicate, object),
            None => false,
        },
        None => false,
    }
}

// Whether these are the places of a quad.
fn is_made(alloc: Global, graph: GraphName, subject: Term, predicate: Term, object: Term) -> bool {
    requests_count(alloc);
    let is_made = match Quad::new(graph, subject, predicate, object) {
        Some(quad) => are_in_place(&quad),
        None => false,
    };
    memory_is_back(alloc);
    is_made
}

fn are_in_place(quad: &Quad) -> bool {
    let is_named = matches!(quad.graph(), GraphName::Named(Term::Iri(_)));
    is_named && quad.predicate() < quad.subject() && quad.object() < quad.predicate()
}
