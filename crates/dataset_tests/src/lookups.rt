//! Look-ups by a text `GRAPH SUBJECT PREDICATE OBJECT`, in which `*` stands for a free place.
use crate::answer::Answer;
use crate::terms::{graph, places_of, term};
use rdf_dataset::Source;
use rdf_terms::{GraphName, Quad, Term, write_term};
use std::alloc::Global;

// What is looked for.
#[derive(Drop)]
struct Wanted {
    graph: GraphName,
    subject: Option<Term>,
    predicate: Option<Term>,
    object: Option<Term>,
}

impl Wanted {
    fn new(alloc: Global, text: &str) -> Option<Wanted> {
        let places = places_of(text)?;
        Some(Wanted {
            graph: graph(alloc, places.graph)?,
            subject: place(alloc, places.subject),
            predicate: place(alloc, places.predicate),
            object: place(alloc, places.object),
        })
    }

    // The quads that are found, and how many were looked at.
    fn found<D: Source>(&self, alloc: Global, source: &D) -> Option<(Vec<Quad>, usize)> {
        let mut quads = Vec::new(alloc);
        match source.matches(
            &self.graph,
            self.subject.as_ref(),
            self.predicate.as_ref(),
            self.object.as_ref(),
            &mut quads,
        ) {
            Ok(looked) => Some((quads, looked)),
            Err(_) => None,
        }
    }

    // How many quads are found, and whether these are all.
    fn some<D: Source>(&self, alloc: Global, source: &D, most: usize) -> Option<Answer> {
        let mut quads = Vec::new(alloc);
        match source.some_matches(
            &self.graph,
            self.subject.as_ref(),
            self.predicate.as_ref(),
            self.object.as_ref(),
            most,
            &mut quads,
        ) {
            Ok(all) => Some(Answer::Some(quads.len(), all)),
            Err(_) => None,
        }
    }
}

// A text that is no term is a free place, as `*` is.
fn place(alloc: Global, text: &str) -> Option<Term> {
    if text == "*" { None } else { term(alloc, text) }
}

fn found<D: Source>(alloc: Global, source: &D, text: &str) -> Option<(Vec<Quad>, usize)> {
    let wanted = Wanted::new(alloc, text)?;
    wanted.found(alloc, source)
}

/// The objects of the quads that are found, in order.
pub(crate) fn objects<D: Source>(alloc: Global, source: &D, text: &str) -> Option<Answer> {
    let (quads, _) = found(alloc, source, text)?;
    let mut objects = Vec::new(alloc);
    for quad in quads.as_slice() {
        objects.push(quad.object().copy().ok()?).ok()?;
    }
    listed(alloc, objects)
}

/// How many quads are found, and how many were looked at.
pub(crate) fn looked<D: Source>(alloc: Global, source: &D, text: &str) -> Option<Answer> {
    let (quads, looked) = found(alloc, source, text)?;
    Some(Answer::Looked(quads.len(), looked))
}

/// The same, where it is looked a hundred times.
pub(crate) fn looked_often<D: Source>(alloc: Global, source: &D, text: &str) -> Option<Answer> {
    for _ in 1..100 {
        found(alloc, source, text)?;
    }
    looked(alloc, source, text)
}

/// Of a text `MOST GRAPH SUBJECT PREDICATE OBJECT` how many quads are found, and whether these are all.
pub(crate) fn some<D: Source>(alloc: Global, source: &D, text: &str) -> Option<Answer> {
    let (most, text) = text.split_once(' ')?;
    let most = most.parse::<usize>().ok()?;
    let wanted = Wanted::new(alloc, text)?;
    wanted.some(alloc, source, most)
}

/// How many quads of named graphs are found, and how many were looked at.
pub(crate) fn of_named<D: Source>(alloc: Global, source: &D) -> Option<Answer> {
    let mut quads = Vec::new(alloc);
    let looked = source.named_quads(&mut quads).ok()?;
    Some(Answer::Looked(quads.len(), looked))
}

/// The names of graphs, in order.
pub(crate) fn names<D: Source>(alloc: Global, source: &D) -> Option<Answer> {
    let mut names = Vec::new(alloc);
    source.names(&mut names).ok()?;
    listed(alloc, names)
}

// The texts of the terms, in order, or `none`.
fn listed(alloc: Global, terms: Vec<Term>) -> Option<Answer> {
    let mut terms = terms;
    terms.sort().ok()?;
    let mut text = Vec::new(alloc);
    if terms.is_empty() {
        text.extend_from_slice(b"none").ok()?;
    }
    for term in terms.as_slice() {
        if !text.is_empty() {
            text.push(b' ').ok()?;
        }
        write_term(term, &mut text).ok()?;
    }
    Some(Answer::Text(String::from_utf8(text).ok()?))
}
