//! What is asked of datasets and of views.
use crate::answer::{Answer, Verdict};
use crate::case::Line;
use crate::lookups::{looked, looked_often, names, objects, of_named, some};
use crate::terms::{quad, term};
use rdf_dataset::{Dataset, Source};
use std::alloc::Global;
use std::str::Lines;

/// Asks each line of a view.
pub(crate) fn ask_view<'a, D: Source>(
    alloc: Global,
    view: &D,
    lines: Lines<'a>,
    verdict: &mut Verdict<'a>,
) {
    for text in lines {
        let line = Line::new(text);
        verdict.hear(alloc, line, ask(alloc, view, line));
    }
}

/// Asks each line of a dataset.
pub(crate) fn ask_dataset<'a>(
    alloc: Global,
    dataset: &Dataset,
    lines: Lines<'a>,
    verdict: &mut Verdict<'a>,
) {
    for text in lines {
        let line = Line::new(text);
        let answer = match line.word {
            "sizes" => sizes(dataset),
            _ => ask(alloc, dataset, line),
        };
        verdict.hear(alloc, line, answer);
    }
}

// How many quads are listed, and how many names.
fn sizes(dataset: &Dataset) -> Option<Answer> {
    let quads = dataset.quads().ok()?;
    let names = dataset.names_sorted().ok()?;
    Some(Answer::Looked(quads.len(), names.len()))
}

/// What a source answers; nothing where memory is wanting, or the word isn't known.
pub(crate) fn ask<D: Source>(alloc: Global, source: &D, line: Line<'_>) -> Option<Answer> {
    match line.word {
        "has" => has(alloc, source, line.rest),
        "has_name" => has_name(alloc, source, line.rest),
        "next" => Some(Answer::Number(source.next_blank())),
        "names" => names(alloc, source),
        "objects" => objects(alloc, source, line.rest),
        "looked" => looked(alloc, source, line.rest),
        "looked_often" => looked_often(alloc, source, line.rest),
        "some" => some(alloc, source, line.rest),
        "of_named" => of_named(alloc, source),
        _ => None,
    }
}

fn has<D: Source>(alloc: Global, source: &D, text: &str) -> Option<Answer> {
    let quad = quad(alloc, text)?;
    Some(Answer::Flag(source.contains(&quad)))
}

fn has_name<D: Source>(alloc: Global, source: &D, text: &str) -> Option<Answer> {
    let name = term(alloc, text)?;
    Some(Answer::Flag(source.has_name(&name)))
}
