//! What is changed in a view.
ghost use Rattle.std.specs.Prelude.{◌≡◌, IsTrue};
ghost use Rattle.rdf_dataset.specs.State.{IsEmptyGraph};

use crate::answer::{Answer, Verdict};
use crate::case::Line;
use crate::questions::ask;
use crate::terms::{NUMBERS, graph, quad};
use rdf_dataset::{Source, Staged};
use rdf_terms::{GraphName, NoMemory, Term};
use std::alloc::Global;
use std::str::Lines;

/// Makes the change of each line, or asks what it asks.
pub(crate) fn change_all<'a, D: Source>(
    alloc: Global,
    view: &mut Staged<'_, D>,
    lines: Lines<'a>,
    verdict: &mut Verdict<'a>,
)
    ensures { view.new.under ≡ view.old.under }
{
    for text in lines {
        let line = Line::new(text);
        let answer = change(alloc, view, line);
        verdict.hear(alloc, line, answer);
    }
}

/// What one change or question is answered; nothing where memory is wanting, or the word isn't known.
pub(crate) fn change<D: Source>(
    alloc: Global,
    view: &mut Staged<'_, D>,
    line: Line<'_>,
) -> Option<Answer>
    ensures { view.new.under ≡ view.old.under }
{
    match line.word {
        "insert" => insert(alloc, view, line.rest),
        "remove" => remove(alloc, view, line.rest),
        "add_name" => add_name(view, line.rest),
        "drop_name" => drop_name(alloc, view, line.rest),
        "take" => take(view, line.rest),
        "clear" => clear(alloc, view, line.rest),
        "clear_default" => done(view.clear_default()),
        "clear_named" => done(view.clear_named()),
        "drop_named" => done(view.drop_named()),
        "settle" => done(view.settle()),
        _ => ask(alloc, view, line),
    }
}

fn done(answer: Result<(), NoMemory>) -> Option<Answer> {
    Some(Answer::Flag(answer.is_ok()))
}

fn flag(answer: Result<bool, NoMemory>) -> Option<Answer> {
    match answer {
        Ok(flag) => Some(Answer::Flag(flag)),
        Err(_) => None,
    }
}

fn insert<D: Source>(alloc: Global, view: &mut Staged<'_, D>, text: &str) -> Option<Answer>
    ensures { view.new.under ≡ view.old.under }
{
    if view.next_blank() < NUMBERS {
        return None;
    }
    let quad = quad(alloc, text)?;
    flag(view.insert(quad))
}

fn remove<D: Source>(alloc: Global, view: &mut Staged<'_, D>, text: &str) -> Option<Answer>
    ensures { view.new.under ≡ view.old.under }
{
    let quad = quad(alloc, text)?;
    flag(view.remove(&quad))
}

// The name is a blank node.
fn add_name<D: Source>(view: &mut Staged<'_, D>, text: &str) -> Option<Answer>
    ensures { view.new.under ≡ view.old.under }
{
    let number = text.strip_prefix("_:")?.parse::<u64>().ok()?;
    if view.next_blank() < NUMBERS {
        return None;
    }
    let name = Term::Blank(number % 4);
    flag(view.add_name(name))
}

fn drop_name<D: Source>(alloc: Global, view: &mut Staged<'_, D>, text: &str) -> Option<Answer>
    ensures { view.new.under ≡ view.old.under }
{
    let graph = graph(alloc, text)?;
    drop_name_of(alloc, view, &graph)
}

// Only the name of an empty graph is dropped.
fn drop_name_of<D: Source>(
    alloc: Global,
    view: &mut Staged<'_, D>,
    graph: &GraphName,
) -> Option<Answer>
    ensures { view.new.under ≡ view.old.under }
{
    if !is_empty_graph(alloc, view, graph) {
        return None;
    }
    match graph {
        GraphName::Named(name) => flag(view.drop_name(name)),
        GraphName::Default => None,
    }
}

fn is_empty_graph<D: Source>(alloc: Global, source: &D, graph: &GraphName) -> bool
    ensures { IsTrue result → IsEmptyGraph (D.contents source.now) graph.now }
{
    let mut found = Vec::new(alloc);
    match source.matches(graph, None, None, None, &mut found) {
        Ok(_) => found.as_slice().is_empty(),
        Err(_) => false,
    }
}

fn take<D: Source>(view: &mut Staged<'_, D>, text: &str) -> Option<Answer>
    ensures { view.new.under ≡ view.old.under }
{
    let count = text.parse::<u64>().ok()?;
    match view.take_blanks(count) {
        Some(first) => Some(Answer::Number(first)),
        None => Some(Answer::NoNumber),
    }
}

fn clear<D: Source>(alloc: Global, view: &mut Staged<'_, D>, text: &str) -> Option<Answer>
    ensures { view.new.under ≡ view.old.under }
{
    let graph = graph(alloc, text)?;
    done(view.clear_graph(&graph))
}
