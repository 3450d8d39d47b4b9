//! Updates whose templates no text has, or have more blank nodes than a text can name.
ghost use Rattle.std.specs.Prelude.{◌≤◌};
ghost use Rattle.rdf_dataset.specs.State.{last_number};

use crate::look_ups::line_of;
use crate::made::{answer, request};
use case_tables::{Case, Part};
use rdf_dataset::{Dataset, Source, Staged};
use rdf_terms::{GraphName, Iri, Items, Term};
use sparql_trees::{Modify, Operation, QuadPattern, Request, Template, VarOrTerm};
use std::alloc::Global;

// The greatest number that the next blank node can have.
const LAST_NUMBER: u64 = 1_000_000_000_000_000_000;

/// Whether the updates of a case leave what it wants.
pub(crate) fn judge(alloc: Global, case: &Case) -> Option<(u64, u64)> {
    let next = case.part("next")?.number()?;
    if next > LAST_NUMBER {
        return None;
    }
    let outcome = outcome(alloc, case, next)?;
    if outcome.as_str() == line_of(case.part("outcome")?)? {
        Some((1, 0))
    } else {
        Some((0, 1))
    }
}

// What the case's second update answers behind the first, where the counter is then, and how many quads there are in the default
// graph and in `<a:g>`.
fn outcome(alloc: Global, case: &Case, next: u64) -> Option<String>
    requires { next ≤ last_number }
{
    let dataset = Dataset::starting_at(alloc, next);
    let mut view = Staged::over(alloc, &dataset);
    let first = request(alloc, line_of(case.part("first")?)?)?;
    let exchange = exchange(alloc, case)?;
    if answer(alloc, &mut view, &first) != "ok" {
        return None;
    }
    let answer = answer(alloc, &mut view, &exchange);
    let next = view.next_blank();
    let default = quads_in(alloc, &view, &GraphName::Default)?;
    let named = GraphName::Named(Term::Iri(Iri::new(alloc, "a:g").ok()?));
    let named = quads_in(alloc, &view, &named)?;
    format!(in alloc; "{answer} {next} {default} {named}").ok()
}

// The case's update, whose last insertion has the case's object in place of its own, in a template of so many blank nodes.
fn exchange(alloc: Global, case: &Case) -> Option<Request> {
    let object = object(case.part("object")?)?;
    let blanks = case.part("blanks")?.number()?;
    let modify = modify_of(request(alloc, line_of(case.part("update")?)?)?)?;
    let mut operations = Items::new(alloc);
    let modify = with_object(alloc, modify, object, blanks)?;
    operations.push(Operation::Modify(modify)).ok()?;
    Some(Request { operations })
}

// The last operation of a request.
fn modify_of(request: Request) -> Option<Modify> {
    match request.operations.into_vec().pop()? {
        Operation::Modify(modify) => Some(modify),
        _ => None,
    }
}

fn with_object(alloc: Global, modify: Modify, object: VarOrTerm, blanks: u64) -> Option<Modify> {
    let Modify {
        with,
        delete,
        insert,
        pattern,
    } = modify;
    let mut quad = insert.quads.into_vec().pop()?;
    quad.triple.object = object;
    Some(Modify {
        with,
        delete,
        insert: template(alloc, quad, blanks)?,
        pattern,
    })
}

fn template(alloc: Global, quad: QuadPattern, blanks: u64) -> Option<Template> {
    let mut quads = Items::new(alloc);
    quads.push(quad).ok()?;
    Some(Template { quads, blanks })
}

// A blank node of the template, or of the dataset, by its number.
fn object(part: &Part) -> Option<VarOrTerm> {
    match line_of(part)?.split_once(' ')? {
        ("template", number) => Some(VarOrTerm::Hidden(number.parse().ok()?)),
        ("dataset", number) => Some(VarOrTerm::Term(Term::Blank(number.parse().ok()?))),
        _ => None,
    }
}

fn quads_in(alloc: Global, view: &Staged<'_, Dataset>, graph: &GraphName) -> Option<usize> {
    let mut quads = Vec::new(alloc);
    view.matches(graph, None, None, None, &mut quads).ok()?;
    Some(quads.len())
}
