//! How many look-ups patterns ask of a dataset, and at how many quads these look.
use crate::counting::Counting;
use crate::made::{answer, pattern, request};
use case_tables::{Case, Part};
use rdf_dataset::{Dataset, Staged};
use rdf_terms::GraphName;
use sparql_eval::{ask, solve};
use sparql_trees::{Pattern, Request};
use std::alloc::Global;
use std::cell::Cell;

/// How many groups of a case cost what it wants, and how many don't, over its quads.
pub(crate) fn judge(alloc: Global, case: &Case) -> Option<(u64, u64)> {
    let times = match case.part("times") {
        Some(part) => part.number()?,
        None => 1,
    };
    let quads = repeated(alloc, line_of(case.part("quads")?)?, times)?;
    let insertion = request(alloc, quads.as_str())?;
    let empty = Dataset::new(alloc);
    count_over(alloc, &empty, &insertion, case.parts())
}

// The same over what an insertion brings to a dataset.
fn count_over(
    alloc: Global,
    dataset: &Dataset,
    insertion: &Request,
    parts: &[Part],
) -> Option<(u64, u64)> {
    let mut view = Staged::over(alloc, dataset);
    let counts = count_in(alloc, &mut view, insertion, parts);
    // (a view that a function drops itself makes its proof dear)
    let _ = view.into_net();
    counts
}

// The same over what an insertion brings to a view.
fn count_in(
    alloc: Global,
    view: &mut Staged<'_, Dataset>,
    insertion: &Request,
    parts: &[Part],
) -> Option<(u64, u64)> {
    if answer(alloc, view, insertion) == "ok" {
        count_groups(alloc, view, parts)
    } else {
        None
    }
}

// Each group stands before what it costs.
fn count_groups(alloc: Global, view: &Staged<'_, Dataset>, parts: &[Part]) -> Option<(u64, u64)> {
    let mut agree = 0u64;
    let mut differ = 0u64;
    for (group, wanted) in parts.iter().zip(parts.iter().skip(1)) {
        if wanted.name() == "costs" {
            let cost = cost_of(alloc, view, group)?;
            if cost.as_str() == line_of(wanted)? {
                agree = agree.saturating_add(1);
            } else {
                differ = differ.saturating_add(1);
            }
        }
    }
    Some((agree, differ))
}

// The insertion of these quads, so often: each `*` in them is the number of the time.
fn repeated(alloc: Global, quads: &str, times: u64) -> Option<String> {
    let mut text = String::from_str(alloc, "PREFIX e: <http://e/> INSERT DATA { ").ok()?;
    for time in 0..times {
        let number = time.saturating_add(1);
        let mut pieces = quads.split('*');
        text.push_str(pieces.next()?).ok()?;
        for piece in pieces {
            write!(text, "{number}{piece}").ok()?;
        }
        text.push_str(" ").ok()?;
    }
    text.push_str("}").ok()?;
    Some(text)
}

// What a group has, and how many look-ups look at how many quads for it.
fn cost_of(alloc: Global, view: &Staged<'_, Dataset>, group: &Part) -> Option<String> {
    let calls = Cell::new(0);
    let looked = Cell::new(0);
    let source = Counting {
        under: view,
        calls: &calls,
        looked: &looked,
    };
    let pattern = pattern(alloc, line_of(group)?)?;
    let (calls, looked) = (&calls, &looked);
    if group.name() == "ask" {
        let answer = is_found(alloc, &pattern, &source)?;
        format!(in alloc; "{answer} {} {}", calls.get(), looked.get()).ok()
    } else {
        let solutions = count(alloc, &pattern, &source)?;
        format!(in alloc; "{solutions} {} {}", calls.get(), looked.get()).ok()
    }
}

type Counted<'a> = Counting<'a, Staged<'a, Dataset>>;

fn count(alloc: Global, pattern: &Pattern, source: &Counted<'_>) -> Option<usize> {
    let solutions = solve(alloc, pattern, &GraphName::Default, source).ok()?;
    Some(solutions.rows.len())
}

fn is_found(alloc: Global, pattern: &Pattern, source: &Counted<'_>) -> Option<bool> {
    ask(alloc, pattern, source).ok()
}

/// The line of a part.
pub(crate) fn line_of(part: &Part) -> Option<&str> {
    Some(part.text()?.trim_end())
}
