//! The cases of datasets. Each has these parts, or some of them: the `counter` at which the dataset begins, or the quads that were
//! `gathered` for it, at counter 4; its `data`, each line the
//! change of a request of its own; what the `dataset` is asked then; what is changed and asked in a `view` over it, in a view `above`
//! that one, and again in the one `beneath`; what the dataset `under` it is asked then, and the `net` of the view; and what the dataset is asked once that is `committed`,
//! and once it is `reverted`.
ghost use Rattle.std.specs.Prelude.{◌≡◌, ◌≤◌, IfSome, MatchBool};
ghost use Rattle.rdf_terms.specs.Below.{AreBelow};
ghost use Rattle.rdf_dataset.specs.State.{Begins, Ends};

use crate::answer::Verdict;
use crate::case::{Case, Line};
use crate::changes::{change, change_all};
use crate::nets::ask_net;
use crate::questions::{ask_dataset, ask_view};
use crate::terms::{NUMBERS, quad};
use rdf_dataset::{Dataset, Gathering, Net, Source, Staged};
use std::alloc::Global;

// The counter of blank nodes goes no further.
const LAST_NUMBER: u64 = 1_000_000_000_000_000_000;

pub(crate) fn judge<'a>(alloc: Global, case: Case<'a>, verdict: &mut Verdict<'a>) {
    let mut dataset = begun(alloc, case, verdict);
    load(alloc, &mut dataset, case, verdict);
    ask_dataset(alloc, &dataset, case.lines("dataset"), verdict);
    judge_view(alloc, &mut dataset, case, verdict);
}

fn judge_view<'a>(alloc: Global, dataset: &mut Dataset, case: Case<'a>, verdict: &mut Verdict<'a>) {
    match viewed(alloc, dataset, case, verdict) {
        Some(net) => there_and_back(alloc, dataset, &net, case, verdict),
        None => verdict.fail("no memory"),
    }
}

fn begun<'a>(alloc: Global, case: Case<'a>, verdict: &mut Verdict<'a>) -> Dataset {
    match gathered(alloc, case) {
        Some(dataset) => dataset,
        None => {
            verdict.fail("gathered");
            Dataset::new(alloc)
        }
    }
}

// The dataset of the quads that were gathered, where there are any, or else one without quads.
fn gathered(alloc: Global, case: Case<'_>) -> Option<Dataset> {
    if !case.has("gathered") {
        return Some(starting(alloc, case));
    }
    let mut gathering = Gathering::new(alloc);
    for text in case.lines("gathered") {
        put(alloc, &mut gathering, text)?;
    }
    gathering.into_dataset(NUMBERS).ok()
}

// Puts the quad of a line behind those that were gathered.
fn put(alloc: Global, gathering: &mut Gathering, text: &str) -> Option<()>
    requires { AreBelow 4 gathering.old }
    ensures { IfSome result (λ _. AreBelow 4 gathering.new) }
{
    let quad = quad(alloc, text)?;
    match gathering.push(quad) {
        Ok(()) => Some(()),
        Err(_) => None,
    }
}

fn starting(alloc: Global, case: Case<'_>) -> Dataset {
    match case.lines("counter").next() {
        Some(number) => match number.parse::<u64>() {
            Ok(number) => Dataset::starting_at(alloc, number.min(LAST_NUMBER)),
            Err(_) => Dataset::new(alloc),
        },
        None => Dataset::new(alloc),
    }
}

// Commits the change of each line.
fn load<'a>(alloc: Global, dataset: &mut Dataset, case: Case<'a>, verdict: &mut Verdict<'a>) {
    for text in case.lines("data") {
        if !is_changed(alloc, dataset, text) {
            verdict.fail(text);
        }
    }
}

fn is_changed(alloc: Global, dataset: &mut Dataset, text: &str) -> bool {
    match net_of_change(alloc, dataset, text) {
        Some(net) => is_committed(dataset, &net),
        None => false,
    }
}

fn net_of_change(alloc: Global, dataset: &Dataset, text: &str) -> Option<Net>
    ensures { IfSome result (λ net. Begins net dataset.now) }
{
    let mut view = Staged::over(alloc, dataset);
    let is_made = change(alloc, &mut view, Line::new(text)).is_some();
    net_where(is_made, view)
}

// The net of what is changed in the view.
fn viewed<'a>(
    alloc: Global,
    dataset: &Dataset,
    case: Case<'a>,
    verdict: &mut Verdict<'a>,
) -> Option<Net>
    ensures { IfSome result (λ net. Begins net dataset.now) }
{
    let mut view = Staged::over(alloc, dataset);
    change_all(alloc, &mut view, case.lines("view"), verdict);
    look_above(alloc, &view, case, verdict);
    ask_view(alloc, &view, case.lines("beneath"), verdict);
    ask_view(alloc, dataset, case.lines("under"), verdict);
    net_where(true, view)
}

fn look_above<'a, D: Source>(
    alloc: Global,
    beneath: &D,
    case: Case<'a>,
    verdict: &mut Verdict<'a>,
) {
    let mut above = Staged::over(alloc, beneath);
    change_all(alloc, &mut above, case.lines("above"), verdict);
    if net_where(true, above).is_none() {
        verdict.fail("no memory");
    }
}

// The net of what is changed in the view, where it is wanted. The view ends either way: to drop one
// takes the proof minutes.
fn net_where<D: Source>(is_wanted: bool, view: Staged<'_, D>) -> Option<Net>
    ensures { IfSome result (λ net. Begins net view.entry.under) }
{
    match view.into_net() {
        Ok(net) if is_wanted => Some(net),
        _ => None,
    }
}

fn there_and_back<'a>(
    alloc: Global,
    dataset: &mut Dataset,
    net: &Net,
    case: Case<'a>,
    verdict: &mut Verdict<'a>,
)
    requires { Begins net.now dataset.old }
{
    ask_net(alloc, net, case.lines("net"), verdict);
    if !is_committed(dataset, net) {
        verdict.fail("no memory");
        return;
    }
    ask_dataset(alloc, dataset, case.lines("committed"), verdict);
    if dataset.revert(net).is_err() {
        verdict.fail("no memory");
        return;
    }
    ask_dataset(alloc, dataset, case.lines("reverted"), verdict);
}

fn is_committed(dataset: &mut Dataset, net: &Net) -> bool
    requires { Begins net.now dataset.old }
    ensures { MatchBool result (Ends net.now dataset.new) (dataset.new ≡ dataset.old) }
{
    match dataset.commit(net) {
        Ok(()) => true,
        Err(_) => false,
    }
}
