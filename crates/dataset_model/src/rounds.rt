//! Rounds of changes on a dataset through views, each ended by a commit and perhaps taken back.
ghost use Rattle.std.specs.Prelude.{◌≡◌, IsTrue, IfSome};
ghost use Rattle.rdf_dataset.specs.State.{State, Begins, Ends, net_between};

use crate::model::Model;
use crate::steps::{net_where, step};
use crate::table::Table;
use crate::trial::Trial;
use rdf_dataset::{Dataset, Net, Source, Staged};
use std::alloc::Global;
use std::mem;

const FIRST_NUMBER: u64 = 4;

/// The number of the steps that agreed: 20 rounds of 25 steps.
pub fn steps_that_agree(alloc: Global) -> u32 {
    let Some(table) = Table::new(alloc) else {
        return 0;
    };
    let mut trial = Trial::new(alloc, table);
    let mut dataset = Dataset::starting_at(alloc, FIRST_NUMBER);
    let mut model = Model::new(alloc, FIRST_NUMBER);
    go_on(&mut trial, &mut dataset, &mut model);
    trial.agreed
}

// The rounds, up to the first that doesn't agree.
fn go_on(trial: &mut Trial, dataset: &mut Dataset, model: &mut Model) {
    for _ in 0..20 {
        if !round(trial, dataset, model) {
            return;
        }
    }
}

// 16 changes on a view, 7 on a view over it, the commit of both, and a last step.
fn round(trial: &mut Trial, dataset: &mut Dataset, model: &mut Model) -> bool {
    let Some(mut kept) = model.copy(trial.alloc) else {
        return false;
    };
    match changed(trial, dataset, model) {
        Some(net) => {
            commit(trial, dataset, model, &net) && step_last(trial, dataset, model, net, &mut kept)
        }
        None => false,
    }
}

// The last step behind the commit of a net: its revert, the commit of the net the other way, both to
// what was kept of the model, or a commit that changes nothing.
fn step_last(
    trial: &mut Trial,
    dataset: &mut Dataset,
    model: &mut Model,
    net: Net,
    kept: &mut Model,
) -> bool
    requires { Ends net dataset.old }
{
    match trial.number() % 4 {
        0 => {
            mem::swap(model, kept);
            revert(trial, dataset, model, &net)
        }
        1 => {
            mem::swap(model, kept);
            turn_back(trial, dataset, model, net)
        }
        _ => stand_still(trial, dataset, model),
    }
}

fn change<D: Source>(
    trial: &mut Trial,
    staged: &mut Staged<'_, D>,
    model: &mut Model,
    times: u32,
) -> bool
    ensures { staged.new.under ≡ staged.old.under }
{
    for _ in 0..times {
        if !step(trial, staged, model) || !trial.counts(staged, model) {
            return false;
        }
    }
    true
}

// The net of the changes on a view and on a view over it.
fn changed(trial: &mut Trial, dataset: &Dataset, model: &mut Model) -> Option<Net>
    ensures { IfSome result (λ net. Begins net dataset.now) }
{
    let mut staged = Staged::over(trial.alloc, dataset);
    let upper = changed_twice(trial, &mut staged, model);
    joined(staged, &upper)
}

// The changes on a view, and the net of those on a view over it.
fn changed_twice<D: Source>(
    trial: &mut Trial,
    staged: &mut Staged<'_, D>,
    model: &mut Model,
) -> Option<Net>
    ensures under { staged.new.under ≡ staged.old.under }
    ensures net { IfSome result (λ net. Begins net staged.new.now) }
{
    if !change(trial, staged, model, 16) {
        return None;
    }
    changed_above(trial, staged, model)
}

// The net of a view, and behind it one that begins where the view ends. The view ends either way: to
// drop one where there is no second net takes the proof minutes.
fn joined<D: Source>(staged: Staged<'_, D>, upper: &Option<Net>) -> Option<Net>
    requires { IfSome upper.now (λ net. Begins net staged.now) }
    ensures { IfSome result (λ both. Begins both staged.entry.under) }
{
    let lower = staged.into_net();
    match (&lower, upper) {
        (Ok(lower), Some(upper)) => composed(lower, upper),
        _ => None,
    }
}

// A net, and behind it one that begins where it ends.
fn composed(lower: &Net, upper: &Net) -> Option<Net>
    ensures { (under : State) (now : State) → lower.now ≡ net_between under now →
        Begins upper.now now → IfSome result (λ both. Begins both under) }
{
    match lower.then(upper) {
        Ok(both) => Some(both),
        Err(_) => None,
    }
}

fn changed_above<D: Source>(trial: &mut Trial, source: &D, model: &mut Model) -> Option<Net>
    ensures { IfSome result (λ net. Begins net (D.contents source.now)) }
{
    let mut staged = Staged::over(trial.alloc, source);
    let agrees = change(trial, &mut staged, model, 7);
    net_where(agrees, staged)
}

fn commit(trial: &mut Trial, dataset: &mut Dataset, model: &Model, net: &Net) -> bool
    requires { Begins net.now dataset.old }
    ensures { IsTrue result → Ends net.now dataset.new }
{
    match dataset.commit(net) {
        Ok(()) => trial.counts(dataset, model),
        Err(_) => false,
    }
}

fn revert(trial: &mut Trial, dataset: &mut Dataset, model: &Model, net: &Net) -> bool
    requires { Ends net.now dataset.old }
{
    match dataset.revert(net) {
        Ok(()) => trial.counts(dataset, model),
        Err(_) => false,
    }
}

// Commits the net the other way.
fn turn_back(trial: &mut Trial, dataset: &mut Dataset, model: &Model, net: Net) -> bool
    requires { Ends net dataset.old }
{
    let back = net.reversed();
    commit(trial, dataset, model, &back)
}

// Commits the net that changes nothing.
fn stand_still(trial: &mut Trial, dataset: &mut Dataset, model: &Model) -> bool {
    let nothing = Net::empty(trial.alloc, dataset.next_blank());
    commit(trial, dataset, model, &nothing)
}
