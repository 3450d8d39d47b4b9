//! The same nets on a dataset and on a plain one. Both are compared with the model and with each other.
ghost use Rattle.std.specs.Prelude.{◌≡◌, IsTrue, IfSome};
ghost use Rattle.rdf_dataset.specs.State.{Begins, Ends};

use crate::compare::agree;
use crate::model::Model;
use crate::steps::{net_where, step};
use crate::table::Table;
use crate::trial::Trial;
use plain_dataset::PlainDataset;
use rdf_dataset::{Dataset, Net, Staged};
use rdf_terms::{same_quad, same_term};
use std::alloc::Global;
use std::mem;

const FIRST_NUMBER: u64 = 4;

/// A dataset and the plain one.
#[derive(Drop)]
struct Twins {
    dataset: Dataset,
    plain: PlainDataset,
}

/// The number of the commits, reverts and look-ups that agreed: 250 rounds of two.
pub fn steps_alike(alloc: Global) -> u32 {
    let Some(table) = Table::new(alloc) else {
        return 0;
    };
    let mut trial = Trial::new(alloc, table);
    let mut twins = Twins {
        dataset: Dataset::starting_at(alloc, FIRST_NUMBER),
        plain: PlainDataset::starting_at(alloc, FIRST_NUMBER),
    };
    let mut model = Model::new(alloc, FIRST_NUMBER);
    go_on(&mut trial, &mut twins, &mut model);
    trial.agreed
}

// The rounds, up to the first that doesn't agree.
fn go_on(trial: &mut Trial, twins: &mut Twins, model: &mut Model)
    requires { twins.old.dataset ≡ twins.old.plain }
{
    for _ in 0..250 {
        if !round(trial, twins, model) {
            return;
        }
    }
}

// A commit, and then its revert or look-ups.
fn round(trial: &mut Trial, twins: &mut Twins, model: &mut Model) -> bool
    requires { twins.old.dataset ≡ twins.old.plain }
    ensures { IsTrue result → twins.new.dataset ≡ twins.new.plain }
{
    let Some(mut kept) = model.copy(trial.alloc) else {
        return false;
    };
    match changes(trial, &twins.dataset, model) {
        Some(net) => there_and_back(trial, twins, model, &net, &mut kept),
        None => false,
    }
}

// The commit of a net, and then its revert to what was kept of the model, or look-ups.
fn there_and_back(
    trial: &mut Trial,
    twins: &mut Twins,
    model: &mut Model,
    net: &Net,
    kept: &mut Model,
) -> bool
    requires same { twins.old.dataset ≡ twins.old.plain }
    requires begins { Begins net.now twins.old.dataset }
    ensures { IsTrue result → twins.new.dataset ≡ twins.new.plain }
{
    if !twins.commit(net) {
        return false;
    }
    if !twins.counts(trial, model) {
        return false;
    }
    if trial.number() % 3 > 0 {
        return twins.counts(trial, model);
    }
    mem::swap(model, kept);
    twins.revert(net) && twins.counts(trial, model)
}

// Five changes on a view.
fn vary(trial: &mut Trial, staged: &mut Staged<'_, Dataset>, model: &mut Model) -> bool
    ensures { staged.new.under ≡ staged.old.under }
{
    for _ in 0..5 {
        if !step(trial, staged, model) {
            return false;
        }
    }
    true
}

// The net of five changes.
fn changes(trial: &mut Trial, dataset: &Dataset, model: &mut Model) -> Option<Net>
    ensures { IfSome result (λ net. Begins net dataset.now) }
{
    let mut staged = Staged::over(trial.alloc, dataset);
    let agrees = vary(trial, &mut staged, model);
    net_where(agrees, staged)
}

impl Twins {
    fn commit(&mut self, net: &Net) -> bool
        requires same { self.old.dataset ≡ self.old.plain }
        requires begins { Begins net.now self.old.dataset }
        ensures same { IsTrue result → self.new.dataset ≡ self.new.plain }
        ensures ends { IsTrue result → Ends net.now self.new.dataset }
    {
        let Ok(()) = self.dataset.commit(net) else {
            return false;
        };
        let Ok(()) = self.plain.commit(net) else {
            return false;
        };
        true
    }

    fn revert(&mut self, net: &Net) -> bool
        requires same { self.old.dataset ≡ self.old.plain }
        requires ends { Ends net.now self.old.dataset }
        ensures { IsTrue result → self.new.dataset ≡ self.new.plain }
    {
        let Ok(()) = self.dataset.revert(net) else {
            return false;
        };
        let Ok(()) = self.plain.revert(net) else {
            return false;
        };
        true
    }

    // Counts a step where both hold what the model does, and list the same.
    fn counts(&self, trial: &mut Trial, model: &Model) -> bool {
        let place = trial.quad_number() as usize;
        agree(trial.alloc, &self.plain, model, &trial.table, place)
            && trial.counts(&self.dataset, model)
            && self.list_the_same_quads()
            && self.list_the_same_names()
    }

    fn list_the_same_quads(&self) -> bool {
        let (Ok(quads), Ok(others)) = (self.dataset.quads(), self.plain.quads()) else {
            return false;
        };
        let mut pairs = quads.iter().zip(others.iter());
        quads.len() == others.len() && pairs.all(|(quad, other)| same_quad(quad, other))
    }

    fn list_the_same_names(&self) -> bool {
        let (Ok(names), Ok(others)) = (self.dataset.names_sorted(), self.plain.names_sorted())
        else {
            return false;
        };
        let mut pairs = names.iter().zip(others.iter());
        names.len() == others.len() && pairs.all(|(name, other)| same_term(name, other))
    }
}
