//! One change on a view and on the model, and whether both answer the same.
ghost use Rattle.std.specs.Prelude.{◌≡◌, IsTrue, IfSome};
ghost use Rattle.rdf_dataset.specs.State.{IsEmptyGraph, Begins};

use crate::keys::key_at;
use crate::model::Model;
use crate::table::QuadEntry;
use crate::terms::{name, quad};
use crate::trial::Trial;
use rdf_dataset::{Net, Source, Staged};
use rdf_terms::GraphName;
use std::alloc::Global;

// The blank nodes of the possible quads and names have numbers below this.
const NUMBERS: u64 = 4;

fn insert<D: Source>(
    alloc: Global,
    staged: &mut Staged<'_, D>,
    model: &mut Model,
    place: u8,
) -> bool
    ensures { staged.new.under ≡ staged.old.under }
{
    let key = key_at(place);
    let Some(quad) = quad(alloc, key) else {
        return false;
    };
    if staged.next_blank() < NUMBERS {
        return false;
    }
    match staged.insert(quad) {
        Ok(new) => model.insert(key) == Some(new),
        Err(_) => false,
    }
}

fn remove<D: Source>(staged: &mut Staged<'_, D>, model: &mut Model, entry: &QuadEntry) -> bool
    ensures { staged.new.under ≡ staged.old.under }
{
    match staged.remove(&entry.quad) {
        Ok(was) => model.remove(entry.key) == was,
        Err(_) => false,
    }
}

fn remove_at<D: Source>(
    staged: &mut Staged<'_, D>,
    model: &mut Model,
    quads: &[QuadEntry],
    place: u8,
) -> bool
    ensures { staged.new.under ≡ staged.old.under }
{
    match quads.get(place as usize) {
        Some(entry) => remove(staged, model, entry),
        None => false,
    }
}

// Removes each quad of a graph.
fn clear<D: Source>(
    staged: &mut Staged<'_, D>,
    model: &mut Model,
    quads: &[QuadEntry],
    graph: u8,
) -> bool
    ensures { staged.new.under ≡ staged.old.under }
{
    for entry in quads {
        if entry.key.graph == graph && !remove(staged, model, entry) {
            return false;
        }
    }
    true
}

fn add_name<D: Source>(
    alloc: Global,
    staged: &mut Staged<'_, D>,
    model: &mut Model,
    number: u8,
) -> bool
    ensures { staged.new.under ≡ staged.old.under }
{
    let Some(name) = name(alloc, number) else {
        return false;
    };
    if staged.next_blank() < NUMBERS {
        return false;
    }
    match staged.add_name(name) {
        Ok(new) => model.add_name(number) == Some(new),
        Err(_) => false,
    }
}

fn is_empty_graph<D: Source>(alloc: Global, source: &D, graph: &GraphName) -> bool
    ensures { IsTrue result → IsEmptyGraph (D.contents source.now) graph.now }
{
    let mut found = Vec::new(alloc);
    match source.matches(graph, None, None, None, &mut found) {
        Ok(_) => found.as_slice().is_empty(),
        Err(_) => false,
    }
}

// A graph that isn't empty keeps its name.
fn drop_name<D: Source>(
    alloc: Global,
    staged: &mut Staged<'_, D>,
    model: &mut Model,
    number: u8,
) -> bool
    ensures { staged.new.under ≡ staged.old.under }
{
    let Some(name) = name(alloc, number) else {
        return false;
    };
    let graph = GraphName::Named(name);
    if !is_empty_graph(alloc, staged, &graph) {
        return !model.is_empty_graph(number);
    }
    let GraphName::Named(name) = &graph else {
        return false;
    };
    match staged.drop_name(name) {
        Ok(was) => model.is_empty_graph(number) && model.drop_name(number) == was,
        Err(_) => false,
    }
}

fn take_blanks<D: Source>(staged: &mut Staged<'_, D>, model: &mut Model, count: u64) -> bool
    ensures { staged.new.under ≡ staged.old.under }
{
    staged.take_blanks(count) == model.take_blanks(count)
}

/// One of the changes, drawn by the generator.
pub fn step<D: Source>(trial: &mut Trial, staged: &mut Staged<'_, D>, model: &mut Model) -> bool
    ensures { staged.new.under ≡ staged.old.under }
{
    let place = trial.quad_number();
    let name = trial.name_number();
    let alloc = trial.alloc;
    match trial.number() % 16 {
        0..=5 => insert(alloc, staged, model, place),
        6..=9 => remove_at(staged, model, trial.table.quads.as_slice(), place),
        10 => clear(staged, model, trial.table.quads.as_slice(), name),
        11 => add_name(alloc, staged, model, name),
        12 | 13 => drop_name(alloc, staged, model, name),
        14 => take_blanks(staged, model, place as u64),
        _ => take_blanks(staged, model, 1_000_000_000_000_000_000),
    }
}

/// The net of the changes on a view that agree. The view ends either way: to drop one takes the
/// proof minutes.
pub fn net_where<D: Source>(agree: bool, staged: Staged<'_, D>) -> Option<Net>
    ensures { IfSome result (λ net. Begins net staged.entry.under) }
{
    match staged.into_net() {
        Ok(net) if agree => Some(net),
        _ => None,
    }
}
