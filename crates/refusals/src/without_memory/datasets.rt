//! Calls on datasets, staged views, nets, and keys in their orders.
use crate::datasets::begun;
use rdf_dataset::{Dataset, Net, Source, Staged};
use rdf_orders::{Order, Orders, QuadSets, Walk};
use rdf_terms::{Quad, Term};
use std::alloc::Global;
use told_parts::{Told, memory_is_back, requests_count};

pub fn outcome(alloc: Global) -> Told {
    let mut dataset = Dataset::new(alloc);
    let is_kept = match begun(alloc, &mut dataset) {
        Some(net) => {
            is_read(alloc, &dataset, &net) && is_net(alloc, net) && is_walked(alloc) == Some(true)
        }
        None => false,
    };
    Told::kept("datasets without memory", is_kept)
}

// Whether what the net takes out is there, and what it brings in isn't.
fn is_answered<D: Source>(source: &D, net: &Net) -> bool {
    holds(source, net.removed(), net.names_removed(), true)
        && holds(source, net.added(), net.names_added(), false)
}

// Whether the first quad and the first name are there, or neither is.
fn holds<D: Source>(source: &D, quads: &[Quad], names: &[Term], are_there: bool) -> bool {
    match (quads.first(), names.first()) {
        (Some(quad), Some(name)) => {
            source.contains(quad) == are_there && source.has_name(name) == are_there
        }
        _ => false,
    }
}

// A dataset of two quads, and a view of it.
fn is_read(alloc: Global, dataset: &Dataset, net: &Net) -> bool {
    requests_count(alloc);
    let is_read = is_answered(dataset, net)
        && dataset.next_blank() == 1
        && is_viewed(alloc, dataset, net);
    memory_is_back(alloc);
    is_read
}

fn is_viewed(alloc: Global, dataset: &Dataset, net: &Net) -> bool {
    let mut view = Staged::over(alloc, dataset);
    reads_alike(&mut view, net)
}

fn reads_alike(view: &mut Staged<'_, Dataset>, net: &Net) -> bool {
    is_answered(view, net)
        && view.next_blank() == 1
        && view.take_blanks(3) == Some(1)
        && view.next_blank() == 4
}

// A net, the same the other way, and one of no change.
fn is_net(alloc: Global, net: Net) -> bool {
    requests_count(alloc);
    let leads_on = leads(&net, 1, 3);
    let leads_back = leads(&net.reversed(), 3, 1);
    let is_none = is_none(&Net::empty(alloc, 7));
    memory_is_back(alloc);
    leads_on && leads_back && is_none
}

// Whether the net takes two quads and a name out and brings as many in.
fn leads(net: &Net, before: u64, after: u64) -> bool {
    let quads = net.added().len() == 2 && net.removed().len() == 2;
    let names = net.names_added().len() == 1 && net.names_removed().len() == 1;
    quads && names && net.before() == before && net.after() == after
}

// Whether the empty net changes nothing.
fn is_none(net: &Net) -> bool {
    let quads = net.added().is_empty() && net.removed().is_empty();
    let names = net.names_added().is_empty() && net.names_removed().is_empty();
    quads && names && net.before() == 7 && net.after() == 7
}

fn is_walked(alloc: Global) -> Option<bool> {
    let mut sets = QuadSets::new(alloc);
    for quad in [[0, 1, 2, 3], [0, 1, 2, 4]] {
        sets.insert(&quad).ok()?;
    }
    let mut walk = Walk::over(&sets);
    requests_count(alloc);
    let first = walk.next_in(Order::Pos, &[0, 2], None);
    let second = walk.next_in(Order::Pos, &[0, 2], first.as_ref());
    let third = walk.next_in(Order::Pos, &[0, 2], second.as_ref());
    let finds = first == Some([0, 2, 3, 1]) && second == Some([0, 2, 4, 1]) && third.is_none();
    let holds = sets.contains(&[0, 1, 2, 3]) && !sets.has_name(0);
    memory_is_back(alloc);
    Some(finds && holds)
}
