//! The net between two places of a history.
ghost use Rattle.std.specs.Prelude.{◌≡◌, ◌≤◌, ◌∷◌, IfOk, length, slice_index_or};
ghost use Rattle.rdf_dataset.specs.State.{State, net_between};
ghost use Rattle.rdf_session.specs.Inside.Kept.{AreNets, states_after};

use rdf_dataset::Net;
use rdf_terms::NoMemory;
use std::alloc::Global;
use std::collections::VecDeque;

/// How many quads and names a net has, and one more.
pub fn size_of(net: &Net) -> usize {
    let quads = net.added().len().saturating_add(net.removed().len());
    let names = net
        .names_added()
        .len()
        .saturating_add(net.names_removed().len());
    quads.saturating_add(names).saturating_add(1)
}

/// The sizes of the nets from one place of a chain to another, together.
pub fn size_between(entries: &VecDeque<Net>, from: usize, to: usize) -> usize
    requires within { to ≤ length entries.now.items }
{
    let mut size: usize = 0;
    for place in from..to {
        size = size.saturating_add(size_of(&entries[place]));
    }
    size
}

/// The net from one place of a chain of nets to another, before it or behind; the counter is that of the last place.
///
/// # Errors
/// [`NoMemory`] where memory is wanting.
pub fn between(
    alloc: Global,
    entries: &VecDeque<Net>,
    from: usize,
    to: usize,
    counter: u64,
) -> Result<Net, NoMemory>
    requires from_within { from ≤ length entries.now.items }
    requires to_within { to ≤ length entries.now.items }
    ensures { IfOk result (λ net. (base : State) → AreNets base entries.now.items →
        counter ≡ (slice_index_or (base ∷ states_after base entries.now.items) to base).next →
        net ≡ net_between
        (slice_index_or (base ∷ states_after base entries.now.items) from base)
        (slice_index_or (base ∷ states_after base entries.now.items) to base)) }
{
    if from <= to {
        return composed(alloc, entries, from, to, counter);
    }
    let net = composed(alloc, entries, to, from, entries[from - 1].after())?;
    Ok(net.reversed())
}

/// The net from one place of a chain of nets to a later one; the counter is that of the later.
///
/// # Errors
/// [`NoMemory`] where memory is wanting.
pub fn composed(
    alloc: Global,
    entries: &VecDeque<Net>,
    from: usize,
    to: usize,
    counter: u64,
) -> Result<Net, NoMemory>
    requires order { from ≤ to }
    requires within { to ≤ length entries.now.items }
    ensures { IfOk result (λ net. (base : State) → AreNets base entries.now.items →
        counter ≡ (slice_index_or (base ∷ states_after base entries.now.items) to base).next →
        net ≡ net_between
        (slice_index_or (base ∷ states_after base entries.now.items) from base)
        (slice_index_or (base ∷ states_after base entries.now.items) to base)) }
{
    // the ring holds them in two runs
    let (front, back) = entries.as_slices();
    let seam = front.len();
    if to <= seam {
        return Net::of_chain(alloc, &front[from..to], counter);
    }
    if from >= seam {
        return Net::of_chain(alloc, &back[from - seam..to - seam], counter);
    }
    let earlier = Net::of_chain(alloc, &front[from..], back[0].before())?;
    let later = Net::of_chain(alloc, &back[..to - seam], counter)?;
    earlier.joined(later)
}
