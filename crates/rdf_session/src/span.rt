//! What changed since the base, held so that it needn't be composed anew of all entries.
ghost use Rattle.std.specs.Prelude.{◌≡◌, ◌≤◌, [], ◌∷◌, ◌++◌, IfOk, OnOk, length, slice_index_or};
ghost use Rattle.rdf_dataset.specs.State.{State, net_between};
ghost use Rattle.rdf_session.specs.Inside.Kept.{AreNets, states_after};
ghost use Rattle.rdf_session.specs.Inside.Spans.{IsSpan, no_span};

use crate::between::{between, size_of};
use rdf_dataset::Net;
use rdf_terms::NoMemory;
use std::alloc::Global;
use std::collections::VecDeque;
use std::marker::Model;

// What is always left to be composed: small histories are not taken in.
const LEAST: usize = 64;

/// Nets from the base of a history to one of its places, one behind another. The first has all that was changed up to
/// some place; those behind it, and the entries between the place and the state now, are no more than half of it and a
/// little more.
#[derive(Drop)]
pub struct Span {
    nets: Vec<Net>,
    place: usize,
    // the sizes of what was done since there was one net
    work: usize,
    // whether none is held until the base is the state now: it has moved, since a depth forgets
    stopped: bool,
}

impl Model for Span {
    ghost use Rattle.rdf_session.specs.Inside.Spans.{Span as Seen, span_code};

    ghost Value = { Seen };

    ghost coded = { span_code };

    ghost view = { λ s. record { nets = s.nets.items; place = s.place } };
}

impl Span {
    /// No nets, at the base.
    pub fn new(alloc: Global) -> Span
        ensures { result ≡ no_span }
    {
        Span {
            nets: Vec::new(alloc),
            place: 0,
            work: 0,
            stopped: false,
        }
    }

    /// Drops the nets, and begins at the base, which is the state now.
    pub fn clear(&mut self)
        ensures { self.new ≡ no_span }
    {
        self.stop();
        self.stopped = false;
    }

    /// Drops the nets, since the base has moved, and holds none as long as there are entries.
    pub fn stop(&mut self)
        ensures { self.new ≡ no_span }
    {
        self.nets.clear();
        self.place = 0;
        self.work = 0;
        self.stopped = true;
    }

    /// The net from the base to a place, whose counter it is: what is held, and behind it only what lies between.
    ///
    /// # Errors
    /// [`NoMemory`] where memory is wanting.
    pub fn net_to(
        &self,
        alloc: Global,
        entries: &VecDeque<Net>,
        to: usize,
        counter: u64,
    ) -> Result<Net, NoMemory>
        requires place_within { self.now.place ≤ length entries.now.items }
        requires to_within { to ≤ length entries.now.items }
        ensures { IfOk result (λ net. (base : State) → AreNets base entries.now.items →
            IsSpan base entries.now.items self.now →
            counter ≡ (slice_index_or (base ∷ states_after base entries.now.items) to base).next →
            net ≡ net_between base (slice_index_or (base ∷ states_after base entries.now.items) to base)) }
    {
        let later = between(alloc, entries, self.place, to, counter)?;
        if self.nets.is_empty() {
            return Ok(later);
        }
        let earlier = Net::of_chain(alloc, &self.nets, later.before())?;
        earlier.joined(later)
    }

    /// Notes that so much more was done, and answers whether that has grown to half of the first net and a little
    /// more, so that it pays for one net of all. A first entry alone is as good as a net.
    pub fn is_due(&mut self, work: usize, entries: &VecDeque<Net>, cursor: usize) -> bool
        ensures { self.new ≡ self.old }
    {
        if self.nets.is_empty() && cursor <= 1 {
            self.work = 0;
            return false;
        }
        self.work = self.work.saturating_add(work);
        let first = match self.nets.first() {
            Some(net) => Some(net),
            None => entries.front(),
        };
        let held = match first {
            Some(net) => size_of(net),
            None => 0,
        };
        !self.stopped && self.work >= held / 2 + LEAST
    }

    /// Makes one net of all up to a place, whose counter it is. Where memory is wanting it holds what it held, or none.
    pub fn gather(&mut self, alloc: Global, entries: &VecDeque<Net>, to: usize, counter: u64)
        requires place_within { self.old.place ≤ length entries.now.items }
        requires to_within { to ≤ length entries.now.items }
        ensures { (base : State) → AreNets base entries.now.items →
            counter ≡ (slice_index_or (base ∷ states_after base entries.now.items) to base).next →
            IsSpan base entries.now.items self.old → IsSpan base entries.now.items self.new }
    {
        self.work = 0;
        let Ok(net) = self.net_to(alloc, entries, to, counter) else {
            return;
        };
        self.nets.clear();
        if let Ok(()) = put_last(&mut self.nets, net) {
            self.place = to;
        } else {
            self.empty();
        }
    }

    /// Goes back to a place, whose counter it is, before the entries behind it are dropped. Where memory is wanting it
    /// holds none.
    pub fn leave(&mut self, alloc: Global, entries: &VecDeque<Net>, to: usize, counter: u64)
        requires place_within { self.old.place ≤ length entries.now.items }
        requires to_within { to ≤ length entries.now.items }
        ensures place { self.new.place ≤ to }
        ensures span { (base : State) → AreNets base entries.now.items →
            counter ≡ (slice_index_or (base ∷ states_after base entries.now.items) to base).next →
            IsSpan base entries.now.items self.old → IsSpan base entries.now.items self.new }
    {
        if self.place <= to {
            return;
        }
        let Ok(net) = between(alloc, entries, self.place, to, counter) else {
            self.empty();
            return;
        };
        if let Ok(()) = put_last(&mut self.nets, net) {
            self.place = to;
        } else {
            self.empty();
        }
    }

    // Drops the nets.
    fn empty(&mut self)
        ensures { self.new ≡ no_span }
    {
        self.nets.clear();
        self.place = 0;
    }
}

// Puts a net behind the others.
fn put_last(nets: &mut Vec<Net>, net: Net) -> Result<(), NoMemory>
    ensures { OnOk result (nets.new.items ≡ nets.old.items ++ net ∷ []) }
{
    nets.push(net)?;
    Ok(())
}
