//! Look-ups in sets of quads, counted.
ghost use Rattle.std.specs.Prelude.{◌≡◌, ◌+◌, ◌≤◌, length, ◌-◌, [], ◌∷◌, false, Some, IfNone, IfSome, IfOk, IsTrue, OnOk, OnErr, option_copied};
ghost use Rattle.std.specs.FinSet as set;
ghost use Rattle.rdf_orders.specs.Contents.{ListsKeys};
ghost use Rattle.rdf_orders.specs.Quads.{IdQuads, is_from, matches};
ghost use Rattle.rdf_orders.specs.Runs.{AppendsKeysOnce, AppendsSomeKeys, BeginsWith};
ghost use Rattle.rdf_orders.specs.Inside.Ahead.{AreKeysAhead, AreKeysBehind, IsFirstAhead};

use crate::key_iters::KeyRange;
use crate::look_ups::{look_up, look_up_some};
use crate::order::{Key, Order};
use crate::orders::Orders;
use crate::quad_sets::QuadSets;
use rdf_terms::NoMemory;
use std::alloc::Global;
use std::marker::Model;
use std::ops::Bound;

/// The key that was answered last, and those behind it in its order.
#[derive(Drop)]
pub(crate) struct Place<'a> {
    pub(crate) order: Order,
    pub(crate) key: Key,
    pub(crate) behind: KeyRange<'a>,
}

impl<'a> Place<'a> {
    // Whether the run with the prefix goes on behind this place.
    fn goes_on(&self, order: Order, prefix: &[u64], after: Option<&Key>) -> bool
        ensures order { IsTrue result → order ≡ self.now.order }
        ensures after { IsTrue result → option_copied after.entry ≡ Some self.now.key }
        ensures begins { IsTrue result → BeginsWith prefix.now self.now.key }
    {
        match after {
            Some(after) => {
                order == self.order && *after == self.key && self.key.starts_with(prefix)
            }
            None => false,
        }
    }

    // The first of the keys behind, which becomes the place's own; where there is none it stays.
    #[tactic(auto, using(crate::proofs::AheadLemmas::behind_last))]
    fn next_key(&mut self) -> Option<Key>
        ensures none { IfNone result (self.old.behind ≡ []) }
        ensures first { IfSome result (λ key. self.old.behind ≡ key ∷ self.new.behind) }
        ensures kept { (quads : IdQuads) →
            AreKeysBehind quads self.old.order self.old.key self.old.behind →
            AreKeysBehind quads self.new.order self.new.key self.new.behind }
    {
        let key = self.behind.next()?;
        self.key = key;
        Some(key)
    }
}

/// The quads of sets that stay as they are, and a count of the keys that were answered.
#[derive(Drop)]
pub struct Walk<'a> {
    sets: &'a QuadSets,
    place: Option<Place<'a>>,
    count: usize,
}

impl<'a> Model for Walk<'a> {
    ghost use Rattle.std.specs.Prelude.{IfSome};
    ghost use Rattle.rdf_orders.specs.Contents.{Counted, counted_code};
    ghost use Rattle.rdf_orders.specs.Inside.Ahead.{AreKeysBehind};

    ghost Value = { Counted };

    ghost coded = { counted_code };

    ghost view = { λ w. record { quads = w.sets.now.quads; count = w.count } };

    ghost invariant = { λ w. IfSome w.place
        (λ p. AreKeysBehind w.sets.now.quads p.order p.key p.behind) };
}

impl<'a> Walk<'a> {
    /// No key was answered yet.
    pub fn over(sets: &'a QuadSets) -> Walk<'a>
        ensures { result ≡ record { quads = sets.now.quads; count = 0 } }
    {
        Walk {
            sets,
            place: None,
            count: 0,
        }
    }

    /// How many keys were answered.
    pub fn count(&self) -> usize
        ensures { result ≡ self.now.count }
    {
        self.count
    }

    // The first of the keys ahead, which becomes the place. Where the run goes on behind the place,
    // that moves on as it stands.
    fn key_ahead(&mut self, order: Order, prefix: &[u64], after: Option<&Key>) -> Option<Key>
        requires { length prefix.now ≤ 4 }
        ensures none { IfNone result (AreKeysAhead self.old.quads order prefix.now
            (option_copied after.entry) []) }
        ensures first { IfSome result (IsFirstAhead self.old.quads order prefix.now
            (option_copied after.entry)) }
        ensures same { self.new ≡ self.old }
    {
        if let Some(place) = &mut self.place {
            if place.goes_on(order, prefix, after) {
                return place.next_key();
            }
        }
        let mut behind = self.sets.keys_ahead(order, prefix, after);
        let key = behind.next()?;
        self.place = Some(Place { order, key, behind });
        Some(key)
    }
}

impl<'a> Orders for Walk<'a> {
    ghost quads = { λ w. w.quads };

    ghost count = { λ w. w.count };

    fn next_in(&mut self, order: Order, prefix: &[u64], after: Option<&Key>) -> Option<Key> {
        if prefix.len() > 4 {
            return None;
        }
        let key = self.key_ahead(order, prefix, after)?;
        if !key.starts_with(prefix) {
            return None;
        }
        self.count = self.count.saturating_add(1);
        Some(key)
    }
}

impl QuadSets {
    /// Appends each quad that lies in the graph and has the numbers of the bound places once, by
    /// its key in `Spo`, and answers how many were looked at: just those.
    ///
    /// # Errors
    /// [`NoMemory`] where memory is wanting: nothing is appended then.
    pub fn matches(
        &self,
        alloc: Global,
        graph: u64,
        subject: Option<u64>,
        predicate: Option<u64>,
        object: Option<u64>,
        out: &mut Vec<Key>,
    ) -> Result<usize, NoMemory>
        ensures found { OnOk result (AppendsKeysOnce
            (set.retain self.now.quads (matches graph subject predicate object))
            out.old.items out.new.items) }
        ensures looked { IfOk result (λ looked.
            looked ≡ length out.new.items - length out.old.items) }
        ensures err { OnErr result (out.new.items ≡ out.old.items) }
    {
        let mut walk = Walk::over(self);
        look_up(alloc, &mut walk, graph, subject, predicate, object, out)?;
        Ok(walk.count())
    }
    /// Appends some of the quads that [`matches`](QuadSets::matches) appends, each once, and answers
    /// whether these are all; where they aren't, they are `most`. It looks at no others.
    ///
    /// # Errors
    /// [`NoMemory`] where memory is wanting: nothing is appended then.
    pub fn some_matches(
        &self,
        alloc: Global,
        graph: u64,
        subject: Option<u64>,
        predicate: Option<u64>,
        object: Option<u64>,
        most: usize,
        out: &mut Vec<Key>,
    ) -> Result<bool, NoMemory>
        ensures found { IfOk result (λ all. AppendsSomeKeys
            (set.retain self.now.quads (matches graph subject predicate object))
            all out.old.items out.new.items) }
        ensures stopped { IfOk result (λ all. all ≡ false →
            length out.new.items ≡ length out.old.items + most) }
        ensures few { OnOk result (length out.new.items ≤ length out.old.items + most) }
        ensures err { OnErr result (out.new.items ≡ out.old.items) }
    {
        let mut walk = Walk::over(self);
        look_up_some(
            alloc, &mut walk, graph, subject, predicate, object, most, out,
        )
    }

    /// The quads of the graph with a number and of those with greater numbers, each once, by their keys
    /// in `Spo` and in that order. No others are looked at. It takes no memory.
    pub fn keys_from(&self, graph: u64) -> KeyRange<'_>
        ensures { ListsKeys (set.retain self.now.quads (is_from graph)) result }
    {
        let start = Bound::Included([graph, 0, 0, 0]);
        self.trees.of(Order::Spo).range_from(start)
    }
}
