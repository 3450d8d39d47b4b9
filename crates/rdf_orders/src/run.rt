//! Runs: what a look-up finds, one quad after another, and counted.
ghost use Rattle.std.specs.Prelude.{◌≡◌, [], is_some, if◌then◌else◌};
ghost use Rattle.std.specs.FinSet as set;
ghost use Rattle.std.specs.Map.Iter.{TakesFirst};
ghost use Rattle.rdf_orders.specs.Quads.{matches};
ghost use Rattle.rdf_orders.specs.Runs.{AppendsKeysOnce, raised_by};

use crate::key_iters::KeyRange;
use crate::look_ups::{Prefix, prefix_of};
use crate::order::Key;
use crate::quad_sets::QuadSets;
use std::marker::Model;

/// The quads that a look-up finds, by their keys in `Spo`: those that are left, and how many were
/// answered.
#[derive(Drop)]
pub struct Run<'a> {
    prefix: Prefix,
    keys: KeyRange<'a>,
    has_ended: bool,
    looked: usize,
}

impl<'a> Model for Run<'a> {
    ghost use Rattle.std.specs.Prelude.{take};
    ghost use Rattle.rdf_orders.specs.Running.{Running};

    ghost Value = { Running };

    ghost use Rattle.rdf_orders.specs.Inside.Run.{left_of_run};

    ghost view = { λ r. record {
      left = left_of_run r.prefix.order (take r.prefix.len r.prefix.numbers) r.has_ended r.keys;
      looked = r.looked;
    } };
}

impl<'a> Run<'a> {
    /// The next quad, which is counted, up to the greatest `usize`.
    #[inline(always)]
    pub fn next_key(&mut self) -> Option<Key>
        ensures next { TakesFirst (λ k. k) self.old.left result self.new.left }
        ensures counted { self.new.looked
            ≡ raised_by (if is_some result then 1 else 0) self.old.looked }
    {
        if self.has_ended {
            return None;
        }
        let key = self.keys.next()?;
        if !key.starts_with(&self.prefix.numbers[..self.prefix.len]) {
            self.has_ended = true;
            return None;
        }
        self.looked = self.looked.saturating_add(1);
        Some(self.prefix.order.restore(&key))
    }

    /// How many quads were answered.
    pub fn looked(&self) -> usize
        ensures { result ≡ self.now.looked }
    {
        self.looked
    }
}

impl QuadSets {
    /// Each quad that lies in the graph and has the numbers of the bound places, once. It takes no
    /// memory.
    pub fn run(
        &self,
        graph: u64,
        subject: Option<u64>,
        predicate: Option<u64>,
        object: Option<u64>,
    ) -> Run<'_>
        ensures found { AppendsKeysOnce
            (set.retain self.now.quads (matches graph subject predicate object)) [] result.left }
        ensures none_yet { result.looked ≡ 0 }
    {
        let prefix = prefix_of(graph, subject, predicate, object);
        let keys = self.keys_ahead(prefix.order, &prefix.numbers[..prefix.len], None);
        Run {
            prefix,
            keys,
            has_ended: false,
            looked: 0,
        }
    }
}
