//! A set of quads in three search trees, one for each order.
ghost use Rattle.std.specs.Prelude.{◌≡◌, not, IfOk, OnOk, OnErr};
ghost use Rattle.std.specs.FinSet as set;
ghost use Rattle.std.specs.BTreeSet.{IsOrdered};
ghost use Rattle.rdf_orders.specs.declared.order.Order.TheVariants.{Spo};
ghost use Rattle.rdf_orders.specs.Quads.{IdQuads, key_cmp, key_in, quad_of, quads_of};
ghost use Rattle.rdf_orders.specs.Inside.Mirror.{tree_of, has_key, Mirrors, AreBuiltOn, GainsBehind, GainsSome, LosesKey};

use crate::key_tree::KeyTree;
use crate::order::{Key, Order};
use rdf_terms::NoMemory;
use std::alloc::Global;

/// The keys of the quads in each order. While one comes in, they may have come apart.
#[derive(Drop)]
pub(crate) struct Trees {
    pub(crate) spo: KeyTree,
    pub(crate) pos: KeyTree,
    pub(crate) osp: KeyTree,
}

impl Trees {
    /// No quads.
    pub(crate) fn new(alloc: Global) -> Trees
        ensures { Mirrors result set.empty }
    {
        Trees {
            spo: KeyTree::new(alloc),
            pos: KeyTree::new(alloc),
            osp: KeyTree::new(alloc),
        }
    }

    // The first tree, and those of the other two orders, each built at once.
    fn of_first(alloc: Global, spo: KeyTree) -> Result<Trees, NoMemory>
        ensures { IfOk result (AreBuiltOn spo) }
    {
        let pos = KeyTree::built(alloc, Order::Pos, &spo, &[])?;
        let osp = KeyTree::built(alloc, Order::Osp, &spo, &[])?;
        Ok(Trees { spo, pos, osp })
    }

    /// The quads of these trees and those with these keys in `Spo`, in new trees: each is built at
    /// once.
    pub(crate) fn with_quads(&self, alloc: Global, quads: &[Key]) -> Result<Trees, NoMemory>
        ensures { IfOk result (λ trees. (old : IdQuads) → Mirrors self.now old →
            Mirrors trees (set.union old (quads_of quads.now))) }
    {
        let spo = KeyTree::built(alloc, Order::Spo, &self.spo, quads)?;
        Trees::of_first(alloc, spo)
    }

    /// The quads of these trees and those with these keys in `Spo`, in new trees: each is built at
    /// once, and the list goes as soon as the first one is.
    pub(crate) fn with_list(&self, alloc: Global, quads: Vec<Key>) -> Result<Trees, NoMemory>
        ensures { IfOk result (λ trees. (old : IdQuads) → Mirrors self.now old →
            Mirrors trees (set.union old (quads_of quads.items))) }
    {
        let spo = KeyTree::built(alloc, Order::Spo, &self.spo, quads.as_slice())?;
        drop(quads);
        Trees::of_first(alloc, spo)
    }

    /// How many quads there are.
    pub(crate) fn len(&self) -> usize {
        self.spo.len()
    }

    /// The keys in an order.
    pub(crate) fn of(&self, order: Order) -> &KeyTree
        ensures { result.now ≡ tree_of order self.now }
    {
        match order {
            Order::Spo => &self.spo,
            Order::Pos => &self.pos,
            Order::Osp => &self.osp,
        }
    }

    /// The keys in `Spo`, which rise, as those of each tree do.
    pub(crate) fn rising(&self) -> &KeyTree
        ensures is { result.now ≡ self.now.spo }
        ensures rises { IsOrdered key_cmp result.now }
    {
        // (that they rise is what any call of the set tells)
        let _ = self.spo.len();
        &self.spo
    }

    /// Whether the quad is there.
    pub(crate) fn contains(&self, quad: &Key) -> bool
        ensures { (quads : IdQuads) → Mirrors self.now quads →
            result ≡ set.contains quads (quad_of quad.now) }
    {
        self.spo.contains(quad)
    }

    /// Adds the quad in all three orders, and answers whether it is new. Where one of them is
    /// refused, it is taken out of those before.
    pub(crate) fn insert(&mut self, quad: &Key) -> Result<bool, NoMemory>
        ensures ok { OnOk result ((quads : IdQuads) → Mirrors self.old quads →
            Mirrors self.new (set.insert quads (quad_of quad.now))) }
        ensures new { IfOk result (λ new. (quads : IdQuads) → Mirrors self.old quads →
            new ≡ not (set.contains quads (quad_of quad.now))) }
        ensures err { OnErr result ((quads : IdQuads) → Mirrors self.old quads →
            Mirrors self.new quads) }
    {
        if !self.spo.insert(quad)? {
            return Ok(false);
        }
        if let Err(refused) = self.insert_behind(quad) {
            self.remove(quad);
            return Err(refused);
        }
        Ok(true)
    }

    // Adds the quad in the other two orders. Where the second is refused, it stays in the first.
    fn insert_behind(&mut self, quad: &Key) -> Result<(), NoMemory>
        ensures ok { OnOk result (GainsBehind self.old self.new (quad_of quad.now)) }
        ensures err { OnErr result (GainsSome self.old self.new (quad_of quad.now)) }
    {
        self.pos.insert(&Order::Pos.arrange(quad))?;
        self.osp.insert(&Order::Osp.arrange(quad))?;
        Ok(())
    }

    /// Takes the quad out of all three orders, and answers whether it was there.
    pub(crate) fn remove(&mut self, quad: &Key) -> bool
        ensures keys { LosesKey self.old self.new (quad_of quad.now) }
        ensures was { result ≡ has_key Spo self.old (key_in Spo (quad_of quad.now)) }
    {
        self.pos.remove(&Order::Pos.arrange(quad));
        self.osp.remove(&Order::Osp.arrange(quad));
        self.spo.remove(quad)
    }
}
