//! What was added to a set of quads and what was removed from it, while that changes.
ghost use Rattle.std.specs.Prelude.{◌≡◌, ◌≤◌, ◌+◌, length, not, option_copied, IfOk, OnOk, OnErr};
ghost use Rattle.std.specs.FinSet as set;
ghost use Rattle.rdf_terms.specs.Order.{quad_cmp};
ghost use Rattle.rdf_dataset.specs.Inside.Delta.{IsQuadDelta};
ghost use Rattle.rdf_terms.specs.Lists.{ListsOnce};
ghost use Rattle.rdf_dataset.specs.State.{Quads, in_named, matches};

use rdf_sets::{Delta, Sorted, Tree, in_order};
use rdf_store::Store;
use rdf_terms::{GraphName, NoMemory, Quad, Term};
use std::alloc::Global;

/// The quads that the second of two sets alone has, in three orders, and those that the first alone
/// has. Each method is told whether the first has the quad that it is about.
#[derive(Drop)]
pub(crate) struct QuadEdits {
    pub(crate) added: Store,
    pub(crate) removed: Tree<Quad>,
}

impl QuadEdits {
    /// From a set to itself.
    pub(crate) fn none(alloc: Global) -> QuadEdits
        ensures { (s : Quads) → IsQuadDelta s s result.added.quads result.removed }
    {
        QuadEdits {
            added: Store::new(alloc),
            removed: Tree::new(alloc),
        }
    }

    /// Whether the second set has the quad.
    pub(crate) fn contains(&self, beneath: bool, quad: &Quad) -> bool
        ensures { (s t : Quads) → IsQuadDelta s t self.now.added.quads self.now.removed →
            beneath ≡ set.contains s quad.now → result ≡ set.contains t quad.now }
    {
        if beneath {
            !self.removed.contains(quad)
        } else {
            self.added.contains(quad)
        }
    }

    /// Puts a quad into the second set.
    pub(crate) fn insert(&mut self, beneath: bool, quad: &Quad) -> Result<bool, NoMemory>
        ensures ok { OnOk result ((s t : Quads) →
            IsQuadDelta s t self.old.added.quads self.old.removed →
            beneath ≡ set.contains s quad.now →
            IsQuadDelta s (set.insert t quad.now) self.new.added.quads self.new.removed) }
        ensures new { IfOk result (λ new. (s t : Quads) →
            IsQuadDelta s t self.old.added.quads self.old.removed →
            beneath ≡ set.contains s quad.now → new ≡ not (set.contains t quad.now)) }
        ensures err { OnErr result (self.new ≡ self.old) }
    {
        if beneath {
            Ok(self.removed.remove(quad))
        } else {
            self.added.insert(quad)
        }
    }

    /// Takes a quad out of the second set.
    pub(crate) fn remove(&mut self, beneath: bool, quad: &Quad) -> Result<bool, NoMemory>
        ensures ok { OnOk result ((s t : Quads) →
            IsQuadDelta s t self.old.added.quads self.old.removed →
            beneath ≡ set.contains s quad.now →
            IsQuadDelta s (set.remove t quad.now) self.new.added.quads self.new.removed) }
        ensures was { IfOk result (λ was. (s t : Quads) →
            IsQuadDelta s t self.old.added.quads self.old.removed →
            beneath ≡ set.contains s quad.now → was ≡ set.contains t quad.now) }
        ensures err { OnErr result (self.new ≡ self.old) }
    {
        if beneath {
            self.removed.insert(quad.copy()?)
        } else {
            Ok(self.added.remove(quad))
        }
    }

    /// The same as sorted lists.
    pub(crate) fn into_delta(self, alloc: Global) -> Result<Delta<Quad>, NoMemory>
        ensures added { IfOk result (λ delta.
            set.from_list {R = quad_cmp} delta.added ≡ self.added.quads) }
        ensures removed { IfOk result (λ delta. delta.removed ≡ self.removed) }
    {
        let mut added = Vec::new(alloc);
        self.added.append_quads(&mut added)?;
        Ok(Delta {
            added: Sorted::from_rising(in_order(added)),
            removed: self.removed.into_sorted(alloc)?,
        })
    }

    /// Makes the matching quads of the first set those of the second, and
    /// answers how many more were looked at: those of them that were added.
    pub(crate) fn amend(
        &self,
        found: &mut Vec<Quad>,
        graph: &GraphName,
        subject: Option<&Term>,
        predicate: Option<&Term>,
        object: Option<&Term>,
    ) -> Result<usize, NoMemory>
        ensures ok { OnOk result ((s t : Quads) →
            IsQuadDelta s t self.now.added.quads self.now.removed →
            ListsOnce (set.retain s (matches graph.now (option_copied subject.entry)
            (option_copied predicate.entry) (option_copied object.entry))) found.old.items →
            ListsOnce (set.retain t (matches graph.now (option_copied subject.entry)
            (option_copied predicate.entry) (option_copied object.entry))) found.new.items) }
        ensures looked { IfOk result
            (λ looked. length found.new.items ≤ length found.old.items + looked) }
    {
        found.retain(|quad| !self.removed.contains(quad));
        self.added.matches(graph, subject, predicate, object, found)
    }

    /// Makes the quads of the first set's named graphs those of the second, and answers how many more
    /// were looked at: those of them that were added.
    pub(crate) fn amend_named(&self, found: &mut Vec<Quad>) -> Result<usize, NoMemory>
        ensures ok { OnOk result ((s t : Quads) →
            IsQuadDelta s t self.now.added.quads self.now.removed →
            ListsOnce (set.retain s in_named) found.old.items →
            ListsOnce (set.retain t in_named) found.new.items) }
        ensures looked { IfOk result
            (λ looked. length found.new.items ≤ length found.old.items + looked) }
    {
        found.retain(|quad| !self.removed.contains(quad));
        self.added.named_quads(found)
    }
}
