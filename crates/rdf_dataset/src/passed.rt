//! Quads that went, and that look-ups beneath find again: where they did so often enough, a graph is found apart.
ghost use Rattle.std.specs.Prelude.{◌≡◌};

use crate::source::Source;
use crate::staged::Staged;
use rdf_terms::{GraphName, NoMemory};
use std::cell::Cell;

// From how many quads on a graph is looked for.
const FEW: usize = 100;

/// How many quads look-ups found beneath that had gone, and in which graph they did last. It tells when a graph is to be
/// found apart, which costs time and changes no answer: no contract speaks of it.
#[derive(Drop)]
pub(crate) struct Passed {
    quads: Cell<usize>,
    graph: Cell<Option<GraphName>>,
    enough: usize,
}

impl Passed {
    /// None yet.
    pub(crate) fn none() -> Passed {
        Passed {
            quads: Cell::new(0),
            graph: Cell::new(None),
            enough: FEW,
        }
    }

    /// A look-up in the graph has found so many. Where memory is wanting for the graph's name, the one before stays.
    pub(crate) fn note(&self, graph: &GraphName, quads: usize) {
        if quads == 0 {
            return;
        }
        self.quads.set(self.quads.get().saturating_add(quads));
        if let Ok(graph) = graph.copy() {
            self.graph.set(Some(graph));
        }
    }

    // The graph that is to be found apart, and how many quads it may have beneath: twice as many as were found.
    fn due(&self) -> Option<(GraphName, usize)> {
        let quads = self.quads.get();
        if quads < self.enough {
            return None;
        }
        let graph = self.graph.replace(None)?;
        Some((graph, quads.saturating_mul(2)))
    }

    // The graph has more: the next one is looked for where twice as many have been found.
    fn wait(&mut self) {
        self.enough = self.quads.get().saturating_mul(2);
    }

    // A graph that has so many beneath is found apart.
    fn pay(&mut self, quads: usize) {
        self.quads.set(self.quads.get().saturating_sub(quads));
    }
}

impl<'a, D: Source> Staged<'a, D> {
    /// Looks whether quads that went were found again beneath so often that it is cheaper to find the graph apart in
    /// which they were: one that beneath has at most twice as many quads as were found so. What comes to it and what
    /// goes from it is found there from then on. Nothing that is held changes: it is to be called between operations.
    ///
    /// # Errors
    /// [`NoMemory`] where memory is wanting: nothing has changed then.
    pub fn settle(&mut self) -> Result<(), NoMemory>
        ensures { self.new ≡ self.old }
    {
        let Some((graph, most)) = self.passed.due() else {
            return Ok(());
        };
        if self.emptied.part(&graph).is_some() {
            return Ok(());
        }
        let mut found = Vec::new(self.alloc);
        if !self
            .under
            .some_matches(&graph, None, None, None, most, &mut found)?
        {
            self.passed.wait();
            return Ok(());
        }
        self.passed.pay(found.len());
        self.edits
            .amend_quads(&mut found, &graph, None, None, None)?;
        self.hold(&graph, found.as_slice());
        Ok(())
    }
}
