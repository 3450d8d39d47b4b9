//! A source that counts what is asked of it.
ghost use Rattle.std.specs.Prelude.{◌≡◌};

use rdf_dataset::Source;
use rdf_terms::{GraphName, NoMemory, Quad, Term};
use std::cell::Cell;

/// Counts the look-ups, and adds up the numbers that they answer.
#[derive(Drop)]
pub(crate) struct Counting<'a, D: Source> {
    pub(crate) under: &'a D,
    pub(crate) calls: &'a Cell<usize>,
    pub(crate) looked: &'a Cell<usize>,
}

impl<'a, D: Source> Source for Counting<'a, D> {
    ghost contents = { λ s. D.contents s.under.now };

    fn contains(&self, quad: &Quad) -> bool {
        self.under.contains(quad)
    }

    fn has_name(&self, name: &Term) -> bool {
        self.under.has_name(name)
    }

    fn next_blank(&self) -> u64 {
        self.under.next_blank()
    }

    fn names(&self, out: &mut Vec<Term>) -> Result<(), NoMemory> {
        self.under.names(out)
    }

    fn matches(
        &self,
        graph: &GraphName,
        subject: Option<&Term>,
        predicate: Option<&Term>,
        object: Option<&Term>,
        out: &mut Vec<Quad>,
    ) -> Result<usize, NoMemory> {
        let looked = self.under.matches(graph, subject, predicate, object, out)?;
        self.calls.set(self.calls.get().saturating_add(1));
        self.looked.set(self.looked.get().saturating_add(looked));
        Ok(looked)
    }
}
