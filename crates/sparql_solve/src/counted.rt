//! A source that counts what its look-ups look at.

use rdf_dataset::Source;
use rdf_terms::{GraphName, NoMemory, Quad, Term};
use std::cell::Cell;

/// A source, and how many quads and names its look-ups looked at, each look-up itself counted too.
#[derive(Drop)]
pub(crate) struct Counted<'a, S: Source> {
    pub(crate) source: &'a S,
    pub(crate) looked: &'a Cell<u64>,
}

impl<'a, S: Source> Counted<'a, S> {
    fn count(&self, looked: usize) {
        let before = self.looked.get();
        self.looked
            .set(before.saturating_add(1).saturating_add(looked as u64));
    }
}

impl<'a, S: Source> Source for Counted<'a, S> {
    ghost contents = { λ s. S.contents s.source.now };

    fn contains(&self, quad: &Quad) -> bool {
        self.source.contains(quad)
    }

    fn has_name(&self, name: &Term) -> bool {
        self.source.has_name(name)
    }

    fn next_blank(&self) -> u64 {
        self.source.next_blank()
    }

    fn names(&self, out: &mut Vec<Term>) -> Result<(), NoMemory> {
        let before = out.len();
        self.source.names(out)?;
        self.count(out.len().saturating_sub(before));
        Ok(())
    }

    fn matches(
        &self,
        graph: &GraphName,
        subject: Option<&Term>,
        predicate: Option<&Term>,
        object: Option<&Term>,
        out: &mut Vec<Quad>,
    ) -> Result<usize, NoMemory> {
        let looked = self.source.matches(graph, subject, predicate, object, out)?;
        self.count(looked);
        Ok(looked)
    }

    fn some_matches(
        &self,
        graph: &GraphName,
        subject: Option<&Term>,
        predicate: Option<&Term>,
        object: Option<&Term>,
        most: usize,
        out: &mut Vec<Quad>,
    ) -> Result<bool, NoMemory> {
        let before = out.len();
        let are_all = self
            .source
            .some_matches(graph, subject, predicate, object, most, out)?;
        self.count(out.len().saturating_sub(before));
        Ok(are_all)
    }
}
