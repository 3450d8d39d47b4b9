//! A view in which changes are staged over a source that stays as it is.
ghost use Rattle.std.specs.Prelude.{◌≡◌, ◌≤◌, ◌+◌, ◌<◌, false, not, IsTrue, IsOk, IfOk, OnOk, OnErr, MatchOption};
ghost use Rattle.std.specs.FinSet as set;
ghost use Rattle.rdf_terms.specs.Quad.{may_name_graph};
ghost use Rattle.rdf_terms.specs.declared.quad.GraphName.TheVariants.{Named as named};
ghost use Rattle.rdf_dataset.specs.State.{State, IsSound, IsTermBelow, IsQuadBelow, IsEmptyGraph, IsKnownGraph, net_between, last_number, with_quad, without_quad, with_name, without_name, with_blanks};
ghost use Rattle.rdf_dataset.specs.Staging.{Staging, staged};

use crate::edits::Edits;
use crate::emptied::Emptied;
use crate::net::Net;
use crate::passed::Passed;
use crate::source::Source;
use rdf_terms::{GraphName, NoMemory, Quad, Term, term_is_one};
use std::alloc::Global;
use std::marker::Model;

/// The counter of blank nodes goes no further.
pub(crate) const LAST_NUMBER: u64 = 1_000_000_000_000_000_000;

/// The contents beneath and those now.
#[derive(Drop)]
pub struct Staged<'a, D: Source> {
    pub(crate) under: &'a D,
    pub(crate) edits: Edits,
    pub(crate) emptied: Emptied,
    pub(crate) passed: Passed,
    pub(crate) alloc: Global,
}

impl<'a, D: Source> Model for Staged<'a, D> {
    ghost use Rattle.std.specs.Prelude.{◌≡◌};
    ghost use Rattle.rdf_dataset.specs.Staging.{Staging, staging_code};
    ghost use Rattle.rdf_dataset.specs.State.{applied, net_between, IsSound};
    ghost use Rattle.rdf_dataset.specs.Inside.Emptied.{AreParts};

    ghost Value = { Staging };

    ghost coded = { staging_code };

    ghost view = { λ s. record {
      under = D.contents s.under.now;
      now = applied s.edits (D.contents s.under.now);
    } };

    ghost invariant = { λ s. (s.edits
        ≡ net_between (D.contents s.under.now) (applied s.edits (D.contents s.under.now)))
        × IsSound (applied s.edits (D.contents s.under.now))
        × AreParts s.emptied (applied s.edits (D.contents s.under.now)) };
}

impl<'a, D: Source> Staged<'a, D> {
    /// Begins with the contents beneath. It takes no memory.
    pub fn over(alloc: Global, under: &'a D) -> Staged<'a, D>
        ensures { result ≡ record { under = D.contents under.now; now = D.contents under.now } }
    {
        let edits = Edits::none(alloc, under.next_blank());
        Staged {
            under,
            edits,
            emptied: Emptied::none(alloc),
            passed: Passed::none(),
            alloc,
        }
    }

    /// The net between what lies beneath and the contents now.
    ///
    /// # Errors
    /// [`NoMemory`] where memory is wanting.
    pub fn into_net(self) -> Result<Net, NoMemory>
        ensures net { IfOk result (λ net. net ≡ net_between self.entry.under self.entry.now) }
        ensures sound { IsSound self.entry.now }
    {
        let Staged {
            edits,
            emptied,
            alloc,
            ..
        } = self;
        drop(emptied);
        edits.into_net(alloc)
    }

    /// Adds the name of a graph, and answers whether it is new.
    ///
    /// # Errors
    /// [`NoMemory`] where memory is wanting: nothing has changed then.
    pub fn add_name(&mut self, name: Term) -> Result<bool, NoMemory>
        requires right { IsTrue (may_name_graph (named name)) }
        requires below { IsTermBelow self.old.now.next name }
        ensures ok { OnOk result (self.new ≡ staged self.old (with_name self.old.now name)) }
        ensures new { IfOk result (λ new. new ≡ not (set.contains self.old.now.names name)) }
        ensures err { OnErr result (self.new ≡ self.old) }
    {
        term_is_one(&name);
        let beneath = self.under.has_name(&name);
        let again = name.copy()?;
        let added = self.edits.add_name(beneath, name)?;
        self.emptied.add_name(&again);
        Ok(added)
    }

    /// Takes the name of an empty graph away, and answers whether it was there.
    ///
    /// # Errors
    /// [`NoMemory`] where memory is wanting: nothing has changed then.
    pub fn drop_name(&mut self, name: &Term) -> Result<bool, NoMemory>
        requires empty { IsEmptyGraph self.old.now (named name.now) }
        ensures ok { OnOk result (self.new ≡ staged self.old (without_name self.old.now name.now)) }
        ensures was { IfOk result (λ was. was ≡ set.contains self.old.now.names name.now) }
        ensures err { OnErr result (self.new ≡ self.old) }
    {
        let beneath = self.under.has_name(name);
        let dropped = self.edits.drop_name(beneath, name)?;
        self.emptied.drop_name(name);
        Ok(dropped)
    }

    // Whether what lies beneath has the name of the graph.
    fn knows(&self, graph: &GraphName) -> bool
        ensures { IsKnownGraph self.now.under.names result graph.now }
    {
        match graph {
            GraphName::Default => false,
            GraphName::Named(name) => self.under.has_name(name),
        }
    }

    /// Adds a quad and its graph's name, and answers whether the contents changed.
    ///
    /// # Errors
    /// [`NoMemory`] where memory is wanting: nothing has changed then.
    pub fn insert(&mut self, quad: Quad) -> Result<bool, NoMemory>
        requires below { IsQuadBelow self.old.now.next quad }
        ensures ok { OnOk result (self.new ≡ staged self.old (with_quad self.old.now quad)) }
        ensures new { IfOk result (λ new. new ≡ not (set.contains self.old.now.quads quad)) }
        ensures same { IfOk result (λ new. new ≡ false → self.new ≡ self.old) }
        ensures err { OnErr result (self.new ≡ self.old) }
    {
        let beneath = self.under.contains(&quad);
        let named = self.knows(quad.graph());
        match self.edits.insert(beneath, named, &quad) {
            Ok(inserted) => {
                self.emptied.insert(&quad);
                drop(quad);
                Ok(inserted)
            }
            Err(refused) => {
                drop(quad);
                Err(refused)
            }
        }
    }

    /// Takes a quad out, and answers whether it was there. Its graph keeps the name.
    ///
    /// # Errors
    /// [`NoMemory`] where memory is wanting: nothing has changed then.
    pub fn remove(&mut self, quad: &Quad) -> Result<bool, NoMemory>
        ensures ok { OnOk result (self.new ≡ staged self.old (without_quad self.old.now quad.now)) }
        ensures was { IfOk result (λ was. was ≡ set.contains self.old.now.quads quad.now) }
        ensures err { OnErr result (self.new ≡ self.old) }
    {
        let beneath = self.under.contains(quad);
        let removed = self.edits.remove(beneath, quad)?;
        self.emptied.remove(quad);
        Ok(removed)
    }

    /// Takes the next blank numbers, and answers the first of them, or `None` where the counter
    /// would pass the last number. It takes no memory.
    pub fn take_blanks(&mut self, count: u64) -> Option<u64>
        ensures { MatchOption result
            ((last_number < self.old.now.next + count) × (self.new ≡ self.old))
            (λ first. (self.old.now.next + count ≤ last_number) × (first ≡ self.old.now.next)
            × (self.new ≡ staged self.old (with_blanks self.old.now count))) }
    {
        let first = self.edits.after;
        if first > LAST_NUMBER || count > LAST_NUMBER - first {
            return None;
        }
        self.edits.after = first + count;
        Some(first)
    }
}

impl<'a, D: Source> Source for Staged<'a, D> {
    ghost contents = { λ s. s.now };

    fn contains(&self, quad: &Quad) -> bool {
        let beneath = self.under.contains(quad);
        self.edits.has_quad(beneath, quad)
    }

    fn has_name(&self, name: &Term) -> bool {
        let beneath = self.under.has_name(name);
        self.edits.has_name(beneath, name)
    }

    fn next_blank(&self) -> u64 {
        self.edits.after
    }

    fn names(&self, out: &mut Vec<Term>) -> Result<(), NoMemory> {
        if let Some(names) = &self.emptied.names {
            return names.append_copies(out);
        }
        let mut found = Vec::new(self.alloc);
        self.under.names(&mut found)?;
        self.edits.amend_names(&mut found)?;
        out.append(&mut found)?;
        Ok(())
    }

    fn matches(
        &self,
        graph: &GraphName,
        subject: Option<&Term>,
        predicate: Option<&Term>,
        object: Option<&Term>,
        out: &mut Vec<Quad>,
    ) -> Result<usize, NoMemory> {
        if let Some(part) = self.emptied.part(graph) {
            return part.matches(graph, subject, predicate, object, out);
        }
        let mut found = Vec::new(self.alloc);
        let beneath = self
            .under
            .matches(graph, subject, predicate, object, &mut found)?;
        let added = self
            .edits
            .amend_quads(&mut found, graph, subject, predicate, object)?;
        let looked = beneath.saturating_add(added);
        self.passed.note(graph, looked.saturating_sub(found.len()));
        out.append(&mut found)?;
        Ok(looked)
    }

    fn named_quads(&self, out: &mut Vec<Quad>) -> Result<usize, NoMemory> {
        if let Some(part) = &self.emptied.named {
            return part.named_quads(out);
        }
        let mut found = Vec::new(self.alloc);
        let beneath = self.under.named_quads(&mut found)?;
        let added = self.edits.amend_named(&mut found)?;
        out.append(&mut found)?;
        Ok(beneath.saturating_add(added))
    }

    fn some_matches(
        &self,
        graph: &GraphName,
        subject: Option<&Term>,
        predicate: Option<&Term>,
        object: Option<&Term>,
        most: usize,
        out: &mut Vec<Quad>,
    ) -> Result<bool, NoMemory> {
        if let Some(part) = self.emptied.part(graph) {
            return part.some_matches(graph, subject, predicate, object, most, out);
        }
        self.matches(graph, subject, predicate, object, out)?;
        Ok(true)
    }
}
