//! The labels that a walk over a text has seen, place by place.
ghost use Rattle.std.specs.Prelude.{◌≡◌, OnOk};
ghost use Rattle.sparql_syntax.specs.Labels.{is_among};
ghost use Rattle.sparql_syntax.specs.SeenLabels as spec;

use crate::labels::{is_among, know};
use indexmap::IndexSet;
use rdf_grammar::Key;
use rdf_terms::{Items, NoMemory};
use rdf_tokens::Slice;
use std::alloc::Global;
use std::marker::Model;
use std::mem;

/// The labels of the places before the one at hand, and its own so far.
#[derive(Drop)]
pub(crate) struct Seen<'a> {
    alloc: Global,
    before: IndexSet<Key<'a>>,
    here: Items<Slice<'a>>,
}

impl<'a> Model for Seen<'a> {
    ghost use Rattle.sparql_syntax.specs.SeenLabels.{Seen as Labels};

    ghost Value = { Labels };

    ghost view = { λ s. record { before = s.before.keys; here = s.here } };
}

impl<'a> Seen<'a> {
    /// None.
    pub(crate) fn new(alloc: Global) -> Seen<'a>
        ensures { result ≡ spec.none_seen }
    {
        Seen {
            alloc,
            before: IndexSet::new(alloc),
            here: Items::new(alloc),
        }
    }

    /// Whether it is a label of a place before the one at hand.
    pub(crate) fn is_before(&self, label: &Slice<'a>) -> bool
        ensures { result ≡ is_among self.now.before label.now }
    {
        is_among(&self.before, label)
    }

    /// Adds a label to those of the place at hand.
    ///
    /// # Errors
    /// [`NoMemory`] where memory is wanting.
    pub(crate) fn add(&mut self, label: &Slice<'a>) -> Result<(), NoMemory>
        ensures { OnOk result (self.new ≡ spec.with_label self.old label.now) }
    {
        self.here.push(label.fork())
    }

    /// Another place begins.
    ///
    /// # Errors
    /// [`NoMemory`] where memory is wanting.
    pub(crate) fn move_on(&mut self) -> Result<(), NoMemory>
        ensures { OnOk result (self.new ≡ spec.moved_on self.old) }
    {
        know(&mut self.before, self.here.as_slice())?;
        let _ = mem::replace(&mut self.here, Items::new(self.alloc));
        Ok(())
    }
}
