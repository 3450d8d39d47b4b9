//! Blank nodes, numbered by their places in the text.
ghost use Rattle.std.specs.Prelude.{◌≡◌, ◌<◌, IfOk, OnErr};
ghost use Rattle.rdf_grammar.specs.Keys.{key_of};
ghost use Rattle.rdf_grammar.specs.Numbering as spec;

use crate::key::Key;
use indexmap::IndexMap;
use rdf_terms::NoMemory;
use rdf_tokens::Slice;
use std::alloc::Global;
use std::marker::Model;

/// The labels of a text with their numbers, and the next number: a blank node is numbered where it
/// stands first, from 0.
#[derive(Drop)]
pub struct Numbering<'a> {
    labels: IndexMap<Key<'a>, u64>,
    next: u64,
}

impl<'a> Model for Numbering<'a> {
    ghost use Rattle.rdf_grammar.specs.Numbering as spec;

    ghost Value = { spec.Numbering };

    ghost view = { λ n. record { labels = n.labels.entries; next = n.next } };
}

impl<'a> Numbering<'a> {
    /// No labels, and the number 0 next.
    pub fn new(alloc: Global) -> Numbering<'a>
        ensures { result ≡ spec.start }
    {
        Numbering {
            labels: IndexMap::new(alloc),
            next: 0,
        }
    }

    /// The next number: how many are taken.
    pub fn next(&self) -> u64
        ensures { result ≡ self.now.next }
    {
        self.next
    }

    /// The number of a blank node without a label: of a `[`, or of a list's cell.
    pub fn fresh(&mut self) -> u64
        requires room { self.old.next < 18446744073709551615 }
        ensures { (result, self.new) ≡ spec.fresh self.old }
    {
        let number = self.next;
        self.next = number + 1;
        number
    }

    /// The number of a label.
    ///
    /// # Errors
    /// [`NoMemory`] where memory is wanting; then the label has no number.
    pub fn labelled(&mut self, label: &Slice<'a>) -> Result<u64, NoMemory>
        requires room { self.old.next < 18446744073709551615 }
        ensures value { let step = spec.labelled (key_of label.now) self.old in
            IfOk result (λ number. (number, self.new) ≡ step) }
        ensures kept { OnErr result (self.new ≡ self.old) }
    {
        let key = Key::of(label);
        if let Some(number) = self.labels.get(&key) {
            return Ok(*number);
        }
        self.labels.insert(key, self.next)?;
        Ok(self.fresh())
    }
}
