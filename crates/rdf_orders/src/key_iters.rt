//! What gives the keys of a tree one by one, of either width.
ghost use Rattle.std.specs.Prelude.{length};
ghost use Rattle.std.specs.Iterator.{at_most};
ghost use Rattle.std.specs.Map.Iter.{TakesFirst};

use crate::narrow::{NarrowKey, widen};
use crate::order::Key;
use std::collections::btree_set::{Iter, Range};
use std::iter::ExactSizeIterator;
use std::marker::Model;

/// The keys that are left of a tree of either width.
#[derive(Drop)]
pub(crate) enum AllKeys<'a> {
    Narrow(Iter<'a, NarrowKey>),
    Wide(Iter<'a, Key>),
}

/// The keys of a tree, in their order. A contract sees those that are left.
#[derive(Drop)]
pub struct KeyIter<'a> {
    pub(crate) keys: AllKeys<'a>,
}

impl<'a> Model for KeyIter<'a> {
    ghost use Rattle.std.specs.Prelude.{ℕ, List};

    ghost Value = { List (List ℕ) };

    ghost use Rattle.rdf_orders.specs.Inside.Widths.{all_keys};

    ghost view = { λ i. all_keys i.keys };
}

impl<'a> Iterator for KeyIter<'a> {
    type Item = Key;

    ghost next_gives = { TakesFirst (λ k. k) };

    ghost remaining = { λ s. at_most (length s) };

    fn next(&mut self) -> Option<Key> {
        match &mut self.keys {
            AllKeys::Narrow(keys) => Some(widen(keys.next()?)),
            AllKeys::Wide(keys) => Some(*keys.next()?),
        }
    }

    fn size_hint(&self) -> (usize, Option<usize>) {
        match &self.keys {
            AllKeys::Narrow(keys) => keys.size_hint(),
            AllKeys::Wide(keys) => keys.size_hint(),
        }
    }
}

/// The keys that are left of a part of a tree of either width.
#[derive(Drop)]
pub(crate) enum SomeKeys<'a> {
    Narrow(Range<'a, NarrowKey>),
    Wide(Range<'a, Key>),
}

/// The keys of a tree from a bound on, in their order. A contract sees those that are left.
#[derive(Drop)]
pub struct KeyRange<'a> {
    pub(crate) keys: SomeKeys<'a>,
}

impl<'a> Model for KeyRange<'a> {
    ghost use Rattle.std.specs.Prelude.{ℕ, List};

    ghost Value = { List (List ℕ) };

    ghost use Rattle.rdf_orders.specs.Inside.Widths.{some_keys};

    ghost view = { λ i. some_keys i.keys };
}

impl<'a> Iterator for KeyRange<'a> {
    type Item = Key;

    ghost next_gives = { TakesFirst (λ k. k) };

    ghost remaining = { λ s. at_most (length s) };

    fn next(&mut self) -> Option<Key> {
        match &mut self.keys {
            SomeKeys::Narrow(keys) => Some(widen(keys.next()?)),
            SomeKeys::Wide(keys) => Some(*keys.next()?),
        }
    }
}
