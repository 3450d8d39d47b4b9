//! Keys whose numbers each fit 32 bits.
ghost use Rattle.std.specs.Prelude.{◌≡◌, ◌<◌, ◌≤◌, ◌+◌, ◌*◌, ◌^◌, IfNone, IfSome, Some, nat_eq, refl};
ghost use Rattle.std.specs.Cmp.{partial_equiv_from_equiv};
ghost use Rattle.std.specs.Cmp.Lexicographic.{pointwise, nat_list_eq_equiv, nat_list_cmp_total, texts_ties, texts_po};
ghost use Rattle.rdf_orders.specs.Quads.{key_cmp};
ghost use Rattle.rdf_orders.specs.Inside.Widths.{IsNarrow, floor_key};

use crate::order::Key;
use std::cmp::Ordering;
use std::marker::Model;

/// A key whose numbers each fit 32 bits, which contracts see as their list. Two of them are compared
/// by two numbers at a time: of each two the one that counts for less lies first, so that a
/// little-endian processor reads both as one number of 64 bits.
#[derive(Clone, Copy)]
pub(crate) struct NarrowKey {
    first: u32,
    graph: u32,
    third: u32,
    second: u32,
}

impl Model for NarrowKey {
    ghost use Rattle.std.specs.Prelude.{ℕ, List, [], ◌∷◌, slice_index};

    ghost Value = { List ℕ };

    ghost view = { λ k. k.graph ∷ k.first ∷ k.second ∷ k.third ∷ [] };

    ghost inverse = { λ k. record {
      graph = slice_index k 0;
      first = slice_index k 1;
      second = slice_index k 2;
      third = slice_index k 3;
    } };
}

impl PartialEq for NarrowKey {
    ghost eq = { pointwise nat_eq };

    ghost laws = { partial_equiv_from_equiv nat_list_eq_equiv };

    #[inline(always)]
    fn eq(&self, other: &NarrowKey) -> bool {
        self.graph == other.graph
            && self.first == other.first
            && self.second == other.second
            && self.third == other.third
    }
}

impl Eq for NarrowKey {
    ghost laws = { nat_list_eq_equiv };
}

impl PartialOrd for NarrowKey {
    ghost partial_cmp = { λ x y. Some (key_cmp x y) };

    ghost laws = { texts_po };

    fn partial_cmp(&self, other: &NarrowKey) -> Option<Ordering> {
        Some(self.cmp(other))
    }
}

impl Ord for NarrowKey {
    ghost cmp = { key_cmp };

    ghost total = { nat_list_cmp_total };

    ghost matches_partial_cmp = { λ x y. refl };

    ghost matches_eq = { texts_ties };

    #[inline(always)]
    fn cmp(&self, other: &NarrowKey) -> Ordering {
        let front = joined(self.graph, self.first);
        let other_front = joined(other.graph, other.first);
        if front != other_front {
            return front.cmp(&other_front);
        }
        joined(self.second, self.third).cmp(&joined(other.second, other.third))
    }
}

// One number of 64 bits, whose upper half and lower half these are.
#[inline(always)]
fn joined(upper: u32, lower: u32) -> u64
    ensures { result ≡ upper * 2 ^ 32 + lower }
{
    u64::from(upper) << 32 | u64::from(lower)
}

// The number, if it fits 32 bits.
#[inline(always)]
fn narrow_number(number: u64) -> Option<u32>
    ensures found { IfSome result (λ narrow. narrow ≡ number) }
    ensures fits { IfSome result (λ _. number < 2 ^ 32) }
    ensures absent { IfNone result (2 ^ 32 ≤ number) }
{
    u32::try_from(number).ok()
}

/// The key, if its numbers each fit 32 bits.
#[inline(always)]
pub(crate) fn narrow(key: &Key) -> Option<NarrowKey>
    ensures found { IfSome result (λ narrow. narrow ≡ key.now) }
    ensures fits { IfSome result (λ _. IsNarrow key.now) }
    ensures absent { IfNone result (¬ IsNarrow key.now) }
{
    let [graph, first, second, third] = *key;
    Some(NarrowKey {
        graph: narrow_number(graph)?,
        first: narrow_number(first)?,
        second: narrow_number(second)?,
        third: narrow_number(third)?,
    })
}

/// Of the narrow keys that aren't greater than the key, the greatest.
#[inline(always)]
pub(crate) fn floor(key: &Key) -> NarrowKey
    ensures { result ≡ floor_key key.now }
{
    let [graph, first, second, third] = floor_numbers(key);
    NarrowKey {
        graph,
        first,
        second,
        third,
    }
}

// Its numbers.
#[inline(always)]
fn floor_numbers(key: &Key) -> [u32; 4]
    ensures { result ≡ floor_key key.now }
{
    let [graph, first, second, third] = *key;
    let Some(graph) = narrow_number(graph) else {
        return [u32::MAX; 4];
    };
    let Some(first) = narrow_number(first) else {
        return [graph, u32::MAX, u32::MAX, u32::MAX];
    };
    let Some(second) = narrow_number(second) else {
        return [graph, first, u32::MAX, u32::MAX];
    };
    let Some(third) = narrow_number(third) else {
        return [graph, first, second, u32::MAX];
    };
    [graph, first, second, third]
}

/// The same key, of numbers of 64 bits.
#[inline(always)]
pub(crate) fn widen(key: &NarrowKey) -> Key
    ensures { result ≡ key.now }
{
    [
        u64::from(key.graph),
        u64::from(key.first),
        u64::from(key.second),
        u64::from(key.third),
    ]
}
