//! Names in order: the variables of a pattern, whose places are the columns of its rows.
ghost use Rattle.std.specs.Prelude.{◌≡◌, length};
ghost use Rattle.std.specs.List.Sorted.{IsStrictlySortedBy};
ghost use Rattle.std.specs.Ordering.{eq_by_cmp};
ghost use Rattle.rdf_terms.specs.Order.{text_cmp};
ghost use Rattle.sparql_values.specs.Mapping.{column};

use rdf_terms::{Items, Text};
use std::marker::Model;

// Up to so many names are looked at one by one, which costs less than halving them.
const FEW: usize = 8;

/// Names in strictly rising order, so that one is found among n of them by log n comparisons.
#[derive(Drop)]
pub struct SortedNames {
    names: Items<Text>,
}

impl Model for SortedNames {
    ghost use Rattle.std.specs.Prelude.{ℕ, List};
    ghost use Rattle.std.specs.List.Sorted.{IsStrictlySortedBy};
    ghost use Rattle.rdf_terms.specs.Order.{text_cmp};

    ghost Value = { List (List ℕ) };

    ghost view = { λ s. s.names };

    ghost invariant = { λ s. IsStrictlySortedBy text_cmp s.names };
}

impl SortedNames {
    /// Names that are in order already.
    pub fn from_rising(names: Items<Text>) -> SortedNames
        requires { IsStrictlySortedBy text_cmp names }
        ensures { result ≡ names }
    {
        SortedNames { names }
    }

    /// The names in order.
    pub fn as_slice(&self) -> &[Text]
        ensures { result.now ≡ self.now }
    {
        self.names.as_slice()
    }

    /// The names in order, as they were given.
    pub fn into_items(self) -> Items<Text>
        ensures { result ≡ self }
    {
        let SortedNames { names } = self;
        names
    }

    /// How many there are.
    pub fn len(&self) -> usize
        ensures { result ≡ length self.now }
    {
        self.names.len()
    }

    /// The place of a name, which is its column; `None` where it is none of them.
    pub fn column(&self, name: &Text) -> Option<usize>
        ensures { result ≡ column self.now name.now }
    {
        let names = self.names.as_slice();
        if names.len() <= FEW {
            return place_of(names, name);
        }
        names.binary_search(name).ok()
    }
}

#[tactic(auto, using(crate::proofs::NameLemmas::same_texts))]
fn is_same(a: &Text, b: &Text) -> bool
    ensures { result ≡ eq_by_cmp text_cmp a.now b.now }
{
    a == b
}

fn place_of(names: &[Text], name: &Text) -> Option<usize>
    ensures { result ≡ column names.now name.now }
{
    names.iter().position(|it| is_same(name, it))
}
