//! Names and labels, told apart.
ghost use Rattle.std.specs.Prelude.{◌≡◌, nat_eq};
ghost use Rattle.std.specs.Hash as fed;
ghost use Rattle.std.specs.Cmp.Lexicographic.{pointwise, nat_list_eq_equiv};
ghost use Rattle.std.specs.Cmp.{partial_equiv_from_equiv};
ghost use Rattle.std.specs.Cmp.Rules.{hashing};
ghost use Rattle.std.proofs.Common.{rules};
ghost use Rattle.rdf_grammar.specs.Keys.{key_of};

use rdf_tokens::Slice;
use std::hash::{Hash, Hasher};
use std::marker::Model;

/// A prefix or a label of a text, borrowed from it. A contract sees its UTF-8 bytes.
#[derive(Drop)]
pub struct Key<'a> {
    text: &'a str,
}

impl<'a> Model for Key<'a> {
    ghost use Rattle.std.specs.Prelude.{ℕ, List};

    ghost Value = { List ℕ };

    ghost view = { λ k. k.text.now };
}

impl<'a> Key<'a> {
    /// The key of a slice of the text.
    pub fn of(slice: &Slice<'a>) -> Key<'a>
        ensures { result ≡ key_of slice.now }
    {
        Key {
            text: slice.as_str(),
        }
    }
}

impl PartialEq for Key<'_> {
    ghost eq = { pointwise nat_eq };

    ghost laws = { partial_equiv_from_equiv nat_list_eq_equiv };

    fn eq(&self, other: &Self) -> bool {
        self.text == other.text
    }
}

impl Eq for Key<'_> {
    ghost laws = { nat_list_eq_equiv };
}

impl Hash for Key<'_> {
    ghost hash_input = { fed.str };

    ghost respects_eq = { Prim.search (hashing, rules) };

    fn hash<H: Hasher>(&self, state: &mut H) {
        self.text.hash(state);
    }
}
