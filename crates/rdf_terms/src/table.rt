//! A table that keeps each term once, under a number.
ghost use Rattle.std.specs.Prelude.{◌≡◌, ◌<◌, ◌^◌, [], false, length, IfOk, IfNone, IfSome, OnErr, OnOk};
ghost use Rattle.rdf_terms.specs.Table.{IsIdOf, AreHeldOnce, is_held, with_term};

use crate::fault::NoMemory;
use crate::term::Term;
use indexmap::IndexSet;
use std::alloc::Global;
use std::marker::Model;

/// The number of a term in a table.
#[derive(Clone, Copy, PartialEq, Eq, PartialOrd, Ord, Hash, Debug)]
pub struct TermId(pub u64);

/// Terms, each kept once. An id keeps its term as long as the table stands. A contract sees the
/// terms by their ids: that of id 0 first.
#[derive(Drop)]
pub struct TermTable {
    set: IndexSet<Term>,
}

impl Model for TermTable {
    ghost use Rattle.std.specs.Prelude.{List};
    ghost use Rattle.rdf_terms.specs.declared.term.Term.{Term};

    ghost Value = { List Term };

    ghost view = { λ t. t.set.keys };
}

impl TermTable {
    /// No terms. It takes no memory.
    pub fn new(alloc: Global) -> TermTable
        ensures { result ≡ [] }
    {
        TermTable {
            set: IndexSet::new(alloc),
        }
    }

    /// The id of the term, which is kept if it is new.
    ///
    /// # Errors
    /// [`NoMemory`] where memory is wanting: the table is as before then.
    pub fn intern(&mut self, term: Term) -> Result<TermId, NoMemory>
        ensures kept { OnOk result (self.new ≡ with_term self.old term) }
        ensures id { IfOk result (λ id. IsIdOf self.new id.0 term) }
        ensures err { OnErr result (self.new ≡ self.old) }
    {
        let (place, _) = self.set.insert_full(term)?;
        Ok(TermId(place as u64))
    }

    /// The id of the term, where the table holds it. It takes no memory.
    pub fn find(&self, term: &Term) -> Option<TermId>
        ensures found { IfSome result (λ id. IsIdOf self.now id.0 term.now) }
        ensures absent { IfNone result (is_held self.now term.now ≡ false) }
    {
        match self.set.get_index_of(term) {
            Some(place) => Some(TermId(place as u64)),
            None => None,
        }
    }

    /// The term of an id that this table holds. It takes no memory.
    #[inline(always)]
    pub fn term(&self, id: TermId) -> &Term
        requires { id.0 < length self.now }
        ensures { IsIdOf self.now id.0 result.now }
    {
        &self.set.as_slice()[id.0 as usize]
    }
}

/// A table holds no term twice, and fewer than 2^63.
pub fn terms_are_held_once(table: &TermTable)
    ensures once { AreHeldOnce table.now }
    ensures fewer { length table.now < 2 ^ 63 }
{
    let _ = table.set.len();
}
