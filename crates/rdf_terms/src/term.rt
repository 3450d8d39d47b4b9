//! Terms (RDF 1.1 Concepts, section 3.1).
ghost use Rattle.std.specs.Prelude.{◌≡◌, ◌↔◌, IfOk, IsTrue};
ghost use Rattle.rdf_terms.specs.Order.{term_cmp};

use crate::fault::NoMemory;
use crate::iri::Iri;
use crate::literal::Literal;
use std::cmp::Ordering;

/// An RDF term. Terms are ordered: blank nodes by number, then IRIs, then literals by lexical form,
/// datatype and tag, no tag first.
#[derive(PartialEq, Eq, PartialOrd, Ord, Hash, Debug, Drop)]
pub enum Term {
    /// A blank node, by its number in the dataset.
    Blank(u64),
    /// An IRI.
    Iri(Iri),
    /// A literal.
    Literal(Literal),
}

impl Term {
    /// An equal term.
    ///
    /// # Errors
    /// [`NoMemory`] where memory is wanting.
    #[inline(always)]
    pub fn copy(&self) -> Result<Term, NoMemory>
        ensures { IfOk result (λ t. t ≡ self.now) }
    {
        Ok(match self {
            Term::Blank(number) => Term::Blank(*number),
            Term::Iri(iri) => Term::Iri(iri.copy()?),
            Term::Literal(literal) => Term::Literal(literal.copy()?),
        })
    }
}

/// The order of terms.
pub fn compare_terms(a: &Term, b: &Term) -> Ordering
    ensures { result ≡ term_cmp a.now b.now }
{
    a.cmp(b)
}

/// Whether two terms are the same: of one kind, and alike character by character.
pub fn same_term(a: &Term, b: &Term) -> bool
    ensures { IsTrue result ↔ (a.now ≡ b.now) }
{
    a == b
}
