//! What a sorted list or a tree may hold.
ghost use Rattle.std.specs.Prelude.{◌≡◌, IfOk};
ghost use Rattle.std.specs.declared.cmp.Ordering.{Ordering as Order};
ghost use Rattle.std.specs.Cmp.{IsTotalOrder};
ghost use Rattle.std.specs.FinSet.{IsAntisymmetric};
ghost use Rattle.rdf_terms.specs.Order.{term_cmp, quad_cmp};
ghost use Rattle.rdf_terms.specs.OrderLaws.{term_order_is, term_cmp_total, term_cmp-IsAntisymmetric, quad_order_is, quad_cmp_total, quad_cmp-IsAntisymmetric};

use rdf_terms::{NoMemory, Quad, Term, compare_quads, compare_terms};
use std::cmp::Ordering;

/// A value with an order in which only equal values tie, which can be copied where memory is there.
pub trait Item: Ord + Drop {
    ghost order: { Self → Self → Order };

    /// The order of two values.
    fn compare(&self, other: &Self) -> Ordering
        ensures { result ≡ order self.now other.now };

    /// An equal value.
    ///
    /// # Errors
    /// [`NoMemory`] where memory is wanting.
    fn copied(&self) -> Result<Self, NoMemory>
        ensures { IfOk result (λ copy. copy ≡ self.now) };

    ghost ordered: { Self.cmp ≡ order };

    ghost in_order: { IsTotalOrder order };

    ghost apart: { IsAntisymmetric order };
}

impl Item for Term {
    ghost order = { term_cmp };

    fn compare(&self, other: &Term) -> Ordering {
        compare_terms(self, other)
    }

    fn copied(&self) -> Result<Term, NoMemory> {
        self.copy()
    }

    ghost ordered = { term_order_is };

    ghost in_order = { term_cmp_total };

    ghost apart = { term_cmp-IsAntisymmetric };
}

impl Item for Quad {
    ghost order = { quad_cmp };

    fn compare(&self, other: &Quad) -> Ordering {
        compare_quads(self, other)
    }

    fn copied(&self) -> Result<Quad, NoMemory> {
        self.copy()
    }

    ghost ordered = { quad_order_is };

    ghost in_order = { quad_cmp_total };

    ghost apart = { quad_cmp-IsAntisymmetric };
}
