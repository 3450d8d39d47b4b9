//! Rows in bins: by the term that they have at the one column of a key.
ghost use Rattle.std.specs.Prelude.{◌≡◌, IfOk, filter, map};
ghost use Rattle.rdf_terms.specs.declared.term.Term.{Term};
ghost use Rattle.sparql_values.specs.Mapping.{value_at};
ghost use Rattle.sparql_solve.specs.Bins.{has_at};
ghost use Rattle.sparql_solve.specs.TermBins.{in_bin, in_bin_of};

use crate::mappings::Mapping;
use crate::term_bins::{TermBins, put};
use rdf_terms::{NoMemory, TermTable};
use std::alloc::Global;

// So many rows of a bin are compared faster than they are put in order.
const SMALL: usize = 4;

/// Rows by their term at a column.
#[derive(Drop)]
pub(crate) struct Bins<'r> {
    pub(crate) column: usize,
    pub(crate) rows: TermBins<'r, Mapping>,
}

/// The rows that have a term at the column, in bins, in each of them in the order in which they came.
pub(crate) fn bins_of<'r>(
    alloc: Global,
    rows: &[&'r Mapping],
    column: usize,
) -> Result<Bins<'r>, NoMemory>
    ensures column { IfOk result (λ b. b.column ≡ column) }
    ensures bins { IfOk result (λ b. (t : Term) →
        in_bin b.rows t ≡ filter (has_at column t) (map (λ r. r.now) rows.now)) }
{
    let mut terms = TermTable::new(alloc);
    let mut bins = Vec::new(alloc);
    for row in rows {
        if let Some(term) = row.value(column) {
            put(alloc, &mut terms, &mut bins, term, *row)?;
        }
    }
    Ok(Bins {
        column,
        rows: TermBins::over(alloc, terms, bins),
    })
}

impl<'r> Bins<'r> {
    /// Whether none of the bins has more rows than a few.
    pub(crate) fn are_small(&self) -> bool {
        self.rows
            .bins
            .iter()
            .all(|bin| bin.as_slice().len() <= SMALL)
    }

    /// The rows that have the same term at the column as this row.
    pub(crate) fn bin_of(&self, row: &Mapping) -> &[&'r Mapping]
        ensures { map (λ r. r.now) result.now
            ≡ in_bin_of self.now.rows (value_at row.now self.now.column) }
    {
        match row.value(self.column) {
            Some(term) => self.rows.bin(term),
            None => self.rows.none(),
        }
    }
}
