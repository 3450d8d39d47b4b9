//! Parts of a right side by their keys: one of one column in bins, another one in order.
ghost use Rattle.std.specs.Prelude.{◌≡◌, map};
ghost use Rattle.sparql_solve.specs.Parts.{part_run};

use crate::bins::Bins;
use crate::keys::{Index, run_of};
use crate::mappings::Mapping;

/// A part of the right side, by the key that it shares with some left rows.
#[derive(Drop)]
pub(crate) enum Part<'r> {
    /// By a key of one column.
    Binned(Bins<'r>),
    /// By a key of several columns, or of none.
    Sorted(Index<'r>),
}

/// The rows of a part that have the key of a row.
pub(crate) fn part_run<'p, 'r>(row: &Mapping, part: &'p Part<'r>) -> &'p [&'r Mapping]
    ensures { map (λ r. r.now) result.now ≡ part_run row.now part.now }
{
    match part {
        Part::Binned(bins) => bins.bin_of(row),
        Part::Sorted(index) => run_of(row, &index.rows, &index.columns),
    }
}
