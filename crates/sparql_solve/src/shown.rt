//! Rows that are shown at other columns: their values are moved where no column stands twice.
ghost use Rattle.std.specs.Prelude.{◌≡◌, true, IfOk, IsTrue, map};
ghost use Rattle.std.specs.List.{list_any};
ghost use Rattle.sparql_values.specs.Mapping.{value_in};
ghost use Rattle.sparql_solve.specs.Shown.{apart, same_column};

use crate::mappings::Mapping;
use crate::rows::Row;
use rdf_terms::NoMemory;
use std::alloc::Global;

// Among so many columns it is looked whether one stands twice, and so many values are kept side by side.
const FEW: usize = 16;

fn is_same_column(left: Option<usize>, right: Option<usize>) -> bool
    ensures { result ≡ same_column left right }
{
    match (left, right) {
        (Some(left), Some(right)) => left == right,
        _ => false,
    }
}

fn is_among(column: Option<usize>, others: &[Option<usize>]) -> bool
    ensures { result ≡ list_any (same_column column) others.now }
{
    others.iter().any(|other| is_same_column(column, *other))
}

/// Whether these are few columns, of which none stands twice.
pub(crate) fn are_apart(columns: &[Option<usize>]) -> bool
    ensures { IsTrue result → apart columns.now ≡ true }
{
    if FEW < columns.len() {
        return false;
    }
    let mut rest = columns;
    while let Some((first, others)) = rest.split_first() {
        if is_among(*first, others) {
            return false;
        }
        rest = others;
    }
    true
}

// The columns of a row, none of which stands twice; one that isn't there is unbound.
fn moved_row(alloc: Global, row: Mapping, columns: &[Option<usize>]) -> Result<Row, NoMemory>
    requires { apart columns.now ≡ true }
    ensures { IfOk result (λ shown. shown ≡ map (value_in row) columns.now) }
{
    if FEW < row.len() {
        return row.projected(alloc, columns);
    }
    row.into_row(alloc)?.moved(alloc, columns)
}

/// The columns of each row, none of which stands twice.
pub(crate) fn moved_rows(
    alloc: Global,
    rows: Vec<Mapping>,
    columns: &[Option<usize>],
) -> Result<Vec<Row>, NoMemory>
    requires { apart columns.now ≡ true }
    ensures { IfOk result (λ out. out.items
        ≡ map (λ r. map (value_in r) columns.now) rows.items) }
{
    let mut out = Vec::with_capacity(alloc, rows.len())?;
    for row in rows {
        out.push(moved_row(alloc, row, columns)?)?;
    }
    Ok(out)
}
