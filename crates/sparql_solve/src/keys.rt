//! Rows by key: by their values at the columns that each row of both sides of a join binds.
ghost use Rattle.std.specs.Prelude.{◌≡◌, IfOk, IsSortedByKey, map};
ghost use Rattle.std.specs.List.{list_all};
ghost use Rattle.sparql_algebra.specs.Order.{mapping_cmp};
ghost use Rattle.sparql_solve.specs.Keys.{IsIndex, RunsGiveMerges, all_bind, binds, key, key_cmp, key_columns, run};

use crate::mappings::Mapping;
use rdf_terms::NoMemory;
use std::alloc::Global;
use std::cmp::Ordering;

/// Rows in the order of their keys.
#[derive(Drop)]
pub(crate) struct Index<'r> {
    /// The columns of the key.
    pub(crate) columns: Vec<usize>,
    pub(crate) rows: Vec<&'r Mapping>,
    ghost sorted: { IsSortedByKey (key columns.items) mapping_cmp (map (λ r. r.now) rows.items) },
}

// Whether each of the rows has a term at the column.
fn each_binds(rows: &[&Mapping], column: usize) -> bool
    ensures { result ≡ list_all (binds column) (map (λ r. r.now) rows.now) }
{
    rows.iter().all(|row| row.value(column).is_some())
}

fn all_bind(left: &[&Mapping], right: &[&Mapping], column: usize) -> bool
    ensures { result
        ≡ all_bind (map (λ r. r.now) left.now) (map (λ r. r.now) right.now) column }
{
    each_binds(left, column) && each_binds(right, column)
}

/// The columns at which each row of both sides has a term.
pub(crate) fn key_columns(
    alloc: Global,
    left: &[&Mapping],
    right: &[&Mapping],
) -> Result<Vec<usize>, NoMemory>
    ensures { IfOk result (λ columns. columns.items
        ≡ key_columns (map (λ r. r.now) left.now) (map (λ r. r.now) right.now)) }
{
    let mut columns = Vec::new(alloc);
    let Some(first) = left.first() else {
        return Ok(columns);
    };
    let len = first.len();
    let mut from = 0;
    while from < len {
        let Some(column) = first.next_bound(from) else {
            return Ok(columns);
        };
        if all_bind(left, right, column) {
            columns.push(column)?;
        }
        from = column + 1;
    }
    Ok(columns)
}

// By the values at the columns from the left.
fn compare_keys(row: &Mapping, other: &Mapping, columns: &[usize]) -> Ordering
    ensures { result ≡ key_cmp columns.now row.now other.now }
{
    for column in columns {
        let by_value = row.value(*column).cmp(&other.value(*column));
        if by_value.is_ne() {
            return by_value;
        }
    }
    Ordering::Equal
}

/// The rows in the order of their keys, those of one key in the order in which they came.
pub(crate) fn index_of<'r>(
    alloc: Global,
    rows: &[&'r Mapping],
    columns: &[usize],
) -> Result<Vec<&'r Mapping>, NoMemory>
    ensures { IfOk result (λ index.
        IsIndex columns.now (map (λ r. r.now) rows.now) (map (λ r. r.now) index.items)) }
{
    let mut index = Vec::from_slice(alloc, rows)?;
    if columns.is_empty() {
        return Ok(index);
    }
    index.sort_by(|row, other| compare_keys(row, other, columns))?;
    Ok(index)
}

/// The rows of an index that have the key of a row.
pub(crate) fn run_of<'i, 'r>(
    row: &Mapping,
    index: &'i [&'r Mapping],
    columns: &[usize],
) -> &'i [&'r Mapping]
    requires { IsSortedByKey (key columns.now) mapping_cmp (map (λ r. r.now) index.now) }
    ensures { map (λ r. r.now) result.now ≡ run columns.now (map (λ r. r.now) index.now) row.now }
{
    let start = index.partition_point(|other| compare_keys(other, row, columns).is_lt());
    let rest = &index[start..];
    let len = rest.partition_point(|other| compare_keys(other, row, columns).is_le());
    &rest[..len]
}

/// In an index of right mappings by the key columns of both sides, the run of a left mapping's key
/// gives all of its merges, in the order in which the right mappings came (SPARQL 1.1 Query,
/// sections 18.3 and 18.5).
pub fn runs_give_merges()
    ensures { RunsGiveMerges }
{}
