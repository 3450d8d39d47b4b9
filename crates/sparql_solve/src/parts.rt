//! The rows of a join in parts: of rows that bind the same columns, and so have a key of their own
//! with each part of the other side.
ghost use Rattle.std.specs.Prelude.{IfSome, List, ◌≡◌, ◌<◌, ◌≤◌, All, IfOk, length, map};
ghost use Rattle.std.specs.List.{flat_map};
ghost use Rattle.sparql_algebra.specs.Bags.{SameBag};
ghost use Rattle.sparql_algebra.specs.Solutions.{merges};
ghost use Rattle.sparql_algebra.specs.Under.{agreeing};
ghost use Rattle.sparql_solve.specs.Keys.{IsKeyOf};
ghost use Rattle.sparql_solve.specs.Parts.{merges_in, part_run};

use crate::bins::bins_of;
use crate::keyed::Part;
use crate::keys::{Index, index_of, key_columns};
use crate::mappings::Mapping;
use rdf_terms::{NoMemory, Term};
use std::alloc::Global;
use std::cmp::Ordering;

// Fewer left rows than these are compared with every right row: to sort the right ones costs more.
const FEWEST: usize = 16;

// By the columns that have a term, which stand side by side.
fn compare_plain(values: &[Option<Term>], others: &[Option<Term>]) -> Ordering {
    for (value, other) in values.iter().zip(others) {
        if value.is_some() != other.is_some() {
            return value.is_some().cmp(&other.is_some());
        }
    }
    values.len().cmp(&others.len())
}

// By the columns that have a term, of many columns.
fn compare_bound_ones(row: &Mapping, other: &Mapping) -> Ordering {
    let len = row.len();
    let mut from = 0;
    while let Some(column) = row.next_bound(from) {
        let Some(next) = other.next_bound(from) else {
            return Ordering::Greater;
        };
        if column != next {
            return next.cmp(&column);
        }
        from = column + 1;
    }
    match other.next_bound(from) {
        Some(_) => Ordering::Less,
        None => len.cmp(&other.len()),
    }
}

// By the columns that have a term. Nothing but time rests on it.
fn compare_bound(row: &Mapping, other: &Mapping) -> Ordering {
    if let Some(values) = row.columns().as_plain() {
        if let Some(others) = other.columns().as_plain() {
            return compare_plain(values, others);
        }
    }
    compare_bound_ones(row, other)
}

/// Whether all rows bind the same columns. Nothing but time rests on it.
pub(crate) fn is_one_part(rows: &[Mapping]) -> bool {
    let Some(first) = rows.first() else {
        return true;
    };
    rows.iter().all(|row| compare_bound(row, first).is_eq())
}

/// References to the rows.
pub(crate) fn references<'r>(
    alloc: Global,
    rows: &'r [Mapping],
) -> Result<Vec<&'r Mapping>, NoMemory>
    ensures { IfOk result (λ all. map (λ r. r.now) all.items ≡ rows.now) }
{
    Ok(rows.iter().collect(alloc)?)
}

/// References to the rows, those that bind the same columns side by side.
pub(crate) fn parted<'r>(alloc: Global, rows: &'r [Mapping]) -> Result<Vec<&'r Mapping>, NoMemory>
    ensures { IfOk result (λ all. SameBag (map (λ r. r.now) all.items) rows.now) }
{
    let mut all = references(alloc, rows)?;
    all.sort_by(|row, other| compare_bound(row, other))?;
    Ok(all)
}

// How many rows at the front bind the same columns as the first one.
fn part_len(rows: &[&Mapping]) -> usize
    requires { 0 < length rows.now }
    ensures some { 0 < result }
    ensures within { result ≤ length rows.now }
{
    let first = rows[0];
    let others = &rows[1..];
    1 + others.partition_point(|row| compare_bound(row, first).is_eq())
}

/// The rows cut into parts, where those that bind the same columns stand side by side.
pub(crate) fn cut_parts<'s, 'r>(
    alloc: Global,
    rows: &'s [&'r Mapping],
) -> Result<Vec<&'s [&'r Mapping]>, NoMemory>
    ensures { IfOk result (λ parts. flat_map (λ part. map (λ r. r.now) part.now) parts.items
        ≡ map (λ r. r.now) rows.now) }
{
    let mut parts = Vec::new(alloc);
    let mut start = 0;
    while start < rows.len() {
        let rest = &rows[start..];
        let len = part_len(rest);
        parts.push(&rest[..len])?;
        start += len;
    }
    Ok(parts)
}

// The key columns; none where there are few left rows.
fn columns_for(alloc: Global, left: &[&Mapping], right: &[&Mapping]) -> Result<Vec<usize>, NoMemory>
    ensures { IfOk result (λ columns. IsKeyOf columns.items
        (map (λ r. r.now) left.now) (map (λ r. r.now) right.now)) }
{
    if left.len() < FEWEST {
        return Ok(Vec::new(alloc));
    }
    key_columns(alloc, left, right)
}

// A part in bins by the first column of its key; none where there is no column, or where a bin would
// have more rows than are compared faster than put in order.
fn binned_part<'r>(
    alloc: Global,
    rows: &[&'r Mapping],
    columns: &[usize],
) -> Result<Option<Part<'r>>, NoMemory>
    ensures { IfOk result (λ found. IfSome found (λ part. (A : List Mapping) →
        IsKeyOf columns.now A (map (λ r. r.now) rows.now) →
        All (λ a. agreeing (part_run a part) a ≡ agreeing (map (λ r. r.now) rows.now) a) A)) }
{
    let Some(column) = columns.first() else {
        return Ok(None);
    };
    let bins = bins_of(alloc, rows, *column)?;
    if columns.len() == 1 || bins.are_small() {
        return Ok(Some(Part::Binned(bins)));
    }
    Ok(None)
}

/// A part by the key that it shares with these left rows.
pub(crate) fn part_of<'r>(
    alloc: Global,
    left: &[&Mapping],
    rows: &[&'r Mapping],
) -> Result<Part<'r>, NoMemory>
    ensures { IfOk result (λ part. All
        (λ a. agreeing (part_run a part) a ≡ agreeing (map (λ r. r.now) rows.now) a)
        (map (λ r. r.now) left.now)) }
{
    let columns = columns_for(alloc, left, rows)?;
    if let Some(part) = binned_part(alloc, rows, columns.as_slice())? {
        return Ok(part);
    }
    let rows = index_of(alloc, rows, columns.as_slice())?;
    Ok(Part::Sorted(Index { columns, rows }))
}

/// The parts, each by the key that it shares with these left rows.
pub(crate) fn parts_of<'r>(
    alloc: Global,
    left: &[&Mapping],
    right: &[&[&'r Mapping]],
) -> Result<Vec<Part<'r>>, NoMemory>
    ensures { IfOk result (λ parts. All (λ a. merges_in parts.items a
        ≡ merges (flat_map (λ part. map (λ r. r.now) part.now) right.now) a)
        (map (λ r. r.now) left.now)) }
{
    let mut parts = Vec::new(alloc);
    for rows in right {
        parts.push(part_of(alloc, left, rows)?)?;
    }
    Ok(parts)
}
