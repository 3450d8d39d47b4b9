//! Minus of rows, each part by its own key (SPARQL 1.1 Query, section 18.5). Rows are compared with
//! no part with which they can't have a variable in common.
ghost use Rattle.std.specs.Prelude.{◌≡◌, ◌++◌, ◌||◌, All, IfOk, OnOk, filter, map, nat_eq, true, ℕ};
ghost use Rattle.std.specs.List.{flat_map, list_any};
ghost use Rattle.sparql_algebra.specs.Bags.{SameBag};
ghost use Rattle.sparql_algebra.specs.Solutions.{minuses};
ghost use Rattle.sparql_solve.specs.Keys.{binds};
ghost use Rattle.sparql_solve.specs.Parts.{is_left, left_in, meets, meets_in};

use crate::keyed::{Part, part_run};
use crate::mappings::Mapping;
use crate::parts::{cut_parts, is_one_part, part_of, parted, references};
use rdf_terms::NoMemory;
use std::alloc::Global;

// Appends the columns at which the row has a term.
fn append_bound(row: &Mapping, columns: &mut Vec<usize>) -> Result<(), NoMemory>
    ensures { OnOk result ((column : ℕ) → list_any (nat_eq column) columns.new.items
        ≡ (list_any (nat_eq column) columns.old.items || binds column row.now)) }
{
    let len = row.len();
    let mut from = 0;
    while from < len {
        let Some(column) = row.next_bound(from) else {
            return Ok(());
        };
        columns.push(column)?;
        from = column + 1;
    }
    Ok(())
}

// Whether the row has terms at the first of these columns, and nowhere else.
fn binds_first(row: &Mapping, columns: &[usize]) -> bool
    ensures { result ≡ true → (column : ℕ) → binds column row.now ≡ true →
        list_any (nat_eq column) columns.now ≡ true }
{
    let len = row.len();
    let mut from = 0;
    for next in columns {
        let Some(column) = row.next_bound(from) else {
            return true;
        };
        if column != *next {
            return false;
        }
        from = column + 1;
    }
    if len <= from {
        return true;
    }
    row.next_bound(from).is_none()
}

// The columns at which one of the rows has a term, each once.
fn bound_columns(alloc: Global, rows: &[&Mapping]) -> Result<Vec<usize>, NoMemory>
    ensures { IfOk result (λ columns. (column : ℕ) → list_any (nat_eq column) columns.items
        ≡ list_any (binds column) (map (λ r. r.now) rows.now)) }
{
    let mut columns = Vec::new(alloc);
    for row in rows {
        if binds_first(row, &columns) {
            continue;
        }
        append_bound(row, &mut columns)?;
    }
    columns.sort()?;
    columns.dedup();
    Ok(columns)
}

// Whether one of the rows has a term at the column.
fn one_binds(rows: &[&Mapping], column: usize) -> bool
    ensures { result ≡ list_any (binds column) (map (λ r. r.now) rows.now) }
{
    rows.iter().any(|row| row.value(column).is_some())
}

// Whether a row has a term at one of these columns, at which the left rows have one.
fn one_column(columns: &[usize], right: &[&Mapping]) -> bool
    ensures { result ≡ list_any (λ column.
        list_any (binds column) (map (λ r. r.now) right.now)) columns.now }
{
    columns.iter().any(|column| one_binds(right, *column))
}

// The parts that may have a variable in common with these left rows, each by the key that it shares
// with them.
fn met_parts<'r>(
    alloc: Global,
    left: &[&Mapping],
    right: &[&[&'r Mapping]],
) -> Result<Vec<Part<'r>>, NoMemory>
    ensures { IfOk result (λ parts. All (λ a. list_any (meets_in a) parts.items
        ≡ list_any (meets a) (flat_map (λ part. map (λ r. r.now) part.now) right.now))
        (map (λ r. r.now) left.now)) }
{
    let columns = bound_columns(alloc, left)?;
    let mut parts = Vec::new(alloc);
    for rows in right {
        if !one_column(&columns, rows) {
            continue;
        }
        parts.push(part_of(alloc, left, rows)?)?;
    }
    Ok(parts)
}

// Whether the row is compatible with another one and has a variable in common with it.
fn meets(row: &Mapping, other: &Mapping) -> bool
    ensures { result ≡ meets row.now other.now }
{
    row.is_compatible(other) && row.shares(other)
}

fn meets_one(row: &Mapping, others: &[&Mapping]) -> bool
    ensures { result ≡ list_any (meets row.now) (map (λ r. r.now) others.now) }
{
    others.iter().any(|other| meets(row, other))
}

fn meets_in(row: &Mapping, part: &Part) -> bool
    ensures { result ≡ meets_in row.now part.now }
{
    meets_one(row, part_run(row, part))
}

fn meets_any(row: &Mapping, parts: &[Part]) -> bool
    ensures { result ≡ list_any (meets_in row.now) parts.now }
{
    parts.iter().any(|part| meets_in(row, part))
}

// Appends each row that meets none of the parts.
fn append_left(
    alloc: Global,
    rows: &[&Mapping],
    parts: &[Part],
    out: &mut Vec<Mapping>,
) -> Result<(), NoMemory>
    ensures { OnOk result (out.new.items
        ≡ out.old.items ++ flat_map (left_in parts.now) (map (λ r. r.now) rows.now)) }
{
    for row in rows {
        if meets_any(row, parts) {
            continue;
        }
        out.push(row.copy(alloc)?)?;
    }
    Ok(())
}

// The rows that meet none of the parts, where they stand.
fn rows_left(mut rows: Vec<Mapping>, parts: &[Part]) -> Vec<Mapping>
    ensures { result.items ≡ filter (is_left parts.now) rows.items }
{
    rows.retain(|row| !meets_any(row, parts));
    rows
}

/// Minus: the left rows with which no compatible right one has a variable in common.
pub(crate) fn minus(
    alloc: Global,
    left: &[Mapping],
    right: &[Mapping],
) -> Result<Vec<Mapping>, NoMemory>
    ensures { IfOk result (λ out. SameBag out.items (minuses left.now right.now)) }
{
    let left = parted(alloc, left)?;
    let right = parted(alloc, right)?;
    let groups = cut_parts(alloc, left.as_slice())?;
    let others = cut_parts(alloc, right.as_slice())?;
    let mut out = Vec::new(alloc);
    for group in &groups {
        let parts = met_parts(alloc, group, others.as_slice())?;
        append_left(alloc, group, parts.as_slice(), &mut out)?;
    }
    Ok(out)
}

/// Minus of left rows that are moved on: those stay where they stand that bind the same columns.
pub(crate) fn minus_moved(
    alloc: Global,
    left: Vec<Mapping>,
    right: &[Mapping],
) -> Result<Vec<Mapping>, NoMemory>
    ensures { IfOk result (λ out. SameBag out.items (minuses left.items right.now)) }
{
    if !is_one_part(&left) {
        return minus(alloc, &left, right);
    }
    let right = parted(alloc, right)?;
    let others = cut_parts(alloc, right.as_slice())?;
    let all = references(alloc, &left)?;
    let parts = met_parts(alloc, all.as_slice(), others.as_slice())?;
    drop(all);
    Ok(rows_left(left, parts.as_slice()))
}
