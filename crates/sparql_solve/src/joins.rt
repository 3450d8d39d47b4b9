//! Join and LeftJoin of rows, each part by its own key (SPARQL 1.1 Query, section 18.5).
ghost use Rattle.std.specs.Prelude.{◌≡◌, ◌++◌, ◌∷◌, [], IfOk, IfSome, OnOk, filter, map};
ghost use Rattle.std.specs.Option.{option_copied};
ghost use Rattle.std.specs.List.{flat_map};
ghost use Rattle.sparql_algebra.specs.Bags.{SameBag};
ghost use Rattle.sparql_algebra.specs.Solutions.{joins, left_joins, merges, or_alone, satisfies};
ghost use Rattle.sparql_solve.specs.Parts.{merges_in};

use crate::evaluation::Scope;
use crate::filters::filtered_rows;
use crate::keyed::{Part, part_run};
use crate::mappings::Mapping;
use crate::parts::{cut_parts, is_one_part, parted, parts_of, references};
use rdf_terms::NoMemory;
use sparql_trees::Expression;
use std::alloc::Global;

// Appends the merges of a row with those that are compatible with it.
fn append_merges(
    alloc: Global,
    row: &Mapping,
    others: &[&Mapping],
    out: &mut Vec<Mapping>,
) -> Result<(), NoMemory>
    ensures { OnOk result (out.new.items
        ≡ out.old.items ++ merges (map (λ r. r.now) others.now) row.now) }
{
    for other in others {
        if row.is_compatible(other) {
            out.push(row.merged(alloc, other)?)?;
        }
    }
    Ok(())
}

// Appends the merges of a row with those of the parts that have its key.
fn append_partners(
    alloc: Global,
    row: &Mapping,
    parts: &[Part],
    out: &mut Vec<Mapping>,
) -> Result<(), NoMemory>
    ensures { OnOk result (out.new.items ≡ out.old.items ++ merges_in parts.now row.now) }
{
    for part in parts {
        let run = part_run(row, part);
        append_merges(alloc, row, run, out)?;
    }
    Ok(())
}

// Appends the merges of each row.
fn append_joins(
    alloc: Global,
    rows: &[&Mapping],
    parts: &[Part],
    out: &mut Vec<Mapping>,
) -> Result<(), NoMemory>
    ensures { OnOk result (out.new.items
        ≡ out.old.items ++ flat_map (merges_in parts.now) (map (λ r. r.now) rows.now)) }
{
    for row in rows {
        append_partners(alloc, row, parts, out)?;
    }
    Ok(())
}

/// Join: the merges of all compatible pairs.
pub(crate) fn join(
    alloc: Global,
    left: &[Mapping],
    right: &[Mapping],
) -> Result<Vec<Mapping>, NoMemory>
    ensures { IfOk result (λ out. SameBag out.items (joins left.now right.now)) }
{
    let left = parted(alloc, left)?;
    let right = parted(alloc, right)?;
    let groups = cut_parts(alloc, left.as_slice())?;
    let others = cut_parts(alloc, right.as_slice())?;
    let mut out = Vec::new(alloc);
    for group in &groups {
        let parts = parts_of(alloc, group, others.as_slice())?;
        append_joins(alloc, group, parts.as_slice(), &mut out)?;
    }
    Ok(out)
}

/// The row alone where it has no merge.
pub(crate) fn or_alone(
    alloc: Global,
    row: &Mapping,
    mut merged: Vec<Mapping>,
) -> Result<Vec<Mapping>, NoMemory>
    ensures { IfOk result (λ out. out.items ≡ or_alone row.now merged.items) }
{
    if merged.is_empty() {
        merged.push(row.copy(alloc)?)?;
    }
    Ok(merged)
}

// A row's part of LeftJoin.
fn optional_merges(
    scope: &Scope,
    row: &Mapping,
    parts: &[Part],
    filters: &[Expression],
) -> Result<Vec<Mapping>, NoMemory>
    ensures { IfOk result (λ out. out.items ≡ or_alone row.now
        (filter (satisfies scope.now.variables.now filters.now) (merges_in parts.now row.now))) }
{
    let mut merged = Vec::new(scope.alloc);
    append_partners(scope.alloc, row, parts, &mut merged)?;
    let kept = filtered_rows(scope, merged, filters)?;
    or_alone(scope.alloc, row, kept)
}

// Appends each row's part of LeftJoin.
fn append_left_joins(
    scope: &Scope,
    rows: &[&Mapping],
    parts: &[Part],
    filters: &[Expression],
    out: &mut Vec<Mapping>,
) -> Result<(), NoMemory>
    ensures { OnOk result (out.new.items ≡ out.old.items ++ flat_map (λ a. or_alone a
        (filter (satisfies scope.now.variables.now filters.now) (merges_in parts.now a)))
        (map (λ r. r.now) rows.now)) }
{
    for row in rows {
        let mut found = optional_merges(scope, row, parts, filters)?;
        out.append(&mut found)?;
    }
    Ok(())
}

/// LeftJoin: the merges of all compatible pairs of which each of the filters is true, and each left
/// row that has none.
pub(crate) fn left_join(
    scope: &Scope,
    left: &[Mapping],
    right: &[Mapping],
    filters: &[Expression],
) -> Result<Vec<Mapping>, NoMemory>
    ensures { IfOk result (λ out. SameBag out.items
        (left_joins left.now right.now (satisfies scope.now.variables.now filters.now))) }
{
    let left = parted(scope.alloc, left)?;
    let right = parted(scope.alloc, right)?;
    let groups = cut_parts(scope.alloc, left.as_slice())?;
    let others = cut_parts(scope.alloc, right.as_slice())?;
    let mut out = Vec::new(scope.alloc);
    for group in &groups {
        let parts = parts_of(scope.alloc, group, others.as_slice())?;
        let parts = parts.as_slice();
        append_left_joins(scope, group, parts, filters, &mut out)?;
    }
    Ok(out)
}

// Appends the merges of a row of which each of the filters is true.
fn append_kept(
    scope: &Scope,
    row: &Mapping,
    parts: &[Part],
    filters: &[Expression],
    out: &mut Vec<Mapping>,
) -> Result<(), NoMemory>
    ensures { OnOk result (out.new.items ≡ out.old.items
        ++ filter (satisfies scope.now.variables.now filters.now) (merges_in parts.now row.now)) }
{
    if filters.is_empty() {
        return append_partners(scope.alloc, row, parts, out);
    }
    let mut merged = Vec::new(scope.alloc);
    append_partners(scope.alloc, row, parts, &mut merged)?;
    let mut kept = filtered_rows(scope, merged, filters)?;
    out.append(&mut kept)?;
    Ok(())
}

// The only one that has the row's key, where there is one part alone.
fn lone_partner<'r>(row: &Mapping, parts: &[Part<'r>]) -> Option<&'r Mapping>
    ensures { IfSome (option_copied result) (λ other.
        merges_in parts.now row.now ≡ merges (other ∷ []) row.now) }
{
    let [part] = parts else {
        return None;
    };
    match part_run(row, part) {
        [other] => Some(other),
        _ => None,
    }
}

// Appends the merge of a row, which is moved on, with another one; the row itself where they aren't
// compatible.
fn append_filled(
    alloc: Global,
    row: Mapping,
    other: &Mapping,
    out: &mut Vec<Mapping>,
) -> Result<(), NoMemory>
    ensures { OnOk result (out.new.items
        ≡ out.old.items ++ or_alone row (merges (other.now ∷ []) row)) }
{
    if !row.is_compatible(other) {
        out.push(row)?;
        return Ok(());
    }
    let merged = row.filled(alloc, other)?;
    out.push(merged)?;
    Ok(())
}

// Appends the merges of a row with those of the parts that have its key: of the row itself, which is
// moved on, where there is one alone.
fn append_join_moved(
    alloc: Global,
    row: Mapping,
    parts: &[Part],
    out: &mut Vec<Mapping>,
) -> Result<(), NoMemory>
    ensures { OnOk result (out.new.items ≡ out.old.items ++ merges_in parts.now row) }
{
    let Some(other) = lone_partner(&row, parts) else {
        return append_partners(alloc, &row, parts, out);
    };
    if !row.is_compatible(other) {
        return Ok(());
    }
    let merged = row.filled(alloc, other)?;
    out.push(merged)?;
    Ok(())
}

// Appends each row's merges.
fn append_joins_moved(
    alloc: Global,
    rows: Vec<Mapping>,
    parts: &[Part],
    out: &mut Vec<Mapping>,
) -> Result<(), NoMemory>
    ensures { OnOk result (out.new.items
        ≡ out.old.items ++ flat_map (merges_in parts.now) rows.items) }
{
    for row in rows {
        append_join_moved(alloc, row, parts, out)?;
    }
    Ok(())
}

/// Join of left rows that are moved on: those that bind the same columns.
pub(crate) fn join_moved(
    alloc: Global,
    left: Vec<Mapping>,
    right: &[Mapping],
) -> Result<Vec<Mapping>, NoMemory>
    ensures { IfOk result (λ out. SameBag out.items (joins left.items right.now)) }
{
    if !is_one_part(&left) {
        return join(alloc, &left, right);
    }
    let right = parted(alloc, right)?;
    let others = cut_parts(alloc, right.as_slice())?;
    let all = references(alloc, &left)?;
    let parts = parts_of(alloc, all.as_slice(), others.as_slice())?;
    drop(all);
    let mut out = Vec::new(alloc);
    append_joins_moved(alloc, left, parts.as_slice(), &mut out)?;
    Ok(out)
}

// Appends a row's part of LeftJoin: the row itself, which is moved on, where it has no merge.
fn append_moved(
    scope: &Scope,
    row: Mapping,
    parts: &[Part],
    filters: &[Expression],
    out: &mut Vec<Mapping>,
) -> Result<(), NoMemory>
    ensures { OnOk result (out.new.items ≡ out.old.items ++ or_alone row
        (filter (satisfies scope.now.variables.now filters.now) (merges_in parts.now row))) }
{
    if filters.is_empty() {
        if let Some(other) = lone_partner(&row, parts) {
            return append_filled(scope.alloc, row, other, out);
        }
    }
    let before = out.len();
    append_kept(scope, &row, parts, filters, out)?;
    if out.len() != before {
        return Ok(());
    }
    out.push(row)?;
    Ok(())
}

// Appends each row's part of LeftJoin.
fn append_all_moved(
    scope: &Scope,
    rows: Vec<Mapping>,
    parts: &[Part],
    filters: &[Expression],
    out: &mut Vec<Mapping>,
) -> Result<(), NoMemory>
    ensures { OnOk result (out.new.items ≡ out.old.items ++ flat_map (λ a. or_alone a
        (filter (satisfies scope.now.variables.now filters.now) (merges_in parts.now a)))
        rows.items) }
{
    for row in rows {
        append_moved(scope, row, parts, filters, out)?;
    }
    Ok(())
}

/// LeftJoin of left rows that are moved on: those that bind the same columns where they have no merge.
pub(crate) fn left_join_moved(
    scope: &Scope,
    left: Vec<Mapping>,
    right: &[Mapping],
    filters: &[Expression],
) -> Result<Vec<Mapping>, NoMemory>
    ensures { IfOk result (λ out. SameBag out.items
        (left_joins left.items right.now (satisfies scope.now.variables.now filters.now))) }
{
    if !is_one_part(&left) {
        return left_join(scope, &left, right, filters);
    }
    let right = parted(scope.alloc, right)?;
    let others = cut_parts(scope.alloc, right.as_slice())?;
    let all = references(scope.alloc, &left)?;
    let parts = parts_of(scope.alloc, all.as_slice(), others.as_slice())?;
    drop(all);
    let mut out = Vec::with_capacity(scope.alloc, left.len())?;
    let parts = parts.as_slice();
    append_all_moved(scope, left, parts, filters, &mut out)?;
    Ok(out)
}
