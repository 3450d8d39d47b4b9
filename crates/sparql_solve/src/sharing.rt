//! Rows that share what is found for them: those that have the same at the columns whose variables
//! a member names. Which columns these are is seen in nothing but time, and so is when rows are
//! followed no further.
ghost use Rattle.std.specs.Prelude.{◌≡◌, ◌++◌, ◌<◌, ◌≤◌, IfOk, IfSome, IsPermutation, IsTrue, OnOk, drop, length, take, true};
ghost use Rattle.std.specs.List.{list_all};
ghost use Rattle.sparql_solve.specs.Under.{is_served};

use crate::flags::Flags;
use crate::mappings::Mapping;
use crate::matching::asks_same;
use crate::place::Places;
use rdf_terms::{NoMemory, Text};
use sparql_trees::{Member, Pattern, TriplePattern, VarOrIri, VarOrTerm};
use sparql_values::SortedNames;
use std::alloc::Global;
use std::cmp::Ordering;
use std::collections::VecDeque;

// How many look-ups, quads and names a row may take on the whole before rows are followed no
// further, or before they are looked up no further one by one, where what they share isn't sought;
// and how many all that are left have to take at that pace.
const A_ROW: u128 = 16;

const A_ROW_ALONE: u128 = 4;

const AT_LEAST: u128 = 4096;

// So many columns are compared one after another; of more, those alone that are bound.
const FEW: usize = 16;

// For how many look-ups at least it is asked whether a triple pattern has few triples.
const MANY: usize = 64;

// By how many rows it is told how many look-ups all of them take.
const SAMPLE: usize = 256;

// Adds the variable's column.
fn mark(
    columns: &mut Vec<usize>,
    variables: &SortedNames,
    variable: &Text,
) -> Result<(), NoMemory> {
    if let Some(column) = variables.column(variable) {
        columns.push(column)?;
    }
    Ok(())
}

fn mark_name(
    columns: &mut Vec<usize>,
    variables: &SortedNames,
    name: &VarOrIri,
) -> Result<(), NoMemory> {
    match name {
        VarOrIri::Variable(variable) => mark(columns, variables, variable),
        VarOrIri::Iri(_) => Ok(()),
    }
}

fn mark_place(
    columns: &mut Vec<usize>,
    variables: &SortedNames,
    place: &VarOrTerm,
) -> Result<(), NoMemory> {
    match place {
        VarOrTerm::Variable(variable) => mark(columns, variables, variable),
        VarOrTerm::Hidden(_) | VarOrTerm::Term(_) => Ok(()),
    }
}

fn mark_triples(
    columns: &mut Vec<usize>,
    variables: &SortedNames,
    triples: &[TriplePattern],
) -> Result<(), NoMemory> {
    for triple in triples {
        mark_place(columns, variables, &triple.subject)?;
        mark_name(columns, variables, &triple.predicate)?;
        mark_place(columns, variables, &triple.object)?;
    }
    Ok(())
}

#[cycle(names)]
fn mark_groups(
    columns: &mut Vec<usize>,
    variables: &SortedNames,
    groups: &[Pattern],
) -> Result<(), NoMemory> {
    for group in groups {
        mark_group(columns, variables, group)?;
    }
    Ok(())
}

#[cycle(names)]
fn mark_group(
    columns: &mut Vec<usize>,
    variables: &SortedNames,
    pattern: &Pattern,
) -> Result<(), NoMemory> {
    let members = pattern.members.as_slice();
    for member in members {
        mark_member(columns, variables, member)?;
    }
    Ok(())
}

// Adds the columns of the variables that stand in the member's triple patterns or as GRAPH's name, at
// any depth.
#[cycle(names)]
fn mark_member(
    columns: &mut Vec<usize>,
    variables: &SortedNames,
    member: &Member,
) -> Result<(), NoMemory> {
    match member {
        Member::Basic(basic) => mark_triples(columns, variables, basic.triples.as_slice()),
        Member::Union(groups) => mark_groups(columns, variables, groups.as_slice()),
        Member::Optional(pattern) => mark_group(columns, variables, pattern),
        Member::Graph(name, pattern) => {
            mark_name(columns, variables, name)?;
            mark_group(columns, variables, pattern)
        }
        Member::Minus(pattern) => mark_group(columns, variables, pattern),
    }
}

/// For each column whether what is found for so many rows is asked for what they have there: one
/// row shares with no other.
pub(crate) fn asked_columns(
    alloc: Global,
    variables: &SortedNames,
    member: &Member,
    rows: usize,
) -> Result<Flags, NoMemory>
    ensures { IfOk result (λ flags. length flags ≡ length variables.now) }
{
    if rows < 2 {
        return Ok(Flags::all(alloc, variables.len()));
    }
    let mut columns = Vec::new(alloc);
    mark_member(&mut columns, variables, member)?;
    Flags::of(variables.len(), columns)
}

// The first of these columns, which rise, from this one on at which the row has a term. It is found
// by leaps over what only one of both has.
fn next_asked(row: &Mapping, columns: &[usize], from: usize) -> Option<usize>
    ensures after { IfSome result (λ column. from ≤ column) }
    ensures within { IfSome result (λ column. column < length row.now) }
{
    let mut at = from;
    while let Some(column) = row.next_bound(at) {
        let place = columns.partition_point(|asked| *asked < column);
        if columns.len() <= place {
            return None;
        }
        let asked = columns[place];
        if asked <= column {
            return Some(column);
        }
        at = asked;
    }
    None
}

// By what stands at these columns, unbound first. Nothing but time rests on it.
fn compare_each(row: &Mapping, other: &Mapping, columns: &[usize]) -> Ordering {
    for column in columns {
        let by_value = row.value(*column).cmp(&other.value(*column));
        if by_value.is_ne() {
            return by_value;
        }
    }
    row.len().cmp(&other.len())
}

// By what is bound at the columns whose flag is up, from the left. Nothing but time rests on it.
fn compare_at(row: &Mapping, other: &Mapping, flags: &Flags) -> Ordering {
    let Some(columns) = flags.columns() else {
        return row.compare(other);
    };
    if columns.len() <= FEW {
        return compare_each(row, other, columns);
    }
    let len = row.len();
    let mut from = 0;
    while let Some(column) = next_asked(row, columns, from) {
        let Some(next) = next_asked(other, columns, from) else {
            return Ordering::Greater;
        };
        if column != next {
            return next.cmp(&column);
        }
        let by_value = row.value(column).cmp(&other.value(column));
        if by_value.is_ne() {
            return by_value;
        }
        from = column + 1;
    }
    match next_asked(other, columns, from) {
        Some(_) => Ordering::Less,
        None => len.cmp(&other.len()),
    }
}

/// Puts rows side by side that have the same at the columns whose flag is up.
pub(crate) fn gather(rows: &mut Vec<Mapping>, flags: &Flags) -> Result<(), NoMemory>
    ensures { OnOk result (IsPermutation rows.old.items rows.new.items) }
{
    rows.sort_by(|row, other| compare_at(row, other, flags))?;
    Ok(())
}

// Whether what was found for the columns of a row that these are serves another row.
fn serves(asked: &Mapping, row: &Mapping, flags: &Flags) -> bool
    ensures { IsTrue result → is_served asked.now row.now ≡ true }
{
    asked.len() == row.len() && asked.is_below(row) && compare_at(asked, row, flags).is_eq()
}

/// How many rows at the front are served by what was found for the columns of the first one that
/// these are.
pub(crate) fn served_len(asked: &Mapping, rows: &[Mapping], flags: &Flags) -> usize
    requires { 0 < length rows.now }
    ensures some { 0 < result }
    ensures within { result ≤ length rows.now }
    ensures served { list_all (is_served asked.now) (drop 1 (take result rows.now)) ≡ true }
{
    let mut len = 1;
    while len < rows.len() && serves(asked, &rows[len], flags) {
        len += 1;
    }
    len
}

/// How many look-ups of a triple pattern rows take: those side by side that ask the same share one. Of
/// many rows the first ones tell.
pub(crate) fn look_ups_under(rows: &[Mapping], places: &Places) -> usize {
    let sample = rows.len().min(SAMPLE);
    let mut many: u128 = sample.min(1) as u128;
    for place in 1..sample {
        if !asks_same(&rows[place - 1], &rows[place], places) {
            many = many.saturating_add(1);
        }
    }
    let all = rows.len() as u128;
    let look_ups = many.saturating_mul(all) / sample.max(1) as u128;
    look_ups.min(all) as usize
}

/// Fewer triples than these are found once, and aren't looked up so many times: no more than there are
/// look-ups. To find a triple and to join it costs less than a look-up.
pub(crate) fn few_beside(look_ups: usize) -> Option<usize> {
    if look_ups < MANY {
        return None;
    }
    Some(look_ups.saturating_add(1))
}

/// Takes away the rows at the front that are served by what was found for these columns.
pub(crate) fn served_rows(
    alloc: Global,
    asked: &Mapping,
    flags: &Flags,
    rest: &mut VecDeque<Mapping>,
) -> Result<Vec<Mapping>, NoMemory>
    ensures taken { IfOk result (λ served. rest.old.items ≡ served.items ++ rest.new.items) }
    ensures served { IfOk result (λ served.
        list_all (is_served asked.now) served.items ≡ true) }
{
    let mut served = Vec::new(alloc);
    while let Some(row) = rest.pop_front() {
        if !serves(asked, &row, flags) {
            rest.push_front(row)?;
            return Ok(served);
        }
        served.push(row)?;
    }
    Ok(served)
}

/// Whether a member is followed no further: a basic graph pattern is to the end, another one as
/// [`is_slow`] says.
pub(crate) fn stops(member: &Member, looked: u64, done: usize, all: usize, made: usize) -> bool {
    match member {
        Member::Basic(_) => false,
        _ => is_slow(A_ROW, looked, done, all, made),
    }
}

/// Whether the member is a group of its own, whose rows may share what is found where look-ups for
/// each of them are slow.
pub(crate) fn is_group(member: &Member) -> bool {
    match member {
        Member::Union(_) | Member::Minus(_) => true,
        Member::Optional(pattern) => { matches!(pattern.members.as_slice(), [Member::Union(_)]) }
        Member::Basic(_) | Member::Graph(_, _) => false,
    }
}

/// Whether no further row is looked up by itself: where each of GRAPH's names may have to be tried
/// the rows that are left may be found faster without, and those of a group together.
pub(crate) fn stops_looking(
    tries_names: bool,
    member: &Member,
    looked: u64,
    done: usize,
    all: usize,
    made: usize,
) -> bool {
    if tries_names {
        return is_slow(A_ROW, looked, done, all, made);
    }
    is_group(member) && is_slow(A_ROW_ALONE, looked, done, all, made)
}

// Whether what the first rows took is more than so many for each row that there is or was made, and
// those that are left would take more than [`AT_LEAST`].
fn is_slow(a_row: u128, looked: u64, done: usize, all: usize, made: usize) -> bool {
    let looked = u128::from(looked);
    let left = all.saturating_sub(done) as u128;
    looked > a_row.saturating_mul(all as u128 + made as u128)
        && looked.saturating_mul(left) > AT_LEAST * done as u128
}
