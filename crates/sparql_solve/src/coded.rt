//! Many rows are sorted by codes: a code is a number that is lower where what its row has at a
//! column comes first. Only rows with one code are looked at again.
ghost use Rattle.std.specs.Prelude.{◌≡◌, ◌≢◌, ℕ, ◌+◌, ◌*◌, ◌^◌, ◌<◌, ◌≤◌, length, drop, take, map, slice_index, All, IfOk, IfSome, IsPermutation, IsSorted, IsTrue, OnOk};
ghost use Rattle.std.specs.Option.{option_copied, option_map};
ghost use Rattle.std.specs.List.Sorted.{IsNonDecreasing};
ghost use Rattle.sparql_values.specs.Mapping.{value_at};
ghost use Rattle.sparql_algebra.specs.Order.{mapping_cmp};
ghost use Rattle.sparql_solve.specs.Coded.{AreAlike, AreAlikeAt, AreRanked, BeginsWith, HasAt, IsCoded, ShareStart, codes_of, digits, row_code, rows_of, text_of};

use crate::rows::Row;
use rdf_terms::{NoMemory, Term, same_term};
use std::alloc::Global;

// So many bytes of a text stand in a code.
const DIGITS: usize = 7;

// What a code says besides these bytes: the kind of the value.
const UNBOUND: u64 = 1 << 56;

const BLANK: u64 = 2 << 56;

const IRI: u64 = 3 << 56;

const LITERAL: u64 = 4 << 56;

// So few rows are compared as they are.
const FEW: usize = 12;

// So often rows with one code get other codes; what then still has one code is compared as it is.
const LEVELS: usize = 8;

/// A row, and its code at a column.
#[derive(Drop)]
pub(crate) struct CodedRow {
    code: u64,
    row: Row,
}

// The text of what the row has at the column: an IRI's own, a literal's lexical form.
fn text_at(row: &Row, column: usize) -> Option<&str>
    ensures { option_map (λ t. t.now) result ≡ text_of (value_at row.now column) }
{
    match row.value(column) {
        Some(Term::Iri(iri)) => Some(iri.as_str()),
        Some(Term::Literal(literal)) => Some(literal.lexical()),
        Some(Term::Blank(_)) | None => None,
    }
}

// How many bytes two texts begin with alike.
fn shared_bytes(left: &[u8], right: &[u8]) -> usize
    ensures within { result ≤ length left.now }
    ensures within_other { result ≤ length right.now }
    ensures alike { (k : ℕ) → k < result → slice_index left.now k ≡ slice_index right.now k }
    ensures differ { result < length left.now → result < length right.now →
        slice_index left.now result ≢ slice_index right.now result }
{
    if right.starts_with(left) {
        return left.len();
    }
    let mut many = 0;
    while many < left.len() && many < right.len() && left[many] == right[many] {
        many += 1;
    }
    many
}

// How many bytes of this start the row's text at the column begins with: all, where it has none.
fn start_in(row: &Row, column: usize, start: &[u8]) -> usize
    ensures within { result ≤ length start.now }
    ensures begins { BeginsWith (take result start.now) (value_at row.now column) }
{
    match text_at(row, column) {
        Some(text) => shared_bytes(start, text.as_bytes()),
        None => start.len(),
    }
}

// How many bytes the texts of all rows at the column begin with alike.
fn shared_start(rows: &[CodedRow], column: usize) -> usize
    ensures { ShareStart column result (rows_of rows.now) }
{
    let Some(first) = rows.iter().find_map(|coded| text_at(&coded.row, column)) else {
        return 0;
    };
    let first = first.as_bytes();
    let mut many = first.len();
    for coded in rows {
        many = start_in(&coded.row, column, &first[..many]);
    }
    many
}

// The byte at the place, or 0 where the text ends before it.
fn byte_at(text: &[u8], place: usize) -> u64
    ensures value { result ≡ slice_index text.now place }
    ensures below { result < 256 }
{
    if place < text.len() {
        text[place] as u64
    } else {
        0
    }
}

// The first bytes of a text as a number.
fn number_of(text: &[u8]) -> u64
    ensures value { result ≡ digits 7 text.now }
    ensures below { result < 2 ^ 56 }
    ensures bytes { All (λ byte. byte < 256) text.now }
{
    let mut number = 0;
    for place in 0..DIGITS {
        number = number * 256 + byte_at(text, place);
    }
    number
}

// The code of the row at the column, where so many bytes of its text are skipped.
fn code_of(row: &Row, column: usize, skipped: usize) -> u64
    requires { IfSome (text_of (value_at row.now column)) (λ text. skipped ≤ length text) }
    ensures code { result ≡ row_code column skipped row.now }
    ensures bytes { IfSome (text_of (value_at row.now column)) (λ text.
        All (λ byte. byte < 256) (drop skipped text)) }
{
    if row.values().len() <= column {
        return 0;
    }
    match row.value(column) {
        None => UNBOUND,
        Some(Term::Blank(_)) => BLANK,
        Some(Term::Iri(iri)) => IRI + number_of(&iri.as_str().as_bytes()[skipped..]),
        Some(Term::Literal(literal)) => {
            LITERAL + number_of(&literal.lexical().as_bytes()[skipped..])
        }
    }
}

// Gives each row its code at the column.
fn code_rows(rows: &mut [CodedRow], column: usize, skipped: usize)
    requires { ShareStart column skipped (rows_of rows.old) }
    ensures rows { rows_of rows.new ≡ rows_of rows.old }
    ensures coded { All (IsCoded column skipped) rows.new }
{
    for coded in rows.iter_mut() {
        coded.code = code_of(&coded.row, column, skipped);
    }
}

// Sorts the rows by their codes at the column.
fn sort_by_codes(rows: &mut [CodedRow], column: usize)
    requires { AreAlike column (rows_of rows.old) }
    ensures permutation { IsPermutation (rows_of rows.old) (rows_of rows.new) }
    ensures ranked { AreRanked rows.new }
    ensures rising { IsNonDecreasing (codes_of rows.new) }
{
    let skipped = shared_start(rows, column);
    code_rows(rows, column, skipped);
    rows.sort_unstable_by_key(|coded| coded.code);
}

// Whether the row has the column, and this there.
fn has_at(row: &Row, column: usize, value: Option<&Term>) -> bool
    ensures { IsTrue result → HasAt column (option_copied value.entry) row.now }
{
    column < row.values().len()
        && match (row.value(column), value) {
            (Some(own), Some(other)) => same_term(own, other),
            (None, None) => true,
            _ => false,
        }
}

// Whether all rows have the column, and the same there.
fn are_alike_at(rows: &[CodedRow], column: usize) -> bool
    ensures { IsTrue result → AreAlikeAt column (rows_of rows.now) }
{
    let Some(first) = rows.first() else {
        return false;
    };
    let value = first.row.value(column);
    for coded in rows {
        if !has_at(&coded.row, column, value) {
            return false;
        }
    }
    true
}

// The first column from this one on at which the rows differ.
fn first_apart(rows: &[CodedRow], from: usize) -> usize
    requires { AreAlike from (rows_of rows.now) }
    ensures { AreAlike result (rows_of rows.now) }
{
    let width = match rows.first() {
        Some(first) => first.row.values().len(),
        None => from,
    };
    let mut column = from;
    while column < width && are_alike_at(rows, column) {
        column += 1;
    }
    column
}

// Where the rows end that, from the one at this place on, have its code.
fn run_end(rows: &[CodedRow], from: usize) -> usize
    requires { from < length rows.now }
    ensures past { from < result }
    ensures within { result ≤ length rows.now }
    ensures alike { (k : ℕ) → from ≤ k → k < result →
        slice_index (codes_of rows.now) k ≡ slice_index (codes_of rows.now) from }
    ensures differ { result < length rows.now →
        slice_index (codes_of rows.now) result ≢ slice_index (codes_of rows.now) from }
{
    let code = rows[from].code;
    let mut to = from + 1;
    while to < rows.len() && rows[to].code == code {
        to += 1;
    }
    to
}

// How often rows with one code get other codes from here on: where all have one, no more.
fn levels_left(rows: &[CodedRow], levels: usize) -> usize
    requires { 0 < levels }
    ensures { result < levels }
{
    match (rows.first(), rows.last()) {
        (Some(first), Some(last)) if first.code < last.code => levels - 1,
        _ => 0,
    }
}

// Sorts the rows as they are.
fn sort_plainly(rows: &mut [CodedRow])
    ensures permutation { IsPermutation (rows_of rows.old) (rows_of rows.new) }
    ensures sorted { IsSorted mapping_cmp (rows_of rows.new) }
{
    rows.sort_unstable_by(|left, right| left.row.compare(&right.row));
}

// Sorts rows that are sorted by their codes at the column: those with one code among themselves.
#[cycle(coded)]
fn sort_runs(rows: &mut [CodedRow], column: usize, levels: usize)
    requires alike { AreAlike column (rows_of rows.old) }
    requires ranked { AreRanked rows.old }
    requires rising { IsNonDecreasing (codes_of rows.old) }
    ensures permutation { IsPermutation (rows_of rows.old) (rows_of rows.new) }
    ensures sorted { IsSorted mapping_cmp (rows_of rows.new) }
{
    let mut from = 0;
    while from < rows.len() {
        let to = run_end(rows, from);
        sort_run(&mut rows[from..to], column, levels);
        from = to;
    }
}

// Sorts the rows of one code, most often a single one.
#[cycle(coded)]
fn sort_run(rows: &mut [CodedRow], column: usize, levels: usize)
    requires { AreAlike column (rows_of rows.old) }
    ensures permutation { IsPermutation (rows_of rows.old) (rows_of rows.new) }
    ensures sorted { IsSorted mapping_cmp (rows_of rows.new) }
{
    if 1 < rows.len() {
        sort_coded(rows, column, levels);
    }
}

// Sorts rows that have the same before the column.
#[cycle(coded)]
fn sort_coded(rows: &mut [CodedRow], column: usize, levels: usize)
    requires { AreAlike column (rows_of rows.old) }
    ensures permutation { IsPermutation (rows_of rows.old) (rows_of rows.new) }
    ensures sorted { IsSorted mapping_cmp (rows_of rows.new) }
{
    if levels == 0 || rows.len() <= FEW {
        sort_plainly(rows);
        return;
    }
    let apart = first_apart(rows, column);
    sort_by_codes(rows, apart);
    let left = levels_left(rows, levels);
    sort_runs(rows, apart, left);
}

// Takes the rows out of the list, none of which has its code yet. The list keeps its room.
fn with_codes(alloc: Global, rows: &mut Vec<Row>) -> Result<Vec<CodedRow>, NoMemory>
    ensures { IfOk result (λ out. rows_of out.items ≡ rows.old.items) }
{
    let mut out = Vec::with_capacity(alloc, rows.len())?;
    for row in rows.drain(..) {
        out.push(CodedRow { code: 0, row })?;
    }
    Ok(out)
}

// Puts the rows without their codes into the list, in place of what it has.
fn put_rows(coded: Vec<CodedRow>, rows: &mut Vec<Row>) -> Result<(), NoMemory>
    ensures { OnOk result (rows.new.items ≡ rows_of coded.items) }
{
    rows.clear();
    for CodedRow { code: _, row } in coded {
        rows.push(row)?;
    }
    Ok(())
}

/// Sorts the rows by their values from the left, unbound first.
pub(crate) fn sort_many(alloc: Global, rows: &mut Vec<Row>) -> Result<(), NoMemory>
    ensures permutation { OnOk result (IsPermutation rows.old.items rows.new.items) }
    ensures sorted { OnOk result (IsSorted mapping_cmp rows.new.items) }
{
    let mut coded = with_codes(alloc, rows)?;
    sort_coded(&mut coded, 0, LEVELS);
    put_rows(coded, rows)
}
