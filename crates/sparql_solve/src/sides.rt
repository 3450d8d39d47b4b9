//! What members make of rows: of their merges with what was looked up or found for them (SPARQL 1.1
//! Query, section 18.5).
ghost use Rattle.std.specs.Prelude.{◌≡◌, ◌&&◌, ◌++◌, ◌<◌, ◌≤◌, ◌∷◌, [], false, true, IfOk, IfSome, IsTrue, drop, filter, length, map, take};
ghost use Rattle.std.specs.List.{flat_map, list_all};
ghost use Rattle.sparql_algebra.specs.Algebra.{element};
ghost use Rattle.sparql_algebra.specs.Bags.{SameBag};
ghost use Rattle.sparql_algebra.specs.Solutions.{merges, or_alone, satisfies};
ghost use Rattle.sparql_algebra.specs.Under.{agreeing};
ghost use Rattle.sparql_values.specs.Mapping.{empty_mapping, merge};
ghost use Rattle.sparql_solve.specs.Members.{element_solutions};
ghost use Rattle.sparql_solve.specs.Partners.{AreFound, asks_end, has_no_condition};
ghost use Rattle.sparql_solve.specs.Steps.{Begins};
ghost use Rattle.sparql_solve.specs.Under.{AreEnough, AreMade, IsLookUpFor, IsLookUpOf, asked, binds_none, counting, is_removed, is_served, kept, masked, met, own_columns, where_none};

use crate::above::Above;
use crate::basic::{is_unbound_in, own_columns};
use crate::evaluation::{Evaluation, Scope};
use crate::filters::filtered_rows;
use crate::flags::Flags;
use crate::grown::are_told_in;
use crate::joins::{join, join_moved, left_join, left_join_moved, or_alone};
use crate::look_ups::{
    Graphs, LookUp, asks_all_same, few_found, found_rows, grown_rows, lone_pattern, rows_of_found,
    some_found,
};
use crate::mappings::Mapping;
use crate::members::{is_joined, is_removed};
use crate::minus::{minus, minus_moved};
use crate::partners::{all_ask_end, has_no_condition, rows_beside_quads};
use crate::place::Places;
use crate::sharing::{few_beside, look_ups_under, served_len, served_rows, stops_looking};
use rdf_dataset::Source;
use rdf_terms::{GraphName, NoMemory, Quad};
use sparql_trees::{Expression, Member};
use sparql_values::SortedNames;
use std::alloc::Global;
use std::collections::VecDeque;

/// What was made of the first rows, where the others may have been left.
#[derive(Drop)]
pub(crate) struct Made {
    pub(crate) rows: Vec<Mapping>,
    /// Of how many rows.
    pub(crate) done: usize,
}

/// What was made of the first rows by look-ups under each of them, and the rows that are left.
#[derive(Drop)]
pub(crate) struct Begun {
    pub(crate) rows: Vec<Mapping>,
    pub(crate) rest: Vec<Mapping>,
    /// Whether look-ups under each of these would be slow; else there are none.
    pub(crate) is_slow: bool,
}

/// Nothing is made: there are no look-ups.
pub(crate) fn nothing_begun(alloc: Global, rows: Vec<Mapping>) -> Begun
    ensures made { result.rows.items ≡ [] }
    ensures rest { result.rest.items ≡ rows.items }
{
    Begun {
        rows: Vec::new(alloc),
        rest: rows,
        is_slow: false,
    }
}

// All is made: no rows are left.
fn all_made(alloc: Global, rows: Vec<Mapping>) -> Begun
    ensures made { result.rows.items ≡ rows.items }
    ensures rest { result.rest.items ≡ [] }
{
    Begun {
        rows,
        rest: Vec::new(alloc),
        is_slow: false,
    }
}

// What was made by look-ups, and the rows that are left.
fn begun_with(rows: Vec<Mapping>, rest: VecDeque<Mapping>) -> Begun
    ensures made { result.rows.items ≡ rows.items }
    ensures rest { result.rest.items ≡ rest.items }
{
    Begun {
        rows,
        rest: rest.into_vec(),
        is_slow: true,
    }
}

/// What was found for rows that have the same where it was asked for.
#[derive(Drop)]
pub(crate) struct Found {
    /// What they have there.
    pub(crate) columns: Mapping,
    pub(crate) rows: Vec<Mapping>,
}

/// The rows that are compatible with this one.
pub(crate) fn compatible_rows(
    alloc: Global,
    under: &Above,
    rows: Vec<Mapping>,
) -> Result<Vec<Mapping>, NoMemory>
    ensures { IfOk result (λ out. out.items ≡ agreeing rows.items under.now) }
{
    if under.is_unbound() {
        return Ok(rows);
    }
    let mut out = Vec::new(alloc);
    for row in rows {
        if under.is_compatible(&row) {
            out.push(row)?;
        }
    }
    Ok(out)
}

/// The rows with what another one binds.
pub(crate) fn rows_with(
    alloc: Global,
    rows: &[Mapping],
    bound: &Mapping,
) -> Result<Vec<Mapping>, NoMemory>
    ensures { IfOk result (λ out. out.items ≡ map (λ x. merge x bound.now) rows.now) }
{
    let mut out = Vec::with_capacity(alloc, rows.len())?;
    for row in rows {
        out.push(row.merged(alloc, bound)?)?;
    }
    Ok(out)
}

/// The rows, and others behind them.
pub(crate) fn rows_and(
    mut rows: Vec<Mapping>,
    mut others: Vec<Mapping>,
) -> Result<Vec<Mapping>, NoMemory>
    ensures { IfOk result (λ out. out.items ≡ rows.items ++ others.items) }
{
    rows.append(&mut others)?;
    Ok(rows)
}

/// The rows of which each of the filters is true, with what another one binds.
pub(crate) fn passed_with(
    scope: &Scope,
    rows: Vec<Mapping>,
    filters: &[Expression],
    bound: &Mapping,
) -> Result<Vec<Mapping>, NoMemory>
    ensures { IfOk result (λ out. out.items ≡ map (λ x. merge x bound.now)
        (filter (satisfies scope.now.variables.now filters.now) rows.items)) }
{
    let passed = filtered_rows(scope, rows, filters)?;
    rows_with(scope.alloc, &passed, bound)
}

/// Under what a member is found for a row that stands under another one: OPTIONAL and MINUS under
/// the row alone.
pub(crate) fn asked(
    alloc: Global,
    member: &Member,
    under: &Above,
    row: &Mapping,
) -> Result<Above, NoMemory>
    ensures { IfOk result (λ out. out ≡ asked (element member.now) under.now row.now) }
{
    match member {
        Member::Optional(_) | Member::Minus(_) => Ok(Above::of(row.copy(alloc)?)),
        Member::Basic(_) | Member::Union(_) | Member::Graph(_, _) => under.merged(alloc, row),
    }
}

/// Under what a member is found for all rows at once.
pub(crate) fn asked_once(scope: &Scope, member: &Member, under: &Above) -> Result<Above, NoMemory>
    ensures { IfOk result (λ out. out
        ≡ asked (element member.now) under.now (empty_mapping scope.now.variables.now)) }
{
    let nothing = Mapping::unbound(scope.alloc, scope.variables)?;
    asked(scope.alloc, member, under, &nothing)
}

// The row, where there is none of these.
fn where_none(alloc: Global, row: &Mapping, merged: &[Mapping]) -> Result<Vec<Mapping>, NoMemory>
    ensures { IfOk result (λ out. out.items ≡ where_none row.now merged.now) }
{
    let mut out = Vec::new(alloc);
    if merged.is_empty() {
        out.push(row.copy(alloc)?)?;
    }
    Ok(out)
}

// What a member makes of a row, whose merges with what counts for it these are. The filters of
// OPTIONAL's own group are its condition.
fn passed_rows(
    scope: &Scope,
    row: &Mapping,
    merged: Vec<Mapping>,
    member: &Member,
) -> Result<Vec<Mapping>, NoMemory>
    ensures { IfOk result (λ out. out.items
        ≡ kept scope.now.variables.now (element member.now) row.now merged.items) }
{
    match member {
        Member::Optional(pattern) => {
            let filters = pattern.filters.as_slice();
            let passed = filtered_rows(scope, merged, filters)?;
            or_alone(scope.alloc, row, passed)
        }
        Member::Minus(_) => where_none(scope.alloc, row, &merged),
        Member::Basic(_) | Member::Union(_) | Member::Graph(_, _) => Ok(merged),
    }
}

// Of what a member makes of a row what is compatible with the row above.
fn kept_rows(
    scope: &Scope,
    row: &Mapping,
    merged: Vec<Mapping>,
    member: &Member,
    under: &Above,
) -> Result<Vec<Mapping>, NoMemory>
    ensures { IfOk result (λ out. out.items
        ≡ agreeing (kept scope.now.variables.now (element member.now) row.now merged.items)
        under.now) }
{
    let passed = passed_rows(scope, row, merged, member)?;
    compatible_rows(scope.alloc, under, passed)
}

// The merges of a row with those that are compatible with it.
fn merges_of(alloc: Global, row: &Mapping, found: &[Mapping]) -> Result<Vec<Mapping>, NoMemory>
    ensures { IfOk result (λ out. out.items ≡ merges found.now row.now) }
{
    let mut out = Vec::new(alloc);
    for other in found {
        if row.is_compatible(other) {
            out.push(row.merged(alloc, other)?)?;
        }
    }
    Ok(out)
}

// What a member makes of a row with what was found for it.
fn made_rows(
    scope: &Scope,
    row: &Mapping,
    found: &[Mapping],
    member: &Member,
    under: &Above,
) -> Result<Vec<Mapping>, NoMemory>
    ensures { IfOk result (λ out. out.items ≡ agreeing (kept scope.now.variables.now
        (element member.now)
        row.now (merges found.now row.now)) under.now) }
{
    let merged = merges_of(scope.alloc, row, found)?;
    kept_rows(scope, row, merged, member, under)
}

// What a member makes of rows, joined by key with what was found for all of them.
fn joined_rows(
    scope: &Scope,
    rows: &[Mapping],
    found: &[Mapping],
    member: &Member,
) -> Result<Vec<Mapping>, NoMemory>
    ensures { IfOk result (λ out. SameBag out.items (flat_map (λ x. kept scope.now.variables.now
        (element member.now) x (merges (met (element member.now) x found.now) x)) rows.now)) }
{
    match member {
        Member::Optional(pattern) => {
            let filters = pattern.filters.as_slice();
            left_join(scope, rows, found, filters)
        }
        Member::Minus(_) => minus(scope.alloc, rows, found),
        Member::Basic(_) | Member::Union(_) | Member::Graph(_, _) => join(scope.alloc, rows, found),
    }
}

// The same of rows that are moved on where they stay.
fn joined_moved(
    scope: &Scope,
    rows: Vec<Mapping>,
    found: &[Mapping],
    member: &Member,
) -> Result<Vec<Mapping>, NoMemory>
    ensures { IfOk result (λ out. SameBag out.items (flat_map (λ x. kept scope.now.variables.now
        (element member.now) x (merges (met (element member.now) x found.now) x)) rows.items)) }
{
    match member {
        Member::Optional(pattern) => {
            let conditions = pattern.filters.as_slice();
            left_join_moved(scope, rows, found, conditions)
        }
        Member::Minus(_) => minus_moved(scope.alloc, rows, found),
        Member::Basic(_) | Member::Union(_) | Member::Graph(_, _) => {
            join_moved(scope.alloc, rows, found)
        }
    }
}

/// What a member makes of rows, joined by key with what was found for all of them; of that what is
/// compatible with the row above.
pub(crate) fn rows_beside(
    scope: &Scope,
    rows: &[Mapping],
    found: &[Mapping],
    member: &Member,
    under: &Above,
) -> Result<Vec<Mapping>, NoMemory>
    ensures { IfOk result (λ out. SameBag out.items (flat_map (λ x. agreeing
        (kept scope.now.variables.now
        (element member.now) x (merges (met (element member.now) x found.now) x)) under.now)
        rows.now)) }
{
    let joined = joined_rows(scope, rows, found, member)?;
    compatible_rows(scope.alloc, under, joined)
}

// What a member makes of rows that are moved on, joined by key with what was found for all of them;
// of that what is compatible with the row above.
fn rows_moved_beside(
    scope: &Scope,
    rows: Vec<Mapping>,
    found: &[Mapping],
    member: &Member,
    under: &Above,
) -> Result<Vec<Mapping>, NoMemory>
    ensures { IfOk result (λ out. SameBag out.items (flat_map (λ x. agreeing
        (kept scope.now.variables.now
        (element member.now) x (merges (met (element member.now) x found.now) x)) under.now)
        rows.items)) }
{
    let made = joined_moved(scope, rows, found, member)?;
    compatible_rows(scope.alloc, under, made)
}

// What a member makes of rows one by one.
fn rows_one_by_one(
    scope: &Scope,
    rows: &[Mapping],
    found: &[Mapping],
    member: &Member,
    under: &Above,
) -> Result<Vec<Mapping>, NoMemory>
    ensures { IfOk result (λ out. out.items ≡ flat_map (λ x. agreeing (kept scope.now.variables.now
        (element member.now) x (merges found.now x)) under.now) rows.now) }
{
    let mut out = Vec::new(scope.alloc);
    for row in rows {
        let mut made = made_rows(scope, row, found, member, under)?;
        out.append(&mut made)?;
    }
    Ok(out)
}

/// What a member makes of rows with what was found for all of them. MINUS takes away by key: all of
/// it may be compatible with each of them, and have no variable in common with any.
pub(crate) fn rows_served(
    scope: &Scope,
    rows: &[Mapping],
    found: &[Mapping],
    member: &Member,
    under: &Above,
) -> Result<Vec<Mapping>, NoMemory>
    ensures { IfOk result (λ out. SameBag out.items (flat_map (λ x. agreeing
        (kept scope.now.variables.now
        (element member.now) x (merges (met (element member.now) x found.now) x)) under.now)
        rows.now)) }
{
    if is_removed(member) {
        return rows_beside(scope, rows, found, member, under);
    }
    rows_one_by_one(scope, rows, found, member, under)
}

/// What a member makes of the first rows with what was found for the first one of them: of as many
/// as that serves.
pub(crate) fn first_served(
    scope: &Scope,
    rows: &[Mapping],
    flags: &Flags,
    found: Found,
    member: &Member,
    under: &Above,
) -> Result<Made, NoMemory>
    requires { 0 < length rows.now }
    ensures some { IfOk result (λ m. 0 < m.done) }
    ensures within { IfOk result (λ m. m.done ≤ length rows.now) }
    ensures served { IfOk result (λ m.
        list_all (is_served found.columns) (drop 1 (take m.done rows.now)) ≡ true) }
    ensures made { IfOk result (λ m. SameBag m.rows.items (flat_map (λ x. agreeing (kept
        scope.now.variables.now (element member.now) x (merges (met (element member.now) x
        found.rows.items) x)) under.now) (take m.done rows.now))) }
{
    let done = served_len(&found.columns, rows, flags);
    let first = &rows[..done];
    let rows = rows_served(scope, first, &found.rows, member, under)?;
    Ok(Made { rows, done })
}

// Whether every name may have to be tried.
fn tries_names(look_up: &LookUp) -> bool {
    match look_up.graphs {
        Graphs::Each(_) => true,
        _ => false,
    }
}

// As much of what is looked up for a row and counts for it as tells what the member makes of the row:
// for MINUS a part, and nothing, by no look-up, where the row has none of the pattern's variables.
fn counting_rows<S: Source>(
    evaluation: &Evaluation<S>,
    look_up: &LookUp,
    member: &Member,
    row: &Mapping,
) -> Result<Vec<Mapping>, NoMemory>
    ensures { IfOk result (λ out. AreEnough evaluation.now.scope.variables.now
        (S.contents evaluation.now.source.now)
        (element member.now) row.now out.items
        (λ d. counting evaluation.now.scope.variables.now d look_up.now (element member.now)
        row.now)) }
{
    if !is_removed(member) {
        return found_rows(evaluation, look_up, row);
    }
    if is_unbound_in(evaluation.scope.variables, look_up, row) {
        return Ok(Vec::new(evaluation.scope.alloc));
    }
    some_found(evaluation, look_up, row)
}

// Whether a row shares its look-up with the next one: both have the same at the look-ups' columns,
// for MINUS not nothing alone, and none of GRAPH's names has to be tried.
fn is_shared(
    variables: &SortedNames,
    row: &Mapping,
    next: Option<&Mapping>,
    look_up: &LookUp,
    member: &Member,
) -> bool
    ensures { IsTrue result → (is_removed (element member.now)
        && binds_none (masked (own_columns variables.now look_up.now) row.now)) ≡ false }
{
    let Some(next) = next else {
        return false;
    };
    if is_removed(member) && is_unbound_in(variables, look_up, row) {
        return false;
    }
    !tries_names(look_up) && asks_all_same(row, next, look_up.places.as_slice())
}

// The row alone, which is moved on, where it has no merge.
fn or_moved(row: Mapping, mut passed: Vec<Mapping>) -> Result<Vec<Mapping>, NoMemory>
    ensures { IfOk result (λ out. out.items ≡ or_alone row passed.items) }
{
    if passed.is_empty() {
        passed.push(row)?;
    }
    Ok(passed)
}

// The row, which is moved on, where there is none of these.
fn moved_where_none(
    alloc: Global,
    row: Mapping,
    found: &[Mapping],
) -> Result<Vec<Mapping>, NoMemory>
    ensures { IfOk result (λ out. out.items ≡ where_none row found.now) }
{
    let mut out = Vec::new(alloc);
    if found.is_empty() {
        out.push(row)?;
    }
    Ok(out)
}

// What a member makes of a row, whose merges with what counts for it these are: the row itself is
// moved on where it stays.
fn moved_on(
    scope: &Scope,
    row: Mapping,
    merged: Vec<Mapping>,
    member: &Member,
) -> Result<Vec<Mapping>, NoMemory>
    ensures { IfOk result (λ out. out.items
        ≡ kept scope.now.variables.now (element member.now) row merged.items) }
{
    match member {
        Member::Optional(pattern) => {
            let filters = pattern.filters.as_slice();
            let left = filtered_rows(scope, merged, filters)?;
            or_moved(row, left)
        }
        Member::Minus(_) => moved_where_none(scope.alloc, row, &merged),
        Member::Union(_) | Member::Basic(_) | Member::Graph(_, _) => Ok(merged),
    }
}

// What a member makes of a row by a look-up; the row itself is moved on.
fn looked_up_alone<S: Source>(
    evaluation: &Evaluation<S>,
    _graph: &GraphName,
    row: Mapping,
    look_up: &LookUp,
    member: &Member,
    under: &Above,
) -> Result<Vec<Mapping>, NoMemory>
    requires { IsLookUpFor evaluation.now.scope.variables.now (S.contents evaluation.now.source.now)
        (element member.now)
        look_up.now (λ d. element_solutions evaluation.now.scope.variables.now d _graph.now
        (element member.now)) }
    ensures { IfOk result (λ out. AreMade evaluation.now.scope.variables.now
        (S.contents evaluation.now.source.now) _graph.now
        under.now (element member.now) (row ∷ []) out.items) }
{
    if is_joined(member) && under.is_unbound() {
        return grown_rows(evaluation, look_up, row);
    }
    let found = counting_rows(evaluation, look_up, member, &row)?;
    let made = moved_on(&evaluation.scope, row, found, member)?;
    compatible_rows(evaluation.scope.alloc, under, made)
}

// What a member makes of the first row by a look-up, which those behind it share that have the same
// at the look-ups' columns. These rows are taken away.
fn first_looked_up<S: Source>(
    evaluation: &Evaluation<S>,
    graph: &GraphName,
    rest: &mut VecDeque<Mapping>,
    look_up: &LookUp,
    member: &Member,
    under: &Above,
) -> Result<Vec<Mapping>, NoMemory>
    requires rows { 0 < length rest.old.items }
    requires gives { IsLookUpOf evaluation.now.scope.variables.now
        (S.contents evaluation.now.source.now) look_up.now
        (λ d. element_solutions evaluation.now.scope.variables.now d graph.now (element member.now)) }
    requires counts { IsLookUpFor evaluation.now.scope.variables.now
        (S.contents evaluation.now.source.now) (element member.now)
        look_up.now (λ d. element_solutions evaluation.now.scope.variables.now d graph.now
        (element member.now)) }
    ensures fewer { IfOk result (λ _. length rest.new.items < length rest.old.items) }
    ensures begins { IfOk result (λ out. Begins evaluation.now.scope.variables.now
        (S.contents evaluation.now.source.now) graph.now
        under.now (element member.now) rest.old.items out.items rest.new.items) }
{
    let Some(row) = rest.pop_front() else {
        unreachable!()
    };
    if !is_shared(
        evaluation.scope.variables,
        &row,
        rest.front(),
        look_up,
        member,
    ) {
        return looked_up_alone(evaluation, graph, row, look_up, member, under);
    }
    let own = own_columns(evaluation.scope.alloc, evaluation.scope.variables, look_up)?;
    let key = row.masked(evaluation.scope.alloc, &own)?;
    let mut behind = served_rows(evaluation.scope.alloc, &key, &own, rest)?;
    let found = found_rows(evaluation, look_up, &key)?;
    let mut served = Vec::new(evaluation.scope.alloc);
    served.push(row)?;
    served.append(&mut behind)?;
    rows_one_by_one(&evaluation.scope, &served, &found, member, under)
}

// The quads of what is looked up once for all of the rows, where it is one triple pattern that has so few
// triples, whatever rows bind, that these are found faster than under each row.
fn found_once<S: Source>(
    evaluation: &Evaluation<S>,
    look_up: &LookUp,
    rows: &[Mapping],
) -> Result<Option<Vec<Quad>>, NoMemory>
    ensures { IfOk result (λ few. IfSome few (λ quads. AreFound evaluation.now.scope.variables.now
        (S.contents evaluation.now.source.now) look_up.now quads.items)) }
{
    let [places] = look_up.places.as_slice() else {
        return Ok(None);
    };
    match few_beside(look_ups_under(rows, places)) {
        Some(most) => few_found(evaluation, look_up, most),
        None => Ok(None),
    }
}

// The end of the triple pattern that alone the rows ask for, where what they make is found by it: no
// variable stands twice in the pattern.
fn asked_end(rows: &[Mapping], places: &Places, member: &Member, under: &Above) -> Option<bool>
    ensures asked { IfSome result (λ is_subject.
        list_all (asks_end is_subject places.now) rows.now ≡ true) }
    ensures under { IfSome result (λ _. binds_none under.now ≡ true) }
    ensures free { IfSome result (λ _. has_no_condition (element member.now) ≡ true) }
{
    let Some(first) = rows.first() else {
        return None;
    };
    if !under.is_unbound() || !has_no_condition(member) || !are_told_in(first, places) {
        return None;
    }
    if all_ask_end(true, places, rows) {
        return Some(true);
    }
    if all_ask_end(false, places, rows) {
        return Some(false);
    }
    None
}

// What a member makes of rows with the quads that are looked up once for all of them: each row finds its
// own by the end that it asks for, or they are joined by key.
fn rows_joined_once<S: Source>(
    evaluation: &Evaluation<S>,
    _graph: &GraphName,
    rows: Vec<Mapping>,
    quads: Vec<Quad>,
    look_up: &LookUp,
    member: &Member,
    under: &Above,
) -> Result<Vec<Mapping>, NoMemory>
    requires gives { IsLookUpOf evaluation.now.scope.variables.now
        (S.contents evaluation.now.source.now) look_up.now
        (λ d. element_solutions evaluation.now.scope.variables.now d _graph.now
        (element member.now)) }
    requires counts { IsLookUpFor evaluation.now.scope.variables.now
        (S.contents evaluation.now.source.now) (element member.now)
        look_up.now (λ d. element_solutions evaluation.now.scope.variables.now d _graph.now
        (element member.now)) }
    requires found { AreFound evaluation.now.scope.variables.now
        (S.contents evaluation.now.source.now) look_up.now quads.items }
    ensures { IfOk result (λ out. AreMade evaluation.now.scope.variables.now
        (S.contents evaluation.now.source.now) _graph.now under.now
        (element member.now) rows.items out.items) }
{
    if let Some(places) = lone_pattern(look_up) {
        if let Some(is_subject) = asked_end(&rows, places, member, under) {
            return rows_beside_quads(
                &evaluation.scope,
                rows,
                look_up,
                places,
                is_subject,
                &quads,
                member,
            );
        }
    }
    let all = rows_of_found(evaluation, look_up, quads)?;
    rows_moved_beside(&evaluation.scope, rows, &all, member, under)
}

/// What a member makes of rows by look-ups under each of them, or by one for all of them where it is
/// small by itself. The rows that are left where look-ups stop may be found faster without.
pub(crate) fn rows_looked_up<S: Source>(
    evaluation: &Evaluation<S>,
    graph: &GraphName,
    rows: Vec<Mapping>,
    look_up: &LookUp,
    member: &Member,
    under: &Above,
) -> Result<Begun, NoMemory>
    requires gives { IsLookUpOf evaluation.now.scope.variables.now
        (S.contents evaluation.now.source.now) look_up.now
        (λ d. element_solutions evaluation.now.scope.variables.now d graph.now (element member.now)) }
    requires counts { IsLookUpFor evaluation.now.scope.variables.now
        (S.contents evaluation.now.source.now) (element member.now)
        look_up.now (λ d. element_solutions evaluation.now.scope.variables.now d graph.now
        (element member.now)) }
    ensures { IfOk result (λ b. Begins evaluation.now.scope.variables.now
        (S.contents evaluation.now.source.now) graph.now under.now
        (element member.now) rows.items b.rows.items b.rest.items) }
{
    if let Some(quads) = found_once(evaluation, look_up, &rows)? {
        let once = rows_joined_once(evaluation, graph, rows, quads, look_up, member, under)?;
        return Ok(all_made(evaluation.scope.alloc, once));
    }
    let before = evaluation.looked.get();
    let tries_names = tries_names(look_up);
    let all = rows.len();
    let mut out = Vec::new(evaluation.scope.alloc);
    let mut rest = VecDeque::from_vec(rows);
    while !rest.is_empty() {
        let taken = evaluation.looked.get().saturating_sub(before);
        let done = all.saturating_sub(rest.len());
        if stops_looking(tries_names, member, taken, done, all, out.len()) {
            return Ok(begun_with(out, rest));
        }
        let mut made = first_looked_up(evaluation, graph, &mut rest, look_up, member, under)?;
        out.append(&mut made)?;
    }
    Ok(begun_with(out, rest))
}
