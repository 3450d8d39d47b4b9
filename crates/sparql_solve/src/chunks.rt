//! Whether members of a group make some solution of rows (SPARQL 1.1 Query, section 16.3). The
//! first rows are followed through all that comes behind before others are, then twice as many, and
//! so on: a solution takes what the rows before it take, and a member is found for few chunks. Of a
//! lone row's quads rows are made chunk by chunk, of a few of them before the others are looked up.
ghost use Rattle.std.specs.Prelude.{◌≡◌, ◌++◌, ◌∷◌, ◌<◌, ◌≤◌, ◌||◌, [], IfNone, IfOk, IfSome, IsTrue, length, map, true};
ghost use Rattle.std.specs.Option.{option_copied};
ghost use Rattle.std.specs.List.{flat_map, list_all};
ghost use Rattle.sparql_algebra.specs.Algebra.{element};
ghost use Rattle.sparql_algebra.specs.Listing.{Listing, Lists};
ghost use Rattle.sparql_algebra.specs.Results.{is_some_solution};
ghost use Rattle.sparql_solve.specs.Ask.{cut_under, followed, has_columns, looked_up_under};
ghost use Rattle.sparql_solve.specs.LookUps.{widened};
ghost use Rattle.sparql_solve.specs.Matching.{has_held, matches_of, matching};
ghost use Rattle.sparql_solve.specs.Under.{is_wide};

use crate::above::Above;
use crate::evaluation::{Evaluation, Scope};
use crate::evaluator::rows_after;
use crate::filters::some_satisfies;
use crate::look_ups::{Graphs, LookUp};
use crate::mappings::Mapping;
use crate::matching::{
    all_patterns, copied, copies_matched, cut_rows, few_quads_of, next_pattern, quads_of, step,
};
use crate::members::{is_joined, look_up_of_joined};
use crate::place::Places;
use crate::sides::compatible_rows;
use rdf_dataset::Source;
use rdf_terms::{GraphName, NoMemory, Quad};
use sparql_trees::{Expression, Member};
use std::alloc::Global;
use std::cell::Cell;
use std::collections::VecDeque;
use std::mem;

// How often rows are parted again while they are followed.
const LEVELS: usize = 64;

// How many quads of a lone row are followed before all of them are looked up.
const FEW: usize = 16;

/// A group that is asked for a solution in a graph, under a row and under its filters.
#[derive(Drop)]
pub(crate) struct Group<'a, S: Source> {
    pub(crate) evaluation: &'a Evaluation<'a, S>,
    pub(crate) graph: &'a GraphName,
    pub(crate) filters: &'a [Expression],
    pub(crate) under: &'a Above,
}

/// What comes behind rows that are followed.
#[derive(Clone, Copy)]
pub(crate) struct Behind<'a> {
    pub(crate) members: &'a [Member],
    /// For each level how many rows have room there.
    pub(crate) rooms: &'a [Cell<usize>],
}

/// For each level of followed rows how many have room there, first one.
pub(crate) fn first_rooms(alloc: Global) -> Result<Vec<Cell<usize>>, NoMemory> {
    let mut rooms = Vec::with_capacity(alloc, LEVELS)?;
    for _level in 0..LEVELS {
        rooms.push(Cell::new(1))?;
    }
    Ok(rooms)
}

// The only row, where not all that comes of it has to be followed at once.
fn lone_row<'r>(rows: &'r [Mapping], rooms: &[Cell<usize>]) -> Option<&'r Mapping>
    ensures lone { IfSome (option_copied result) (λ row. rows.now ≡ row ∷ []) }
    ensures room { IfSome result (λ _. 0 < length rooms.now) }
{
    if rooms.is_empty() {
        return None;
    }
    match rows {
        [row] => Some(row),
        _ => None,
    }
}

// How many of so many are the first: as many as have room, which is twice as large then.
fn first_len(len: usize, room: &Cell<usize>) -> usize
    requires { 0 < len }
    ensures some { 0 < result }
    ensures within { result ≤ len }
{
    let many = room.get().max(1);
    if len <= many {
        return len;
    }
    room.set(many.saturating_mul(2));
    many
}

// Takes away the first rows where not all of them have room, which is twice as large then.
fn first_rows(rows: &mut Vec<Mapping>, room: &Cell<usize>) -> Result<Option<Vec<Mapping>>, NoMemory>
    ensures some { IfOk result (λ taken. IfSome taken (λ first.
        rows.old.items ≡ first.items ++ rows.new.items)) }
    ensures fewer { IfOk result (λ taken. IfSome taken (λ _.
        length rows.new.items < length rows.old.items)) }
    ensures none { IfOk result (λ taken. IfNone taken (rows.new.items ≡ rows.old.items)) }
{
    let many = room.get().max(1);
    if rows.len() <= many {
        return Ok(None);
    }
    room.set(many.saturating_mul(2));
    let rest = rows.split_off(many)?;
    Ok(Some(mem::replace(rows, rest)))
}

// The rows with so many columns more, which have nothing.
fn widened_rows(alloc: Global, rows: &[Mapping], hidden: u64) -> Result<Vec<Mapping>, NoMemory>
    ensures { IfOk result (λ out. out.items ≡ map (widened hidden) rows.now) }
{
    let mut out = Vec::with_capacity(alloc, rows.len())?;
    for row in rows {
        out.push(row.widened(alloc, hidden)?)?;
    }
    Ok(out)
}

// The columns of the variables of each row, where they are compatible with the row above.
fn cut_compatible(
    scope: &Scope,
    rows: Vec<Mapping>,
    under: &Above,
) -> Result<Vec<Mapping>, NoMemory>
    ensures { IfOk result (λ out. out.items
        ≡ cut_under scope.now.variables.now under.now rows.items) }
{
    let cut = cut_rows(scope.alloc, rows, scope.variables.len())?;
    compatible_rows(scope.alloc, under, cut)
}

/// Whether the members make of these rows one of which the filters are true.
#[cycle(ask)]
pub(crate) fn some_after<S: Source>(
    group: &Group<S>,
    mut rows: Vec<Mapping>,
    behind: Behind,
) -> Result<bool, NoMemory>
    ensures { IfOk result (λ answer.
        let vs = group.now.evaluation.now.scope.variables.now in
        let s = S.contents group.now.evaluation.now.source.now in let a = group.now.under.now in
        (d : Listing) → Lists s d → length a ≡ length vs →
        list_all (is_wide vs) rows.items ≡ true →
        answer ≡ is_some_solution (followed vs d group.now.graph.now a
        (map element behind.entry.members.now) group.now.filters.now rows.items)) }
{
    let members = behind.members;
    for place in 0..members.len() {
        let member = &members[place];
        let rest = &members[place + 1..];
        if !behind.rooms.is_empty() && is_joined(member) {
            let look_up = look_up_of_joined(group.evaluation, group.graph, member)?;
            if let Some(look_up) = look_up {
                if let Graphs::One(own) = &look_up.graphs {
                    let rooms = &behind.rooms[1..];
                    let deeper = Behind {
                        members: rest,
                        rooms,
                    };
                    return some_looked_up(group, own, &look_up, &rows, deeper);
                }
            }
        }
        rows = rows_after(group.evaluation, group.graph, rows, member, group.under)?;
        let after = Behind {
            members: rest,
            rooms: behind.rooms,
        };
        if some_of_first(group, &mut rows, after)? {
            return Ok(true);
        }
    }
    some_satisfies(&group.evaluation.scope, &rows, group.filters)
}

// Whether the members make of the first rows one of which the filters are true; the rows that are
// left where they don't.
#[cycle(ask)]
fn some_of_first<S: Source>(
    group: &Group<S>,
    rows: &mut Vec<Mapping>,
    behind: Behind,
) -> Result<bool, NoMemory>
    ensures some { IfOk result (λ answer.
        let vs = group.now.evaluation.now.scope.variables.now in
        let s = S.contents group.now.evaluation.now.source.now in let a = group.now.under.now in
        (d : Listing) → Lists s d → length a ≡ length vs →
        list_all (is_wide vs) rows.old.items ≡ true →
        (answer || is_some_solution (followed vs d group.now.graph.now a
        (map element behind.entry.members.now) group.now.filters.now rows.new.items))
        ≡ is_some_solution (followed vs d group.now.graph.now a
        (map element behind.entry.members.now) group.now.filters.now rows.old.items)) }
    ensures wide { IfOk result (λ _. let vs = group.now.evaluation.now.scope.variables.now in
        list_all (is_wide vs) rows.old.items ≡ true → list_all (is_wide vs) rows.new.items ≡ true) }
{
    let Some((room, rooms)) = behind.rooms.split_first() else {
        return Ok(false);
    };
    let members = behind.members;
    while let Some(first) = first_rows(rows, room)? {
        if some_after(group, first, Behind { members, rooms })? {
            return Ok(true);
        }
    }
    Ok(false)
}

// Whether the members make one of which the filters are true of what is looked up under the rows in
// a graph.
#[cycle(ask)]
fn some_looked_up<S: Source>(
    group: &Group<S>,
    own: &GraphName,
    look_up: &LookUp,
    rows: &[Mapping],
    behind: Behind,
) -> Result<bool, NoMemory>
    ensures { IfOk result (λ answer.
        let vs = group.now.evaluation.now.scope.variables.now in
        let s = S.contents group.now.evaluation.now.source.now in let a = group.now.under.now in
        (d : Listing) → Lists s d → length a ≡ length vs →
        list_all (is_wide vs) rows.now ≡ true →
        answer ≡ is_some_solution (followed vs d group.now.graph.now a
        (map element behind.entry.members.now) group.now.filters.now
        (flat_map (looked_up_under d look_up.now own.now a) rows.now))) }
{
    let start = widened_rows(group.evaluation.scope.alloc, rows, look_up.hidden)?;
    let patterns = all_patterns(group.evaluation.scope.alloc, look_up.places.as_slice())?;
    some_matched(group, own, start, patterns, behind)
}

// Whether the members make one of which the filters are true of what grows in a graph from the rows
// of all columns.
#[cycle(ask)]
fn some_matched<S: Source>(
    group: &Group<S>,
    own: &GraphName,
    start: Vec<Mapping>,
    patterns: VecDeque<&Places>,
    behind: Behind,
) -> Result<bool, NoMemory>
    ensures { IfOk result (λ answer.
        let vs = group.now.evaluation.now.scope.variables.now in
        let s = S.contents group.now.evaluation.now.source.now in let a = group.now.under.now in
        (d : Listing) → Lists s d → length a ≡ length vs →
        list_all (has_columns vs) start.items ≡ true →
        answer ≡ is_some_solution (followed vs d group.now.graph.now a
        (map element behind.entry.members.now) group.now.filters.now (cut_under vs a
        (matching (d.quads own.now) (map (λ r. r.now) patterns.entry.items) start.items)))) }
{
    let mut rows = start;
    let mut rest = patterns;
    while !rest.is_empty() {
        let next = next_pattern(&rest, &rows);
        let Some(places) = rest.remove(next) else {
            unreachable!()
        };
        if let Some(row) = lone_row(&rows, behind.rooms) {
            return some_of_lone(group, own, row, places, &rest, behind);
        }
        rows = step(
            group.evaluation.scope.alloc,
            own,
            group.evaluation.source,
            places,
            rows,
        )?;
        if some_of_first_matched(group, own, &mut rows, &rest, behind)? {
            return Ok(true);
        }
    }
    let rows = cut_compatible(&group.evaluation.scope, rows, group.under)?;
    some_after(group, rows, behind)
}

// Whether the members make one of which the filters are true of what grows from the first rows; the
// rows that are left where they don't.
#[cycle(ask)]
fn some_of_first_matched<S: Source>(
    group: &Group<S>,
    own: &GraphName,
    rows: &mut Vec<Mapping>,
    patterns: &VecDeque<&Places>,
    behind: Behind,
) -> Result<bool, NoMemory>
    ensures some { IfOk result (λ answer.
        let vs = group.now.evaluation.now.scope.variables.now in
        let s = S.contents group.now.evaluation.now.source.now in let a = group.now.under.now in
        (d : Listing) → Lists s d → length a ≡ length vs →
        list_all (has_columns vs) rows.old.items ≡ true →
        (answer || is_some_solution (followed vs d group.now.graph.now a
        (map element behind.entry.members.now) group.now.filters.now (cut_under vs a
        (matching (d.quads own.now) (map (λ r. r.now) patterns.now.items) rows.new.items))))
        ≡ is_some_solution (followed vs d group.now.graph.now a
        (map element behind.entry.members.now) group.now.filters.now (cut_under vs a
        (matching (d.quads own.now) (map (λ r. r.now) patterns.now.items) rows.old.items)))) }
    ensures wide { IfOk result (λ _. let vs = group.now.evaluation.now.scope.variables.now in
        list_all (has_columns vs) rows.old.items ≡ true →
        list_all (has_columns vs) rows.new.items ≡ true) }
{
    let Some((room, rooms)) = behind.rooms.split_first() else {
        return Ok(false);
    };
    let members = behind.members;
    while let Some(first) = first_rows(rows, room)? {
        let patterns = copied(group.evaluation.scope.alloc, patterns)?;
        if some_matched(group, own, first, patterns, Behind { members, rooms })? {
            return Ok(true);
        }
    }
    Ok(false)
}

// Whether the members make one of which the filters are true of what grows from a row, a triple
// pattern being looked up first and these behind it: of a few of its quads, then of all.
#[cycle(ask)]
fn some_of_lone<S: Source>(
    group: &Group<S>,
    own: &GraphName,
    row: &Mapping,
    places: &Places,
    patterns: &VecDeque<&Places>,
    behind: Behind,
) -> Result<bool, NoMemory>
    requires { 0 < length behind.rooms.now }
    ensures { IfOk result (λ answer.
        let vs = group.now.evaluation.now.scope.variables.now in
        let s = S.contents group.now.evaluation.now.source.now in let a = group.now.under.now in
        (d : Listing) → Lists s d → length a ≡ length vs →
        has_columns vs row.now ≡ true →
        answer ≡ is_some_solution (followed vs d group.now.graph.now a
        (map element behind.entry.members.now) group.now.filters.now (cut_under vs a
        (matching (d.quads own.now) (map (λ r. r.now) patterns.now.items)
        (matches_of (d.quads own.now) places.now row.now))))) }
{
    let alloc = group.evaluation.scope.alloc;
    let source = group.evaluation.source;
    let few = few_quads_of(alloc, own, source, places, row, FEW)?;
    if some_of_quads(group, own, row, places, &few.quads, patterns, behind)? {
        return Ok(true);
    }
    if few.are_all {
        return Ok(false);
    }
    let quads = quads_of(alloc, own, source, places, row)?;
    some_of_quads(group, own, row, places, &quads, patterns, behind)
}

// Whether the members make one of which the filters are true of what grows from a row by these quads,
// which were looked up under it, and by the triple patterns behind them.
#[cycle(ask)]
fn some_of_quads<S: Source>(
    group: &Group<S>,
    own: &GraphName,
    row: &Mapping,
    places: &Places,
    quads: &[Quad],
    patterns: &VecDeque<&Places>,
    behind: Behind,
) -> Result<bool, NoMemory>
    requires room { 0 < length behind.rooms.now }
    requires held { IsTrue (list_all (has_held places.now row.now) quads.now) }
    ensures { IfOk result (λ answer.
        let vs = group.now.evaluation.now.scope.variables.now in
        let s = S.contents group.now.evaluation.now.source.now in let a = group.now.under.now in
        (d : Listing) → Lists s d → length a ≡ length vs →
        has_columns vs row.now ≡ true →
        answer ≡ is_some_solution (followed vs d group.now.graph.now a
        (map element behind.entry.members.now) group.now.filters.now (cut_under vs a
        (matching (d.quads own.now) (map (λ r. r.now) patterns.now.items)
        (matches_of quads.now places.now row.now))))) }
{
    let mut done = 0;
    while done < quads.len() {
        let rest = &quads[done..];
        let len = first_len(rest.len(), &behind.rooms[0]);
        let deeper = Behind {
            members: behind.members,
            rooms: &behind.rooms[1..],
        };
        let rows = copies_matched(group.evaluation.scope.alloc, row, places, &rest[..len])?;
        let patterns = copied(group.evaluation.scope.alloc, patterns)?;
        if some_matched(group, own, rows, patterns, deeper)? {
            return Ok(true);
        }
        done += len;
    }
    Ok(false)
}
