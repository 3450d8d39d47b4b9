//! Basic graph patterns: the rows under which every instance lies in the graph
//! (SPARQL 1.1 Query, section 18.3.1), by look-ups.
ghost use Rattle.std.specs.Prelude.{◌≡◌, ◌++◌, ◌<◌, [], IfOk, IsTrue, None, OnOk, Some, cond, length, map, take};
ghost use Rattle.std.specs.List.{list_all};
ghost use Rattle.rdf_dataset.specs.Sorted.{ListsOnce};
ghost use Rattle.rdf_dataset.specs.State.{AppendsSome};
ghost use Rattle.sparql_algebra.specs.Listing.{Listing, Lists};
ghost use Rattle.sparql_algebra.specs.Results.{is_some_solution};
ghost use Rattle.sparql_solve.specs.Matching.{AsksSame, has_held, matched, matches_of, stepped, matching, quads_under};
ghost use Rattle.sparql_solve.specs.Members.{AreSolutions};

use crate::grown::{append_last, copies_grown, row_grown};
use crate::mappings::Mapping;
use crate::place::{Place, Places};
use rdf_dataset::Source;
use rdf_terms::{GraphName, NoMemory, Quad};
use std::alloc::Global;
use std::collections::VecDeque;

// Among how many triple patterns one is looked for that is linked to what is bound.
const FEW: usize = 64;

/// Binds in the row what the triple binds, which was looked up under it, and answers whether it fits;
/// a variable that stands twice may still want two terms.
pub(crate) fn matches_row(
    alloc: Global,
    row: &mut Mapping,
    places: &Places,
    quad: &Quad,
) -> Result<bool, NoMemory>
    requires { IsTrue (has_held places.now row.old quad.now) }
    ensures { IfOk result (λ fits.
        matched places.now row.old quad.now ≡ cond fits (Some row.new) None) }
{
    let has_predicate = row.has(&places.predicate);
    let has_subject = row.has(&places.subject);
    let has_object = row.has(&places.object);
    if !row.take(alloc, &places.predicate, quad.predicate(), has_predicate)? {
        return Ok(false);
    }
    if !row.take(alloc, &places.subject, quad.subject(), has_subject)? {
        return Ok(false);
    }
    row.take(alloc, &places.object, quad.object(), has_object)
}

// Appends the rows that the triples make of copies of a row under which they were looked up.
fn append_copies(
    alloc: Global,
    row: &Mapping,
    places: &Places,
    quads: &[Quad],
    out: &mut Vec<Mapping>,
) -> Result<(), NoMemory>
    requires { IsTrue (list_all (has_held places.now row.now) quads.now) }
    ensures { OnOk result (out.new.items
        ≡ out.old.items ++ matches_of quads.now places.now row.now) }
{
    for quad in quads {
        let mut found = row.copy(alloc)?;
        if matches_row(alloc, &mut found, places, quad)? {
            out.push(found)?;
        }
    }
    Ok(())
}

/// The rows that triples make of copies of a row under which they were looked up.
pub(crate) fn copies_matched(
    alloc: Global,
    row: &Mapping,
    places: &Places,
    quads: &[Quad],
) -> Result<Vec<Mapping>, NoMemory>
    requires { IsTrue (list_all (has_held places.now row.now) quads.now) }
    ensures { IfOk result (λ out. out.items ≡ matches_of quads.now places.now row.now) }
{
    let mut out = Vec::new(alloc);
    append_copies(alloc, row, places, quads, &mut out)?;
    Ok(out)
}

// Appends the rows that the triples make of a row under which they were looked up: the last one of
// the row itself.
fn append_matches(
    alloc: Global,
    mut row: Mapping,
    places: &Places,
    quads: &[Quad],
    out: &mut Vec<Mapping>,
) -> Result<(), NoMemory>
    requires { IsTrue (list_all (has_held places.now row) quads.now) }
    ensures { OnOk result (out.new.items
        ≡ out.old.items ++ matches_of quads.now places.now row) }
{
    let Some((last, others)) = quads.split_last() else {
        return Ok(());
    };
    append_copies(alloc, &row, places, others, out)?;
    if matches_row(alloc, &mut row, places, last)? {
        out.push(row)?;
    }
    Ok(())
}

/// Whether the rows have the same at the places.
pub(crate) fn asks_same(row: &Mapping, other: &Mapping, places: &Places) -> bool
    ensures { IsTrue result → AsksSame places.now row.now other.now }
{
    row.holds_same(other, &places.subject)
        && row.holds_same(other, &places.predicate)
        && row.holds_same(other, &places.object)
}

// The quads of the graph that have the terms which the row has at the places.
#[inline(always)]
fn quads_under<S: Source>(
    graph: &GraphName,
    source: &S,
    places: &Places,
    row: &Mapping,
    quads: &mut Vec<Quad>,
) -> Result<(), NoMemory>
    ensures { OnOk result (ListsOnce (quads_under (S.contents source.now) graph.now
        places.now row.now) quads.new.items) }
{
    quads.clear();
    source.matches(
        graph,
        row.held(&places.subject),
        row.held(&places.predicate),
        row.held(&places.object),
        quads,
    )?;
    Ok(())
}

/// The quads of the graph that are looked up under the row: those that have the terms which it has
/// at the places.
pub(crate) fn quads_of<S: Source>(
    alloc: Global,
    graph: &GraphName,
    source: &S,
    places: &Places,
    row: &Mapping,
) -> Result<Vec<Quad>, NoMemory>
    ensures listed { IfOk result (λ quads. ListsOnce (quads_under (S.contents source.now) graph.now
        places.now row.now) quads.items) }
    ensures held { IfOk result (λ quads.
        IsTrue (list_all (has_held places.now row.now) quads.items)) }
{
    let mut quads = Vec::new(alloc);
    quads_under(graph, source, places, row, &mut quads)?;
    Ok(quads)
}

/// Some of the quads that are looked up under a row.
#[derive(Drop)]
pub(crate) struct FewQuads {
    pub(crate) quads: Vec<Quad>,
    /// Whether these are all.
    pub(crate) are_all: bool,
}

/// Some of the quads that [`quads_of`] answers, or all: so many are enough.
pub(crate) fn few_quads_of<S: Source>(
    alloc: Global,
    graph: &GraphName,
    source: &S,
    places: &Places,
    row: &Mapping,
    most: usize,
) -> Result<FewQuads, NoMemory>
    ensures some { IfOk result (λ few. AppendsSome (quads_under (S.contents source.now) graph.now
        places.now row.now) few.are_all [] few.quads.items) }
    ensures held { IfOk result (λ few.
        IsTrue (list_all (has_held places.now row.now) few.quads.items)) }
{
    let subject = row.held(&places.subject);
    let predicate = row.held(&places.predicate);
    let object = row.held(&places.object);
    let mut quads = Vec::new(alloc);
    let are_all = source.some_matches(graph, subject, predicate, object, most, &mut quads)?;
    Ok(FewQuads { quads, are_all })
}

/// The rows that one triple pattern makes of a row, by a look-up of its triples.
pub(crate) fn rows_of_one<S: Source>(
    alloc: Global,
    graph: &GraphName,
    source: &S,
    places: &Places,
    row: &Mapping,
) -> Result<Vec<Mapping>, NoMemory>
    ensures { IfOk result (λ out. AreSolutions (S.contents source.now) out.items
        (λ d. matches_of (d.quads graph.now) places.now row.now)) }
{
    let quads = quads_of(alloc, graph, source, places, row)?;
    copies_grown(alloc, row, places, quads)
}

/// The rows that one triple pattern makes of a row, by a look-up of its triples: the last one of the
/// row itself.
pub(crate) fn moved_of_one<S: Source>(
    alloc: Global,
    graph: &GraphName,
    source: &S,
    places: &Places,
    row: Mapping,
) -> Result<Vec<Mapping>, NoMemory>
    ensures { IfOk result (λ out. AreSolutions (S.contents source.now) out.items
        (λ d. matches_of (d.quads graph.now) places.now row)) }
{
    let found = quads_of(alloc, graph, source, places, &row)?;
    row_grown(alloc, row, places, found)
}

/// Some of the rows that one triple pattern makes of a row, one at least where there are any: a quad
/// may be enough.
pub(crate) fn some_of_one<S: Source>(
    alloc: Global,
    graph: &GraphName,
    source: &S,
    places: &Places,
    row: &Mapping,
) -> Result<Vec<Mapping>, NoMemory>
    ensures { IfOk result (λ out. (d : Listing) → Lists (S.contents source.now) d →
        is_some_solution out.items
        ≡ is_some_solution (matches_of (d.quads graph.now) places.now row.now)) }
{
    let few = few_quads_of(alloc, graph, source, places, row, 1)?;
    let rows = copies_matched(alloc, row, places, &few.quads)?;
    if few.are_all {
        return Ok(rows);
    }
    if rows.is_empty() {
        return rows_of_one(alloc, graph, source, places, row);
    }
    Ok(rows)
}

/// The rows that one triple pattern makes of these, by look-ups of its triples. Rows that ask the
/// same one after another share a look-up, and the terms of its triples move into the last of them.
pub(crate) fn step<S: Source>(
    alloc: Global,
    graph: &GraphName,
    source: &S,
    places: &Places,
    rows: Vec<Mapping>,
) -> Result<Vec<Mapping>, NoMemory>
    ensures { IfOk result (λ out. AreSolutions (S.contents source.now) out.items
        (λ d. stepped (d.quads graph.now) rows.items places.now)) }
{
    let mut out = Vec::new(alloc);
    let mut rest = rows.into_iter();
    let Some(mut row) = rest.next() else {
        return Ok(out);
    };
    let mut quads = Vec::new(alloc);
    quads_under(graph, source, places, &row, &mut quads)?;
    for next in rest {
        if asks_same(&row, &next, places) {
            append_matches(alloc, row, places, &quads, &mut out)?;
        } else {
            append_last(alloc, row, places, &mut quads, &mut out)?;
            quads_under(graph, source, places, &next, &mut quads)?;
        }
        row = next;
    }
    append_last(alloc, row, places, &mut quads, &mut out)?;
    Ok(out)
}

// Whether the row binds a variable of the triple pattern, or there is none in it.
fn is_linked(row: &Mapping, places: &Places) -> bool {
    let mut is_ground = true;
    for place in [&places.subject, &places.predicate, &places.object] {
        if let Place::Column(_) = place {
            if row.has(place) {
                return true;
            }
            is_ground = false;
        }
    }
    is_ground
}

/// The place of the triple pattern that is looked up next under the rows: of the first few, the
/// first that is linked to what the first row binds; where none is, the first. Nothing but time
/// rests on it.
pub(crate) fn next_pattern(rest: &VecDeque<&Places>, rows: &[Mapping]) -> usize
    ensures { 0 < length rest.now.items → result < length rest.now.items }
{
    let Some(row) = rows.first() else {
        return 0;
    };
    for place in 0..rest.len().min(FEW) {
        if is_linked(row, rest[place]) {
            return place;
        }
    }
    0
}

/// References to the triple patterns.
pub(crate) fn all_patterns<'p>(
    alloc: Global,
    patterns: &'p [Places],
) -> Result<VecDeque<&'p Places>, NoMemory>
    ensures { IfOk result (λ all. map (λ r. r.now) all.items ≡ patterns.now) }
{
    let all: Vec<&Places> = patterns.iter().collect(alloc)?;
    Ok(VecDeque::from_vec(all))
}

/// The same references once more.
pub(crate) fn copied<'p>(
    alloc: Global,
    patterns: &VecDeque<&'p Places>,
) -> Result<VecDeque<&'p Places>, NoMemory>
    ensures { IfOk result (λ all. all.items ≡ patterns.now.items) }
{
    let mut all = VecDeque::new(alloc);
    for place in 0..patterns.len() {
        all.push_back(patterns[place])?;
    }
    Ok(all)
}

/// The rows of all columns that grow from these, one triple pattern after another, each looked up
/// under each row so far: in the order in which they are written, but that one none of whose
/// variables is bound so far waits while there is one that has a bound variable.
pub(crate) fn matching_rows<S: Source>(
    alloc: Global,
    graph: &GraphName,
    source: &S,
    patterns: &[Places],
    start: Vec<Mapping>,
) -> Result<Vec<Mapping>, NoMemory>
    ensures { IfOk result (λ out. AreSolutions (S.contents source.now) out.items
        (λ d. matching (d.quads graph.now) patterns.now start.items)) }
{
    let mut rows = start;
    let mut rest = all_patterns(alloc, patterns)?;
    while !rest.is_empty() {
        let next = next_pattern(&rest, &rows);
        let Some(places) = rest.remove(next) else {
            unreachable!()
        };
        rows = step(alloc, graph, source, places, rows)?;
    }
    Ok(rows)
}

/// The first columns of each row.
pub(crate) fn cut_rows(
    alloc: Global,
    rows: Vec<Mapping>,
    columns: usize,
) -> Result<Vec<Mapping>, NoMemory>
    ensures { IfOk result (λ out. out.items ≡ map (take columns) rows.items) }
{
    let mut out = Vec::with_capacity(alloc, rows.len())?;
    for row in rows {
        out.push(row.cut(alloc, columns)?)?;
    }
    Ok(out)
}
