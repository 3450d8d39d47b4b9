//! The triples of a pattern that were found once for many rows, in bins: by the term at the one end, the
//! subject or the object, that rows have. What a row makes is found in its bin, as by a look-up.
ghost use Rattle.std.specs.Prelude.{◌≡◌, ◌++◌, [], IfOk, IsTrue, OnOk, cond, filter, map, true};
ghost use Rattle.std.specs.List.{flat_map, list_all};
ghost use Rattle.rdf_terms.specs.declared.term.Term.{Term};
ghost use Rattle.sparql_algebra.specs.Algebra.{element};
ghost use Rattle.sparql_algebra.specs.Results.{is_some_solution};
ghost use Rattle.sparql_algebra.specs.Solutions.{or_alone};
ghost use Rattle.sparql_values.specs.Mapping.{same_term};
ghost use Rattle.sparql_solve.specs.TermBins.{in_bin};
ghost use Rattle.sparql_solve.specs.Matching.{has_held, matches_of};
ghost use Rattle.sparql_solve.specs.Partners.{asks_end, beside, end_of, end_term, free_at, has_no_condition};
ghost use Rattle.sparql_solve.specs.Under.{binds_none, kept, masked, own_columns, where_none};

use crate::basic::is_unbound_in;
use crate::evaluation::Scope;
use crate::grown::are_told_in;
use crate::look_ups::LookUp;
use crate::mappings::Mapping;
use crate::matching::matches_row;
use crate::members::{is_joined, is_removed};
use crate::place::{Place, Places};
use crate::term_bins::{TermBins, put};
use rdf_terms::{NoMemory, Quad, Term, TermTable};
use sparql_trees::Member;
use std::alloc::Global;

/// The place of the subject or of the object.
pub(crate) fn end_of(places: &Places, is_subject: bool) -> &Place
    ensures { result.now ≡ end_of is_subject places.now }
{
    if is_subject {
        return &places.subject;
    }
    &places.object
}

/// The term of the subject or of the object.
pub(crate) fn end_term(quad: &Quad, is_subject: bool) -> &Term
    ensures { result.now ≡ end_term is_subject quad.now }
{
    if is_subject {
        return quad.subject();
    }
    quad.object()
}

// Whether the place has nothing in the row but a term of its own.
fn is_free_at(place: &Place, row: &Mapping) -> bool
    ensures { result ≡ free_at place.now row.now }
{
    match place {
        Place::Column(_) => !row.has(place),
        Place::Fixed(_) | Place::Nowhere => true,
    }
}

// Whether the row has nothing at the places but terms of their own, the one end aside.
fn asks_end(is_subject: bool, places: &Places, row: &Mapping) -> bool
    ensures { result ≡ asks_end is_subject places.now row.now }
{
    is_free_at(&places.predicate, row) && is_free_at(end_of(places, !is_subject), row)
}

/// Whether each of the rows asks for nothing but the one end.
pub(crate) fn all_ask_end(is_subject: bool, places: &Places, rows: &[Mapping]) -> bool
    ensures { result ≡ list_all (asks_end is_subject places.now) rows.now }
{
    rows.iter().all(|row| asks_end(is_subject, places, row))
}

/// Quads by their term at an end.
#[derive(Drop)]
pub(crate) struct QuadBins<'q> {
    pub(crate) is_subject: bool,
    /// All of them.
    pub(crate) all: Vec<&'q Quad>,
    pub(crate) bins: TermBins<'q, Quad>,
    ghost parted: { (t : Term) → in_bin bins t
        ≡ filter (λ q. same_term t (end_term is_subject q)) (map (λ q. q.now) all.items) },
}

/// The quads in bins, in each of them in the order in which they came.
pub(crate) fn quad_bins<'q>(
    alloc: Global,
    quads: &'q [Quad],
    is_subject: bool,
) -> Result<QuadBins<'q>, NoMemory>
    ensures end { IfOk result (λ b. b.is_subject ≡ is_subject) }
    ensures all { IfOk result (λ b. map (λ q. q.now) b.all.items ≡ quads.now) }
{
    let mut terms = TermTable::new(alloc);
    let mut bins = Vec::new(alloc);
    for quad in quads {
        put(
            alloc,
            &mut terms,
            &mut bins,
            end_term(quad, is_subject),
            quad,
        )?;
    }
    let all = quads.iter().collect(alloc)?;
    Ok(QuadBins {
        is_subject,
        all,
        bins: TermBins::over(alloc, terms, bins),
    })
}

impl<'q> QuadBins<'q> {
    // The quads that a row asks for: all, where it has nothing at the end.
    fn partners(&self, places: &Places, row: &Mapping) -> &[&'q Quad]
        requires asks { asks_end self.now.is_subject places.now row.now ≡ true }
        requires found { list_all (has_held places.now [])
            (map (λ q. q.now) self.now.all.items) ≡ true }
        ensures held { IsTrue (list_all (has_held places.now row.now)
            (map (λ q. q.now) result.now)) }
        ensures same { matches_of (map (λ q. q.now) result.now) places.now row.now
            ≡ matches_of (map (λ q. q.now) self.now.all.items) places.now row.now }
    {
        match row.held(end_of(places, self.is_subject)) {
            Some(term) => self.bins.bin(term),
            None => self.all.as_slice(),
        }
    }
}

// Appends the rows that quads make of copies of a row under which they were looked up.
fn append_copies(
    alloc: Global,
    row: &Mapping,
    places: &Places,
    quads: &[&Quad],
    out: &mut Vec<Mapping>,
) -> Result<(), NoMemory>
    requires { IsTrue (list_all (has_held places.now row.now) (map (λ q. q.now) quads.now)) }
    ensures { OnOk result (out.new.items ≡ out.old.items
        ++ matches_of (map (λ q. q.now) quads.now) places.now row.now) }
{
    for quad in quads {
        let mut found = row.copy(alloc)?;
        if matches_row(alloc, &mut found, places, quad)? {
            out.push(found)?;
        }
    }
    Ok(())
}

// Appends the rows that quads make of a row under which they were looked up: the last one of the row
// itself.
fn append_moved(
    alloc: Global,
    mut row: Mapping,
    places: &Places,
    quads: &[&Quad],
    out: &mut Vec<Mapping>,
) -> Result<(), NoMemory>
    requires { IsTrue (list_all (has_held places.now row) (map (λ q. q.now) quads.now)) }
    ensures { OnOk result (out.new.items ≡ out.old.items
        ++ matches_of (map (λ q. q.now) quads.now) places.now row) }
{
    let Some((last, others)) = quads.split_last() else {
        return Ok(());
    };
    append_copies(alloc, &row, places, others, out)?;
    if matches_row(alloc, &mut row, places, last)? {
        out.push(row)?;
    }
    Ok(())
}

// The same, and the row itself where the quads make none.
fn append_optional(
    alloc: Global,
    row: Mapping,
    places: &Places,
    quads: &[&Quad],
    out: &mut Vec<Mapping>,
) -> Result<(), NoMemory>
    requires { IsTrue (list_all (has_held places.now row) (map (λ q. q.now) quads.now)) }
    ensures { OnOk result (out.new.items ≡ out.old.items
        ++ or_alone row (matches_of (map (λ q. q.now) quads.now) places.now row)) }
{
    if quads.is_empty() {
        out.push(row)?;
        return Ok(());
    }
    if are_told_in(&row, places) {
        return append_moved(alloc, row, places, quads, out);
    }
    let before = out.len();
    append_copies(alloc, &row, places, quads, out)?;
    if out.len() != before {
        return Ok(());
    }
    out.push(row)?;
    Ok(())
}

// Whether one of the quads makes a row of a row under which they were looked up.
fn has_match(
    alloc: Global,
    row: &Mapping,
    places: &Places,
    quads: &[&Quad],
) -> Result<bool, NoMemory>
    requires { IsTrue (list_all (has_held places.now row.now) (map (λ q. q.now) quads.now)) }
    ensures { IfOk result (λ answer. answer ≡ is_some_solution
        (matches_of (map (λ q. q.now) quads.now) places.now row.now)) }
{
    if quads.is_empty() {
        return Ok(false);
    }
    if are_told_in(row, places) {
        return Ok(true);
    }
    let mut found = Vec::new(alloc);
    append_copies(alloc, row, places, quads, &mut found)?;
    Ok(!found.is_empty())
}

// Appends the row where none of the quads takes it away.
fn append_left(
    scope: &Scope,
    row: Mapping,
    look_up: &LookUp,
    places: &Places,
    bins: &QuadBins<'_>,
    out: &mut Vec<Mapping>,
) -> Result<(), NoMemory>
    requires asks { asks_end bins.now.is_subject places.now row ≡ true }
    requires found { list_all (has_held places.now [])
        (map (λ q. q.now) bins.now.all.items) ≡ true }
    ensures { OnOk result (out.new.items ≡ out.old.items ++ where_none row
        (cond (binds_none (masked (own_columns scope.now.variables.now look_up.now) row)) []
        (matches_of (map (λ q. q.now) bins.now.all.items) places.now row))) }
{
    if is_unbound_in(scope.variables, look_up, &row) {
        out.push(row)?;
        return Ok(());
    }
    let quads = bins.partners(places, &row);
    if has_match(scope.alloc, &row, places, quads)? {
        return Ok(());
    }
    out.push(row)?;
    Ok(())
}

// Appends what a member without a condition makes of a row, which is moved on, with the quads.
fn append_beside(
    scope: &Scope,
    row: Mapping,
    look_up: &LookUp,
    places: &Places,
    bins: &QuadBins<'_>,
    member: &Member,
    out: &mut Vec<Mapping>,
) -> Result<(), NoMemory>
    requires free { has_no_condition (element member.now) ≡ true }
    requires asks { asks_end bins.now.is_subject places.now row ≡ true }
    requires found { list_all (has_held places.now [])
        (map (λ q. q.now) bins.now.all.items) ≡ true }
    ensures { OnOk result (out.new.items ≡ out.old.items
        ++ kept scope.now.variables.now (element member.now) row
        (beside scope.now.variables.now look_up.now places.now
        (map (λ q. q.now) bins.now.all.items) (element member.now) row)) }
{
    if is_removed(member) {
        return append_left(scope, row, look_up, places, bins, out);
    }
    let quads = bins.partners(places, &row);
    if is_joined(member) {
        return append_moved(scope.alloc, row, places, quads, out);
    }
    append_optional(scope.alloc, row, places, quads, out)
}

/// Whether the member makes of a row all of its merges, without a condition.
pub(crate) fn has_no_condition(member: &Member) -> bool
    ensures { IsTrue result → has_no_condition (element member.now) ≡ true }
{
    match member {
        Member::Optional(pattern) => pattern.filters.is_empty(),
        Member::Basic(_) | Member::Union(_) | Member::Graph(_, _) | Member::Minus(_) => true,
    }
}

/// What a member without a condition makes of rows that ask for one end, with all quads that its
/// triple pattern has.
pub(crate) fn rows_beside_quads(
    scope: &Scope,
    rows: Vec<Mapping>,
    look_up: &LookUp,
    places: &Places,
    is_subject: bool,
    quads: &[Quad],
    member: &Member,
) -> Result<Vec<Mapping>, NoMemory>
    requires free { has_no_condition (element member.now) ≡ true }
    requires asks { list_all (asks_end is_subject places.now) rows.items ≡ true }
    requires found { list_all (has_held places.now []) quads.now ≡ true }
    ensures { IfOk result (λ out. out.items ≡ flat_map (λ x.
        kept scope.now.variables.now (element member.now) x
        (beside scope.now.variables.now look_up.now places.now quads.now
        (element member.now) x)) rows.items) }
{
    let bins = quad_bins(scope.alloc, quads, is_subject)?;
    let mut out = Vec::with_capacity(scope.alloc, rows.len())?;
    for row in rows {
        append_beside(scope, row, look_up, places, &bins, member, &mut out)?;
    }
    Ok(out)
}
