//! Rows that grow from a row by the triples that were looked up under it, whose terms move into them.
ghost use Rattle.std.specs.Prelude.{◌≡◌, ◌++◌, IfOk, IsTrue, None, OnOk, Some, cond, slice_set, true};
ghost use Rattle.std.specs.List.{list_all};
ghost use Rattle.sparql_solve.specs.Grown.{AreTold, IsPut, behind, is_told, spot_of, spots_in};
ghost use Rattle.sparql_solve.specs.Matching.{assigned, has_held, matched, matches_of};

use crate::mappings::Mapping;
use crate::place::{Place, Places};
use crate::values::copy_value;
use rdf_terms::{NoMemory, Quad, Term};
use std::alloc::Global;

// What a place has in the row under which triples were looked up: asked once for all of them.
#[derive(Clone, Copy)]
enum Spot {
    /// The term that each of the triples has there.
    Known,
    /// Nothing at this column, into which the term of no other place comes before.
    Free(usize),
    /// Something else: the row is asked for each triple.
    Asked,
}

// What the places of a triple pattern have.
#[derive(Clone, Copy)]
struct Spots {
    subject: Spot,
    predicate: Spot,
    object: Spot,
}

// What the place has in the row.
#[inline(always)]
fn spot_of(row: &Mapping, place: &Place) -> Spot
    ensures { result ≡ spot_of row.now place.now }
{
    if row.has(place) {
        return Spot::Known;
    }
    match row.vacant(place) {
        Some(column) => Spot::Free(column),
        None => Spot::Asked,
    }
}

// The same where the term of another place comes before.
#[inline(always)]
fn behind(spot: Spot, other: &Place) -> Spot
    ensures { result ≡ behind spot other.now }
{
    let Spot::Free(column) = spot else {
        return spot;
    };
    let Place::Column(own) = other else {
        return spot;
    };
    if column as u128 == *own {
        return Spot::Asked;
    }
    spot
}

// What the places have in the row, into which the terms come in this order: predicate, subject and
// object.
#[inline(always)]
fn spots_in(row: &Mapping, places: &Places) -> Spots
    ensures { result ≡ spots_in places.now row.now }
{
    let subject = spot_of(row, &places.subject);
    let object = behind(spot_of(row, &places.object), &places.predicate);
    Spots {
        predicate: spot_of(row, &places.predicate),
        subject: behind(subject, &places.predicate),
        object: behind(object, &places.subject),
    }
}

// Moves the term to the place, and answers whether it may stand there: nothing else does.
#[inline(always)]
fn put(
    alloc: Global,
    row: &mut Mapping,
    place: &Place,
    spot: Spot,
    term: Term,
) -> Result<bool, NoMemory>
    requires { IsPut spot row.old place.now term }
    ensures { IfOk result (λ fits.
        assigned row.old place.now term ≡ cond fits (Some row.new) None) }
{
    match spot {
        Spot::Known => Ok(true),
        Spot::Free(column) => {
            row.set(alloc, column, term)?;
            Ok(true)
        }
        Spot::Asked => row.put(alloc, place, term),
    }
}

// Moves into the row what the triple binds, which was looked up under it, and answers whether it
// fits; a variable that stands twice may still want two terms.
#[inline(always)]
fn grows(
    alloc: Global,
    row: &mut Mapping,
    places: &Places,
    spots: Spots,
    quad: Quad,
) -> Result<bool, NoMemory>
    requires told { spots ≡ spots_in places.now row.old }
    requires held { IsTrue (has_held places.now row.old quad) }
    ensures { IfOk result (λ fits.
        matched places.now row.old quad ≡ cond fits (Some row.new) None) }
{
    let (_graph, subject, predicate, object) = quad.into_parts();
    if !put(alloc, row, &places.predicate, spots.predicate, predicate)? {
        return Ok(false);
    }
    if !put(alloc, row, &places.subject, spots.subject, subject)? {
        return Ok(false);
    }
    put(alloc, row, &places.object, spots.object, object)
}

#[inline(always)]
fn is_told(spot: Spot) -> bool
    ensures { result ≡ is_told spot }
{
    !matches!(spot, Spot::Asked)
}

// Whether no place has to be asked for each triple.
#[inline(always)]
fn are_told(spots: Spots) -> bool
    ensures { IsTrue result → AreTold spots }
{
    is_told(spots.predicate) && is_told(spots.subject) && is_told(spots.object)
}

/// Whether no place has to be asked for a triple that was looked up under the row.
pub(crate) fn are_told_in(row: &Mapping, places: &Places) -> bool
    ensures { IsTrue result → AreTold (spots_in places.now row.now) }
{
    are_told(spots_in(row, places))
}

// A copy of each value.
#[inline(always)]
fn copied_all(alloc: Global, values: &[Option<Term>]) -> Result<Vec<Option<Term>>, NoMemory>
    ensures { IfOk result (λ copy. copy.items ≡ values.now) }
{
    let mut copy = Vec::with_capacity(alloc, values.len())?;
    for value in values {
        copy.push(copy_value(value.as_ref())?)?;
    }
    Ok(copy)
}

// Moves the term to the column of these, if there is one.
#[inline(always)]
fn set(values: &mut Vec<Option<Term>>, column: usize, term: Term)
    ensures { values.new.items ≡ slice_set values.old.items column (Some term) }
{
    if let Some(value) = values.get_mut(column) {
        let _ = value.replace(term);
    }
}

// Moves the term to the place, which has it or nothing.
#[inline(always)]
fn set_at(values: &mut Vec<Option<Term>>, _place: &Place, spot: Spot, term: Term)
    requires put { IsPut spot values.old.items _place.now term }
    requires told { is_told spot ≡ true }
    ensures { assigned values.old.items _place.now term ≡ Some values.new.items }
{
    match spot {
        Spot::Free(column) => set(values, column, term),
        Spot::Known | Spot::Asked => {}
    }
}

// A copy of what stands side by side, with what the triple binds, which was looked up under it.
#[inline(always)]
fn grown_plainly(
    alloc: Global,
    values: &[Option<Term>],
    places: &Places,
    spots: Spots,
    quad: Quad,
) -> Result<Mapping, NoMemory>
    requires told { spots ≡ spots_in places.now values.now }
    requires all { AreTold spots }
    requires held { IsTrue (has_held places.now values.now quad) }
    ensures { IfOk result (λ found. matched places.now values.now quad ≡ Some found) }
{
    let mut out = copied_all(alloc, values)?;
    let (_, subject, predicate, object) = quad.into_parts();
    set_at(&mut out, &places.predicate, spots.predicate, predicate);
    set_at(&mut out, &places.subject, spots.subject, subject);
    set_at(&mut out, &places.object, spots.object, object);
    Ok(Mapping::plain(out))
}

// A copy of the row with what the triple binds, which was looked up under it, if that fits.
#[inline(always)]
fn grown_copy(
    alloc: Global,
    row: &Mapping,
    places: &Places,
    spots: Spots,
    quad: Quad,
) -> Result<Option<Mapping>, NoMemory>
    requires told { spots ≡ spots_in places.now row.now }
    requires held { IsTrue (has_held places.now row.now quad) }
    ensures { IfOk result (λ found. matched places.now row.now quad ≡ found) }
{
    if are_told(spots) {
        if let Some(values) = row.columns().as_plain() {
            return Ok(Some(grown_plainly(alloc, values, places, spots, quad)?));
        }
    }
    let mut found = row.copy(alloc)?;
    if grows(alloc, &mut found, places, spots, quad)? {
        return Ok(Some(found));
    }
    Ok(None)
}

// Appends the rows that the triples make of copies of a row under which they were looked up, and
// empties their list, which keeps its room.
fn append_grown(
    alloc: Global,
    row: &Mapping,
    places: &Places,
    spots: Spots,
    quads: &mut Vec<Quad>,
    out: &mut Vec<Mapping>,
) -> Result<(), NoMemory>
    requires told { spots ≡ spots_in places.now row.now }
    requires held { IsTrue (list_all (has_held places.now row.now) quads.old.items) }
    ensures { OnOk result (out.new.items
        ≡ out.old.items ++ matches_of quads.old.items places.now row.now) }
{
    for quad in quads.drain(..) {
        if let Some(found) = grown_copy(alloc, row, places, spots, quad)? {
            out.push(found)?;
        }
    }
    Ok(())
}

/// The rows that triples make of copies of a row under which they were looked up.
pub(crate) fn copies_grown(
    alloc: Global,
    row: &Mapping,
    places: &Places,
    mut quads: Vec<Quad>,
) -> Result<Vec<Mapping>, NoMemory>
    requires { IsTrue (list_all (has_held places.now row.now) quads.items) }
    ensures { IfOk result (λ out. out.items ≡ matches_of quads.items places.now row.now) }
{
    let mut rows = Vec::with_capacity(alloc, quads.len())?;
    let spots = spots_in(row, places);
    append_grown(alloc, row, places, spots, &mut quads, &mut rows)?;
    Ok(rows)
}

/// Appends the rows that triples make of a row under which they were looked up: the last one of the
/// row itself. The list of the triples is emptied, and keeps its room.
pub(crate) fn append_last(
    alloc: Global,
    mut row: Mapping,
    places: &Places,
    quads: &mut Vec<Quad>,
    out: &mut Vec<Mapping>,
) -> Result<(), NoMemory>
    requires { IsTrue (list_all (has_held places.now row) quads.old.items) }
    ensures { OnOk result (out.new.items
        ≡ out.old.items ++ matches_of quads.old.items places.now row) }
{
    let Some(last) = quads.pop() else {
        return Ok(());
    };
    let spots = spots_in(&row, places);
    append_grown(alloc, &row, places, spots, quads, out)?;
    if grows(alloc, &mut row, places, spots, last)? {
        out.push(row)?;
    }
    Ok(())
}

/// The rows that triples make of a row under which they were looked up: the last one of the row
/// itself.
pub(crate) fn row_grown(
    alloc: Global,
    row: Mapping,
    places: &Places,
    mut quads: Vec<Quad>,
) -> Result<Vec<Mapping>, NoMemory>
    requires { IsTrue (list_all (has_held places.now row) quads.items) }
    ensures { IfOk result (λ out. out.items ≡ matches_of quads.items places.now row) }
{
    let mut out = Vec::with_capacity(alloc, quads.len())?;
    append_last(alloc, row, places, &mut quads, &mut out)?;
    Ok(out)
}
