//! Basic graph patterns under a row (SPARQL 1.1 Query, section 18.3.1).
ghost use Rattle.std.specs.Prelude.{◌≡◌, IfOk, OnOk, false, map};
ghost use Rattle.std.specs.List.{list_any};
ghost use Rattle.sparql_algebra.specs.Algebra.{basic};
ghost use Rattle.sparql_algebra.specs.Solutions.{solutions};
ghost use Rattle.sparql_solve.specs.Flags.{raised};
ghost use Rattle.sparql_solve.specs.Matching.{has_column};
ghost use Rattle.sparql_solve.specs.Members.{AreSolutions};
ghost use Rattle.sparql_solve.specs.Sides.{found};
ghost use Rattle.sparql_solve.specs.Own.{is_bound_at, is_bound_in, marked};
ghost use Rattle.sparql_solve.specs.Under.{AreUnder, binds_none, flags_where, masked, own_columns};

use crate::above::Above;
use crate::evaluation::Evaluation;
use crate::flags::Flags;
use crate::look_ups::{Graphs, LookUp, found_rows, look_up_in};
use crate::mappings::Mapping;
use crate::place::{Place, Places};
use rdf_dataset::Source;
use rdf_terms::{GraphName, NoMemory};
use sparql_trees::BasicGraphPattern;
use sparql_values::SortedNames;
use std::alloc::Global;

// Adds the place's column, if it has one.
fn mark(columns: &mut Vec<usize>, len: usize, place: &Place) -> Result<(), NoMemory>
    ensures { OnOk result (columns.new.items ≡ marked len place.now columns.old.items) }
{
    if let Place::Column(column) = place {
        if *column < len as u128 {
            columns.push(*column as usize)?;
        }
    }
    Ok(())
}

// The columns, of so many, that the triple patterns have.
fn columns_of(alloc: Global, len: usize, patterns: &[Places]) -> Result<Vec<usize>, NoMemory>
    ensures { IfOk result (λ out. raised false out.items len
        ≡ flags_where (λ at. list_any (has_column at) patterns.now) len) }
{
    let mut columns = Vec::new(alloc);
    for places in patterns {
        mark(&mut columns, len, &places.subject)?;
        mark(&mut columns, len, &places.predicate)?;
        mark(&mut columns, len, &places.object)?;
    }
    Ok(columns)
}

/// For each column whether the look-ups have it.
pub(crate) fn own_columns(
    alloc: Global,
    variables: &SortedNames,
    look_up: &LookUp,
) -> Result<Flags, NoMemory>
    ensures { IfOk result (λ out. out ≡ own_columns variables.now look_up.now) }
{
    let len = variables.len();
    let columns = columns_of(alloc, len, look_up.places.as_slice())?;
    Flags::of(len, columns)
}

// Whether the place is one of so many columns, and the row has a term there.
fn is_bound_at(row: &Mapping, width: usize, place: &Place) -> bool
    ensures { result ≡ is_bound_at width row.now place.now }
{
    match place {
        Place::Column(column) => *column < width as u128 && row.has(place),
        Place::Fixed(_) | Place::Nowhere => false,
    }
}

fn is_bound_in(row: &Mapping, width: usize, places: &Places) -> bool
    ensures { result ≡ is_bound_in width row.now places.now }
{
    is_bound_at(row, width, &places.subject)
        || is_bound_at(row, width, &places.predicate)
        || is_bound_at(row, width, &places.object)
}

fn is_bound_in_any(row: &Mapping, width: usize, patterns: &[Places]) -> bool
    ensures { result ≡ list_any (is_bound_in width row.now) patterns.now }
{
    patterns
        .iter()
        .any(|places| is_bound_in(row, width, places))
}

/// Whether the row has nothing at the look-ups' columns.
pub(crate) fn is_unbound_in(variables: &SortedNames, look_up: &LookUp, row: &Mapping) -> bool
    ensures { result ≡ binds_none (masked (own_columns variables.now look_up.now) row.now) }
{
    !is_bound_in_any(row, variables.len(), look_up.places.as_slice())
}

// The columns of each row whose flag is up.
fn masked_rows(alloc: Global, rows: &[Mapping], flags: &Flags) -> Result<Vec<Mapping>, NoMemory>
    ensures { IfOk result (λ out. out.items ≡ map (masked flags.now) rows.now) }
{
    let mut out = Vec::with_capacity(alloc, rows.len())?;
    for row in rows {
        out.push(row.masked(alloc, flags)?)?;
    }
    Ok(out)
}

/// What look-ups find under a row, in these columns alone.
pub(crate) fn own_rows<S: Source>(
    evaluation: &Evaluation<S>,
    look_up: &LookUp,
    own: &Flags,
    under: &Above,
) -> Result<Vec<Mapping>, NoMemory>
    ensures { IfOk result (λ out. AreSolutions (S.contents evaluation.now.source.now) out.items
        (λ d. map (masked own.now) (found evaluation.now.scope.variables.now d look_up.now
        under.now))) }
{
    let rows = found_rows(evaluation, look_up, under.row())?;
    masked_rows(evaluation.scope.alloc, &rows, own)
}

/// A basic graph pattern: what is looked up under the row, without the columns that are the row's
/// alone.
pub(crate) fn basic_under<S: Source>(
    evaluation: &Evaluation<S>,
    graph: &GraphName,
    pattern: &BasicGraphPattern,
    under: &Above,
) -> Result<Vec<Mapping>, NoMemory>
    ensures { IfOk result (λ out. AreUnder evaluation.now.scope.variables.now
        (S.contents evaluation.now.source.now) under.now out.items
        (λ d. solutions evaluation.now.scope.variables.now d graph.now (basic pattern.now))) }
{
    let look_up = look_up_in(
        evaluation.scope.alloc,
        evaluation.scope.variables,
        Graphs::One(graph.copy()?),
        pattern,
    )?;
    let own = own_columns(evaluation.scope.alloc, evaluation.scope.variables, &look_up)?;
    own_rows(evaluation, &look_up, &own, under)
}
