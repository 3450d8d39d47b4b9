//! Which members are found once for many rows, and joined by key: groups that are small beside what
//! the rows ask for, and members that are slow to find under each row. Nothing but time rests on it.

use crate::above::Above;
use crate::evaluation::Evaluation;
use crate::mappings::Mapping;
use crate::matching::few_quads_of;
use crate::partners::{end_of, end_term};
use crate::place::{Place, Places, places_of};
use crate::sharing::{few_beside, is_group};
use rdf_dataset::Source;
use rdf_terms::{GraphName, NoMemory, Quad, TermTable};
use sparql_trees::{Member, Pattern, TriplePattern};
use sparql_values::SortedNames;
use std::alloc::Global;

// Whether the member is found under the row so far alone, whatever stands above the group.
fn is_alone(member: &Member) -> bool {
    matches!(member, Member::Optional(_) | Member::Minus(_))
}

// The triple pattern with which the group begins, where nothing else in it is found under the row
// above.
fn first_triple(pattern: &Pattern) -> Option<&TriplePattern> {
    let (first, others) = pattern.members.as_slice().split_first()?;
    let Member::Basic(basic) = first else {
        return None;
    };
    match basic.triples.as_slice() {
        [triple] if others.iter().all(is_alone) => Some(triple),
        _ => None,
    }
}

// The group that the member is, where it is one alone.
fn group_of(member: &Member) -> Option<&Pattern> {
    match member {
        Member::Union(groups) => match groups.as_slice() {
            [group] => Some(group),
            _ => None,
        },
        Member::Optional(pattern) | Member::Minus(pattern) => Some(pattern),
        Member::Basic(_) | Member::Graph(_, _) => None,
    }
}

// Whether the place has nothing in any of the rows but a term of its own.
fn is_free(rows: &[Mapping], place: &Place) -> bool {
    match place {
        Place::Column(_) => rows.iter().all(|row| !row.has(place)),
        Place::Fixed(_) | Place::Nowhere => true,
    }
}

// The terms that rows have at a place.
#[derive(Drop)]
struct Asked {
    terms: TermTable,
    /// How many there are.
    many: u64,
}

// The terms that the rows have at the place; none where a row has nothing there.
fn terms_at(alloc: Global, rows: &[Mapping], place: &Place) -> Result<Option<Asked>, NoMemory> {
    let mut terms = TermTable::new(alloc);
    let mut many = 0;
    for row in rows {
        let Some(term) = row.held(place) else {
            return Ok(None);
        };
        let place = terms.intern(term.copy()?)?.0;
        many = many.max(place.saturating_add(1));
    }
    Ok(Some(Asked { terms, many }))
}

// Whether each quad has one of the terms there.
fn are_asked(terms: &TermTable, quads: &[Quad], at_subject: bool) -> bool {
    quads
        .iter()
        .all(|quad| terms.find(end_term(quad, at_subject)).is_some())
}

// Whether the triple pattern has few triples beside the terms that rows have at its subject or its
// object, and they ask for each of them.
fn are_few_asked<S: Source>(
    evaluation: &Evaluation<S>,
    graph: &GraphName,
    rows: &[Mapping],
    places: &Places,
    at_subject: bool,
    under: &Above,
) -> Result<bool, NoMemory> {
    let place = end_of(places, at_subject);
    let Some(asked) = terms_at(evaluation.scope.alloc, rows, place)? else {
        return Ok(false);
    };
    let Some(most) = few_beside(asked.many as usize) else {
        return Ok(false);
    };
    let few = few_quads_of(
        evaluation.scope.alloc,
        graph,
        evaluation.source,
        places,
        under.row(),
        most,
    )?;
    Ok(few.are_all && are_asked(&asked.terms, &few.quads, at_subject))
}

// The triple pattern with which the member begins, where it is a group in which nothing else is found
// under the row above.
fn first_places(variables: &SortedNames, member: &Member) -> Result<Option<Places>, NoMemory> {
    let Some(group) = group_of(member) else {
        return Ok(None);
    };
    match first_triple(group) {
        Some(triple) => Ok(Some(places_of(variables, triple)?)),
        None => Ok(None),
    }
}

// Whether a group is small beside what these rows ask for: it begins with a triple pattern of few
// triples, the rows ask for each of these, and nothing else that they have makes the group smaller.
fn is_small<S: Source>(
    evaluation: &Evaluation<S>,
    graph: &GraphName,
    rows: &[Mapping],
    member: &Member,
    under: &Above,
) -> Result<bool, NoMemory> {
    let Some(row) = rows.first() else {
        return Ok(false);
    };
    let Some(places) = first_places(evaluation.scope.variables, member)? else {
        return Ok(false);
    };
    let at_subject = row.has(&places.subject) && matches!(places.subject, Place::Column(_));
    let other = end_of(&places, !at_subject);
    if !is_free(rows, &places.predicate) || !is_free(rows, other) {
        return Ok(false);
    }
    are_few_asked(evaluation, graph, rows, &places, at_subject, under)
}

/// Whether a member that isn't looked up is found once for all of these rows, and joined: where it is
/// slow to find it under each of them, a group where it is small beside what they ask for.
pub(crate) fn is_found_once<S: Source>(
    evaluation: &Evaluation<S>,
    graph: &GraphName,
    rows: &[Mapping],
    is_slow: bool,
    member: &Member,
    under: &Above,
) -> Result<bool, NoMemory> {
    if is_slow && !is_group(member) {
        return Ok(true);
    }
    if few_beside(rows.len()).is_none() || !under.is_unbound() {
        return Ok(false);
    }
    is_small(evaluation, graph, rows, member, under)
}
