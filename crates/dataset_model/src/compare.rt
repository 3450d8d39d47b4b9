//! Whether a source holds what the model does.
use crate::keys::{Form, form_at};
use crate::model::Model;
use crate::table::{NameEntry, QuadEntry, Table};
use rdf_dataset::Source;
use rdf_terms::{Quad, Term, same_quad, same_term};
use std::alloc::Global;

/// Whether quads, names, the counter and the look-ups of each form at the place agree.
pub fn agree<D: Source>(
    alloc: Global,
    source: &D,
    model: &Model,
    table: &Table,
    place: usize,
) -> bool {
    source.next_blank() == model.next()
        && same_quads(source, model, table.quads.as_slice())
        && same_names(alloc, source, model, table.names.as_slice())
        && same_look_ups(alloc, source, model, table.quads.as_slice(), place)
}

fn same_quads<D: Source>(source: &D, model: &Model, quads: &[QuadEntry]) -> bool {
    for entry in quads {
        if source.contains(&entry.quad) != model.has(entry.key) {
            return false;
        }
    }
    true
}

fn same_names<D: Source>(alloc: Global, source: &D, model: &Model, names: &[NameEntry]) -> bool {
    let mut found = Vec::new(alloc);
    if source.names(&mut found).is_err() || found.len() != model.count_of_names() {
        return false;
    }
    for entry in names {
        let there = model.has_name(entry.number);
        let listed = is_name_among(found.as_slice(), &entry.name);
        if source.has_name(&entry.name) != there || listed != there {
            return false;
        }
    }
    true
}

fn is_name_among(found: &[Term], name: &Term) -> bool {
    for other in found {
        if same_term(other, name) {
            return true;
        }
    }
    false
}

fn is_among(found: &[Quad], quad: &Quad) -> bool {
    for other in found {
        if same_quad(other, quad) {
            return true;
        }
    }
    false
}

fn same_look_ups<D: Source>(
    alloc: Global,
    source: &D,
    model: &Model,
    quads: &[QuadEntry],
    place: usize,
) -> bool {
    let Some(like) = quads.get(place) else {
        return false;
    };
    for place in 0..8u8 {
        let form = form_at(place);
        match found(alloc, source, form, &like.quad) {
            Some(found) if lists_just(found.as_slice(), model, quads, form, like) => {}
            _ => return false,
        }
    }
    true
}

fn found<D: Source>(alloc: Global, source: &D, form: Form, like: &Quad) -> Option<Vec<Quad>> {
    let mut found = Vec::new(alloc);
    let subject = bound(form.subject, like.subject());
    let predicate = bound(form.predicate, like.predicate());
    let object = bound(form.object, like.object());
    match source.matches(like.graph(), subject, predicate, object, &mut found) {
        Ok(_) => Some(found),
        Err(_) => None,
    }
}

fn bound(is_bound: bool, term: &Term) -> Option<&Term> {
    if is_bound { Some(term) } else { None }
}

// Whether each quad of the model that fits is listed, and as many are.
fn lists_just(
    found: &[Quad],
    model: &Model,
    quads: &[QuadEntry],
    form: Form,
    like: &QuadEntry,
) -> bool {
    let mut wanted = 0usize;
    for entry in quads {
        if form.fits(like.key, entry.key) && model.has(entry.key) {
            if !is_among(found, &entry.quad) {
                return false;
            }
            wanted = wanted.saturating_add(1);
        }
    }
    found.len() == wanted
}
