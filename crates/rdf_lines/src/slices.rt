//! Statements as they stand in their lines, where only the labels of blank nodes are written anew.
ghost use Rattle.std.specs.Prelude.{◌≡◌, ◌&&◌, IfSome};
ghost use Rattle.rdf_lines.specs.Reading as reading;
ghost use Rattle.rdf_lines.specs.Inside.Slices.{ReadsNode, ReadsObject, ReadsGraph, ReadsFront, ReadsBack, ReadsStatement};

use crate::canonical::{canonical_iri, canonical_literal};
use crate::format::LineFormat;
use crate::line::{begins_node, may_name_graph, stops};
use crate::name::{first_is, label_slice, skip_white};
use rdf_terms::Cursor;

/// A term as it stands in a line.
#[derive(Clone, Copy, Debug, Drop)]
pub enum TermSlice<'a> {
    /// A blank node, by its label without `_:`.
    Label(&'a str),
    /// The canonical text of an IRI or a literal.
    Whole(&'a str),
}

/// A statement as it stands in a line.
#[derive(Clone, Copy, Debug, Drop)]
pub struct StatementSlices<'a> {
    pub subject: TermSlice<'a>,
    /// An IRI in its angle brackets.
    pub predicate: &'a str,
    pub object: TermSlice<'a>,
    pub graph: Option<TermSlice<'a>>,
}

/// An IRI that is written as canonical form writes it, or a label; and the place behind it.
fn node<'a>(at: &Cursor<'a>) -> Option<(TermSlice<'a>, Cursor<'a>)>
    ensures { IfSome result (λ r. ReadsNode at.now r.0 r.1) }
{
    if first_is(at, '<') {
        let (iri, rest) = canonical_iri(at)?;
        return Some((TermSlice::Whole(iri), rest));
    }
    let (label, rest) = label_slice(at)?;
    Some((TermSlice::Label(label), rest))
}

/// The same, or a literal that is written so.
fn object<'a>(at: &Cursor<'a>) -> Option<(TermSlice<'a>, Cursor<'a>)>
    ensures { IfSome result (λ r. ReadsObject at.now r.0 r.1) }
{
    if first_is(at, '"') {
        let (literal, rest) = canonical_literal(at)?;
        return Some((TermSlice::Whole(literal), rest));
    }
    node(at)
}

// Whether a graph label stands here: the format has them, and an IRI or a label begins.
fn begins_graph(format: LineFormat, at: &Cursor<'_>) -> bool
    ensures { result ≡ (reading.may_name_graph format && reading.begins_node at.now) }
{
    may_name_graph(format) && begins_node(at)
}

/// A graph label where the format has them and one stands here, and the place behind it.
fn graph<'a>(format: LineFormat, at: &Cursor<'a>) -> Option<(Option<TermSlice<'a>>, Cursor<'a>)>
    ensures { IfSome result (λ r. ReadsGraph format at.now r.0 r.1) }
{
    if begins_graph(format, at) {
        let (place, rest) = node(at)?;
        return Some((Some(place), rest));
    }
    Some((None, at.fork()))
}

/// A subject and a predicate, and the place behind them.
fn front<'a>(at: &Cursor<'a>) -> Option<(TermSlice<'a>, &'a str, Cursor<'a>)>
    ensures { IfSome result (λ r. ReadsFront at.now r.0 r.1.now r.2) }
{
    let (subject, rest) = node(&skip_white(at))?;
    let (predicate, rest) = canonical_iri(&skip_white(&rest))?;
    Some((subject, predicate, rest))
}

/// An object and a graph label or none, up to the end of the line.
fn back<'a>(format: LineFormat, at: &Cursor<'a>) -> Option<(TermSlice<'a>, Option<TermSlice<'a>>)>
    ensures { IfSome result (λ r. ReadsBack format at.now r.0 r.1) }
{
    let (object, rest) = object(&skip_white(at))?;
    let (graph, rest) = graph(format, &skip_white(&rest))?;
    if stops(&skip_white(&rest)) {
        Some((object, graph))
    } else {
        None
    }
}

/// A statement up to the end of the line, where each of its IRIs and literals is written as canonical form writes it.
/// `None` tells nothing of the line.
pub fn statement_slices<'a>(format: LineFormat, at: &Cursor<'a>) -> Option<StatementSlices<'a>>
    ensures { IfSome result (λ slices. ReadsStatement format at.now slices) }
{
    let (subject, predicate, rest) = front(at)?;
    let (object, graph) = back(format, &rest)?;
    Some(StatementSlices {
        subject,
        predicate,
        object,
        graph,
    })
}
