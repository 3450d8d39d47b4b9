//! A whole line.
ghost use Rattle.std.specs.Prelude.{◌≡◌, IfOk, IfSome, Ok, Some};
ghost use Rattle.rdf_lines.specs.Reading as reading;
ghost use Rattle.rdf_lines.specs.Inside.Slices.{AreSlices};
ghost use Rattle.rdf_lines.specs.declared.statement.Statement.{Statement};
ghost use Rattle.rdf_lines.specs.Line.{LineSays, LineTells, OneAnswer, SomeAnswer, StatementsAreSound};

use crate::fault::FaultKind;
use crate::format::LineFormat;
use crate::literal::object;
use crate::name::{first_is, skip_white};
use crate::node::node;
use crate::slices::{StatementSlices, statement_slices};
use crate::statement::Statement;
use crate::suffixes::Suffixes;
use crate::written::{WrittenNode, WrittenObject, WrittenStatement};
use rdf_terms::{Cursor, IriReference, NoMemory};
use std::alloc::Global;
use std::str;

pub(crate) fn may_name_graph(format: LineFormat) -> bool
    ensures { result ≡ reading.may_name_graph format }
{
    match format {
        LineFormat::NTriples => false,
        LineFormat::NQuads => true,
    }
}

#[tactic(auto, unfolding(crate::specs::Reading::begins_node))]
pub(crate) fn begins_node(at: &Cursor<'_>) -> bool
    ensures { result ≡ reading.begins_node at.now }
{
    first_is(at, '<') || first_is(at, '_')
}

/// A graph label where the format has them and one stands here, and the place behind it.
#[tactic(auto, unfolding(crate::specs::Reading::graph_at))]
fn graph_label<'a>(
    alloc: Global,
    format: LineFormat,
    at: &Cursor<'a>,
) -> Result<Option<(Option<WrittenNode>, Cursor<'a>)>, NoMemory>
    ensures { IfOk result (λ r. r ≡ reading.graph_at format at.now) }
{
    if !(may_name_graph(format) && begins_node(at)) {
        return Ok(Some((None, at.fork())));
    }
    let Some((place, rest)) = node(alloc, at)? else {
        return Ok(None);
    };
    Ok(Some((Some(place), rest)))
}

/// Whether nothing but white space and a comment follows.
#[tactic(auto, unfolding(crate::specs::Reading::is_end, crate::specs::Reading::is_empty_or_comment))]
fn is_end(at: &Cursor<'_>) -> bool
    ensures { result ≡ reading.is_end at.now }
{
    match skip_white(at).peek() {
        Some(c) => c == '#',
        None => true,
    }
}

/// Whether a dot stands here, and the end of the line behind it.
#[tactic(auto, unfolding(crate::specs::Reading::stops_at))]
pub(crate) fn stops(at: &Cursor<'_>) -> bool
    ensures { result ≡ reading.stops_at at.now }
{
    let mut rest = at.fork();
    match rest.bump() {
        Some(c) => c == '.' && is_end(&rest),
        None => false,
    }
}

/// A subject and a predicate, and the place behind them.
#[tactic(auto, unfolding(crate::specs::Reading::front_at))]
fn front<'a>(
    alloc: Global,
    at: &Cursor<'a>,
) -> Result<Option<(WrittenNode, IriReference, Cursor<'a>)>, NoMemory>
    ensures { IfOk result (λ r. r ≡ reading.front_at at.now) }
{
    let Some((subject, rest)) = node(alloc, &skip_white(at))? else {
        return Ok(None);
    };
    let Some((predicate, rest)) = skip_white(&rest).iri(alloc)? else {
        return Ok(None);
    };
    Ok(Some((subject, predicate, rest)))
}

/// An object and a graph label or none, up to the end of the line.
#[tactic(auto, unfolding(crate::specs::Reading::back_at))]
fn back(
    alloc: Global,
    suffixes: &mut Suffixes,
    format: LineFormat,
    at: &Cursor<'_>,
) -> Result<Option<(WrittenObject, Option<WrittenNode>)>, NoMemory>
    ensures { IfOk result (λ r. r ≡ reading.back_at format at.now) }
{
    let Some((object, rest)) = object(alloc, suffixes, &skip_white(at))? else {
        return Ok(None);
    };
    let Some((graph, rest)) = graph_label(alloc, format, &skip_white(&rest))? else {
        return Ok(None);
    };
    if !stops(&skip_white(&rest)) {
        return Ok(None);
    }
    Ok(Some((object, graph)))
}

/// A statement up to the end of the line.
#[tactic(auto, using(crate::proofs::StatementSteps::front_fails, crate::proofs::StatementSteps::back_fails, crate::proofs::StatementSteps::both_read))]
fn statement(
    alloc: Global,
    suffixes: &mut Suffixes,
    format: LineFormat,
    at: &Cursor<'_>,
) -> Result<Option<WrittenStatement>, NoMemory>
    ensures { IfOk result (λ r. r ≡ reading.statement_at format at.now) }
{
    let Some((subject, predicate, rest)) = front(alloc, at)? else {
        return Ok(None);
    };
    let Some((object, graph)) = back(alloc, suffixes, format, &rest)? else {
        return Ok(None);
    };
    Ok(Some(WrittenStatement {
        subject,
        predicate,
        object,
        graph,
    }))
}

/// The statement of a line, given without its line end, as it stands there: where its IRIs and literals are written as
/// canonical form writes them. `None` tells nothing of the line.
pub(crate) fn line_slices<'a>(format: LineFormat, line: &'a [u8]) -> Option<StatementSlices<'a>>
    ensures { IfSome result (λ slices. (s : Statement) × LineSays format line.now (Ok (Some s))
        × AreSlices slices s) }
{
    let Ok(text) = str::from_utf8(line) else {
        return None;
    };
    let start = Cursor::new(text);
    if is_end(&start) {
        return None;
    }
    statement_slices(format, &start)
}

/// What a line says, given without its line end: nothing, or one statement. The literal's tag is in lower case, and a
/// literal with the datatype xsd:string is the one of the string alone.
///
/// # Errors
/// [`FaultKind::NotUtf8`] where the line is no UTF-8; else [`FaultKind::Syntax`] where it has no reading (N-Triples,
/// section 7; N-Quads, section 4), as an N-Triples line with a graph label; else [`FaultKind::Relative`] where an IRI
/// has no scheme, a datatype too. [`FaultKind::NoMemory`] where memory is wanting, and no other.
pub fn read_line(
    alloc: Global,
    format: LineFormat,
    line: &[u8],
) -> Result<Option<Statement>, FaultKind>
    ensures { LineTells format line.now result }
{
    read_next_line(alloc, &mut Suffixes::new(alloc), format, line)
}

/// As [`read_line`], where literals share their datatypes and tags with those of the lines before.
///
/// # Errors
/// Those of [`read_line`].
pub fn read_next_line(
    alloc: Global,
    suffixes: &mut Suffixes,
    format: LineFormat,
    line: &[u8],
) -> Result<Option<Statement>, FaultKind>
    ensures { LineTells format line.now result }
{
    let Ok(text) = str::from_utf8(line) else {
        return Err(FaultKind::NotUtf8);
    };
    let start = Cursor::new(text);
    if is_end(&start) {
        return Ok(None);
    }
    let Some(written) = statement(alloc, suffixes, format, &start)? else {
        return Err(FaultKind::Syntax);
    };
    match written.absolute(alloc, suffixes)? {
        Some(statement) => Ok(Some(statement)),
        None => Err(FaultKind::Relative),
    }
}

/// No line says two things.
pub fn one_answer()
    ensures { OneAnswer }
{}

/// Each line says something.
pub fn some_answer()
    ensures { SomeAnswer }
{}

/// What a line says are sound terms: texts of Unicode characters, IRIs and literals.
pub fn statements_are_sound()
    ensures { StatementsAreSound }
{}
