//! Loads: a document's quads come in, its blank nodes numbered on from the counter.
ghost use Rattle.std.specs.Prelude.{◌≡◌, ◌+◌, min, MatchResult, None};
ghost use Rattle.std.specs.Option.{option_copied};
ghost use Rattle.rdf_dataset.specs.State.{last_number};
ghost use Rattle.rdf_lines.specs.Document as lines;
ghost use Rattle.rdf_turtle.specs.Document as turtle;
ghost use Rattle.rdf_session.specs.Documents.{IsDocument};
ghost use Rattle.rdf_session.specs.Request.{blank_limit, graph_limit, quad_limit, term_limit};
ghost use Rattle.rdf_session.specs.Inside.Staging.{Stages, TellsFault, TellsLineFault, TellsTurtleFault, line_refusal, turtle_refusal};

use crate::fault::KeeperFault;
use crate::format::Format;
use crate::shared_quads::SharedQuads;
use rdf_dataset::{Dataset, Net};
use rdf_lines::{FaultKind, LineFault, LineFormat, read_lines};
use rdf_terms::{GraphName, Iri, Quad, Term};
use rdf_turtle::{TurtleFault, TurtleFaultKind, read_turtle_into};
use std::alloc::Global;

/// The greatest blank counter.
pub(crate) const LAST_NUMBER: u64 = 1_000_000_000_000_000_000;

// The limits below are exact up to the last number, and past it all the same.

fn term_limit(term: &Term) -> u64
    ensures { result ≡ min (term_limit term.now) (last_number + 1) }
{
    match term {
        Term::Blank(number) => (*number).min(LAST_NUMBER) + 1,
        Term::Iri(_) | Term::Literal(_) => 0,
    }
}

fn graph_limit(graph: &GraphName) -> u64
    ensures { result ≡ min (graph_limit graph.now) (last_number + 1) }
{
    match graph {
        GraphName::Default => 0,
        GraphName::Named(name) => term_limit(name),
    }
}

/// The least number above those of the blank nodes of the quad.
pub(crate) fn quad_limit(quad: &Quad) -> u64
    ensures { result ≡ min (quad_limit quad.now) (last_number + 1) }
{
    let graph = graph_limit(quad.graph());
    let subject = term_limit(quad.subject());
    let predicate = term_limit(quad.predicate());
    let object = term_limit(quad.object());
    graph.max(subject.max(predicate.max(object)))
}

/// The least number above those of all blank nodes of the quads.
pub(crate) fn blank_limit(quads: &[Quad]) -> u64
    ensures { result ≡ min (blank_limit quads.now) (last_number + 1) }
{
    let mut limit = 0;
    for quad in quads {
        limit = quad_limit(quad).max(limit);
    }
    limit
}

/// The refusal that a fault of a line is.
pub(crate) fn line_refusal(fault: LineFault) -> KeeperFault
    ensures { result ≡ line_refusal fault fault.kind }
{
    match fault.kind {
        FaultKind::NoMemory(refused) => KeeperFault::NoMemory(refused),
        FaultKind::NotUtf8
        | FaultKind::Syntax
        | FaultKind::Relative
        | FaultKind::Read
        | FaultKind::Failed => KeeperFault::Line(fault),
    }
}

// The quads of a text of lines.
fn read_in_lines(alloc: Global, format: LineFormat, text: &[u8]) -> Result<Vec<Quad>, KeeperFault>
    ensures { MatchResult result
        (λ quads. lines.IsDocument format text.now quads.items None)
        (λ fault. TellsLineFault format text.now fault) }
{
    match read_lines(alloc, format, text) {
        Ok(quads) => Ok(quads),
        Err(fault) => Err(line_refusal(fault)),
    }
}

fn turtle_refusal(fault: TurtleFault) -> KeeperFault
    ensures { result ≡ turtle_refusal fault fault.kind }
{
    match fault.kind {
        TurtleFaultKind::NoMemory(refused) => KeeperFault::NoMemory(refused),
        TurtleFaultKind::NotUtf8
        | TurtleFaultKind::Token
        | TurtleFaultKind::TooDeep
        | TurtleFaultKind::Syntax
        | TurtleFaultKind::UnknownPrefix
        | TurtleFaultKind::Relative => KeeperFault::Turtle(fault),
    }
}

/// The quads of a text of Turtle.
pub(crate) fn read_in_turtle(
    alloc: Global,
    text: &[u8],
    base: Option<&Iri>,
) -> Result<Vec<Quad>, KeeperFault>
    ensures { MatchResult result
        (λ quads. turtle.IsDocument (option_copied base.entry) text.now quads.items)
        (λ fault. TellsTurtleFault (option_copied base.entry) text.now fault) }
{
    match read_turtle_into::<SharedQuads>(alloc, text, base) {
        Ok(shared) => Ok(shared.into_quads()),
        Err(fault) => Err(turtle_refusal(fault)),
    }
}

/// The quads of a text, against a base that the line formats don't use.
pub(crate) fn read(
    alloc: Global,
    format: Format,
    text: &[u8],
    base: Option<&Iri>,
) -> Result<Vec<Quad>, KeeperFault>
    ensures { MatchResult result
        (λ quads. IsDocument format (option_copied base.entry) text.now quads.items)
        (λ fault. TellsFault format (option_copied base.entry) text.now fault) }
{
    match format {
        Format::NQuads => read_in_lines(alloc, LineFormat::NQuads, text),
        Format::NTriples => read_in_lines(alloc, LineFormat::NTriples, text),
        Format::Turtle => read_in_turtle(alloc, text, base),
    }
}

/// The net from the dataset to what a load of the quads makes of it.
pub(crate) fn stage(alloc: Global, dataset: &Dataset, quads: Vec<Quad>) -> Result<Net, KeeperFault>
    ensures { Stages dataset.now quads.items result }
{
    let blanks = blank_limit(quads.as_slice());
    if blanks > LAST_NUMBER {
        return Err(KeeperFault::BlankNumbers);
    }
    match Net::of_data(alloc, dataset, quads, blanks)? {
        None => Err(KeeperFault::BlankNumbers),
        Some(net) => Ok(net),
    }
}
