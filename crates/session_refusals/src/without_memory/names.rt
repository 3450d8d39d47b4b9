//! The printed words of faults.
use rdf_lines::{FaultKind, LineFault, StateFault};
use rdf_session::KeeperFault;
use rdf_streams::{ConvertFault, DocumentFault};
use rdf_terms::{IriFault, NoMemory};
use rdf_tokens::TokenFault;
use rdf_turtle::{TurtleFault, TurtleFaultKind};
use sparql_eval::ApplyFault;
use sparql_syntax::{SyntaxFault, SyntaxFaultKind};
use std::alloc::Global;
use told_parts::{Told, memory_is_back, requests_count};

const NO_MEMORY: &str = "NoMemory";

pub fn outcome(alloc: Global) -> Told {
    Told::kept("names without memory", are_answered(alloc) == Some(true))
}

fn are_answered(alloc: Global) -> Option<bool> {
    let refused = refused(alloc)?;
    requests_count(alloc);
    let are_names = are_of_terms(refused)
        && are_of_lines(refused)
        && are_of_turtle(refused)
        && are_of_requests(refused)
        && are_of_sessions(refused)
        && are_of_conversions(refused);
    memory_is_back(alloc);
    Some(are_names)
}

// What a request is answered that is always refused: no memory has its size.
fn refused(alloc: Global) -> Option<NoMemory> {
    match Vec::<u8>::with_capacity(alloc, 1 << 62) {
        Ok(_) => None,
        Err(refused) => Some(NoMemory::from(refused)),
    }
}

fn are_of_terms(refused: NoMemory) -> bool {
    let iris = IriFault::BadCharacter.name() == "BadCharacter"
        && IriFault::NoMemory(refused).name() == NO_MEMORY;
    let tokens = TokenFault::NoToken(1).name() == "Token"
        && TokenFault::NoMemory(refused).name() == NO_MEMORY;
    refused.name() == NO_MEMORY && iris && tokens
}

fn line_fault(kind: FaultKind) -> LineFault {
    LineFault { line: 1, kind }
}

fn are_of_lines(refused: NoMemory) -> bool {
    let states = StateFault::NotState.name() == "NotState"
        && StateFault::NoMemory(refused).name() == NO_MEMORY;
    states
        && FaultKind::Relative.name() == "Relative"
        && line_fault(FaultKind::NotUtf8).name() == "NotUtf8"
        && line_fault(FaultKind::NoMemory(refused)).name() == NO_MEMORY
}

fn turtle_fault(kind: TurtleFaultKind) -> TurtleFault {
    TurtleFault { line: 1, kind }
}

fn are_of_turtle(refused: NoMemory) -> bool {
    TurtleFaultKind::TooDeep.name() == "TooDeep"
        && turtle_fault(TurtleFaultKind::UnknownPrefix).name() == "UnknownPrefix"
        && turtle_fault(TurtleFaultKind::NoMemory(refused)).name() == NO_MEMORY
}

fn syntax_fault(kind: SyntaxFaultKind) -> SyntaxFault {
    SyntaxFault { line: 1, kind }
}

fn are_of_requests(refused: NoMemory) -> bool {
    let syntax = SyntaxFaultKind::BlankReused.name() == "BlankReused"
        && syntax_fault(SyntaxFaultKind::LiteralSubject).name() == "LiteralSubject"
        && syntax_fault(SyntaxFaultKind::NoMemory(refused)).name() == NO_MEMORY;
    let operations = ApplyFault::MissingGraph.name() == "MissingGraph"
        && ApplyFault::NoMemory(refused).name() == NO_MEMORY;
    syntax && operations
}

fn are_of_sessions(refused: NoMemory) -> bool {
    let syntax = KeeperFault::Syntax(syntax_fault(SyntaxFaultKind::Token));
    syntax.name() == "Token"
        && KeeperFault::Apply(ApplyFault::GraphExists).name() == "GraphExists"
        && KeeperFault::Line(line_fault(FaultKind::Syntax)).name() == "Syntax"
        && KeeperFault::Turtle(turtle_fault(TurtleFaultKind::Relative)).name() == "Relative"
        && KeeperFault::NothingToUndo.name() == "NothingToUndo"
        && KeeperFault::NoMemory(refused).name() == NO_MEMORY
}

fn are_of_conversions(refused: NoMemory) -> bool {
    let line = DocumentFault::Line(line_fault(FaultKind::Syntax));
    let turtle = DocumentFault::Turtle(turtle_fault(TurtleFaultKind::Token));
    line.name() == "Syntax"
        && turtle.name() == "Token"
        && ConvertFault::Document(turtle).name() == "Token"
        && ConvertFault::NoMemory(refused).name() == NO_MEMORY
}
