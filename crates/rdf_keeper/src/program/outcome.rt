//! How the program ends.
ghost use Rattle.std.specs.Prelude.{◌≡◌, ◌++◌, ◌≤◌, length, ℕ, List};
ghost use Rattle.std.specs.Io.KnownBytes.{Appends};
ghost use Rattle.rdf_streams.specs.Conversion.Faults.{document_fault_name};
ghost use Rattle.rdf_lines.specs.FaultName.{state_fault_name};
ghost use Rattle.rdf_session.specs.Faults.{name_of};
ghost use Rattle.rdf_keeper.specs.Inside.Outcomes.{status_of, error_line, outcome_of, refused_data, refused_document, refused_line, refused_state};

use crate::short_line::{append, append_place};
use arrayvec::ArrayVec;
use rdf_lines::StateFault;
use rdf_session::KeeperFault;
use rdf_streams::{ConvertFault, DocumentFault, write_whole};
use rdf_terms::NoMemory;
use std::io::Write;

/// How the program ends.
#[derive(Clone, Copy, Debug, PartialEq, Eq)]
pub(crate) enum Outcome {
    /// All was accepted, or shown.
    Done,
    /// A command of the script was refused, or one of the documents that are checked.
    SomeRefused,
    /// The document that is converted is faulty.
    BadDocument(DocumentFault),
    /// The query or the request is refused.
    BadText(KeeperFault),
    /// The words are no command line of the program.
    BadWords,
    /// The base is no IRI.
    BadBase,
    /// The data that the session begins with are refused.
    BadData(KeeperFault),
    /// The state text that the session begins at is the text of no sound state.
    NotState,
    /// A file doesn't open, or a read failed.
    ReadFailed,
    /// A write failed.
    WriteFailed,
    /// A growth was refused.
    NoMemory(NoMemory),
    /// Memory was wanting inside the parser of words, which shows no refusal.
    ParserNoMemory,
}

/// How a conversion ends the program.
pub(crate) fn outcome_of(answer: Result<(), ConvertFault>) -> Outcome
    ensures { result ≡ outcome_of answer }
{
    match answer {
        Ok(()) => Outcome::Done,
        Err(ConvertFault::Document(fault)) => Outcome::BadDocument(fault),
        Err(ConvertFault::Read) => Outcome::ReadFailed,
        Err(ConvertFault::Write) => Outcome::WriteFailed,
        Err(ConvertFault::NoMemory(refused)) => Outcome::NoMemory(refused),
    }
}

fn status_of(outcome: &Outcome) -> u8
    ensures { result ≡ status_of outcome.now }
{
    match outcome {
        Outcome::Done => 0,
        Outcome::SomeRefused | Outcome::BadDocument(_) | Outcome::BadText(_) => 1,
        Outcome::BadWords | Outcome::BadBase | Outcome::BadData(_) | Outcome::NotState => 2,
        Outcome::ReadFailed | Outcome::WriteFailed => 3,
        Outcome::NoMemory(_) | Outcome::ParserNoMemory => 4,
    }
}

/// The word of a document's fault, which is short.
pub(crate) fn document_fault_name(fault: DocumentFault) -> &'static [u8]
    ensures name { result.now ≡ document_fault_name fault }
    ensures short { length result.now ≤ 16 }
{
    fault.name().as_bytes()
}

fn keeper_fault_name(fault: KeeperFault) -> &'static [u8]
    ensures name { result.now ≡ name_of fault }
    ensures short { length result.now ≤ 16 }
{
    fault.name().as_bytes()
}

fn state_fault_name(fault: StateFault) -> &'static [u8]
    ensures name { result.now ≡ state_fault_name fault }
    ensures short { length result.now ≤ 16 }
{
    fault.name().as_bytes()
}

// The line of a refusal, by its word and its place.
fn refused(name: &[u8], place: Option<u64>) -> ArrayVec<u8, 64>
    requires { length name.now ≤ 16 }
    ensures { result.items ≡ refused_line name.now place }
{
    let mut line = ArrayVec::new();
    append(&mut line, b"rdfkeep: refused: ");
    append(&mut line, name);
    append_place(&mut line, place);
    append(&mut line, b"\n");
    line
}

fn refused_document(fault: DocumentFault) -> ArrayVec<u8, 64>
    ensures { result.items ≡ refused_document fault }
{
    refused(document_fault_name(fault), Some(fault.line()))
}

fn refused_data(fault: KeeperFault) -> ArrayVec<u8, 64>
    ensures { result.items ≡ refused_data fault }
{
    refused(keeper_fault_name(fault), fault.line())
}

fn refused_state() -> ArrayVec<u8, 64>
    ensures { result.items ≡ refused_state }
{
    refused(state_fault_name(StateFault::NotState), None)
}

fn plain(text: &[u8]) -> ArrayVec<u8, 64>
    requires { length text.now ≤ 64 }
    ensures { result.items ≡ text.now }
{
    let mut line = ArrayVec::new();
    append(&mut line, text);
    line
}

// The line for standard error. It takes no memory.
fn error_line(outcome: &Outcome) -> ArrayVec<u8, 64>
    ensures { result.items ≡ error_line outcome.now }
{
    match outcome {
        Outcome::Done | Outcome::SomeRefused | Outcome::BadWords => plain(b""),
        Outcome::BadDocument(fault) => refused_document(*fault),
        Outcome::BadBase => plain(b"rdfkeep: bad base\n"),
        Outcome::BadData(fault) | Outcome::BadText(fault) => refused_data(*fault),
        Outcome::NotState => refused_state(),
        Outcome::ReadFailed => plain(b"rdfkeep: read failed\n"),
        Outcome::WriteFailed => plain(b"rdfkeep: write failed\n"),
        Outcome::NoMemory(_) | Outcome::ParserNoMemory => plain(b"rdfkeep: no memory\n"),
    }
}

/// Writes the line of an ending to standard error, as far as that takes it, and answers the exit status.
pub(crate) fn report<E: Write>(outcome: &Outcome, errors: &mut E) -> u8
    ensures status { result ≡ status_of outcome.now }
    ensures line { (front more : List ℕ) × (error_line outcome.now ≡ front ++ more)
        × Appends (E.contents errors.old) (E.contents errors.new) front }
{
    let line = error_line(outcome);
    let _ = write_whole(errors, line.as_slice());
    status_of(outcome)
}
