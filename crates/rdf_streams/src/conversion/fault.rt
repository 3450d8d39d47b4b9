//! Why a conversion or a check ends before the end of its document.
ghost use Rattle.std.specs.Prelude.{◌≡◌};
ghost use Rattle.rdf_streams.specs.Conversion.Faults.{convert_fault_name, document_fault_line, document_fault_name};
ghost use Rattle.rdf_streams.specs.Inside.Held.{fault_of_kind, turtle_fault};

use rdf_lines::{FaultKind, LineFault};
use rdf_terms::NoMemory;
use rdf_turtle::{TurtleFault, TurtleFaultKind};
use thiserror::Error;

/// The fault of a document, by its format.
#[derive(Clone, Copy, Debug, PartialEq, Eq, Error)]
pub enum DocumentFault {
    /// A line is faulty.
    #[error("{0}")]
    Line(LineFault),
    /// The text is no document of Turtle.
    #[error("{0}")]
    Turtle(TurtleFault),
}

impl DocumentFault {
    /// The word that is printed for the fault.
    pub fn name(&self) -> &'static str
        ensures { result.now ≡ document_fault_name self.now }
    {
        match self {
            DocumentFault::Line(fault) => fault.name(),
            DocumentFault::Turtle(fault) => fault.name(),
        }
    }

    /// The number of the line that has the fault; the first line is line 1.
    pub fn line(&self) -> u64
        ensures { result ≡ document_fault_line self.now }
    {
        match self {
            DocumentFault::Line(fault) => fault.line,
            DocumentFault::Turtle(fault) => fault.line,
        }
    }
}

/// Why a conversion or a check ended before the end of its document.
#[derive(Clone, Copy, Debug, PartialEq, Eq, Error)]
pub enum ConvertFault {
    /// The document is faulty. Of one of lines the statements before the faulty line are written, of one of Turtle
    /// nothing.
    #[error("{0}")]
    Document(DocumentFault),
    /// The bytes could not be read. Of a document of lines the statements of the lines wholly read are written, of one
    /// of Turtle nothing.
    #[error("read failed")]
    Read,
    /// The bytes could not be written.
    #[error("write failed")]
    Write,
    /// A growth was refused. Of a document of lines the statements before it are written, of one of Turtle nothing.
    #[error("no memory")]
    NoMemory(NoMemory),
}

impl ConvertFault {
    /// The word that is printed for the fault.
    pub fn name(&self) -> &'static str
        ensures { result.now ≡ convert_fault_name self.now }
    {
        match self {
            ConvertFault::Document(fault) => fault.name(),
            ConvertFault::Read => "Read",
            ConvertFault::Write => "Write",
            ConvertFault::NoMemory(refused) => refused.name(),
        }
    }
}

/// The fault that a line's is.
pub(crate) fn fault_of(fault: LineFault) -> ConvertFault
    ensures { result ≡ fault_of_kind fault fault.kind }
{
    match fault.kind {
        FaultKind::Read => ConvertFault::Read,
        FaultKind::NoMemory(refused) => ConvertFault::NoMemory(refused),
        FaultKind::NotUtf8 | FaultKind::Syntax | FaultKind::Relative | FaultKind::Failed => {
            ConvertFault::Document(DocumentFault::Line(fault))
        }
    }
}

/// The fault that one of Turtle is.
pub(crate) fn turtle_fault(fault: TurtleFault) -> ConvertFault
    ensures { result ≡ turtle_fault fault fault.kind }
{
    match fault.kind {
        TurtleFaultKind::NoMemory(refused) => ConvertFault::NoMemory(refused),
        TurtleFaultKind::NotUtf8
        | TurtleFaultKind::Token
        | TurtleFaultKind::TooDeep
        | TurtleFaultKind::Syntax
        | TurtleFaultKind::UnknownPrefix
        | TurtleFaultKind::Relative => ConvertFault::Document(DocumentFault::Turtle(fault)),
    }
}
