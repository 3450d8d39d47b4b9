//! Why a text is not read.
ghost use Rattle.std.specs.Prelude.{◌≡◌, ◌≢◌};
ghost use Rattle.rdf_tokens.specs.Lines.{line_of};
ghost use Rattle.rdf_turtle.specs.FaultName.{fault_name, no_memory};
ghost use Rattle.rdf_turtle.specs.GrammarFaults.{kind_of};
ghost use Rattle.rdf_turtle.specs.declared.fault.TurtleFaultKind.TheVariants.{NoMemory as NoMemoryKind};

use rdf_grammar::GrammarFault;
use rdf_terms::NoMemory;
use rdf_tokens::line_at;
use std::alloc::{AllocError, AllocFailed};
use thiserror::Error;

/// Why a text is not read. Where several apply, the first of them is the fault.
#[derive(Clone, Copy, Debug, Error, PartialEq, Eq)]
pub enum TurtleFaultKind {
    /// The text isn't UTF-8.
    #[error("NotUtf8")]
    NotUtf8,
    /// Somewhere no token begins.
    #[error("Token")]
    Token,
    /// More than 100 brackets are open at once.
    #[error("TooDeep")]
    TooDeep,
    /// The tokens aren't a document of the grammar.
    #[error("Syntax")]
    Syntax,
    /// A prefix is used that isn't declared before.
    #[error("UnknownPrefix")]
    UnknownPrefix,
    /// A relative reference has no base.
    #[error("Relative")]
    Relative,
    /// Memory was wanting.
    #[error("NoMemory")]
    NoMemory(NoMemory),
}

/// A fault, and the number of the line that has it: the first line is line 1, and want of memory
/// has line 0.
#[derive(Clone, Copy, Debug, Error, PartialEq, Eq)]
#[error("{kind} line {line}")]
pub struct TurtleFault {
    /// The number of the line, from 1; 0 where memory was wanting.
    pub line: u64,
    /// Why the text is not read.
    pub kind: TurtleFaultKind,
}

impl TurtleFaultKind {
    /// The printed word.
    pub fn name(self) -> &'static str
        ensures { result.now ≡ fault_name self }
    {
        match self {
            TurtleFaultKind::NotUtf8 => "NotUtf8",
            TurtleFaultKind::Token => "Token",
            TurtleFaultKind::TooDeep => "TooDeep",
            TurtleFaultKind::Syntax => "Syntax",
            TurtleFaultKind::UnknownPrefix => "UnknownPrefix",
            TurtleFaultKind::Relative => "Relative",
            TurtleFaultKind::NoMemory(refusal) => refusal.name(),
        }
    }
}

impl TurtleFault {
    /// The printed word of its kind.
    pub fn name(self) -> &'static str
        ensures { result.now ≡ fault_name self.kind }
    {
        self.kind.name()
    }
}

impl From<GrammarFault> for TurtleFaultKind {
    ghost from_gives = { λ fault e. e ≡ kind_of fault };

    fn from(fault: GrammarFault) -> TurtleFaultKind {
        match fault {
            GrammarFault::Syntax => TurtleFaultKind::Syntax,
            GrammarFault::NoMemory(refusal) => TurtleFaultKind::NoMemory(refusal),
        }
    }
}

impl From<NoMemory> for TurtleFaultKind {
    ghost from_gives = { λ refusal e. e ≡ NoMemoryKind refusal };

    fn from(refusal: NoMemory) -> TurtleFaultKind {
        TurtleFaultKind::NoMemory(refusal)
    }
}

impl From<AllocError> for TurtleFaultKind {
    ghost from_gives = { λ _ e. e ≡ no_memory };

    fn from(e: AllocError) -> TurtleFaultKind {
        TurtleFaultKind::NoMemory(NoMemory::from(e))
    }
}

impl<T: Drop> From<AllocFailed<T>> for TurtleFaultKind {
    ghost from_gives = { λ _ e. e ≡ no_memory };

    fn from(e: AllocFailed<T>) -> TurtleFaultKind {
        TurtleFaultKind::NoMemory(NoMemory::from(e))
    }
}

/// The fault of this kind, at the line of that byte; want of memory has no line.
pub(crate) fn fault_at(text: &[u8], kind: TurtleFaultKind, place: usize) -> TurtleFault
    ensures kind { result.kind ≡ kind }
    ensures line { kind ≢ no_memory → result.line ≡ line_of text.now place }
    ensures no_line { kind ≡ no_memory → result.line ≡ 0 }
{
    let line = match kind {
        TurtleFaultKind::NoMemory(_) => 0,
        _ => line_at(text, place),
    };
    TurtleFault { line, kind }
}
