//! Why a line could not be read.
ghost use Rattle.std.specs.Prelude.{◌≡◌, codes};
ghost use Rattle.rdf_lines.specs.FaultName.{fault_name, no_memory};
ghost use Rattle.rdf_lines.specs.declared.fault.FaultKind.TheVariants.{NoMemory as NoMemoryKind};

use rdf_terms::NoMemory;
use std::alloc::{AllocError, AllocFailed};
use thiserror::Error;

/// Why a line could not be read.
#[derive(Clone, Copy, Debug, Error, PartialEq, Eq)]
pub enum FaultKind {
    /// The line isn't UTF-8.
    #[error("NotUtf8")]
    NotUtf8,
    /// The line isn't one of the grammar.
    #[error("Syntax")]
    Syntax,
    /// The line has an IRI without a scheme.
    #[error("Relative")]
    Relative,
    /// The bytes could not be read.
    #[error("Read")]
    Read,
    /// Memory was wanting.
    #[error("NoMemory")]
    NoMemory(NoMemory),
    /// The reader has answered a fault before.
    #[error("Failed")]
    Failed,
}

/// A fault, and the number of the line that has it; the first line is line 1.
#[derive(Clone, Copy, Debug, Error, PartialEq, Eq)]
#[error("{kind} line {line}")]
pub struct LineFault {
    /// The number of the line, from 1.
    pub line: u64,
    /// Why it could not be read.
    pub kind: FaultKind,
}

impl FaultKind {
    /// The printed word.
    pub fn name(self) -> &'static str
        ensures { result.now ≡ fault_name self }
    {
        match self {
            FaultKind::NotUtf8 => "NotUtf8",
            FaultKind::Syntax => "Syntax",
            FaultKind::Relative => "Relative",
            FaultKind::Read => "Read",
            FaultKind::NoMemory(refusal) => refusal.name(),
            FaultKind::Failed => "Failed",
        }
    }
}

impl LineFault {
    /// The printed word of its kind.
    pub fn name(self) -> &'static str
        ensures { result.now ≡ fault_name self.kind }
    {
        self.kind.name()
    }
}

impl From<NoMemory> for FaultKind {
    ghost from_gives = { λ refusal e. e ≡ NoMemoryKind refusal };

    fn from(refusal: NoMemory) -> FaultKind {
        FaultKind::NoMemory(refusal)
    }
}

impl From<AllocError> for FaultKind {
    ghost from_gives = { λ _ e. e ≡ no_memory };

    fn from(e: AllocError) -> FaultKind {
        FaultKind::NoMemory(NoMemory::from(e))
    }
}

impl<T: Drop> From<AllocFailed<T>> for FaultKind {
    ghost from_gives = { λ _ e. e ≡ no_memory };

    fn from(e: AllocFailed<T>) -> FaultKind {
        FaultKind::NoMemory(NoMemory::from(e))
    }
}
