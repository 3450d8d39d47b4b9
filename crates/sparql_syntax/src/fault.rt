//! Why a text is not read.
ghost use Rattle.std.specs.Prelude.{◌≡◌};
ghost use Rattle.sparql_syntax.specs.FaultName.{fault_name};
ghost use Rattle.sparql_syntax.specs.Readers.{kind_of};
ghost use Rattle.sparql_syntax.specs.declared.fault.SyntaxFaultKind.TheVariants.{NoMemory};

use rdf_terms::NoMemory as NoMemoryFault;
use sparql_drafts::DraftFault;
use thiserror::Error;

/// Why a text is not read. Where several apply, the first of them is the fault.
#[derive(Clone, Copy, Debug, Error, PartialEq, Eq)]
pub enum SyntaxFaultKind {
    /// The text isn't UTF-8.
    #[error("NotUtf8")]
    NotUtf8,
    /// Somewhere no token begins.
    #[error("Token")]
    Token,
    /// A word of SPARQL stands there that this profile leaves out.
    #[error("NotInProfile")]
    NotInProfile,
    /// More than 100 brackets are open at once.
    #[error("TooDeep")]
    TooDeep,
    /// The tokens aren't a request of the grammar.
    #[error("Syntax")]
    Syntax,
    /// A prefix is used that isn't declared before.
    #[error("UnknownPrefix")]
    UnknownPrefix,
    /// A relative reference has no base.
    #[error("Relative")]
    Relative,
    /// A blank node stands in DELETE DATA, DELETE or DELETE WHERE.
    #[error("BlankInDelete")]
    BlankInDelete,
    /// A variable stands in INSERT DATA or DELETE DATA.
    #[error("VariableInData")]
    VariableInData,
    /// A literal is a subject in INSERT DATA or DELETE DATA.
    #[error("LiteralSubject")]
    LiteralSubject,
    /// A blank node label stood in another INSERT DATA, or in another basic graph pattern.
    #[error("BlankReused")]
    BlankReused,
    /// Memory was wanting.
    #[error("NoMemory")]
    NoMemory(NoMemoryFault),
}

/// A fault, and the number of the line that has it: the first line is line 1, and want of memory
/// has line 0.
#[derive(Clone, Copy, Debug, Error, PartialEq, Eq)]
#[error("{kind} line {line}")]
pub struct SyntaxFault {
    /// The number of the line, from 1; 0 where memory was wanting.
    pub line: u64,
    /// Why the text is not read.
    pub kind: SyntaxFaultKind,
}

impl SyntaxFaultKind {
    /// The printed word.
    pub fn name(self) -> &'static str
        ensures { result.now ≡ fault_name self }
    {
        match self {
            SyntaxFaultKind::NotUtf8 => "NotUtf8",
            SyntaxFaultKind::Token => "Token",
            SyntaxFaultKind::NotInProfile => "NotInProfile",
            SyntaxFaultKind::TooDeep => "TooDeep",
            SyntaxFaultKind::Syntax => "Syntax",
            SyntaxFaultKind::UnknownPrefix => "UnknownPrefix",
            SyntaxFaultKind::Relative => "Relative",
            SyntaxFaultKind::BlankInDelete => "BlankInDelete",
            SyntaxFaultKind::VariableInData => "VariableInData",
            SyntaxFaultKind::LiteralSubject => "LiteralSubject",
            SyntaxFaultKind::BlankReused => "BlankReused",
            SyntaxFaultKind::NoMemory(_) => "NoMemory",
        }
    }
}

impl SyntaxFault {
    /// The printed word of its kind.
    pub fn name(self) -> &'static str
        ensures { result.now ≡ fault_name self.kind }
    {
        self.kind.name()
    }
}

impl From<NoMemoryFault> for SyntaxFaultKind {
    ghost from_gives = { λ refused e. e ≡ NoMemory refused };

    fn from(refused: NoMemoryFault) -> SyntaxFaultKind {
        SyntaxFaultKind::NoMemory(refused)
    }
}

impl From<DraftFault> for SyntaxFaultKind {
    ghost from_gives = { λ fault e. e ≡ kind_of fault };

    // (Of a text whose prefixes are declared, a name without an IRI is a relative reference.)
    fn from(fault: DraftFault) -> SyntaxFaultKind {
        match fault {
            DraftFault::NoIri => SyntaxFaultKind::Relative,
            DraftFault::NoMemory(refused) => SyntaxFaultKind::NoMemory(refused),
        }
    }
}

impl From<NoMemoryFault> for SyntaxFault {
    ghost use Rattle.sparql_syntax.specs.declared.fault.SyntaxFaultKind.TheVariants.{NoMemory as WantsMemory};

    ghost from_gives = { λ refused e. e ≡ record { line = 0; kind = WantsMemory refused } };

    fn from(refused: NoMemoryFault) -> SyntaxFault {
        SyntaxFault {
            line: 0,
            kind: SyntaxFaultKind::NoMemory(refused),
        }
    }
}
