//! The refusals of this crate.
ghost use Rattle.std.specs.Prelude.{◌≡◌, OnErr, OnOk, codes, take};
ghost use Rattle.rdf_terms.specs.Names.{iri_fault_name, no_memory};
ghost use Rattle.rdf_terms.specs.declared.fault.NoMemory.{NoMemory};
ghost use Rattle.rdf_terms.specs.declared.fault.IriFault.TheVariants as fault;

use std::alloc::{AllocError, AllocFailed};
use thiserror::Error;

/// A growth was refused for want of memory. What the call was lent is as it was before. One is made
/// of the allocator's refusal alone.
#[derive(Clone, Copy, Debug, PartialEq, Eq, Error)]
#[error("no memory")]
pub struct NoMemory {
    cause: AllocError,
}

impl NoMemory {
    /// The word that is printed for the refusal.
    pub fn name(&self) -> &'static str
        ensures { result.now ≡ codes "NoMemory" }
    {
        "NoMemory"
    }
}

impl From<AllocError> for NoMemory {
    fn from(e: AllocError) -> NoMemory {
        NoMemory { cause: e }
    }
}

impl<T: Drop> From<AllocFailed<T>> for NoMemory {
    fn from(e: AllocFailed<T>) -> NoMemory {
        NoMemory {
            cause: AllocError::from(e),
        }
    }
}

/// What an append answered; where it was refused, the list keeps only its first items, as many as it
/// had before.
///
/// # Errors
/// The refusal.
pub fn or_truncate<T: Drop>(
    appended: Result<(), NoMemory>,
    out: &mut Vec<T>,
    before: usize,
) -> Result<(), NoMemory>
    ensures answer { result ≡ appended }
    ensures ok { OnOk result (out.new.items ≡ out.old.items) }
    ensures err { OnErr result (out.new.items ≡ take before out.old.items) }
{
    if appended.is_err() {
        out.truncate(before);
    }
    appended
}

/// Why a text is no IRI (RDF 1.1 Concepts, section 3.2).
#[derive(Clone, Copy, Debug, PartialEq, Eq, Error)]
pub enum IriFault {
    /// The text has no scheme.
    #[error("the IRI has no scheme")]
    Relative,
    /// The text has a character that stands in no IRI.
    #[error("the IRI has a character that may not stand there")]
    BadCharacter,
    /// A growth was refused.
    #[error("no memory")]
    NoMemory(NoMemory),
}

impl IriFault {
    /// The word that is printed for the refusal.
    pub fn name(&self) -> &'static str
        ensures { result.now ≡ iri_fault_name self.now }
    {
        match self {
            IriFault::Relative => "Relative",
            IriFault::BadCharacter => "BadCharacter",
            IriFault::NoMemory(fault) => fault.name(),
        }
    }
}

impl From<NoMemory> for IriFault {
    ghost from_gives = { λ x e. e ≡ fault.NoMemory x };

    fn from(e: NoMemory) -> IriFault {
        IriFault::NoMemory(e)
    }
}

impl From<AllocError> for IriFault {
    ghost from_gives = { λ _ e. e ≡ no_memory };

    fn from(e: AllocError) -> IriFault {
        IriFault::NoMemory(NoMemory::from(e))
    }
}
