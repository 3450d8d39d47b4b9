//! Why what is written says nothing.
ghost use Rattle.std.specs.Prelude.{◌≡◌};
ghost use Rattle.sparql_drafts.specs.Kept as spec;

use rdf_grammar::PrologueFault;
use rdf_terms::NoMemory;
use thiserror::Error;

/// Why what is written says nothing.
#[derive(Clone, Copy, Debug, Error, PartialEq, Eq)]
pub enum DraftFault {
    /// A name has no IRI: its prefix isn't declared before it, or it is a relative reference and there
    /// is no base.
    #[error("NoIri")]
    NoIri,
    /// Memory was wanting.
    #[error("NoMemory")]
    NoMemory(NoMemory),
}

impl From<NoMemory> for DraftFault {
    ghost use Rattle.sparql_drafts.specs.declared.fault.DraftFault.TheVariants.{NoMemory as WantsMemory};

    ghost from_gives = { λ e f. f ≡ WantsMemory e };

    fn from(e: NoMemory) -> DraftFault {
        DraftFault::NoMemory(e)
    }
}

fn fault_of(fault: PrologueFault) -> DraftFault
    ensures { result ≡ spec.fault_of fault }
{
    match fault {
        PrologueFault::UnknownPrefix(_) | PrologueFault::Relative(_) => DraftFault::NoIri,
        PrologueFault::NoMemory(refused) => DraftFault::NoMemory(refused),
    }
}

/// What the prologue told, or the fault of what asked it.
pub(crate) fn or_fault<T: Drop>(told: Result<T, PrologueFault>) -> Result<T, DraftFault>
    ensures { result ≡ spec.or_fault told }
{
    match told {
        Ok(value) => Ok(value),
        Err(fault) => Err(fault_of(fault)),
    }
}
