//! Why bytes are not taken for a state.
ghost use Rattle.std.specs.Prelude.{◌≡◌, codes};
ghost use Rattle.rdf_lines.specs.FaultName.{state_fault_name};
ghost use Rattle.rdf_lines.specs.declared.state_text.fault.StateFault.TheVariants.{NoMemory as NoMemoryFault};

use rdf_terms::NoMemory;
use thiserror::Error;

/// Why bytes are not taken for a state.
#[derive(Clone, Copy, Debug, Error, PartialEq, Eq)]
pub enum StateFault {
    /// They are the text of no sound state.
    #[error("NotState")]
    NotState,
    /// Memory was wanting.
    #[error("NoMemory")]
    NoMemory(NoMemory),
}

impl StateFault {
    /// The printed word.
    pub fn name(self) -> &'static str
        ensures { result.now ≡ state_fault_name self }
    {
        match self {
            StateFault::NotState => "NotState",
            StateFault::NoMemory(refusal) => refusal.name(),
        }
    }
}

impl From<NoMemory> for StateFault {
    ghost from_gives = { λ refusal e. e ≡ NoMemoryFault refusal };

    fn from(refusal: NoMemory) -> StateFault {
        StateFault::NoMemory(refusal)
    }
}
