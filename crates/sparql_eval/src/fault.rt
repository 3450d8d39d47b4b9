//! Why a request is refused.
ghost use Rattle.std.specs.Prelude.{◌≡◌};
ghost use Rattle.sparql_eval.specs.Faults.{name_of};
ghost use Rattle.sparql_eval.specs.declared.fault.ApplyFault.TheVariants.{NoMemory};

use rdf_terms::NoMemory as NoMemoryFault;
use thiserror::Error;

/// Why an operation was refused.
#[derive(Clone, Copy, Debug, PartialEq, Eq, Error)]
pub enum ApplyFault {
    /// A graph that the operation needs isn't there.
    #[error("there is no such graph")]
    MissingGraph,
    /// A graph that the operation makes is there already.
    #[error("the graph is there already")]
    GraphExists,
    /// New blank nodes would bring the counter past 10^18.
    #[error("no blank numbers are left")]
    BlankNumbers,
    /// Memory is wanting.
    #[error("no memory")]
    NoMemory(NoMemoryFault),
}

impl ApplyFault {
    /// The word that is printed for the fault.
    pub fn name(&self) -> &'static str
        ensures { result.now ≡ name_of self.now }
    {
        match self {
            ApplyFault::MissingGraph => "MissingGraph",
            ApplyFault::GraphExists => "GraphExists",
            ApplyFault::BlankNumbers => "BlankNumbers",
            ApplyFault::NoMemory(refused) => refused.name(),
        }
    }
}

impl From<NoMemoryFault> for ApplyFault {
    ghost from_gives = { λ refused e. e ≡ NoMemory refused };

    fn from(refused: NoMemoryFault) -> ApplyFault {
        ApplyFault::NoMemory(refused)
    }
}
