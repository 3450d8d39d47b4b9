//! Why a text has no token list.
ghost use Rattle.std.specs.Prelude.{◌≡◌};
ghost use Rattle.rdf_terms.specs.declared.fault.NoMemory.{NoMemory as Refused};
ghost use Rattle.rdf_tokens.specs.Faults.{fault_name};
ghost use Rattle.rdf_tokens.specs.declared.fault.TokenFault.TheVariants.{NoMemory as WantOfMemory};

use rdf_terms::NoMemory;
use std::alloc::AllocFailed;
use thiserror::Error;

/// Why a text has no token list.
#[derive(Clone, Copy, Debug, Error, PartialEq, Eq)]
pub enum TokenFault {
    /// No token begins at this byte of the text, the first such.
    #[error("no token begins at byte {0}")]
    NoToken(usize),
    /// Memory was wanting.
    #[error("no memory")]
    NoMemory(NoMemory),
}

impl TokenFault {
    /// The printed word.
    pub fn name(self) -> &'static str
        ensures { result.now ≡ fault_name self }
    {
        match self {
            TokenFault::NoToken(_) => "Token",
            TokenFault::NoMemory(_) => "NoMemory",
        }
    }
}

impl<T: Drop> From<AllocFailed<T>> for TokenFault {
    ghost from_gives = { λ _ e. (why : Refused) × (e ≡ WantOfMemory why) };

    fn from(e: AllocFailed<T>) -> TokenFault {
        TokenFault::NoMemory(NoMemory::from(e))
    }
}
