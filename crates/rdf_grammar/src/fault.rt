//! Why lexemes are not read.
ghost use Rattle.std.specs.Prelude.{◌≡◌};
ghost use Rattle.rdf_grammar.specs.declared.fault.GrammarFault.TheVariants as fault;

use rdf_terms::NoMemory;
use thiserror::Error;

/// Why lexemes are not read, whatever the language.
#[derive(Clone, Copy, Debug, Error, PartialEq, Eq)]
pub enum GrammarFault {
    /// The grammar has no such lexemes.
    #[error("Syntax")]
    Syntax,
    /// Memory was wanting.
    #[error("NoMemory")]
    NoMemory(NoMemory),
}

impl From<NoMemory> for GrammarFault {
    ghost from_gives = { λ refusal e. e ≡ fault.NoMemory refusal };

    fn from(refusal: NoMemory) -> GrammarFault {
        GrammarFault::NoMemory(refusal)
    }
}
