//! The token list of a text, with Turtle's faults.
ghost use Rattle.std.specs.Prelude.{◌≡◌, List, Ok, IfOk, IfErr};
ghost use Rattle.std.specs.Str.{chars};
ghost use Rattle.rdf_tokens.specs.Tokens.{Tokenizes};
ghost use Rattle.rdf_tokens.specs.declared.token.Token.{Token as Held};
ghost use Rattle.rdf_turtle.specs.Inside.LinedFaults.{turtle_fault};
ghost use Rattle.rdf_turtle.specs.TokenFaults.{IsTokenFault};
ghost use Rattle.rdf_turtle.specs.declared.fault.TurtleFaultKind.TheVariants as faults;

use crate::fault::{TurtleFault, TurtleFaultKind};
use rdf_tokens::{Token, TokenFault, line_at};
use std::alloc::Global;

// The fault of a text that has no token list.
fn turtle_fault(text: &str, fault: TokenFault) -> TurtleFault
    ensures { result ≡ turtle_fault text.now fault }
{
    match fault {
        TokenFault::NoToken(place) => TurtleFault {
            line: line_at(text.as_bytes(), place),
            kind: TurtleFaultKind::Token,
        },
        TokenFault::NoMemory(refusal) => TurtleFault {
            line: 0,
            kind: TurtleFaultKind::NoMemory(refusal),
        },
    }
}

/// The tokens of a text (Turtle 1.1, section 6.5; SPARQL 1.1 Query, section 19.8), each the longest that
/// begins at its place, with white space and comments between them.
///
/// # Errors
/// [`TurtleFaultKind::Token`] where somewhere no token begins: the text then has no token list, and the
/// line is that of the first such place. [`TurtleFaultKind::NoMemory`], with line 0, where memory is wanting.
pub fn tokens(alloc: Global, text: &str) -> Result<Vec<Token>, TurtleFault>
    ensures said { IfOk result (λ list. Tokenizes (chars text.now) (Ok list.items)) }
    ensures fault { IfErr result (λ e. IsTokenFault text.now e) }
    ensures none { IfErr result (λ e. e.kind ≡ faults.Token → (list : List Held) →
        ¬ Tokenizes (chars text.now) (Ok list)) }
{
    match rdf_tokens::tokens(alloc, text) {
        Ok(list) => Ok(list),
        Err(fault) => Err(turtle_fault(text, fault)),
    }
}
