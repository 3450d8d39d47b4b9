//! Tokens as the standards' own texts have them.
ghost use Rattle.rdf_tokens.specs.Examples.{ClassTable, TokenTable};

/// The classes of characters have just these characters of ASCII, and the tokens of the standards' own
/// texts are of these kinds, with no longer one at the front (Turtle 1.1, sections 2 and 6.5; SPARQL 1.1
/// Query, sections 4.1 and 19.8).
pub fn the_standards_tokens_are_read()
    ensures classes { ClassTable }
    ensures tokens { TokenTable }
{}
