//! Requests, from lexemes to their trees.

ghost use Rattle.std.specs.Prelude.{◌≡◌, List, IfOk, IfErr};
ghost use Rattle.sparql_grammar.specs.declared.tree.Part.{Part as Tree};
ghost use Rattle.sparql_grammar.specs.OperationGrammar.{IsRequest};
ghost use Rattle.sparql_grammar.specs.Stops.{Explains};

use crate::operations::request;
use crate::tree::Part;
use rdf_grammar::GrammarFault;
use rdf_terms::Items;
use sparql_terminals::Parser;

/// The parts of the request that all of the lexemes are (SPARQL 1.1 Query, section 19.8, rule 29:
/// Update), in the order of the text.
///
/// # Errors
/// `Syntax` where the lexemes are no request, or open more than 100 brackets at once: the next lexeme
/// is then the first with which none can begin, and none is left where only more of them could make
/// one. `NoMemory` where memory is wanting.
pub fn parse_update<'a>(parser: &mut Parser<'_, 'a>) -> Result<Items<Part<'a>>, GrammarFault>
    // What is read is derived from the lexemes, and nothing else is.
    ensures found { IfOk result (λ parts. IsRequest parser.old parts) }
    ensures only { (parts : List Tree) →
        IsRequest parser.old parts → IfOk result (λ found. found ≡ parts) }

    ensures fault { IfErr result (λ fault. Explains parser.old fault) }
{
    request(parser)
}
