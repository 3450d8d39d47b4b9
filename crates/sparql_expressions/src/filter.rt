//! What stands behind FILTER (SPARQL 1.1 Query, section 19.8).

ghost use Rattle.std.specs.Prelude.{◌<◌, length, OnOk};
ghost use Rattle.rdf_grammar.specs.Readings.{Reads};
ghost use Rattle.sparql_expressions.specs.ExpressionReading as spec;

use crate::expression::{bracketted, built_in_call};
use crate::tree::Expression;
use rdf_grammar::GrammarFault;
use sparql_terminals::{Parser, Terminal};

/// What stands behind FILTER (69: Constraint). The depth is how many parentheses may be open in its
/// own.
///
/// # Errors
/// `Syntax` where no such expression comes next.
#[tactic(auto, unfolding(crate::specs::ExpressionReading::constraint_with, crate::specs::ExpressionReading::built_in_call))]
pub fn constraint<'a>(
    parser: &mut Parser<'_, 'a>,
    depth: usize,
) -> Result<Expression<'a>, GrammarFault>
    ensures reads { Reads (spec.constraint depth parser.old) result parser.new }
    ensures shorter { OnOk result (length parser.new < length parser.old) }
{
    match parser.peek() {
        Some(Terminal::Open) => bracketted(parser, depth),
        _ => built_in_call(parser, depth),
    }
}
