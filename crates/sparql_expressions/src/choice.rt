//! What the next lexeme chooses in an expression (SPARQL 1.1 Query, section 19.8).

ghost use Rattle.std.specs.Prelude.{◌≡◌};
ghost use Rattle.sparql_expressions.specs.ExpressionReading as spec;

use sparql_terminals::Terminal;
use sparql_trees::{Comparison, Function, Sign};

/// The comparison that this terminal is, if it is one (114: RelationalExpression).
pub fn comparison(terminal: Option<Terminal>) -> Option<Comparison>
    ensures { result ≡ spec.comparison_by terminal }
{
    match terminal {
        Some(Terminal::Equal) => Some(Comparison::Equal),
        Some(Terminal::NotEqual) => Some(Comparison::NotEqual),
        Some(Terminal::Less) => Some(Comparison::Less),
        Some(Terminal::Greater) => Some(Comparison::Greater),
        Some(Terminal::LessOrEqual) => Some(Comparison::LessOrEqual),
        Some(Terminal::GreaterOrEqual) => Some(Comparison::GreaterOrEqual),
        _ => None,
    }
}

/// The sign that this terminal is, if it stands alone (116: AdditiveExpression).
pub fn sign(terminal: Option<Terminal>) -> Option<Sign>
    ensures { result ≡ spec.sign_by terminal }
{
    match terminal {
        Some(Terminal::Plus) => Some(Sign::Plus),
        Some(Terminal::Minus) => Some(Sign::Minus),
        _ => None,
    }
}

/// The function that this terminal is the word of, if it takes one value (121: BuiltInCall).
pub fn function(terminal: Option<Terminal>) -> Option<Function>
    ensures { result ≡ spec.function_by terminal }
{
    match terminal {
        Some(Terminal::IsIri | Terminal::IsUri) => Some(Function::IsIri),
        Some(Terminal::IsBlank) => Some(Function::IsBlank),
        Some(Terminal::IsLiteral) => Some(Function::IsLiteral),
        Some(Terminal::Str) => Some(Function::Str),
        Some(Terminal::Lang) => Some(Function::Lang),
        Some(Terminal::Datatype) => Some(Function::Datatype),
        _ => None,
    }
}

/// Whether another operand of a sum begins with this terminal (116: AdditiveExpression).
pub fn begins_addend(terminal: Option<Terminal>) -> bool
    ensures { result ≡ spec.begins_addend terminal }
{
    matches!(
        terminal,
        Some(
            Terminal::Plus
                | Terminal::Minus
                | Terminal::SignedInteger
                | Terminal::SignedDecimal
                | Terminal::SignedDouble
        )
    )
}
