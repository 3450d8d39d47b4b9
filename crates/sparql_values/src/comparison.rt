//! Comparisons (SPARQL 1.1 Query, sections 17.3 and 17.4.1.7).
ghost use Rattle.std.specs.Prelude.{◌≡◌};
ghost use Rattle.std.specs.Option.{option_map, option_and_then};
ghost use Rattle.std.specs.Ordering.{int_eq};
ghost use Rattle.sparql_values.specs.Mapping.{same_term};
ghost use Rattle.sparql_values.specs.Values.{compared, equal, equal_by, is_before, less, less_by, same_text};
ghost use Rattle.sparql_values.specs.Operands.{are_same, operand_of, term_of};

use crate::literal::Operand;
use crate::truth::negated;
use crate::value::Value;
use rdf_terms::Term;
use sparql_trees::Comparison;

fn is_same_number(a: i128, b: i128) -> bool
    ensures { result ≡ int_eq a b }
{
    a == b
}

fn is_same_text(a: &str, b: &str) -> bool
    ensures { result ≡ same_text a.now b.now }
{
    a == b
}

fn is_before(a: &str, b: &str) -> bool
    ensures { result ≡ is_before a.now b.now }
{
    a.cmp(b).is_lt()
}

/// Whether two terms are the same.
pub(crate) fn is_same_term(a: &Term, b: &Term) -> bool
    ensures { result ≡ same_term a.now b.now }
{
    a.cmp(b).is_eq()
}

fn equal_by(a: Operand<'_>, b: Operand<'_>) -> Option<bool>
    ensures { result ≡ equal_by (are_same a.entry b.entry) (operand_of a.entry)
        (operand_of b.entry) }
{
    match (a, b) {
        (Operand::Number(a), Operand::Number(b)) => Some(is_same_number(a, b)),
        (Operand::Boolean(a), Operand::Boolean(b)) => Some(a == b),
        (Operand::Text(a), Operand::Text(b)) => Some(is_same_text(a, b)),
        (Operand::Resource(a), Operand::Resource(b)) => Some(is_same_term(a, b)),
        (Operand::Opaque(a), Operand::Opaque(b)) if is_same_term(a, b) => Some(true),
        (Operand::Resource(_), _) | (_, Operand::Resource(_)) => Some(false),
        _ => None,
    }
}

fn less_by(a: Operand<'_>, b: Operand<'_>) -> Option<bool>
    ensures { result ≡ less_by (operand_of a.entry) (operand_of b.entry) }
{
    match (a, b) {
        (Operand::Number(a), Operand::Number(b)) => Some(a < b),
        (Operand::Boolean(a), Operand::Boolean(b)) => Some(!a && b),
        (Operand::Text(a), Operand::Text(b)) => Some(is_before(a, b)),
        _ => None,
    }
}

fn equal(a: &Value<'_>, b: &Value<'_>) -> Option<bool>
    ensures { result ≡ equal (term_of a.now) (term_of b.now) }
{
    equal_by(a.operand(), b.operand())
}

fn less(a: &Value<'_>, b: &Value<'_>) -> Option<bool>
    ensures { result ≡ less (term_of a.now) (term_of b.now) }
{
    less_by(a.operand(), b.operand())
}

fn compared(operator: Comparison, a: &Value<'_>, b: &Value<'_>) -> Option<bool>
    ensures { result ≡ compared operator (term_of a.now) (term_of b.now) }
{
    match operator {
        Comparison::Equal => equal(a, b),
        Comparison::NotEqual => negated(equal(a, b)),
        Comparison::Less => less(a, b),
        Comparison::Greater => less(b, a),
        Comparison::LessOrEqual => negated(less(b, a)),
        Comparison::GreaterOrEqual => negated(less(a, b)),
    }
}

/// What an operator answers of two values; an error where one is.
pub(crate) fn comparison(
    operator: Comparison,
    x: &Option<Value<'_>>,
    y: &Option<Value<'_>>,
) -> Option<bool>
    ensures { result ≡ option_and_then
        (λ a. option_and_then (compared operator a) (option_map term_of y.now))
        (option_map term_of x.now) }
{
    match (x, y) {
        (Some(a), Some(b)) => compared(operator, a, b),
        _ => None,
    }
}
