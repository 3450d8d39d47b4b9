//! Whole numbers (SPARQL 1.1 Query, section 17.3). A result past 128 bits is an error: `None`.
ghost use Rattle.std.specs.Prelude.{◌≡◌, ◌+ℤ◌, ◌-ℤ◌};
ghost use Rattle.std.specs.Option.{option_and_then};
ghost use Rattle.sparql_values.specs.Values.{on_both, plus_or_minus, signed, times, within};
ghost use Rattle.sparql_trees.specs.declared.expression.Sign.TheVariants.{Minus, Plus};

use sparql_trees::Sign;

#[tactic(auto, using(crate::proofs::NumberLemmas::checked))]
fn sum(a: i128, sign: Sign, b: i128) -> Option<i128>
    ensures { result ≡ within (plus_or_minus sign a b) }
{
    match sign {
        Sign::Plus => a.checked_add(b),
        Sign::Minus => a.checked_sub(b),
    }
}

#[tactic(auto, using(crate::proofs::NumberLemmas::checked))]
fn product(a: i128, b: i128) -> Option<i128>
    ensures { result ≡ within (times a b) }
{
    a.checked_mul(b)
}

/// The sum or the difference of two numbers.
pub(crate) fn added(x: Option<i128>, sign: Sign, y: Option<i128>) -> Option<i128>
    ensures { result ≡ on_both (plus_or_minus sign) x y }
{
    match (x, y) {
        (Some(a), Some(b)) => sum(a, sign, b),
        _ => None,
    }
}

/// The product of two numbers.
pub(crate) fn multiplied(x: Option<i128>, y: Option<i128>) -> Option<i128>
    ensures { result ≡ on_both times x y }
{
    match (x, y) {
        (Some(a), Some(b)) => product(a, b),
        _ => None,
    }
}

#[tactic(auto, using(crate::proofs::NumberLemmas::checked))]
fn with_sign(sign: Sign, a: i128) -> Option<i128>
    ensures { result ≡ signed sign a }
{
    match sign {
        Sign::Plus => Some(a),
        Sign::Minus => a.checked_neg(),
    }
}

/// A number behind a sign.
pub(crate) fn signed(sign: Sign, x: Option<i128>) -> Option<i128>
    ensures { result ≡ option_and_then (signed sign) x }
{
    match x {
        Some(a) => with_sign(sign, a),
        None => None,
    }
}
