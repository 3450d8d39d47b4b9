//! The value of an expression (SPARQL 1.1 Query, section 17.2).
ghost use Rattle.std.specs.Prelude.{◌≡◌, IfOk, IfSome, Some, true, false, map, pos};
ghost use Rattle.std.specs.List.{fold};
ghost use Rattle.std.specs.Option.{option_map, option_and_then};
ghost use Rattle.sparql_values.specs.Mapping.{same_term};
ghost use Rattle.sparql_values.specs.Operands.{term_of};
ghost use Rattle.sparql_values.specs.Scopes.{value_in, truth_in, number_at, signed_values};
ghost use Rattle.sparql_values.specs.Values.{added, both, called, compared, either, is_satisfied, negated, on_both, signed, times};
ghost use Rattle.sparql_values.specs.Mapping as mapping;

use crate::columns::Columns;
use crate::comparison::comparison;
use crate::function::{are_same, called};
use crate::mapping::value_of;
use crate::number::{added, multiplied, signed};
use crate::sorted_names::SortedNames;
use crate::truth::{both, either, is_true, negated};
use crate::value::{Value, number, number_value, of_term, truth, truth_value};
use rdf_terms::{NoMemory, Term, Text, Vocabulary};
use sparql_trees::{Comparison, Expression, Function, Sign};
use std::alloc::Global;

/// Where an expression is worked out.
#[derive(Drop)]
pub struct Scope<'a> {
    pub alloc: Global,
    pub vocabulary: &'a Vocabulary,
    pub variables: &'a SortedNames,
    pub row: &'a Columns,
}

fn bound<'a>(scope: &Scope<'a>, name: &Text) -> Option<&'a Term>
    ensures { option_map (λ t. t.now) result
        ≡ mapping.value_of scope.now.variables.now scope.now.row.now name.now }
{
    value_of(scope.variables, scope.row, name)
}

// What a variable or a constant stands for; `None` of any other expression.
fn plain<'a>(scope: &Scope<'a>, expression: &'a Expression) -> Option<Option<&'a Term>>
    ensures { IfSome result (λ t. option_map (λ t. t.now) t ≡ value_in scope.now expression.now) }
{
    match expression {
        Expression::Variable(name) => Some(bound(scope, name)),
        Expression::Term(term) => Some(Some(term)),
        _ => None,
    }
}

// What a comparison of variables and constants answers; `None` of any other expression.
fn plain_comparison<'a>(scope: &Scope<'a>, expression: &'a Expression) -> Option<Option<bool>>
    ensures { IfSome result (λ t. t ≡ truth_in scope.now expression.now) }
{
    match expression {
        Expression::Compare(operator, x, y) => {
            let x = plain(scope, x.get())?;
            let y = plain(scope, y.get())?;
            Some(comparison(*operator, &of_term(x), &of_term(y)))
        }
        _ => None,
    }
}

#[cycle(value)]
fn value<'a>(scope: &Scope<'a>, expression: &'a Expression) -> Result<Option<Value<'a>>, NoMemory>
    ensures { IfOk result (λ v. option_map term_of v ≡ value_in scope.now expression.now) }
{
    match expression {
        Expression::Or(operands) => truth_value(any(scope, operands.as_slice())),
        Expression::And(operands) => truth_value(all(scope, operands.as_slice())),
        Expression::Compare(operator, x, y) => {
            let x = value(scope, x.get())?;
            truth_value(compared_with(scope, *operator, x, y.get()))
        }
        Expression::Sum(first, others) => {
            let first = number_at(scope, first.get())?;
            number_value(sum(scope, first, others.as_slice()))
        }
        Expression::Product(factors) => number_value(product(scope, factors.as_slice())),
        Expression::Not(x) => truth_value(negated_at(scope, x.get())),
        Expression::Signed(sign, x) => number_value(signed_at(scope, *sign, x.get())),
        Expression::Variable(name) => Ok(of_term(bound(scope, name))),
        Expression::Term(term) => Ok(Some(Value::Held(term))),
        Expression::Bound(name) => Ok(Some(Value::Truth(bound(scope, name).is_some()))),
        Expression::SameTerm(x, y) => {
            let x = value(scope, x.get())?;
            truth_value(same_as(scope, x, y.get()))
        }
        Expression::Call(function, x) => called_at(scope, *function, x.get()),
    }
}

// A value compared with another.
#[cycle(value)]
fn compared_with<'a>(
    scope: &Scope<'a>,
    operator: Comparison,
    x: Option<Value<'a>>,
    y: &'a Expression,
) -> Result<Option<bool>, NoMemory>
    ensures { IfOk result (λ t. t ≡ option_and_then
        (λ a. option_and_then (compared operator a) (value_in scope.now y.now))
        (option_map term_of x.entry)) }
{
    let y = value(scope, y)?;
    Ok(comparison(operator, &x, &y))
}

// SAMETERM of a value and another.
#[cycle(value)]
fn same_as<'a>(
    scope: &Scope<'a>,
    x: Option<Value<'a>>,
    y: &'a Expression,
) -> Result<Option<bool>, NoMemory>
    ensures { IfOk result (λ t. t ≡ option_and_then
        (λ a. option_map (same_term a) (value_in scope.now y.now)) (option_map term_of x.entry)) }
{
    let y = value(scope, y)?;
    are_same(scope.alloc, scope.vocabulary, &x, &y)
}

#[cycle(value)]
fn called_at<'a>(
    scope: &Scope<'a>,
    function: Function,
    x: &'a Expression,
) -> Result<Option<Value<'a>>, NoMemory>
    ensures { IfOk result (λ v. option_map term_of v
        ≡ option_and_then (called function) (value_in scope.now x.now)) }
{
    let x = value(scope, x)?;
    called(scope.alloc, scope.vocabulary, function, &x)
}

#[cycle(value)]
fn truth_at<'a>(scope: &Scope<'a>, expression: &'a Expression) -> Result<Option<bool>, NoMemory>
    ensures { IfOk result (λ t. t ≡ truth_in scope.now expression.now) }
{
    match expression {
        Expression::Or(operands) => any(scope, operands.as_slice()),
        Expression::And(operands) => all(scope, operands.as_slice()),
        _ => match plain_comparison(scope, expression) {
            Some(answer) => Ok(answer),
            None => Ok(truth(&value(scope, expression)?)),
        },
    }
}

#[cycle(value)]
fn negated_at<'a>(scope: &Scope<'a>, expression: &'a Expression) -> Result<Option<bool>, NoMemory>
    ensures { IfOk result (λ t. t ≡ negated (truth_in scope.now expression.now)) }
{
    Ok(negated(truth_at(scope, expression)?))
}

#[cycle(value)]
fn number_at<'a>(scope: &Scope<'a>, expression: &'a Expression) -> Result<Option<i128>, NoMemory>
    ensures { IfOk result (λ n. n ≡ number_at scope.now expression.now) }
{
    Ok(number(&value(scope, expression)?))
}

#[cycle(value)]
fn signed_at<'a>(
    scope: &Scope<'a>,
    sign: Sign,
    expression: &'a Expression,
) -> Result<Option<i128>, NoMemory>
    ensures { IfOk result (λ n. n ≡ option_and_then (signed sign)
        (number_at scope.now expression.now)) }
{
    Ok(signed(sign, number_at(scope, expression)?))
}

// `||` between these; behind a true one nothing is worked out.
#[cycle(value)]
fn any<'a>(scope: &Scope<'a>, operands: &'a [Expression]) -> Result<Option<bool>, NoMemory>
    ensures { IfOk result (λ t. t ≡ fold either (Some false)
        (map (truth_in scope.now) operands.now)) }
{
    let mut so_far = Some(false);
    for operand in operands {
        if is_true(so_far) {
            break;
        }
        so_far = either(so_far, truth_at(scope, operand)?);
    }
    Ok(so_far)
}

// `&&` between these; behind a false one nothing is worked out.
#[cycle(value)]
fn all<'a>(scope: &Scope<'a>, operands: &'a [Expression]) -> Result<Option<bool>, NoMemory>
    ensures { IfOk result (λ t. t ≡ fold both (Some true)
        (map (truth_in scope.now) operands.now)) }
{
    let mut so_far = Some(true);
    for operand in operands {
        if is_true(negated(so_far)) {
            break;
        }
        so_far = both(so_far, truth_at(scope, operand)?);
    }
    Ok(so_far)
}

// `+` and `-` of these to and from a number.
#[cycle(value)]
fn sum<'a>(
    scope: &Scope<'a>,
    first: Option<i128>,
    others: &'a [(Sign, Expression)],
) -> Result<Option<i128>, NoMemory>
    ensures { IfOk result (λ n. n ≡ fold added first (signed_values scope.now others.now)) }
{
    let mut so_far = first;
    for (sign, term) in others {
        so_far = added(so_far, *sign, number_at(scope, term)?);
    }
    Ok(so_far)
}

// `*` between these.
#[cycle(value)]
fn product<'a>(scope: &Scope<'a>, factors: &'a [Expression]) -> Result<Option<i128>, NoMemory>
    ensures { IfOk result (λ n. n ≡ fold (on_both times) (Some (pos 1))
        (map (number_at scope.now) factors.now)) }
{
    let mut so_far = Some(1);
    for factor in factors {
        so_far = multiplied(so_far, number_at(scope, factor)?);
    }
    Ok(so_far)
}

/// Whether a solution, whose row has the values of these variables, passes a FILTER: the
/// expression's effective boolean value is true, neither false nor an error (section 18.5).
///
/// # Errors
/// [`NoMemory`] where memory is wanting.
pub fn is_satisfied(
    alloc: Global,
    variables: &SortedNames,
    row: &Columns,
    vocabulary: &Vocabulary,
    expression: &Expression,
) -> Result<bool, NoMemory>
    ensures { IfOk result (λ passes. passes
        ≡ is_satisfied (mapping.value_of variables.now row.now) expression.now) }
{
    let scope = Scope {
        alloc,
        vocabulary: &*vocabulary,
        variables: &*variables,
        row: &*row,
    };
    Ok(is_true(truth_at(&scope, &*expression)?))
}
