//! What an expression is while it is worked out: a term is made of a number or of a truth value
//! only where it is wanted as one.
ghost use Rattle.std.specs.Prelude.{◌≡◌, IfOk, IsOkAnd};
ghost use Rattle.std.specs.Option.{option_map};
ghost use Rattle.sparql_values.specs.Operands.{IsOf, held, operand_of, term_of};
ghost use Rattle.sparql_values.specs.Values.{boolean_term, boolean_text, effective, number_in, of_number, of_truth, operand, truth};

use crate::literal::{Operand, as_operand, effective, is_not_zero};
use rdf_terms::{Literal, NoMemory, Term, Vocabulary, integer_literal};
use std::alloc::Global;

/// The value of an expression.
#[derive(Drop)]
pub enum Value<'a> {
    /// A term that stood there: what a solution binds, or a constant.
    Held(&'a Term),
    /// A term that was made.
    Made(Term),
    /// An xsd:boolean, `true` or `false`.
    Truth(bool),
    /// An xsd:integer in its canonical form.
    Number(i128),
}

fn boolean_text(truth: bool) -> &'static str
    ensures { result.now ≡ boolean_text truth }
{
    if truth { "true" } else { "false" }
}

fn boolean_term(alloc: Global, vocabulary: &Vocabulary, truth: bool) -> Result<Term, NoMemory>
    ensures { IfOk result (λ t. t ≡ boolean_term truth) }
{
    let datatype = vocabulary.xsd_boolean().copy()?;
    Ok(Term::Literal(Literal::new(alloc, boolean_text(truth), datatype)?))
}

impl<'a> Value<'a> {
    /// The term, where there is one.
    pub(crate) fn held(&self) -> Option<&Term>
        ensures { option_map (λ t. t.now) result ≡ held self.now }
    {
        match self {
            Value::Held(term) => Some(term),
            Value::Made(term) => Some(term),
            Value::Truth(_) | Value::Number(_) => None,
        }
    }

    /// The term, made where there was none.
    ///
    /// # Errors
    /// [`NoMemory`] where memory is wanting.
    pub(crate) fn term(&self, alloc: Global, vocabulary: &Vocabulary) -> Result<Term, NoMemory>
        ensures { IfOk result (λ t. t ≡ term_of self.now) }
    {
        match self {
            Value::Held(term) => term.copy(),
            Value::Made(term) => term.copy(),
            Value::Truth(truth) => boolean_term(alloc, vocabulary, *truth),
            Value::Number(number) => {
                Ok(Term::Literal(integer_literal(alloc, vocabulary, *number)?))
            }
        }
    }

    /// The value as an operand.
    #[tactic(auto, using(crate::proofs::NumberLemmas::integer_operand))]
    pub(crate) fn operand(&self) -> Operand<'_>
        ensures value { operand_of result ≡ operand (term_of self.now) }
        ensures term { IsOf result (term_of self.now) }
    {
        match self {
            Value::Held(term) => as_operand(term),
            Value::Made(term) => as_operand(term),
            Value::Truth(truth) => Operand::Boolean(*truth),
            Value::Number(number) => Operand::Number(*number),
        }
    }

    /// Its effective boolean value; `None` where it is an error.
    #[tactic(auto, using(crate::proofs::NumberLemmas::integer_effective))]
    fn truth(&self) -> Option<bool>
        ensures { result ≡ effective (term_of self.now) }
    {
        match self {
            Value::Held(term) => effective(term),
            Value::Made(term) => effective(term),
            Value::Truth(truth) => Some(*truth),
            Value::Number(number) => Some(is_not_zero(*number)),
        }
    }
}

/// The effective boolean value; an error where the value is one.
pub(crate) fn truth(value: &Option<Value<'_>>) -> Option<bool>
    ensures { result ≡ truth (option_map term_of value.now) }
{
    match value {
        Some(value) => value.truth(),
        None => None,
    }
}

/// The whole number; an error where the value is one or no whole number.
pub(crate) fn number(value: &Option<Value<'_>>) -> Option<i128>
    ensures { result ≡ number_in (option_map term_of value.now) }
{
    match value {
        Some(value) => match value.operand() {
            Operand::Number(number) => Some(number),
            _ => None,
        },
        None => None,
    }
}

/// The value that is this term.
pub(crate) fn of_term(term: Option<&Term>) -> Option<Value<'_>>
    ensures { option_map term_of result ≡ option_map (λ t. t.now) term.entry }
{
    match term {
        Some(term) => Some(Value::Held(term)),
        None => None,
    }
}

// The value that is this truth.
fn of_truth<'a>(truth: Option<bool>) -> Option<Value<'a>>
    ensures { option_map term_of result ≡ of_truth truth }
{
    match truth {
        Some(truth) => Some(Value::Truth(truth)),
        None => None,
    }
}

// The value that is this number.
fn of_number<'a>(number: Option<i128>) -> Option<Value<'a>>
    ensures { option_map term_of result ≡ of_number number }
{
    match number {
        Some(number) => Some(Value::Number(number)),
        None => None,
    }
}

/// The value that is this answer, where there is one.
///
/// # Errors
/// That of the answer.
pub(crate) fn truth_value<'a>(
    answer: Result<Option<bool>, NoMemory>,
) -> Result<Option<Value<'a>>, NoMemory>
    ensures { IfOk result (λ v. IsOkAnd answer (λ t. option_map term_of v ≡ of_truth t)) }
{
    Ok(of_truth(answer?))
}

/// The value that is this number, where there is one.
///
/// # Errors
/// That of the number.
pub(crate) fn number_value<'a>(
    number: Result<Option<i128>, NoMemory>,
) -> Result<Option<Value<'a>>, NoMemory>
    ensures { IfOk result (λ v. IsOkAnd number (λ n. option_map term_of v ≡ of_number n)) }
{
    Ok(of_number(number?))
}
