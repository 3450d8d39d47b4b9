//! Terms as operands, and their effective boolean values (SPARQL 1.1 Query, sections 17.1 and
//! 17.2.2).
ghost use Rattle.std.specs.Prelude.{◌≡◌};
ghost use Rattle.rdf_terms.specs.Literal.{xsd_string};
ghost use Rattle.rdf_terms.specs.Vocabulary.{xsd_boolean, xsd_integer};
ghost use Rattle.rdf_terms.specs.Integers.{is_integer_form};
ghost use Rattle.sparql_values.specs.Values.{boolean_operand, effective, has_datatype, integer_truth, is_not_empty, is_not_zero, is_written_false, is_written_true, literal_operand, literal_truth, operand, untagged_truth};
ghost use Rattle.sparql_values.specs.Operands.{IsOf, operand_of};
ghost use Rattle.std.specs.Char.{is_ascii_digit};
ghost use Rattle.std.specs.List.{list_all};
ghost use Rattle.std.specs.Str.Parse.{without_leading_sign};

use rdf_terms::{Literal, Term, integer_value};

/// A term as an operand.
#[derive(Clone, Copy, Drop)]
pub enum Operand<'a> {
    /// A whole number.
    Number(i128),
    /// A truth value.
    Boolean(bool),
    /// A string without a language tag.
    Text(&'a str),
    /// Another literal.
    Opaque(&'a Term),
    /// An IRI or a blank node.
    Resource(&'a Term),
}

fn is_string(literal: &Literal) -> bool
    ensures { result ≡ has_datatype xsd_string literal.now }
{
    literal.datatype().as_str() == "http://www.w3.org/2001/XMLSchema#string"
}

fn is_boolean(literal: &Literal) -> bool
    ensures { result ≡ has_datatype xsd_boolean literal.now }
{
    literal.datatype().as_str() == "http://www.w3.org/2001/XMLSchema#boolean"
}

fn is_integer(literal: &Literal) -> bool
    ensures { result ≡ has_datatype xsd_integer literal.now }
{
    literal.datatype().as_str() == "http://www.w3.org/2001/XMLSchema#integer"
}

fn is_written_true(lexical: &str) -> bool
    ensures { result ≡ is_written_true lexical.now }
{
    lexical == "true" || lexical == "1"
}

fn is_written_false(lexical: &str) -> bool
    ensures { result ≡ is_written_false lexical.now }
{
    lexical == "false" || lexical == "0"
}

// A literal, which the term is, as an operand.
fn literal_operand<'a>(term: &'a Term, literal: &'a Literal) -> Operand<'a>
    ensures value { operand_of result ≡ literal_operand literal.now }
    ensures term { IsOf result term.now }
{
    if is_string(literal) {
        return Operand::Text(literal.lexical());
    }
    if is_boolean(literal) {
        return boolean_operand(term, literal.lexical());
    }
    match integer_value(literal) {
        Some(number) => Operand::Number(number),
        None => Operand::Opaque(term),
    }
}

// A literal, which the term is, whose datatype is xsd:boolean.
fn boolean_operand<'a>(term: &'a Term, lexical: &str) -> Operand<'a>
    ensures value { operand_of result ≡ boolean_operand lexical.now }
    ensures term { IsOf result term.now }
{
    if is_written_true(lexical) {
        Operand::Boolean(true)
    } else if is_written_false(lexical) {
        Operand::Boolean(false)
    } else {
        Operand::Opaque(term)
    }
}

/// A term as an operand.
pub(crate) fn as_operand(term: &Term) -> Operand<'_>
    ensures value { operand_of result ≡ operand term.now }
    ensures term { IsOf result term.now }
{
    match term {
        Term::Literal(literal) => literal_operand(term, literal),
        Term::Iri(_) | Term::Blank(_) => Operand::Resource(term),
    }
}

fn are_digits(text: &[u8]) -> bool
    ensures { result ≡ list_all is_ascii_digit text.now }
{
    text.iter().all(|b| b.is_ascii_digit())
}

// The text behind its sign, if it has one.
fn behind_sign(text: &[u8]) -> &[u8]
    ensures { result.now ≡ without_leading_sign text.now }
{
    match text {
        [b'+' | b'-', digits @ ..] => digits,
        _ => text,
    }
}

#[tactic(auto, using(crate::proofs::FormLemmas::form_none, crate::proofs::FormLemmas::form_some))]
fn is_integer_form(text: &[u8]) -> bool
    ensures { result ≡ is_integer_form text.now }
{
    let digits = behind_sign(text);
    !digits.is_empty() && are_digits(digits)
}

pub(crate) fn is_not_zero(number: i128) -> bool
    ensures { result ≡ is_not_zero number }
{
    number != 0
}

// Of a literal whose datatype is xsd:integer.
fn integer_truth(literal: &Literal) -> Option<bool>
    ensures { result ≡ integer_truth literal.now }
{
    match integer_value(literal) {
        Some(number) => Some(is_not_zero(number)),
        None if is_integer_form(literal.lexical().as_bytes()) => None,
        None => Some(false),
    }
}

fn untagged_truth(literal: &Literal) -> Option<bool>
    ensures { result ≡ untagged_truth literal.now }
{
    if is_boolean(literal) {
        return Some(is_written_true(literal.lexical()));
    }
    if is_integer(literal) {
        return integer_truth(literal);
    }
    if is_string(literal) {
        Some(!literal.lexical().is_empty())
    } else {
        None
    }
}

fn literal_truth(literal: &Literal) -> Option<bool>
    ensures { result ≡ literal_truth literal.now literal.now.tag }
{
    match literal.tag() {
        Some(_) => Some(!literal.lexical().is_empty()),
        None => untagged_truth(literal),
    }
}

/// The effective boolean value of a term; `None` where it is an error.
pub(crate) fn effective(term: &Term) -> Option<bool>
    ensures { result ≡ effective term.now }
{
    match term {
        Term::Literal(literal) => literal_truth(literal),
        Term::Iri(_) | Term::Blank(_) => None,
    }
}
