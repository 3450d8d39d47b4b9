//! The whole numbers that literals stand for (XML Schema 1.1 Part 2, section 3.4.13).
ghost use Rattle.std.specs.Cmp.Lexicographic.{pointwise};
ghost use Rattle.std.specs.Prelude.{◌≡◌, nat_eq, pos, IfOk, IfSome, IsTrue};
ghost use Rattle.rdf_terms.specs.Integers.{integer_literal, integer_of, is_integer_form, written_integer};
ghost use Rattle.rdf_terms.specs.IntegerLaws.{CanonicalTextsAreDecimals, DecimalsAreCanonical, DecimalsAreRead, IntegersComeBack};
ghost use Rattle.rdf_terms.specs.Vocabulary.{xsd_integer};

use crate::fault::NoMemory;
use crate::iri::Iri;
use crate::literal::Literal;
use crate::vocabulary::Vocabulary;
use itoa::Buffer;
use std::alloc::Global;

/// The number that an xsd:integer stands for: its lexical form is one or more digits, with a sign
/// in front or none, and writes a number of 128 bits. `None` of any other literal.
#[tactic(auto, using(crate::proofs::IntegerLemmas::other_datatype))]
pub fn integer_value(literal: &Literal) -> Option<i128>
    ensures { result ≡ integer_of literal.now }
{
    if !is_xsd_integer(literal.datatype()) {
        return None;
    }
    let text = literal.lexical();
    match short_number(text.as_bytes()) {
        Some(number) => Some(i128::from(number)),
        None => text.parse().ok(),
    }
}

// A number of so many digits has 64 bits.
const FEW: usize = 18;

// The number that a few digits write, which costs less than one of 128 bits; `None` of any other
// text.
fn short_number(text: &[u8]) -> Option<u64>
    ensures form { IfSome result (λ _. IsTrue (is_integer_form text.now)) }
    ensures value { IfSome result (λ n. written_integer text.now ≡ pos n) }
{
    if text.is_empty() || FEW < text.len() {
        return None;
    }
    let mut number = 0;
    for digit in text {
        if *digit < b'0' || b'9' < *digit {
            return None;
        }
        number = number * 10 + u64::from(*digit - b'0');
    }
    Some(number)
}

/// The literal of datatype xsd:integer that is the number's own, in canonical form: without a plus
/// sign or leading zeros. It shares the datatype's text.
///
/// # Errors
/// [`NoMemory`] where memory is wanting.
pub fn integer_literal(
    alloc: Global,
    vocabulary: &Vocabulary,
    value: i128,
) -> Result<Literal, NoMemory>
    ensures { IfOk result (λ l. l ≡ integer_literal value) }
{
    let datatype = vocabulary.xsd_integer().copy()?;
    Literal::new(alloc, Buffer::new().format(value), datatype)
}

fn is_xsd_integer(datatype: &Iri) -> bool
    ensures { result ≡ pointwise nat_eq datatype.now xsd_integer }
{
    datatype.as_str() == "http://www.w3.org/2001/XMLSchema#integer"
}

/// The text that a number of 128 bits is written as is its canonical form: it writes the number,
/// and no other canonical text does. The number's own literal stands for the number.
pub fn integers_are_read()
    ensures read { DecimalsAreRead }
    ensures canonical { DecimalsAreCanonical }
    ensures one { CanonicalTextsAreDecimals }
    ensures back { IntegersComeBack }
{}
