//! Functions of terms (SPARQL 1.1 Query, sections 17.4.1.8 and 17.4.2).
ghost use Rattle.std.specs.Prelude.{◌≡◌, IfOk};
ghost use Rattle.std.specs.Option.{option_map, option_and_then};
ghost use Rattle.sparql_values.specs.Mapping.{same_term};
ghost use Rattle.sparql_values.specs.Operands.{term_of};
ghost use Rattle.sparql_values.specs.Values.{called, datatype, is_blank, is_iri, is_literal, lang, str, string_term, tag_text};

use crate::comparison::is_same_term;
use crate::value::Value;
use rdf_terms::{Literal, NoMemory, Term, Vocabulary};
use sparql_trees::Function;
use std::alloc::Global;

fn is_iri(term: &Term) -> bool
    ensures { result ≡ is_iri term.now }
{
    matches!(term, Term::Iri(_))
}

fn is_blank(term: &Term) -> bool
    ensures { result ≡ is_blank term.now }
{
    matches!(term, Term::Blank(_))
}

fn is_literal(term: &Term) -> bool
    ensures { result ≡ is_literal term.now }
{
    matches!(term, Term::Literal(_))
}

fn string_term(alloc: Global, vocabulary: &Vocabulary, text: &str) -> Result<Term, NoMemory>
    ensures { IfOk result (λ t. t ≡ string_term text.now) }
{
    let datatype = vocabulary.xsd_string().copy()?;
    Ok(Term::Literal(Literal::new(alloc, text, datatype)?))
}

fn string(alloc: Global, vocabulary: &Vocabulary, term: &Term) -> Result<Option<Term>, NoMemory>
    ensures { IfOk result (λ t. t ≡ str term.now) }
{
    Ok(match term {
        Term::Iri(iri) => Some(string_term(alloc, vocabulary, iri.as_str())?),
        Term::Literal(literal) => Some(string_term(alloc, vocabulary, literal.lexical())?),
        Term::Blank(_) => None,
    })
}

fn tag_text(literal: &Literal) -> &str
    ensures { result.now ≡ tag_text literal.now.tag }
{
    match literal.tag() {
        Some(tag) => tag,
        None => "",
    }
}

fn lang(alloc: Global, vocabulary: &Vocabulary, term: &Term) -> Result<Option<Term>, NoMemory>
    ensures { IfOk result (λ t. t ≡ lang term.now) }
{
    Ok(match term {
        Term::Literal(literal) => Some(string_term(alloc, vocabulary, tag_text(literal))?),
        Term::Iri(_) | Term::Blank(_) => None,
    })
}

fn datatype(term: &Term) -> Result<Option<Term>, NoMemory>
    ensures { IfOk result (λ t. t ≡ datatype term.now) }
{
    Ok(match term {
        Term::Literal(literal) => Some(Term::Iri(literal.datatype().copy()?)),
        Term::Iri(_) | Term::Blank(_) => None,
    })
}

fn made<'a>(term: Option<Term>) -> Option<Value<'a>>
    ensures { option_map term_of result ≡ term }
{
    match term {
        Some(term) => Some(Value::Made(term)),
        None => None,
    }
}

fn called_of_term<'a>(
    alloc: Global,
    vocabulary: &Vocabulary,
    function: Function,
    term: &Term,
) -> Result<Option<Value<'a>>, NoMemory>
    ensures { IfOk result (λ v. option_map term_of v ≡ called function term.now) }
{
    Ok(match function {
        Function::IsIri => Some(Value::Truth(is_iri(term))),
        Function::IsBlank => Some(Value::Truth(is_blank(term))),
        Function::IsLiteral => Some(Value::Truth(is_literal(term))),
        Function::Str => made(string(alloc, vocabulary, term)?),
        Function::Lang => made(lang(alloc, vocabulary, term)?),
        Function::Datatype => made(datatype(term)?),
    })
}

fn called_of_value<'a>(
    alloc: Global,
    vocabulary: &Vocabulary,
    function: Function,
    value: &Value<'_>,
) -> Result<Option<Value<'a>>, NoMemory>
    ensures { IfOk result (λ v. option_map term_of v ≡ called function (term_of value.now)) }
{
    match value.held() {
        Some(term) => called_of_term(alloc, vocabulary, function, term),
        None => {
            let term = value.term(alloc, vocabulary)?;
            called_of_term(alloc, vocabulary, function, &term)
        }
    }
}

/// A function's call; an error where the value is one.
///
/// # Errors
/// [`NoMemory`] where memory is wanting.
pub(crate) fn called<'a>(
    alloc: Global,
    vocabulary: &Vocabulary,
    function: Function,
    value: &Option<Value<'_>>,
) -> Result<Option<Value<'a>>, NoMemory>
    ensures { IfOk result (λ v. option_map term_of v
        ≡ option_and_then (called function) (option_map term_of value.now)) }
{
    match value {
        Some(value) => called_of_value(alloc, vocabulary, function, value),
        None => Ok(None),
    }
}

fn same_values(
    alloc: Global,
    vocabulary: &Vocabulary,
    a: &Value<'_>,
    b: &Value<'_>,
) -> Result<bool, NoMemory>
    ensures { IfOk result (λ same. same ≡ same_term (term_of a.now) (term_of b.now)) }
{
    if let (Some(a), Some(b)) = (a.held(), b.held()) {
        return Ok(is_same_term(a, b));
    }
    let a = a.term(alloc, vocabulary)?;
    let b = b.term(alloc, vocabulary)?;
    Ok(is_same_term(&a, &b))
}

/// SAMETERM; an error where a value is one.
///
/// # Errors
/// [`NoMemory`] where memory is wanting.
pub(crate) fn are_same(
    alloc: Global,
    vocabulary: &Vocabulary,
    x: &Option<Value<'_>>,
    y: &Option<Value<'_>>,
) -> Result<Option<bool>, NoMemory>
    ensures { IfOk result (λ t. t ≡ option_and_then
        (λ a. option_map (same_term a) (option_map term_of y.now)) (option_map term_of x.now)) }
{
    match (x, y) {
        (Some(a), Some(b)) => Ok(Some(same_values(alloc, vocabulary, a, b)?)),
        _ => Ok(None),
    }
}
