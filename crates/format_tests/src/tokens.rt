//! Tokens of Turtle and SPARQL, and what they stand for.
ghost use Rattle.std.specs.List.{AllByRecursion};
ghost use Rattle.std.specs.Str.{chars};
ghost use Rattle.rdf_tokens.specs.Tokens.{HasItsForm};

use rdf_turtle::{Kind, Token, TurtleFaultKind, token_text, tokens, tokens_have_forms};
use std::alloc::Global;

// Whether a text has tokens of these kinds, that stop at these bytes.
fn are_tokens(alloc: Global, text: &str, wanted: &[(Kind, usize)]) -> bool {
    match tokens(alloc, text) {
        Ok(list) => list
            .iter()
            .map(|token| (token.kind, token.stop))
            .eq(wanted.iter().copied()),
        Err(_) => false,
    }
}

#[test]
fn numbers_and_dots(rt: HostRuntime) {
    let text = "1. 1.e5 .5 -1.5";
    let wanted = [
        (Kind::Integer, 1),
        (Kind::Symbol, 2),
        (Kind::Double, 7),
        (Kind::Decimal, 10),
        (Kind::Decimal, 15),
    ];
    assert!(rt; are_tokens(rt.alloc(), text, &wanted));
}

#[test]
fn names_and_labels(rt: HostRuntime) {
    let text = "_:a. a:b.c. :%41\\, a:";
    let wanted = [
        (Kind::BlankLabel, 3),
        (Kind::Symbol, 4),
        (Kind::Pname, 10),
        (Kind::Symbol, 11),
        (Kind::Pname, 18),
        (Kind::Pname, 21),
    ];
    assert!(rt; are_tokens(rt.alloc(), text, &wanted));
}

#[test]
fn longest_symbols(rt: HostRuntime) {
    let text = "^^<=<a><!=a #?x\r$x @en-GB";
    let wanted = [
        (Kind::Symbol, 2),
        (Kind::Symbol, 4),
        (Kind::Iri, 7),
        (Kind::Symbol, 8),
        (Kind::Symbol, 10),
        (Kind::Word, 11),
        (Kind::Var, 18),
        (Kind::AtWord, 25),
    ];
    assert!(rt; are_tokens(rt.alloc(), text, &wanted));
}

// The line of the first place where no token begins.
fn token_fault(alloc: Global, text: &str) -> Option<u64> {
    match tokens(alloc, text) {
        Err(fault) if fault.kind == TurtleFaultKind::Token => Some(fault.line),
        _ => None,
    }
}

#[test]
fn no_tokens(rt: HostRuntime) {
    assert!(rt; token_fault(rt.alloc(), "a\r\n\"\\uD800\"") == Some(2));
    assert!(rt; token_fault(rt.alloc(), "\r\n\r\"\"\"a\n\"\"") == Some(3));
    assert!(rt; token_fault(rt.alloc(), "<a> | <b>") == Some(1));
}

// What the first token stands for.
fn first_text(alloc: Global, text: &str, list: &[Token]) -> Option<String>
    requires { AllByRecursion (HasItsForm (chars text.now)) list.now }
{
    match list {
        [token, ..] => match token.kind {
            Kind::Iri => token_text(alloc, token, text).ok(),
            Kind::Text => token_text(alloc, token, text).ok(),
            Kind::Pname => token_text(alloc, token, text).ok(),
            _ => None,
        },
        [] => None,
    }
}

fn text_of(alloc: Global, text: &str) -> Option<String> {
    tokens_have_forms();
    match tokens(alloc, text) {
        Ok(list) => first_text(alloc, text, list.as_slice()),
        Err(_) => None,
    }
}

fn stands_for(alloc: Global, text: &str, wanted: &str) -> bool {
    match text_of(alloc, text) {
        Some(value) => value.as_str() == wanted,
        None => false,
    }
}

#[test]
fn values(rt: HostRuntime) {
    let alloc = rt.alloc();
    assert!(rt; stands_for(alloc, "<http://e/\\u00E9>", "http://e/\u{e9}"));
    assert!(rt; stands_for(alloc, "\"a\\n\\\"b\"", "a\n\"b"));
    assert!(rt; stands_for(alloc, "'''a'\\U0001F600'' b'''", "a'\u{1F600}'' b"));
    assert!(rt; stands_for(alloc, "x:a\\,b:%2C", "a,b:%2C"));
}
