//! What faults of lines, of Turtle and of tokens display.
use rdf_lines::{FaultKind, LineFault};
use rdf_terms::NoMemory;
use rdf_tokens::TokenFault;
use rdf_turtle::{TurtleFault, TurtleFaultKind};
use std::alloc::{AllocError, Global};
use std::fmt::Display;
use std::test::Fail;

fn is_displayed<T: Display>(alloc: Global, fault: &T, wanted: &str) -> Result<bool, Fail> {
    Ok(format!(in alloc; "{fault}")?.as_str() == wanted)
}

fn is_displayed_with_line<T: Display>(alloc: Global, fault: &T, word: &str) -> Result<bool, Fail> {
    is_displayed(alloc, fault, format!(in alloc; "{word} line 7")?.as_str())
}

#[test]
fn of_lines(rt: HostRuntime) -> Result<(), Fail> {
    for (kind, word) in [
        (FaultKind::NotUtf8, "NotUtf8"),
        (FaultKind::Syntax, "Syntax"),
        (FaultKind::Relative, "Relative"),
        (FaultKind::Read, "Read"),
        (FaultKind::NoMemory(NoMemory::from(AllocError)), "NoMemory"),
        (FaultKind::Failed, "Failed"),
    ] {
        let fault = LineFault { line: 7, kind };
        assert_eq!(rt; fault.name(), word);
        assert!(rt; is_displayed_with_line(rt.alloc(), &fault, word)?, "{word}");
    }
    Ok(())
}

#[test]
fn of_turtle(rt: HostRuntime) -> Result<(), Fail> {
    let wanting = TurtleFaultKind::NoMemory(NoMemory::from(AllocError));
    for (kind, word) in [
        (TurtleFaultKind::NotUtf8, "NotUtf8"),
        (TurtleFaultKind::Token, "Token"),
        (TurtleFaultKind::TooDeep, "TooDeep"),
        (TurtleFaultKind::Syntax, "Syntax"),
        (TurtleFaultKind::UnknownPrefix, "UnknownPrefix"),
        (TurtleFaultKind::Relative, "Relative"),
        (wanting, "NoMemory"),
    ] {
        let fault = TurtleFault { line: 7, kind };
        assert_eq!(rt; fault.name(), word);
        assert!(rt; is_displayed_with_line(rt.alloc(), &fault, word)?, "{word}");
    }
    Ok(())
}

#[test]
fn of_tokens(rt: HostRuntime) -> Result<(), Fail> {
    let fault = TokenFault::NoToken(3);
    assert!(rt; is_displayed(rt.alloc(), &fault, "no token begins at byte 3")?);
    let wanting = TokenFault::NoMemory(NoMemory::from(AllocError));
    assert!(rt; is_displayed(rt.alloc(), &wanting, "no memory")?);
    Ok(())
}
