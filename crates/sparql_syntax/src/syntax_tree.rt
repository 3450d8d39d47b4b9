//! What a tree of SPARQL's grammar is to a reader.
ghost use Rattle.std.specs.Prelude.{ℕ, List, Option, Result, IfOk, IfErr};
ghost use Rattle.std.specs.Option.{option_copied};
ghost use Rattle.sparql_terminals.specs.Lexemes.{Lexemes};
ghost use Rattle.sparql_terminals.specs.Useful.{AreUseful};
ghost use Rattle.sparql_syntax.specs.Phases.{HasTree};
ghost use Rattle.sparql_syntax.specs.Readers.{Explains, TellsMeaning};
ghost use Rattle.sparql_syntax.specs.declared.fault.SyntaxFaultKind as fault;

use crate::fault::SyntaxFaultKind;
use rdf_grammar::GrammarFault;
use rdf_terms::{Iri, Vocabulary};
use sparql_terminals::Parser;
use std::alloc::Global;

/// A tree of the grammar of updates, or of queries.
pub(crate) trait SyntaxTree<'a>: Sized + Drop {
    /// What it says.
    type Said: Drop;

    // the tree is one of these lexemes
    ghost derives: { Lexemes → Self → Type 0 };

    // against a base, what the tree says, or why it says nothing
    ghost meaning: { Option (List ℕ) → Self → Result Self.Said fault.SyntaxFaultKind };

    /// The tree that all of the lexemes are.
    ///
    /// # Errors
    /// `Syntax` where they are none; `NoMemory` where memory is wanting.
    fn parse(parser: &mut Parser<'_, 'a>) -> Result<Self, GrammarFault>
        ensures found { IfOk result (λ tree. derives parser.old tree) }
        ensures useful { IfOk result (λ tree. AreUseful parser.old) }
        ensures fault { IfErr result (λ fault. Explains derives parser.old fault) };

    /// What it says: names have their IRIs, references are resolved against a base, until the text declares
    /// another, and the static rules are kept.
    ///
    /// # Errors
    /// The first of these that applies: [`SyntaxFaultKind::UnknownPrefix`], [`SyntaxFaultKind::Relative`], a
    /// static rule; and [`SyntaxFaultKind::NoMemory`] at any point.
    fn say(
        self,
        alloc: Global,
        vocabulary: &Vocabulary,
        base: Option<&Iri>,
    ) -> Result<Self::Said, SyntaxFaultKind>
        requires { (text : List ℕ) × HasTree derives text self }
        ensures { TellsMeaning (meaning (option_copied base.entry) self) result };
}
