//! From bytes to what they say in a language of SPARQL, phase by phase.
ghost use Rattle.std.specs.Prelude.{MatchResult, IfOk, IfSome};
ghost use Rattle.std.specs.Option.{option_copied};
ghost use Rattle.std.specs.Str.{IsUtf8};
ghost use Rattle.sparql_syntax.specs.Phases.{HasTree, IsSaid, TellsFault};
ghost use Rattle.sparql_syntax.specs.Survey.{IsReadable};
ghost use Rattle.sparql_syntax.specs.Told.{IsTold};

use crate::fault::{SyntaxFault, SyntaxFaultKind};
use crate::survey::{opens_few, survey};
use crate::syntax_tree::SyntaxTree;
use crate::text::{fault_at, stop_fault, tree_fault};
use rdf_grammar::GrammarFault;
use rdf_terms::{Iri, NoMemory, Vocabulary};
use sparql_terminals::Parser;
use std::alloc::Global;

// The tree of a text that was looked over.
fn tree_of<'a, T: SyntaxTree<'a>>(alloc: Global, text: &'a str) -> Result<T, SyntaxFault>
    requires { IsReadable text.now }
    ensures { MatchResult result
        (λ tree. HasTree T.derives text.now tree)
        (λ fault. IsTold T.derives T.meaning text.now fault) }
{
    let mut parser = Parser::over(alloc, text);
    match T::parse(&mut parser) {
        Ok(tree) => Ok(tree),
        Err(fault) => Err(stop_fault(alloc, text, fault, parser.left())),
    }
}

// The tree of a text that has one and can't be too deep, in one walk over it.
fn tree_at_once<'a, T: SyntaxTree<'a>>(alloc: Global, text: &'a str) -> Result<Option<T>, NoMemory>
    ensures { IfOk result (λ found. IfSome found (λ tree. HasTree T.derives text.now tree)) }
{
    if !opens_few(text.as_bytes()) {
        return Ok(None);
    }
    let mut parser = Parser::over(alloc, text);
    match T::parse(&mut parser) {
        Ok(tree) => Ok(Some(tree)),
        Err(GrammarFault::Syntax) => Ok(None),
        Err(GrammarFault::NoMemory(refused)) => Err(refused),
    }
}

// The tree of a text. Nothing of it is held but the tree, and only where it may have none is it looked over
// and read once more: a fault of its tokens goes before.
#[tactic(auto, using(crate::proofs::TellLemmas::early_told))]
fn read_tree<'a, T: SyntaxTree<'a>>(alloc: Global, text: &'a str) -> Result<T, SyntaxFault>
    ensures { MatchResult result
        (λ tree. HasTree T.derives text.now tree)
        (λ fault. IsTold T.derives T.meaning text.now fault) }
{
    if let Some(tree) = tree_at_once(alloc, text)? {
        return Ok(tree);
    }
    survey(text)?;
    tree_of(alloc, text)
}

// What a text says.
fn read_text<'a, T: SyntaxTree<'a>>(
    alloc: Global,
    vocabulary: &Vocabulary,
    text: &'a str,
    base: Option<&Iri>,
) -> Result<T::Said, SyntaxFault>
    requires { IsUtf8 text.now }
    ensures { let against = option_copied base.entry in
        MatchResult result
        (λ said. IsSaid T.derives T.meaning against text.now said)
        (λ fault. TellsFault T.derives T.meaning against text.now fault fault.kind) }
{
    let tree: T = match read_tree(alloc, text) {
        Ok(tree) => tree,
        Err(fault) => return Err(fault),
    };
    match tree.say(alloc, vocabulary, base) {
        Ok(said) => Ok(said),
        Err(kind) => Err(tree_fault(alloc, text, base.is_some(), kind)),
    }
}

/// What bytes say, against a base, where none of the phases stops them: UTF-8, tokens, words of the profile,
/// depth, the grammar, names, static rules.
///
/// # Errors
/// The fault of the first that does, with the number of its line; [`SyntaxFaultKind::NoMemory`] at any point, with
/// line 0.
pub(crate) fn read<'a, T: SyntaxTree<'a>>(
    alloc: Global,
    vocabulary: &Vocabulary,
    bytes: &'a [u8],
    base: Option<&Iri>,
) -> Result<T::Said, SyntaxFault>
    ensures { let against = option_copied base.entry in
        MatchResult result
        (λ said. IsSaid T.derives T.meaning against bytes.now said)
        (λ fault. TellsFault T.derives T.meaning against bytes.now fault fault.kind) }
{
    match str::from_utf8(bytes) {
        Ok(text) => read_text::<T>(alloc, vocabulary, text, base),
        Err(fault) => Err(fault_at(bytes, SyntaxFaultKind::NotUtf8, fault.valid_up_to())),
    }
}
