//! Updates, from bytes to requests.
ghost use Rattle.std.specs.Prelude.{MatchResult};
ghost use Rattle.std.specs.List.{AllByRecursion};
ghost use Rattle.std.specs.Option.{option_copied};
ghost use Rattle.sparql_grammar.specs.OperationGrammar.{IsRequest};
ghost use Rattle.sparql_syntax.specs.Drafts.{IsDraftBelow};
ghost use Rattle.sparql_syntax.specs.Readers.{TellsMeaning};
ghost use Rattle.sparql_syntax.specs.Rules as rules;
ghost use Rattle.sparql_syntax.specs.Update as spec;
ghost use Rattle.sparql_syntax.specs.Update.{IsUpdate, TellsFault};

use crate::drafts::{Draft, drafts_of};
use crate::fault::{SyntaxFault, SyntaxFaultKind};
use crate::known::knows_parts;
use crate::operations::operations_of;
use crate::reader::read;
use crate::rules::first_broken;
use crate::syntax_tree::SyntaxTree;
use rdf_grammar::GrammarFault;
use rdf_terms::{Iri, Items, Vocabulary};
use sparql_grammar::{Part, parse_update};
use sparql_terminals::Parser;
use sparql_trees::{Operation, Request};
use std::alloc::Global;

// The operations of drafts, or the static rule that they break.
#[tactic(auto, using(crate::proofs::UpdateCases::rule_told))]
fn judged(alloc: Global, drafts: Items<Draft<'_>>) -> Result<Items<Operation>, SyntaxFaultKind>
    requires { AllByRecursion IsDraftBelow drafts }
    ensures { TellsMeaning (rules.judged drafts.entry) result }
{
    if let Some(rule) = first_broken(alloc, drafts.as_slice())? {
        return Err(rule);
    }
    Ok(operations_of(alloc, drafts.into_vec())?)
}

// The parts of an update say its operations.
impl<'a> SyntaxTree<'a> for Items<Part<'a>> {
    type Said = Items<Operation>;

    ghost derives = { IsRequest };

    ghost meaning = { spec.meaning };

    fn parse(parser: &mut Parser<'_, 'a>) -> Result<Items<Part<'a>>, GrammarFault> {
        parse_update(parser)
    }

    #[tactic(auto, using(crate::proofs::UpdateTrees::unknown_means, crate::proofs::UpdateTrees::lacks_drafts, crate::proofs::UpdateTrees::drafts_judged))]
    fn say(
        self,
        alloc: Global,
        vocabulary: &Vocabulary,
        base: Option<&Iri>,
    ) -> Result<Items<Operation>, SyntaxFaultKind> {
        if !knows_parts(alloc, self.as_slice())? {
            return Err(SyntaxFaultKind::UnknownPrefix);
        }
        let drafts = drafts_of(alloc, vocabulary, base, self.into_vec())?;
        judged(alloc, drafts)
    }
}

/// The request that a text is (SPARQL 1.1 Query, section 19.8; SPARQL 1.1 Update, section 3). Names
/// have their IRIs, and references are resolved against `base`, until the text declares another. The
/// blank nodes of an operation's data, of a template and of a basic graph pattern are numbered from 0
/// by their places in the text.
///
/// # Errors
/// The first of these that applies, with the number of its line: [`SyntaxFaultKind::NotUtf8`],
/// [`SyntaxFaultKind::Token`], [`SyntaxFaultKind::NotInProfile`], [`SyntaxFaultKind::TooDeep`],
/// [`SyntaxFaultKind::Syntax`], [`SyntaxFaultKind::UnknownPrefix`], [`SyntaxFaultKind::Relative`],
/// [`SyntaxFaultKind::BlankInDelete`], [`SyntaxFaultKind::VariableInData`],
/// [`SyntaxFaultKind::LiteralSubject`], [`SyntaxFaultKind::BlankReused`]; and
/// [`SyntaxFaultKind::NoMemory`] at any point, with line 0.
pub fn read_update(alloc: Global, bytes: &[u8], base: Option<&Iri>) -> Result<Request, SyntaxFault>
    ensures { MatchResult result
        (λ request. IsUpdate (option_copied base.entry) bytes.now request)
        (λ fault. TellsFault (option_copied base.entry) bytes.now fault fault.kind) }
{
    let vocabulary = Vocabulary::new(alloc)?;
    read_update_with(alloc, &vocabulary, bytes, base)
}

/// What [`read_update`] answers, with a vocabulary that is lent: whoever reads many requests makes it once.
///
/// # Errors
/// Those of [`read_update`].
pub fn read_update_with(
    alloc: Global,
    vocabulary: &Vocabulary,
    bytes: &[u8],
    base: Option<&Iri>,
) -> Result<Request, SyntaxFault>
    ensures { MatchResult result
        (λ request. IsUpdate (option_copied base.entry) bytes.now request)
        (λ fault. TellsFault (option_copied base.entry) bytes.now fault fault.kind) }
{
    match read::<Items<Part<'_>>>(alloc, vocabulary, bytes, base) {
        Ok(operations) => Ok(Request { operations }),
        Err(fault) => Err(fault),
    }
}
