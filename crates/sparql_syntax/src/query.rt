//! Queries, from bytes to trees.
ghost use Rattle.std.specs.Prelude.{Some, IsTrue, MatchResult};
ghost use Rattle.std.specs.Option.{option_copied};
ghost use Rattle.sparql_grammar.specs.Proper.{proper_query};
ghost use Rattle.sparql_grammar.specs.QueryGrammar as grammar;
ghost use Rattle.sparql_syntax.specs.Query as spec;
ghost use Rattle.sparql_syntax.specs.Readers.{TellsMeaning};
ghost use Rattle.sparql_syntax.specs.Query.{IsQuery, TellsFault};

use crate::fault::{SyntaxFault, SyntaxFaultKind};
use crate::labels::repeats_label;
use crate::reader::read;
use crate::syntax_tree::SyntaxTree;
use indexmap::IndexSet;
use rdf_grammar::GrammarFault;
use rdf_terms::{Iri, Vocabulary};
use sparql_grammar::{Query as Tree, parse_query};
use sparql_queries::{Said, knows_query, said_by};
use sparql_terminals::Parser;
use sparql_trees::Query;
use std::alloc::Global;

// The query that was said, where it keeps to the rule on labels.
fn judged(alloc: Global, said: Said<'_>) -> Result<Query, SyntaxFaultKind>
    ensures { let outcome = Some (said.entry.query, said.entry.labels) in
        TellsMeaning (spec.ruled outcome) result }
{
    let mut known = IndexSet::new(alloc);
    if repeats_label(&mut known, said.labels.as_slice())? {
        return Err(SyntaxFaultKind::BlankReused);
    }
    Ok(said.query)
}

// The query that a tree says.
#[tactic(auto, using(crate::proofs::QueryTrees::unknown_means, crate::proofs::QueryTrees::says_nothing, crate::proofs::QueryTrees::said_judged))]
fn query_of(
    alloc: Global,
    vocabulary: &Vocabulary,
    base: Option<&Iri>,
    tree: &Tree<'_>,
) -> Result<Query, SyntaxFaultKind>
    requires { IsTrue (proper_query tree.now) }
    ensures { TellsMeaning (spec.meaning (option_copied base.entry) tree.now) result }
{
    if !knows_query(alloc, tree)? {
        return Err(SyntaxFaultKind::UnknownPrefix);
    }
    let said = said_by(alloc, vocabulary, base, tree)?;
    judged(alloc, said)
}

impl<'a> SyntaxTree<'a> for Tree<'a> {
    type Said = Query;

    ghost derives = { grammar.IsQuery };

    ghost meaning = { spec.meaning };

    fn parse(parser: &mut Parser<'_, 'a>) -> Result<Tree<'a>, GrammarFault> {
        parse_query(parser)
    }

    fn say(
        self,
        alloc: Global,
        vocabulary: &Vocabulary,
        base: Option<&Iri>,
    ) -> Result<Query, SyntaxFaultKind> {
        let query = query_of(alloc, vocabulary, base, &self);
        // (Let go in one call, which is proved sooner.)
        drop(self);
        query
    }
}

/// The query that a text is (SPARQL 1.1 Query, section 19.8). Names have their IRIs, and references
/// are resolved against `base`, until the text declares another. The blank nodes of each basic graph
/// pattern are hidden variables, numbered from 0 by their places in the text.
///
/// # Errors
/// The first of these that applies, with the number of its line: [`SyntaxFaultKind::NotUtf8`],
/// [`SyntaxFaultKind::Token`], [`SyntaxFaultKind::NotInProfile`], [`SyntaxFaultKind::TooDeep`],
/// [`SyntaxFaultKind::Syntax`], [`SyntaxFaultKind::UnknownPrefix`], [`SyntaxFaultKind::Relative`],
/// [`SyntaxFaultKind::BlankReused`]; and [`SyntaxFaultKind::NoMemory`] at any point, with line 0.
pub fn read_query(alloc: Global, bytes: &[u8], base: Option<&Iri>) -> Result<Query, SyntaxFault>
    ensures { MatchResult result
        (λ query. IsQuery (option_copied base.entry) bytes.now query)
        (λ fault. TellsFault (option_copied base.entry) bytes.now fault fault.kind) }
{
    let vocabulary = Vocabulary::new(alloc)?;
    read_query_with(alloc, &vocabulary, bytes, base)
}

/// What [`read_query`] answers, with a vocabulary that is lent: whoever reads many queries makes it once.
///
/// # Errors
/// Those of [`read_query`].
pub fn read_query_with(
    alloc: Global,
    vocabulary: &Vocabulary,
    bytes: &[u8],
    base: Option<&Iri>,
) -> Result<Query, SyntaxFault>
    ensures { MatchResult result
        (λ query. IsQuery (option_copied base.entry) bytes.now query)
        (λ fault. TellsFault (option_copied base.entry) bytes.now fault fault.kind) }
{
    read::<Tree<'_>>(alloc, vocabulary, bytes, base)
}
