//! Queries, from lexemes to their trees (SPARQL 1.1 Query, section 19.8).

ghost use Rattle.std.specs.Prelude.{◌≡◌, ◌<◌, length, [], OnOk, IfOk, IfErr};
ghost use Rattle.rdf_grammar.specs.Readings.{Reads};
ghost use Rattle.sparql_grammar.specs.QueryReading as spec;
ghost use Rattle.sparql_grammar.specs.GroupReading.{whole_group};
ghost use Rattle.sparql_grammar.specs.QueryGrammar.{IsQuery};
ghost use Rattle.sparql_grammar.specs.Stops.{ExplainsQuery};
ghost use Rattle.sparql_grammar.specs.declared.tree.Query.{Query as Tree};

use crate::group::group;
use crate::prologue::prologue;
use crate::tree::{Columns, Group, Query, QueryForm};
use rdf_grammar::{GrammarFault, MAX_OPEN};
use rdf_terms::Items;
use rdf_tokens::Slice;
use sparql_terminals::{Parser, Terminal};

#[tactic(auto, unfolding(crate::specs::QueryReading::variables))]
fn variables<'a>(parser: &mut Parser<'_, 'a>) -> Result<Items<Slice<'a>>, GrammarFault>
    ensures reads { Reads (spec.variables parser.old) result parser.new }
    ensures shorter { OnOk result (length parser.new < length parser.old) }
{
    let mut all = Items::new(parser.alloc());
    all.push(parser.value(Terminal::Variable)?)?;
    while parser.sees(Terminal::Variable) {
        all.push(parser.value(Terminal::Variable)?)?;
    }
    Ok(all)
}

#[tactic(auto, unfolding(crate::specs::QueryReading::columns, rdf_grammar::specs::Readings::any))]
fn columns<'a>(parser: &mut Parser<'_, 'a>) -> Result<Columns<'a>, GrammarFault>
    ensures reads { Reads (spec.columns parser.old) result parser.new }
    ensures shorter { OnOk result (length parser.new < length parser.old) }
{
    match parser.peek() {
        Some(Terminal::Star) => {
            parser.pass();
            Ok(Columns::All)
        }
        _ => Ok(Columns::Variables(variables(parser)?)),
    }
}

#[tactic(auto, unfolding(crate::specs::QueryReading::where_clause))]
fn where_clause<'a>(parser: &mut Parser<'_, 'a>) -> Result<Group<'a>, GrammarFault>
    ensures reads { Reads (spec.where_clause whole_group parser.old) result parser.new }
    ensures shorter { OnOk result (length parser.new < length parser.old) }
{
    parser.eat(Terminal::Where);
    group(parser, MAX_OPEN)
}

#[tactic(auto, unfolding(crate::specs::QueryReading::select_query))]
fn select_query<'a>(parser: &mut Parser<'_, 'a>) -> Result<QueryForm<'a>, GrammarFault>
    ensures reads { Reads (spec.select_query whole_group parser.old) result parser.new }
    ensures shorter { OnOk result (length parser.new < length parser.old) }
{
    let distinct = parser.eat(Terminal::Distinct);
    let columns = columns(parser)?;
    let group = where_clause(parser)?;
    Ok(QueryForm::Select {
        distinct,
        columns,
        group,
    })
}

#[tactic(auto, unfolding(crate::specs::QueryReading::ask_query))]
fn ask_query<'a>(parser: &mut Parser<'_, 'a>) -> Result<QueryForm<'a>, GrammarFault>
    ensures reads { Reads (spec.ask_query whole_group parser.old) result parser.new }
    ensures shorter { OnOk result (length parser.new < length parser.old) }
{
    Ok(QueryForm::Ask(where_clause(parser)?))
}

#[tactic(auto, unfolding(crate::specs::QueryReading::query_form, rdf_grammar::specs::Readings::any))]
fn query_form<'a>(parser: &mut Parser<'_, 'a>) -> Result<QueryForm<'a>, GrammarFault>
    ensures reads { Reads (spec.query_form whole_group parser.old) result parser.new }
    ensures shorter { OnOk result (length parser.new < length parser.old) }
{
    match parser.peek() {
        Some(Terminal::Select) => {
            parser.pass();
            select_query(parser)
        }
        Some(Terminal::Ask) => {
            parser.pass();
            ask_query(parser)
        }
        _ => Err(GrammarFault::Syntax),
    }
}

// Nothing stands behind it (2: Query).
#[tactic(auto, unfolding(crate::specs::QueryReading::query))]
fn query<'a>(parser: &mut Parser<'_, 'a>) -> Result<Query<'a>, GrammarFault>
    ensures reads { Reads (spec.query whole_group parser.old) result parser.new }
    ensures all { OnOk result (parser.new ≡ []) }
{
    let prologue = prologue(parser)?;
    let form = query_form(parser)?;
    if parser.is_more() {
        return Err(GrammarFault::Syntax);
    }
    Ok(Query { prologue, form })
}

/// The query that all of the lexemes are (SPARQL 1.1 Query, section 19.8, rule 2: Query), its
/// members in the order of the text.
///
/// # Errors
/// `Syntax` where the lexemes are no query, or open more than 100 brackets at once: the next lexeme is
/// then the first with which none can begin, and none is left where only more of them could make one.
/// `NoMemory` where memory is wanting.
pub fn parse_query<'a>(parser: &mut Parser<'_, 'a>) -> Result<Query<'a>, GrammarFault>
    // What is read is derived from the lexemes, and nothing else is.
    ensures found { IfOk result (λ query. IsQuery parser.old query) }
    ensures only { (query : Tree) →
        IsQuery parser.old query → IfOk result (λ found. found ≡ query) }

    ensures fault { IfErr result (λ fault. ExplainsQuery parser.old fault) }
{
    query(parser)
}
