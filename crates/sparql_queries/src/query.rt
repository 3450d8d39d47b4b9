//! What queries say.
ghost use Rattle.std.specs.Prelude.{◌≡◌, [], Some, IfOk, IsTrue, MatchResult, map};
ghost use Rattle.std.specs.Option.{option_copied};
ghost use Rattle.rdf_grammar.specs.Steps.{each};
ghost use Rattle.sparql_drafts.specs.Kept.{Fails, Gives};
ghost use Rattle.sparql_drafts.specs.Meaning.{declaration};
ghost use Rattle.sparql_queries.specs.Variables.{variable_name as named};
ghost use Rattle.sparql_grammar.specs.Proper as proper;
ghost use Rattle.sparql_queries.specs.Queries as spec;

use crate::basic::variable_name;
use crate::group::pattern_of;
use rdf_terms::{Iri, Items, NoMemory, Text, Vocabulary};
use rdf_tokens::Slice;
use sparql_drafts::{DraftFault, Scope};
use sparql_grammar::{Columns, Declaration, Query as Written, QueryForm};
use sparql_trees::{Pattern, Query, Select, visible_variables};
use std::alloc::Global;

/// A query, and the blank node labels of each of its basic graph patterns, in the order of the text.
#[derive(Drop)]
pub struct Said<'a> {
    pub query: Query,
    pub labels: Items<Items<Slice<'a>>>,
}

fn variable_names(alloc: Global, variables: &[Slice<'_>]) -> Result<Items<Text>, NoMemory>
    ensures { IfOk result (λ names. names ≡ map named variables.now) }
{
    let mut names = Items::new(alloc);
    for variable in variables {
        names.push(variable_name(alloc, variable)?)?;
    }
    Ok(names)
}

fn columns(alloc: Global, columns: &Columns<'_>, pattern: &Pattern) -> Result<Items<Text>, NoMemory>
    ensures { IfOk result (λ names. names ≡ spec.columns_of columns.now pattern.now) }
{
    match columns {
        Columns::All => visible_variables(alloc, pattern),
        Columns::Variables(variables) => variable_names(alloc, variables.as_slice()),
    }
}

// The declarations are in force from here on.
fn declare<'a>(scope: &mut Scope<'a>, declarations: &[Declaration<'a>]) -> Result<(), DraftFault>
    ensures { let declares = each declaration declarations.now in
        Gives (declares scope.old.prologue) result scope.new.prologue }
{
    for declaration in declarations {
        scope.declare(declaration)?;
    }
    Ok(())
}

fn form<'a>(
    alloc: Global,
    scope: &mut Scope<'a>,
    labels: &mut Items<Items<Slice<'a>>>,
    form: &QueryForm<'a>,
) -> Result<Query, DraftFault>
    requires { IsTrue (proper.proper_form form.now) }
    ensures { let says = spec.form_in scope.old.prologue form.now in
        Gives (says labels.old) result labels.new }
{
    match form {
        QueryForm::Ask(group) => Ok(Query::Ask(pattern_of(alloc, scope, labels, group)?)),
        QueryForm::Select {
            distinct,
            columns: written,
            group,
        } => {
            let pattern = pattern_of(alloc, scope, labels, group)?;
            let columns = columns(alloc, written, &pattern)?;
            Ok(Query::Select(Select {
                distinct: *distinct,
                columns,
                pattern,
            }))
        }
    }
}

// What a query says, from its prologue on.
#[tactic(auto, using(sparql_drafts::proofs::CallerLemmas::then_fails))]
fn said_in<'a>(
    alloc: Global,
    scope: &mut Scope<'a>,
    labels: &mut Items<Items<Slice<'a>>>,
    query: &Written<'a>,
) -> Result<Query, DraftFault>
    requires { IsTrue (proper.proper_form query.now.form) }
    ensures { let said = spec.said_from scope.old.prologue query.now labels.old in
        Gives said result labels.new }
{
    declare(scope, query.prologue.as_slice())?;
    form(alloc, scope, labels, &query.form)
}

// What a query says in a scope that its caller lets go, without labels before it.
fn said_in_scope<'a>(
    alloc: Global,
    scope: &mut Scope<'a>,
    query: &Written<'a>,
) -> Result<Said<'a>, DraftFault>
    requires { IsTrue (proper.proper_form query.now.form) }
    ensures { let outcome = spec.said_from scope.old.prologue query.now [] in
        MatchResult result
        (λ said. outcome ≡ Some (said.query, said.labels))
        (λ fault. Fails outcome fault) }
{
    let mut labels = Items::new(alloc);
    match said_in(alloc, scope, &mut labels, query) {
        Err(fault) => Err(fault),
        Ok(query) => Ok(Said { query, labels }),
    }
}

/// What a query says: names have their IRIs, and the blank nodes of each basic graph pattern are
/// hidden variables, numbered from 0 by their places in the text (SPARQL 1.1 Query, sections 4.1, 5
/// and 16). The IRIs of short forms are the vocabulary's.
///
/// # Errors
/// [`DraftFault::NoIri`] where a name has no IRI; [`DraftFault::NoMemory`] where memory is wanting.
pub fn said_by<'a>(
    alloc: Global,
    vocabulary: &Vocabulary,
    base: Option<&Iri>,
    query: &Written<'a>,
) -> Result<Said<'a>, DraftFault>
    requires { IsTrue (proper.proper_query query.now) }
    ensures { let outcome = spec.query_in (option_copied base.entry) query.now in
        MatchResult result
        (λ said. outcome ≡ Some (said.query, said.labels))
        (λ fault. Fails outcome fault) }
{
    let mut scope = Scope::new(alloc, vocabulary, base)?;
    let said = said_in_scope(alloc, &mut scope, query);
    // (Let go in one call, which is proved sooner.)
    drop(scope);
    said
}
