//! What templates stand for under the solutions of a pattern (SPARQL 1.1 Update, section 3.1.3).
ghost use Rattle.std.specs.Prelude.{◌≡◌, ◌+◌, ◌*◌, ◌≤◌, ◌++◌, length, IfOk, OnOk};
ghost use Rattle.rdf_dataset.specs.State.{last_number};
ghost use Rattle.sparql_eval.specs.Templates.{all_instances, constant, graph_under, instance, instances, name_under, new_blank, term_under};
ghost use Rattle.sparql_trees.specs.Quads.{quad_by};
ghost use Rattle.sparql_values.specs.Mapping.{value_at, value_of};

use rdf_terms::{GraphName, NoMemory, Quad, Term, Text};
use sparql_solve::{Mapping, SolutionMappings, SortedNames};
use sparql_trees::{QuadPattern, VarOrIri, VarOrTerm};
use std::alloc::Global;

// A copy of what stands at the column.
fn value_at(row: &Mapping, column: usize) -> Result<Option<Term>, NoMemory>
    ensures { IfOk result (λ value. value ≡ value_at row.now column) }
{
    Ok(match row.value(column) {
        Some(term) => Some(term.copy()?),
        None => None,
    })
}

// A copy of what the row has at the variable.
fn value_of(variables: &SortedNames, row: &Mapping, name: &Text) -> Result<Option<Term>, NoMemory>
    ensures { IfOk result (λ value. value ≡ value_of variables.now row.now name.now) }
{
    match variables.column(name) {
        Some(column) => value_at(row, column),
        None => Ok(None),
    }
}

fn new_blank(blanks: u64, first: u64, number: u64) -> Option<Term>
    requires { first + blanks ≤ last_number }
    ensures { result ≡ new_blank blanks first number }
{
    if number < blanks {
        Some(Term::Blank(first + number))
    } else {
        None
    }
}

fn constant(term: &Term) -> Result<Option<Term>, NoMemory>
    ensures { IfOk result (λ found. found ≡ constant term.now) }
{
    Ok(match term {
        Term::Blank(_) => None,
        Term::Iri(iri) => Some(Term::Iri(iri.copy()?)),
        Term::Literal(literal) => Some(Term::Literal(literal.copy()?)),
    })
}

fn term_under(
    variables: &SortedNames,
    blanks: u64,
    first: u64,
    row: &Mapping,
    term: &VarOrTerm,
) -> Result<Option<Term>, NoMemory>
    requires { first + blanks ≤ last_number }
    ensures { IfOk result
        (λ found. found ≡ term_under variables.now blanks first row.now term.now) }
{
    match term {
        VarOrTerm::Variable(name) => value_of(variables, row, name),
        VarOrTerm::Hidden(number) => Ok(new_blank(blanks, first, *number)),
        VarOrTerm::Term(term) => constant(term),
    }
}

fn name_under(
    variables: &SortedNames,
    row: &Mapping,
    name: &VarOrIri,
) -> Result<Option<Term>, NoMemory>
    ensures { IfOk result (λ found. found ≡ name_under variables.now row.now name.now) }
{
    match name {
        VarOrIri::Variable(name) => value_of(variables, row, name),
        VarOrIri::Iri(iri) => Ok(Some(Term::Iri(iri.copy()?))),
    }
}

// The graph of a quad pattern: the operation's default one, or what GRAPH names.
fn graph_under(
    variables: &SortedNames,
    home: &GraphName,
    row: &Mapping,
    graph: &Option<VarOrIri>,
) -> Result<Option<GraphName>, NoMemory>
    ensures { IfOk result
        (λ found. found ≡ graph_under variables.now home.now row.now graph.now) }
{
    Ok(match graph {
        Some(name) => match name_under(variables, row, name)? {
            Some(name) => Some(GraphName::Named(name)),
            None => None,
        },
        None => Some(home.copy()?),
    })
}

// The quad of these, where each is there and of a right kind.
fn quad_by(
    graph: Option<GraphName>,
    subject: Option<Term>,
    predicate: Option<Term>,
    object: Option<Term>,
) -> Option<Quad>
    ensures { result ≡ quad_by graph subject predicate object }
{
    Quad::new(graph?, subject?, predicate?, object?)
}

// The instance of a quad pattern, if there is one.
fn instance(
    variables: &SortedNames,
    home: &GraphName,
    blanks: u64,
    first: u64,
    row: &Mapping,
    pattern: &QuadPattern,
) -> Result<Option<Quad>, NoMemory>
    requires { first + blanks ≤ last_number }
    ensures { IfOk result (λ found. found
        ≡ instance variables.now home.now blanks first row.now pattern.now) }
{
    let triple = &pattern.triple;
    let graph = graph_under(variables, home, row, &pattern.graph)?;
    let subject = term_under(variables, blanks, first, row, &triple.subject)?;
    let predicate = name_under(variables, row, &triple.predicate)?;
    let object = term_under(variables, blanks, first, row, &triple.object)?;
    Ok(quad_by(graph, subject, predicate, object))
}

// Adds the instances under one solution, whose new blank nodes are numbered from `first`.
fn push_instances(
    variables: &SortedNames,
    home: &GraphName,
    blanks: u64,
    first: u64,
    row: &Mapping,
    quads: &[QuadPattern],
    out: &mut Vec<Quad>,
) -> Result<(), NoMemory>
    requires { first + blanks ≤ last_number }
    ensures { OnOk result (out.new.items
        ≡ out.old.items ++ instances variables.now home.now blanks quads.now first row.now) }
{
    for pattern in quads {
        if let Some(quad) = instance(variables, home, blanks, first, row, pattern)? {
            out.push(quad)?;
        }
    }
    Ok(())
}

/// The instances of quad patterns under one solution after another, in an operation with this
/// default graph. Each solution has `blanks` new blank nodes, numbered on from `first`.
pub(crate) fn all_instances(
    alloc: Global,
    found: &SolutionMappings,
    home: &GraphName,
    blanks: u64,
    first: u64,
    quads: &[QuadPattern],
) -> Result<Vec<Quad>, NoMemory>
    requires { first + length found.now.rows.items * blanks ≤ last_number }
    ensures { IfOk result (λ out. out.items ≡ all_instances found.now.variables home.now blanks
        quads.now first found.now.rows.items) }
{
    let variables = &found.variables;
    let mut out = Vec::new(alloc);
    let mut next = first;
    for row in found.rows.as_slice() {
        push_instances(variables, home, blanks, next, row, quads, &mut out)?;
        next += blanks;
    }
    Ok(out)
}
