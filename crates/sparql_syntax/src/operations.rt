//! The operations of a request whose data keep to the rules.
ghost use Rattle.std.specs.Prelude.{◌≡◌, map, None, Some, false, IfOk};
ghost use Rattle.std.specs.List.{AllByRecursion, filter_map, list_any};
ghost use Rattle.sparql_drafts.specs.Drafts.{ArePatternsBelow};
ghost use Rattle.sparql_queries.specs.Templates as templates;
ghost use Rattle.sparql_syntax.specs.Drafts.{IsDraftBelow};
ghost use Rattle.sparql_syntax.specs.Rules as spec;

use crate::drafts::{Draft, Modification};
use rdf_terms::{GraphName, Items, NoMemory, Quad, Term};
use sparql_drafts::{QuadPattern, Quads, VarOrIri, VarOrTerm};
use sparql_queries::quad_patterns;
use sparql_trees::{Data, GroundData, Modify, Operation, Template};
use std::alloc::Global;

fn graph_of(name: Option<VarOrIri<'_>>) -> Option<GraphName>
    ensures { result ≡ spec.graph_of name.entry }
{
    match name {
        None => Some(GraphName::Default),
        Some(VarOrIri::Iri(iri)) => Some(GraphName::Named(Term::Iri(iri))),
        Some(VarOrIri::Variable(_)) => None,
    }
}

fn term_of(place: VarOrTerm<'_>) -> Option<Term>
    ensures { result ≡ spec.term_of place.entry }
{
    match place {
        VarOrTerm::Term(term) => Some(term),
        VarOrTerm::Variable(_) => None,
    }
}

fn predicate_of(name: VarOrIri<'_>) -> Option<Term>
    ensures { result ≡ spec.predicate_of name.entry }
{
    match name {
        VarOrIri::Iri(iri) => Some(Term::Iri(iri)),
        VarOrIri::Variable(_) => None,
    }
}

// The quad that a pattern is.
fn quad_of(pattern: QuadPattern<'_>) -> Option<Quad>
    ensures { result ≡ spec.quad_of pattern.entry }
{
    let QuadPattern {
        graph,
        subject,
        predicate,
        object,
    } = pattern;
    let graph = graph_of(graph)?;
    let subject = term_of(subject)?;
    let predicate = predicate_of(predicate)?;
    let object = term_of(object)?;
    Quad::new(graph, subject, predicate, object)
}

// The quads that patterns are, in order.
fn quads_of(alloc: Global, patterns: Vec<QuadPattern<'_>>) -> Result<Items<Quad>, NoMemory>
    ensures { IfOk result (λ quads. quads ≡ filter_map spec.quad_of patterns.entry.items) }
{
    let mut quads = Vec::with_capacity(alloc, patterns.len())?;
    for pattern in patterns {
        if let Some(quad) = quad_of(pattern) {
            quads.push(quad)?;
        }
    }
    Ok(Items::from_vec(quads))
}

fn template(alloc: Global, quads: Quads<'_>) -> Result<Template, NoMemory>
    ensures { IfOk result (λ template. template ≡ templates.template quads.entry) }
{
    Ok(Template {
        quads: quad_patterns(alloc, quads.patterns.as_slice())?,
        blanks: quads.blanks,
    })
}

fn modify(alloc: Global, draft: Modification<'_>) -> Result<Modify, NoMemory>
    ensures { IfOk result (λ modify. modify ≡ spec.modify_of draft.entry) }
{
    let Modification {
        with,
        delete,
        insert,
        pattern,
        ..
    } = draft;
    Ok(Modify {
        with,
        delete: template(alloc, delete)?,
        insert: template(alloc, insert)?,
        pattern,
    })
}

// The operation that a draft is.
fn operation_of(alloc: Global, draft: Draft<'_>) -> Result<Operation, NoMemory>
    requires below { IsDraftBelow draft }
    requires ground { spec.has_blank_in_delete draft ≡ false }
    ensures { IfOk result (λ operation. operation ≡ spec.operation_of draft.entry) }
{
    match draft {
        Draft::InsertData(
            Quads {
                patterns,
                blanks,
                ..
            },
        ) => {
            let quads = quads_of(alloc, patterns.into_vec())?;
            Ok(Operation::InsertData(Data::new(quads, blanks)))
        }
        Draft::DeleteData(Quads { patterns, .. }) => {
            let quads = quads_of(alloc, patterns.into_vec())?;
            Ok(Operation::DeleteData(GroundData::new(quads)))
        }
        Draft::Modify(modification) => Ok(Operation::Modify(modify(alloc, modification)?)),
        Draft::Other(operation) => Ok(operation),
    }
}

/// The operations of a request that keeps to the rules.
///
/// # Errors
/// [`NoMemory`] where memory is wanting.
pub(crate) fn operations_of(
    alloc: Global,
    drafts: Vec<Draft<'_>>,
) -> Result<Items<Operation>, NoMemory>
    requires below { AllByRecursion IsDraftBelow drafts.items }
    requires ground { list_any spec.has_blank_in_delete drafts.items ≡ false }
    ensures { IfOk result (λ operations. operations ≡ map spec.operation_of drafts.entry.items) }
{
    let mut operations = Vec::with_capacity(alloc, drafts.len())?;
    for draft in drafts {
        operations.push(operation_of(alloc, draft)?)?;
    }
    Ok(Items::from_vec(operations))
}
