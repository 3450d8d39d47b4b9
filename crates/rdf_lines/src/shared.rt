//! Quads whose terms share their texts with equal terms read before.
ghost use Rattle.std.specs.Prelude.{◌≡◌, ◌++◌, ◌∷◌, [], IfOk, OnOk, OnErr};

use rdf_terms::{GraphName, NoMemory, Quad, Term, TermTable};

/// An equal term: one that the table holds from now on, unless it is a blank node, which has no text.
pub fn kept_term(terms: &mut TermTable, term: Term) -> Result<Term, NoMemory>
    ensures { IfOk result (λ shared. shared ≡ term) }
{
    if let Term::Blank(number) = term {
        return Ok(Term::Blank(number));
    }
    let id = terms.intern(term)?;
    terms.term(id).copy()
}

// An equal term: the one in its place of the quad before, where the two are equal, or one that the table holds.
fn shared_term(terms: &mut TermTable, before: Option<&Term>, term: Term) -> Result<Term, NoMemory>
    ensures { IfOk result (λ shared. shared ≡ term) }
{
    if let Some(other) = before {
        if *other == term {
            return other.copy();
        }
    }
    kept_term(terms, term)
}

fn shared_name(
    terms: &mut TermTable,
    before: Option<&GraphName>,
    name: Term,
) -> Result<Term, NoMemory>
    ensures { IfOk result (λ shared. shared ≡ name) }
{
    match before {
        Some(GraphName::Named(other)) => shared_term(terms, Some(other), name),
        _ => kept_term(terms, name),
    }
}

fn shared_graph(
    terms: &mut TermTable,
    before: Option<&GraphName>,
    graph: GraphName,
) -> Result<GraphName, NoMemory>
    ensures { IfOk result (λ shared. shared ≡ graph) }
{
    match graph {
        GraphName::Default => Ok(GraphName::Default),
        GraphName::Named(name) => Ok(GraphName::Named(shared_name(terms, before, name)?)),
    }
}

// The graph, the subject and the predicate of a quad, if there is one.
fn front(quad: Option<&Quad>) -> (Option<&GraphName>, Option<&Term>, Option<&Term>) {
    match quad {
        Some(quad) => (
            Some(quad.graph()),
            Some(quad.subject()),
            Some(quad.predicate()),
        ),
        None => (None, None, None),
    }
}

// A graph and a subject in it, both equal.
fn shared_graph_and_subject(
    terms: &mut TermTable,
    graph_before: Option<&GraphName>,
    subject_before: Option<&Term>,
    graph: GraphName,
    subject: Term,
) -> Result<(GraphName, Term), NoMemory>
    ensures { IfOk result (λ shared. shared ≡ (graph, subject)) }
{
    let graph = shared_graph(terms, graph_before, graph)?;
    let subject = shared_term(terms, subject_before, subject)?;
    Ok((graph, subject))
}

// A predicate and an object, both equal.
fn shared_predicate_and_object(
    terms: &mut TermTable,
    predicate_before: Option<&Term>,
    predicate: Term,
    object: Term,
) -> Result<(Term, Term), NoMemory>
    ensures { IfOk result (λ shared. shared ≡ (predicate, object)) }
{
    let predicate = shared_term(terms, predicate_before, predicate)?;
    let object = kept_term(terms, object)?;
    Ok((predicate, object))
}

fn shared_quad(terms: &mut TermTable, before: Option<&Quad>, quad: Quad) -> Result<Quad, NoMemory>
    ensures { IfOk result (λ shared. shared ≡ quad) }
{
    let (graph_before, subject_before, predicate_before) = front(before);
    let (graph, subject, predicate, object) = quad.into_parts();
    let (graph, subject) = shared_graph_and_subject(
        terms,
        graph_before,
        subject_before,
        graph,
        subject,
    )?;
    let (predicate, object) = shared_predicate_and_object(
        terms,
        predicate_before,
        predicate,
        object,
    )?;
    match Quad::new(graph, subject, predicate, object) {
        Some(shared) => Ok(shared),
        None => unreachable!(),
    }
}

/// Appends an equal quad, or nothing. Its terms share their texts with those of the quad before it, or with those that the table held,
/// or are held from now on.
///
/// # Errors
/// [`NoMemory`] where memory is wanting. Terms of the quad may be held by then.
pub fn push_shared(terms: &mut TermTable, quads: &mut Vec<Quad>, quad: Quad) -> Result<(), NoMemory>
    ensures ok { OnOk result (quads.new.items ≡ quads.old.items ++ quad ∷ []) }
    ensures err { OnErr result (quads.new.items ≡ quads.old.items) }
{
    let shared = shared_quad(terms, quads.last(), quad)?;
    quads.push(shared)?;
    Ok(())
}
