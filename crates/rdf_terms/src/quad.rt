//! Quads (RDF 1.1 Concepts, sections 3.1 and 4).
ghost use Rattle.std.specs.Prelude.{◌≡◌, ◌↔◌, IfOk, IsTrue, if◌then◌else◌};
ghost use Rattle.rdf_terms.specs.Quad.{QuadParts, is_quad, has_right_kinds};
ghost use Rattle.rdf_terms.specs.Order.{quad_cmp};

use crate::fault::NoMemory;
use crate::laws::{graph_is_one, term_is_one};
use crate::term::Term;
use std::cmp::Ordering;
use std::marker::Model;

/// The graph of a quad: the default one, or one with a name, which is an IRI or a blank node in
/// every quad.
#[derive(PartialEq, Eq, PartialOrd, Ord, Hash, Debug, Drop)]
pub enum GraphName {
    /// The default graph.
    Default,
    /// The graph with this name.
    Named(Term),
}

/// A triple in a graph, each of whose places holds a term of a right kind. Quads are ordered by
/// graph, the default one first, then subject, predicate and object.
#[derive(PartialEq, Eq, PartialOrd, Ord, Hash, Debug, Drop)]
pub struct Quad {
    graph: GraphName,
    subject: Term,
    predicate: Term,
    object: Term,
}

impl Model for Quad {
    ghost use Rattle.std.specs.Prelude.{IsTrue};
    ghost use Rattle.rdf_terms.specs.Quad.{QuadParts, is_quad};

    ghost Value = { QuadParts };

    ghost view = { λ q. record {
      graph = q.graph;
      subject = q.subject;
      predicate = q.predicate;
      object = q.object;
    } };

    ghost invariant = { λ q. IsTrue (is_quad (record {
      graph = q.graph;
      subject = q.subject;
      predicate = q.predicate;
      object = q.object;
    })) };

    ghost inverse = { λ q. record {
      graph = q.graph;
      subject = q.subject;
      predicate = q.predicate;
      object = q.object;
    } };
}

impl GraphName {
    /// An equal name.
    ///
    /// # Errors
    /// [`NoMemory`] where memory is wanting.
    pub fn copy(&self) -> Result<GraphName, NoMemory>
        ensures { IfOk result (λ g. g ≡ self.now) }
    {
        Ok(match self {
            GraphName::Default => GraphName::Default,
            GraphName::Named(name) => GraphName::Named(name.copy()?),
        })
    }
}

impl Quad {
    /// The quad of these terms, or `None` where a place holds a term of a wrong kind: the subject
    /// and the graph's name are IRIs or blank nodes, the predicate is an IRI, the object any term.
    /// It takes no memory.
    #[inline(always)]
    pub fn new(graph: GraphName, subject: Term, predicate: Term, object: Term) -> Option<Quad>
        ensures { let parts : QuadParts = record {
          graph = graph;
          subject = subject;
          predicate = predicate;
          object = object;
        } in
            result ≡ (if has_right_kinds parts then Some parts else None) }
    {
        if !may_stand(&graph, &subject, &predicate) {
            return None;
        }
        graph_is_one(&graph);
        term_is_one(&subject);
        term_is_one(&predicate);
        term_is_one(&object);
        Some(Quad {
            graph,
            subject,
            predicate,
            object,
        })
    }

    /// The graph.
    pub fn graph(&self) -> &GraphName
        ensures value { result.now ≡ self.now.graph }
        ensures sound { IsTrue (is_quad self.now) }
    {
        &self.graph
    }

    /// The subject.
    pub fn subject(&self) -> &Term
        ensures value { result.now ≡ self.now.subject }
        ensures sound { IsTrue (is_quad self.now) }
    {
        &self.subject
    }

    /// The predicate.
    pub fn predicate(&self) -> &Term
        ensures value { result.now ≡ self.now.predicate }
        ensures sound { IsTrue (is_quad self.now) }
    {
        &self.predicate
    }

    /// The object.
    pub fn object(&self) -> &Term
        ensures value { result.now ≡ self.now.object }
        ensures sound { IsTrue (is_quad self.now) }
    {
        &self.object
    }

    /// An equal quad.
    ///
    /// # Errors
    /// [`NoMemory`] where memory is wanting.
    pub fn copy(&self) -> Result<Quad, NoMemory>
        ensures { IfOk result (λ q. q ≡ self.now) }
    {
        let graph = self.graph.copy()?;
        let (subject, predicate, object) = self.copied_triple()?;
        Ok(Quad {
            graph,
            subject,
            predicate,
            object,
        })
    }

    // Copies of the three terms.
    fn copied_triple(&self) -> Result<(Term, Term, Term), NoMemory>
        ensures { IfOk result (λ t. t
            ≡ (self.now.subject, self.now.predicate, self.now.object)) }
    {
        let subject = self.subject.copy()?;
        let (predicate, object) = copied_pair(&self.predicate, &self.object)?;
        Ok((subject, predicate, object))
    }

    /// The graph and the three terms.
    #[inline(always)]
    pub fn into_parts(self) -> (GraphName, Term, Term, Term)
        ensures value { result ≡ (self.graph, self.subject, self.predicate, self.object) }
        ensures sound { IsTrue (is_quad self) }
    {
        (self.graph, self.subject, self.predicate, self.object)
    }
}

// Copies of two terms.
fn copied_pair(first: &Term, second: &Term) -> Result<(Term, Term), NoMemory>
    ensures { IfOk result (λ t. t ≡ (first.now, second.now)) }
{
    let first = first.copy()?;
    let second = second.copy()?;
    Ok((first, second))
}

// Whether these may be the graph, the subject and the predicate of a quad.
#[inline(always)]
fn may_stand(graph: &GraphName, subject: &Term, predicate: &Term) -> bool
    ensures { (object : Term) → result ≡ has_right_kinds (record {
      graph = graph.now;
      subject = subject.now;
      predicate = predicate.now;
      object = object;
    }) }
{
    let named = match graph {
        GraphName::Named(Term::Literal(_)) => false,
        _ => true,
    };
    match (subject, predicate) {
        (Term::Blank(_) | Term::Iri(_), Term::Iri(_)) => named,
        _ => false,
    }
}

/// The order of quads.
pub fn compare_quads(a: &Quad, b: &Quad) -> Ordering
    ensures { result ≡ quad_cmp a.now b.now }
{
    a.cmp(b)
}

/// Whether two quads are the same.
pub fn same_quad(a: &Quad, b: &Quad) -> bool
    ensures { IsTrue result ↔ (a.now ≡ b.now) }
{
    a == b
}
