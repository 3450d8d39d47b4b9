//! The labels of a document.
ghost use Rattle.std.specs.Prelude.{◌≡◌, [], IfOk};
ghost use Rattle.rdf_lines.specs.Labels.{noted, number_of, all_noted, labels_in, labels_in_object, labels_in_graph, labels_of, term_in, object_in, graph_in, quad_in};

use crate::statement::{Node, Object, Statement};
use indexmap::IndexSet;
use rdf_terms::{GraphName, NoMemory, Quad, Term, Text};
use std::alloc::Global;
use std::marker::Model;

/// Labels in order of first appearance; a label's number is its place.
#[derive(Drop)]
pub struct Labels {
    set: IndexSet<Text>,
}

impl Model for Labels {
    ghost use Rattle.std.specs.Prelude.{ℕ, List};

    ghost Value = { List (List ℕ) };

    ghost view = { λ l. l.set.keys };
}

impl Labels {
    /// No label.
    pub fn new(alloc: Global) -> Labels
        ensures { result ≡ [] }
    {
        Labels {
            set: IndexSet::new(alloc),
        }
    }

    /// The label's number.
    pub(crate) fn number(&mut self, label: Text) -> Result<u64, NoMemory>
        ensures { IfOk result (λ n. (self.new ≡ noted self.old label)
            × (n ≡ number_of self.new label)) }
    {
        let (index, _) = self.set.insert_full(label)?;
        Ok(index as u64)
    }

    fn node(&mut self, node: Node) -> Result<Term, NoMemory>
        ensures { IfOk result (λ t. (self.new ≡ all_noted self.old (labels_in node))
            × (t ≡ term_in self.new node)) }
    {
        match node {
            Node::Label(label) => Ok(Term::Blank(self.number(label)?)),
            Node::Iri(iri) => Ok(Term::Iri(iri)),
        }
    }

    fn object(&mut self, object: Object) -> Result<Term, NoMemory>
        ensures { IfOk result (λ t. (self.new ≡ all_noted self.old (labels_in_object object))
            × (t ≡ object_in self.new object)) }
    {
        match object {
            Object::Node(node) => self.node(node),
            Object::Literal(literal) => Ok(Term::Literal(literal)),
        }
    }

    // The subject and the object, in this order.
    fn ends(&mut self, subject: Node, object: Object) -> Result<(Term, Term), NoMemory>
        ensures labels { IfOk result (λ _. self.new ≡ all_noted
            (all_noted self.old (labels_in subject)) (labels_in_object object)) }
        ensures subject { IfOk result (λ t. t.0
            ≡ term_in (all_noted self.old (labels_in subject)) subject) }
        ensures object { IfOk result (λ t. t.1 ≡ object_in self.new object) }
    {
        let subject = self.node(subject)?;
        let object = self.object(object)?;
        Ok((subject, object))
    }

    fn graph(&mut self, graph: Option<Node>) -> Result<GraphName, NoMemory>
        ensures { IfOk result (λ g. (self.new ≡ all_noted self.old (labels_in_graph graph))
            × (g ≡ graph_in self.new graph)) }
    {
        match graph {
            None => Ok(GraphName::Default),
            Some(node) => Ok(GraphName::Named(self.node(node)?)),
        }
    }

    /// The statement with numbers for labels.
    pub fn quad(&mut self, statement: Statement) -> Result<Quad, NoMemory>
        ensures { IfOk result (λ q. (self.new ≡ all_noted self.old (labels_of statement))
            × (q ≡ quad_in self.new statement)) }
    {
        let Statement {
            subject,
            predicate,
            object,
            graph,
        } = statement;
        let (subject, object) = self.ends(subject, object)?;
        let graph = self.graph(graph)?;
        let quad = Quad::new(graph, subject, Term::Iri(predicate), object);
        Ok(quad.unwrap())
    }
}
