//! The statement of a line, its blank nodes still with their labels.

use rdf_terms::{Iri, Literal, Text};

/// A blank node label, without its `_:`, or an IRI.
#[derive(Debug, Drop)]
pub enum Node {
    /// A blank node, by its label without `_:`.
    Label(Text),
    /// An IRI.
    Iri(Iri),
}

/// What may stand as an object.
#[derive(Debug, Drop)]
pub enum Object {
    /// An IRI or a blank node.
    Node(Node),
    /// A literal.
    Literal(Literal),
}

/// A statement.
#[derive(Debug, Drop)]
pub struct Statement {
    pub subject: Node,
    pub predicate: Iri,
    pub object: Object,
    pub graph: Option<Node>,
}
