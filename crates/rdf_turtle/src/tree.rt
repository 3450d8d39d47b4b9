//! The tree of a document.

pub use rdf_grammar::{Literal, Name};
use rdf_terms::Items;
use rdf_tokens::Slice;

/// A verb: a name, or `a`.
#[derive(Debug, Drop)]
pub enum Verb<'a> {
    Name(Name<'a>),
    Type,
}

/// What may be a subject or an object.
#[cycle(node)]
#[derive(Drop)]
pub enum Node<'a> {
    Name(Name<'a>),
    Label(Slice<'a>),
    /// `[ ]`, or with properties.
    Blank(Items<Property<'a>>),
    Collection(Items<Node<'a>>),
    Literal(Literal<'a>),
}

/// A verb with its objects.
#[cycle(node)]
#[derive(Drop)]
pub struct Property<'a> {
    pub verb: Verb<'a>,
    pub objects: Items<Node<'a>>,
}

/// A directive, or triples about one subject.
#[derive(Drop)]
pub enum Statement<'a> {
    Prefix(Slice<'a>, Slice<'a>),
    Base(Slice<'a>),
    Triples(Node<'a>, Items<Property<'a>>),
}
