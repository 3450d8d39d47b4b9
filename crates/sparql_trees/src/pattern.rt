//! Patterns: what a query asks of a dataset (SPARQL 1.1 Query, section 5).

use crate::expression::Expression;
use rdf_terms::{Iri, Items, Term, Text};

/// A variable or an IRI: what may be a predicate, or the name behind GRAPH (107: VarOrIri).
#[derive(Debug, Drop)]
pub enum VarOrIri {
    /// The variable of this name, which stands without its `?` or `$`.
    Variable(Text),
    Iri(Iri),
}

/// What may be a subject or an object of a triple pattern (section 18.1.5).
#[derive(Debug, Drop)]
pub enum VarOrTerm {
    /// The variable of this name, which stands without its `?` or `$`.
    Variable(Text),
    /// The hidden variable of this number: a blank node of the pattern (section 4.1.4).
    Hidden(u64),
    Term(Term),
}

/// A triple pattern (section 18.1.5). A literal may be its subject, and matches nothing then.
#[derive(Debug, Drop)]
pub struct TriplePattern {
    pub subject: VarOrTerm,
    pub predicate: VarOrIri,
    pub object: VarOrTerm,
}

/// Triple patterns that stand together (section 18.1.6).
#[derive(Debug, Drop)]
pub struct BasicGraphPattern {
    /// In the order of the text.
    pub triples: Items<TriplePattern>,
    /// How many hidden variables there are: their numbers lie below it, in the order of their first
    /// places in the text.
    pub hidden: u64,
}

/// A group graph pattern (section 5.2).
#[cycle(pattern)]
#[derive(Drop)]
pub struct Pattern {
    /// What stands in the group besides FILTERs, in the order of the text.
    pub members: Items<Member>,
    /// Its own FILTERs, in the order of the text. They hold for the whole group, wherever they stand
    /// (section 5.2.2).
    pub filters: Items<Expression>,
}

/// A member of a group (54: GroupGraphPatternSub).
#[cycle(pattern)]
#[derive(Drop)]
pub enum Member {
    /// Triple patterns that stand together (section 5.1).
    Basic(BasicGraphPattern),
    /// Groups with UNION between them, or one group alone (section 7).
    Union(Items<Pattern>),
    /// OPTIONAL (section 6).
    Optional(Pattern),
    /// GRAPH (section 13.3).
    Graph(VarOrIri, Pattern),
    /// MINUS (section 8.2).
    Minus(Pattern),
}
