//! Templates: what an update deletes and inserts under each solution of its pattern (SPARQL 1.1
//! Update, section 3.1.3).

use crate::pattern::{Pattern, TriplePattern, VarOrIri};
use rdf_terms::{Iri, Items};

/// A quad pattern of a template: the hidden variables of its triple pattern are the template's blank
/// nodes.
#[derive(Debug, Drop)]
pub struct QuadPattern {
    /// What GRAPH names around it; none in the operation's default graph.
    pub graph: Option<VarOrIri>,
    pub triple: TriplePattern,
}

/// What is deleted or inserted under each solution.
#[derive(Debug, Drop)]
pub struct Template {
    /// In the order of the text.
    pub quads: Items<QuadPattern>,
    /// How many blank nodes there are: their numbers lie below it, in the order of their first places
    /// in the text.
    pub blanks: u64,
}

/// DELETE/INSERT; DELETE WHERE is one whose pattern is the group of its template.
#[derive(Drop)]
pub struct Modify {
    /// The graph of WITH, which is the default one of the pattern and of both templates.
    pub with: Option<Iri>,
    /// It has no blank nodes.
    pub delete: Template,
    pub insert: Template,
    pub pattern: Pattern,
}
