//! What triples say before the static rules are asked: names have their IRIs, and any place may be a
//! variable.
ghost use Rattle.std.specs.Prelude.{◌≡◌, IfOk};

use rdf_terms::{Iri, Items, NoMemory, Term};
use rdf_tokens::Slice;

/// A variable, or an IRI.
#[derive(Debug, Drop)]
pub enum VarOrIri<'a> {
    /// With its `?` or `$`.
    Variable(Slice<'a>),
    Iri(Iri),
}

impl<'a> VarOrIri<'a> {
    /// An equal one. An IRI's copy shares its text.
    ///
    /// # Errors
    /// [`NoMemory`] where memory is wanting.
    pub fn copy(&self) -> Result<VarOrIri<'a>, NoMemory>
        ensures { IfOk result (λ copy. copy ≡ self.now) }
    {
        Ok(match self {
            VarOrIri::Variable(name) => VarOrIri::Variable(name.fork()),
            VarOrIri::Iri(iri) => VarOrIri::Iri(iri.copy()?),
        })
    }
}

/// A variable, or a term, whose blank nodes are numbered by their places in the text.
#[derive(Debug, Drop)]
pub enum VarOrTerm<'a> {
    /// With its `?` or `$`.
    Variable(Slice<'a>),
    Term(Term),
}

impl<'a> VarOrTerm<'a> {
    /// An equal one. A term's copy shares its text.
    ///
    /// # Errors
    /// [`NoMemory`] where memory is wanting.
    pub fn copy(&self) -> Result<VarOrTerm<'a>, NoMemory>
        ensures { IfOk result (λ copy. copy ≡ self.now) }
    {
        Ok(match self {
            VarOrTerm::Variable(name) => VarOrTerm::Variable(name.fork()),
            VarOrTerm::Term(term) => VarOrTerm::Term(term.copy()?),
        })
    }
}

/// A triple with the graph where it stands, as written: any place may be a variable (SPARQL 1.1 Update,
/// section 4.1.1).
#[derive(Debug, Drop)]
pub struct QuadPattern<'a> {
    /// None for the default graph.
    pub graph: Option<VarOrIri<'a>>,
    pub subject: VarOrTerm<'a>,
    pub predicate: VarOrIri<'a>,
    pub object: VarOrTerm<'a>,
}

/// The quads of an operation's data, or the triples of a basic graph pattern.
#[derive(Debug, Drop)]
pub struct Quads<'a> {
    /// In the order of the text.
    pub patterns: Items<QuadPattern<'a>>,
    /// What GRAPH names, block by block.
    pub graphs: Items<VarOrIri<'a>>,
    /// The blank node labels, each where it stands first.
    pub labels: Items<Slice<'a>>,
    /// How many blank nodes there are.
    pub blanks: u64,
}
