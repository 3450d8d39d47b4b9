//! Data that comes in: its blank nodes are numbered on from the counter.
ghost use Rattle.std.specs.Prelude.{◌≡◌, ◌-◌, IfOk};
ghost use Rattle.rdf_terms.specs.Below.{AreBelow};
ghost use Rattle.rdf_dataset.specs.State.{IsTermBelow, IsGraphBelow, IsQuadBelow, last_number};
ghost use Rattle.rdf_dataset.specs.Insertion.{Inserts, graph_from, quad_from, term_from};

use crate::source::Source;
use crate::staged::Staged;
use rdf_terms::{GraphName, NoMemory, Quad, Term};

fn term_from(first: u64, term: Term) -> Term
    requires { IsTermBelow (last_number - first) term }
    ensures { result ≡ term_from first term }
{
    match term {
        Term::Blank(number) => Term::Blank(first + number),
        Term::Iri(iri) => Term::Iri(iri),
        Term::Literal(literal) => Term::Literal(literal),
    }
}

fn graph_from(first: u64, graph: GraphName) -> GraphName
    requires { IsGraphBelow (last_number - first) graph }
    ensures { result ≡ graph_from first graph }
{
    match graph {
        GraphName::Default => GraphName::Default,
        GraphName::Named(name) => GraphName::Named(term_from(first, name)),
    }
}

pub(crate) fn quad_from(first: u64, quad: Quad) -> Quad
    requires { IsQuadBelow (last_number - first) quad }
    ensures { result ≡ quad_from first quad }
{
    let (graph, subject, predicate, object) = quad.into_parts();
    let moved = Quad::new(
        graph_from(first, graph),
        term_from(first, subject),
        term_from(first, predicate),
        term_from(first, object),
    );
    moved.unwrap()
}

impl<'a, D: Source> Staged<'a, D> {
    /// Inserts the quads of a document or of INSERT DATA, whose blank nodes have the numbers below
    /// `blanks`: number j becomes the counter and j more, and the counter grows by `blanks`.
    /// Answers the first of the new numbers, or `None` where the counter would pass the last
    /// number: nothing has changed then.
    ///
    /// # Errors
    /// [`NoMemory`] where memory is wanting: some of the quads have come in then.
    pub fn insert_data(&mut self, quads: Vec<Quad>, blanks: u64) -> Result<Option<u64>, NoMemory>
        requires below { AreBelow blanks quads.items }
        ensures ok { IfOk result (λ first. Inserts self.old quads.items blanks first self.new) }
        ensures beneath { self.new.under ≡ self.old.under }
    {
        let Some(first) = self.take_blanks(blanks) else {
            return Ok(None);
        };
        for quad in quads {
            self.insert(quad_from(first, quad))?;
        }
        Ok(Some(first))
    }
}
