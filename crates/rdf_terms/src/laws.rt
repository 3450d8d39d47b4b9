//! What holds of all terms and quads.
ghost use Rattle.std.specs.Prelude.{IsTrue};
ghost use Rattle.std.specs.Cmp.{IsTotalOrder};
ghost use Rattle.std.specs.FinSet.{IsAntisymmetric};
ghost use Rattle.rdf_terms.specs.Comparisons.{IrisAreOrdered, LiteralsAreOrdered, TermsAreOrdered, GraphsAreOrdered, QuadsAreOrdered, IrisAreEqual, LiteralsAreEqual, TermsAreEqual, GraphsAreEqual, QuadsAreEqual};
ghost use Rattle.rdf_terms.specs.Order.{term_cmp, graph_cmp, quad_cmp};
ghost use Rattle.rdf_terms.specs.Quad.{is_graph, is_quad};
ghost use Rattle.rdf_terms.specs.Term.{is_term};
ghost use Rattle.rdf_terms.specs.TermText.{TextsDiffer};

use crate::quad::{GraphName, Quad};
use crate::term::Term;

/// Each term is one of RDF's: an IRI has a scheme and no forbidden character, a literal's tag fits
/// its datatype, and each text is a text of Unicode characters.
pub fn term_is_one(term: &Term)
    ensures { IsTrue (is_term term.now) }
{
    match term {
        Term::Blank(number) => {
            let _number = *number;
        }
        Term::Iri(iri) => {
            let _ = iri.as_str();
        }
        Term::Literal(literal) => {
            let _ = literal.lexical();
        }
    }
}

/// Each graph name is the default one or a term.
pub(crate) fn graph_is_one(graph: &GraphName)
    ensures { IsTrue (is_graph graph.now) }
{
    match graph {
        GraphName::Default => {}
        GraphName::Named(name) => term_is_one(name),
    }
}

/// Each quad holds four terms, each of a right kind.
pub fn quad_is_one(quad: &Quad)
    ensures { IsTrue (is_quad quad.now) }
{
    let _ = quad.graph();
}

/// Two different terms never have the same text.
pub fn texts_differ()
    ensures { TextsDiffer }
{}

/// The orders of terms, graph names and quads are total, and what compares equal is equal.
pub fn orders_are_total()
    ensures terms { IsTotalOrder term_cmp }
    ensures terms_apart { IsAntisymmetric term_cmp }
    ensures graphs { IsTotalOrder graph_cmp }
    ensures graphs_apart { IsAntisymmetric graph_cmp }
    ensures quads { IsTotalOrder quad_cmp }
    ensures quads_apart { IsAntisymmetric quad_cmp }
{}

/// The code's comparisons of IRIs, literals, terms, graph names and quads are these orders, and its
/// `==` the equality of values; so callers may sort and search by them.
pub fn comparisons_are_the_order()
    ensures iris { IrisAreOrdered }
    ensures literals { LiteralsAreOrdered }
    ensures terms { TermsAreOrdered }
    ensures graphs { GraphsAreOrdered }
    ensures quads { QuadsAreOrdered }
    ensures same_iris { IrisAreEqual }
    ensures same_literals { LiteralsAreEqual }
    ensures same_terms { TermsAreEqual }
    ensures same_graphs { GraphsAreEqual }
    ensures same_quads { QuadsAreEqual }
{}
