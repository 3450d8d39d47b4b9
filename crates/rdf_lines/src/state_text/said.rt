//! The quad that a line says where the labels of its blank nodes are `b` and a number.
ghost use Rattle.std.specs.Prelude.{◌≡◌, ◌++◌, ◌<◌, ◌^◌, ℕ, false, Some, IfOk, IsTrue, codes};
ghost use Rattle.rdf_terms.specs.Quad.{is_graph, is_quad, may_name_graph};
ghost use Rattle.rdf_terms.specs.Term.{is_term, is_literal_term};
ghost use Rattle.rdf_terms.specs.declared.quad.GraphName.{GraphName};
ghost use Rattle.rdf_terms.specs.declared.quad.Quad.{Quad};
ghost use Rattle.rdf_terms.specs.declared.term.Term.{Term};
ghost use Rattle.rdf_lines.specs.QuadText.{quad_text};
ghost use Rattle.rdf_lines.specs.RoundTrip.{label_of, node_of, object_of, graph_of, statement_of};

use super::lines::behind;
use super::number::number;
use crate::fault::FaultKind;
use crate::format::LineFormat;
use crate::line::read_next_line;
use crate::statement::{Node, Object, Statement};
use crate::suffixes::Suffixes;
use rdf_terms::{GraphName, NoMemory, Quad, Term, Text};
use std::alloc::Global;

// The number behind the `b` of a label.
fn label_number(label: &Text) -> Option<u64>
    ensures { (n : ℕ) → n < 2 ^ 64 → label.now ≡ label_of n → result ≡ Some n }
{
    match behind(label.as_str().as_bytes(), b"b") {
        Some(digits) => number(digits),
        None => None,
    }
}

fn node_term(node: Node) -> Option<Term>
    ensures { (t : Term) → IsTrue (is_term t) → is_literal_term t ≡ false →
        node ≡ node_of t → result ≡ Some t }
{
    match node {
        Node::Label(label) => label_number(&label).map(Term::Blank),
        Node::Iri(iri) => Some(Term::Iri(iri)),
    }
}

fn object_term(object: Object) -> Option<Term>
    ensures { (t : Term) → IsTrue (is_term t) → object ≡ object_of t → result ≡ Some t }
{
    match object {
        Object::Node(node) => node_term(node),
        Object::Literal(literal) => Some(Term::Literal(literal)),
    }
}

fn graph_name(graph: Option<Node>) -> Option<GraphName>
    ensures { (g : GraphName) → IsTrue (may_name_graph g) → IsTrue (is_graph g) →
        graph ≡ graph_of g → result ≡ Some g }
{
    match graph {
        None => Some(GraphName::Default),
        Some(node) => Some(GraphName::Named(node_term(node)?)),
    }
}

// The quad of a statement.
fn quad_said(statement: Statement) -> Option<Quad>
    ensures { (q : Quad) → IsTrue (is_quad q) → statement ≡ statement_of q → result ≡ Some q }
{
    let Statement {
        subject,
        predicate,
        object,
        graph,
    } = statement;
    let subject = node_term(subject)?;
    let object = object_term(object)?;
    let graph = graph_name(graph)?;
    Quad::new(graph, subject, Term::Iri(predicate), object)
}

fn line_statement(
    alloc: Global,
    suffixes: &mut Suffixes,
    line: &[u8],
) -> Result<Option<Statement>, NoMemory>
    ensures { IfOk result (λ r. (q : Quad) → IsTrue (is_quad q) →
        quad_text q ≡ line.now ++ codes "\n" → r ≡ Some (statement_of q)) }
{
    match read_next_line(alloc, suffixes, LineFormat::NQuads, line) {
        Ok(statement) => Ok(statement),
        Err(fault) => match fault {
            FaultKind::NoMemory(refused) => Err(refused),
            _ => Ok(None),
        },
    }
}

/// The quad that a line says, given without its LF: where it is a quad's line, that quad.
pub fn line_quad(
    alloc: Global,
    suffixes: &mut Suffixes,
    line: &[u8],
) -> Result<Option<Quad>, NoMemory>
    ensures { IfOk result (λ r. (q : Quad) → IsTrue (is_quad q) →
        quad_text q ≡ line.now ++ codes "\n" → r ≡ Some q) }
{
    match line_statement(alloc, suffixes, line)? {
        Some(statement) => Ok(quad_said(statement)),
        None => Ok(None),
    }
}
