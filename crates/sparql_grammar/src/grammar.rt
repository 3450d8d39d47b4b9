//! Triples (SPARQL 1.1 Query, section 19.8). A bracket is a recursion, and a list a loop.

ghost use Rattle.std.specs.Prelude.{◌≡◌, ◌≤◌, ◌<◌, length, OnOk, OnErr, IfErr};
ghost use Rattle.rdf_grammar.specs.Readings.{Reads};
ghost use Rattle.rdf_grammar.specs.declared.fault.GrammarFault.TheVariants.{Syntax};
ghost use Rattle.sparql_grammar.specs.Proper.{stands_alone};
ghost use Rattle.sparql_grammar.specs.Reading as spec;

use crate::tree::{Node, Property, Triples, VarOrIri, Verb};
use rdf_grammar::{GrammarFault, iri, literal};
use rdf_terms::Items;
use sparql_terminals::{Parser, Terminal};

/// A variable or a name (107: VarOrIri).
#[tactic(auto, unfolding(crate::specs::Reading::var_or_iri))]
pub fn var_or_iri<'a>(parser: &mut Parser<'_, 'a>) -> Result<VarOrIri<'a>, GrammarFault>
    ensures reads { Reads (spec.var_or_iri parser.old) result parser.new }
    ensures fault { IfErr result (λ e. e ≡ Syntax) }
    ensures kept { OnErr result (parser.new ≡ parser.old) }
    ensures shorter { OnOk result (length parser.new < length parser.old) }
{
    match parser.peek() {
        Some(Terminal::Variable) => Ok(VarOrIri::Variable(parser.value(Terminal::Variable)?)),
        _ => Ok(VarOrIri::Name(iri(parser)?)),
    }
}

#[tactic(auto, unfolding(crate::specs::Reading::verb, rdf_grammar::specs::Readings::any))]
fn verb<'a>(parser: &mut Parser<'_, 'a>) -> Result<Verb<'a>, GrammarFault>
    ensures reads { Reads (spec.verb parser.old) result parser.new }
    ensures fault { IfErr result (λ e. e ≡ Syntax) }
    ensures kept { OnErr result (parser.new ≡ parser.old) }
    ensures shorter { OnOk result (length parser.new < length parser.old) }
{
    match parser.peek() {
        Some(Terminal::A) => {
            parser.pass();
            Ok(Verb::Type)
        }
        Some(Terminal::Variable) => Ok(Verb::Variable(parser.value(Terminal::Variable)?)),
        _ => Ok(Verb::Name(iri(parser)?)),
    }
}

fn begins_verb(terminal: Option<Terminal>) -> bool
    ensures { result ≡ spec.begins_verb terminal }
{
    matches!(
        terminal,
        Some(Terminal::A | Terminal::Variable | Terminal::Iri | Terminal::Pname)
    )
}

/// Whether a node begins with this terminal, and so triples.
pub fn begins_node(terminal: Option<Terminal>) -> bool
    ensures { result ≡ spec.begins_node terminal }
{
    matches!(
        terminal,
        Some(
            Terminal::Variable
                | Terminal::Iri
                | Terminal::Pname
                | Terminal::BlankLabel
                | Terminal::OpenBracket
                | Terminal::Open
                | Terminal::Text
                | Terminal::Integer
                | Terminal::Decimal
                | Terminal::Double
                | Terminal::SignedInteger
                | Terminal::SignedDecimal
                | Terminal::SignedDouble
                | Terminal::True
                | Terminal::False
        )
    )
}

#[tactic(auto, using(crate::proofs::Trees::alone_variable, crate::proofs::Trees::alone_name, crate::proofs::Trees::alone_literal, crate::proofs::Trees::alone_label, crate::proofs::Trees::alone_blank, crate::proofs::Trees::alone_collection))]
fn stands_alone(node: &Node<'_>) -> bool
    ensures { result ≡ stands_alone node.now }
{
    match node {
        Node::Blank(_, properties) => !properties.as_slice().is_empty(),
        Node::Collection(_, items) => !items.as_slice().is_empty(),
        Node::Variable(_) | Node::Name(_) | Node::Literal(_) | Node::Label(_) => false,
    }
}

#[cycle(node)]
#[tactic(auto, unfolding(crate::specs::Reading::node))]
fn node<'a>(parser: &mut Parser<'_, 'a>, depth: usize) -> Result<Node<'a>, GrammarFault>
    ensures reads { Reads (spec.node depth parser.old) result parser.new }
    ensures shorter { OnOk result (length parser.new < length parser.old) }
{
    if depth == 0 {
        return Err(GrammarFault::Syntax);
    }
    graph_node(parser, depth - 1)
}

#[cycle(node)]
#[tactic(auto, unfolding(crate::specs::Reading::graph_node))]
fn graph_node<'a>(parser: &mut Parser<'_, 'a>, depth: usize) -> Result<Node<'a>, GrammarFault>
    ensures reads { Reads (spec.graph_node (spec.node depth) parser.old) result parser.new }
    ensures shorter { OnOk result (length parser.new < length parser.old) }
{
    match parser.peek() {
        Some(Terminal::Variable) => Ok(Node::Variable(parser.value(Terminal::Variable)?)),
        Some(Terminal::Iri | Terminal::Pname) => Ok(Node::Name(iri(parser)?)),
        Some(Terminal::BlankLabel) => Ok(Node::Label(parser.value(Terminal::BlankLabel)?)),
        Some(Terminal::OpenBracket) => bracketed(parser, depth),
        Some(Terminal::Open) => collection(parser, depth),
        _ => Ok(Node::Literal(literal(parser)?)),
    }
}

// `[ ]`, or with properties
#[cycle(node)]
#[tactic(auto, unfolding(crate::specs::Reading::bracketed))]
fn bracketed<'a>(parser: &mut Parser<'_, 'a>, depth: usize) -> Result<Node<'a>, GrammarFault>
    ensures reads { Reads (spec.bracketed (spec.node depth) parser.old) result parser.new }
    ensures shorter { OnOk result (length parser.new < length parser.old) }
{
    let bracket = parser.value(Terminal::OpenBracket)?;
    let properties = property_list(parser, depth)?;
    parser.expect(Terminal::CloseBracket)?;
    Ok(Node::Blank(bracket, properties))
}

// `( )`, or with elements
#[cycle(node)]
#[tactic(auto, unfolding(crate::specs::Reading::collection))]
fn collection<'a>(parser: &mut Parser<'_, 'a>, depth: usize) -> Result<Node<'a>, GrammarFault>
    ensures reads { Reads (spec.collection (spec.node depth) parser.old) result parser.new }
    ensures shorter { OnOk result (length parser.new < length parser.old) }
{
    let bracket = parser.value(Terminal::Open)?;
    let mut items = Items::new(parser.alloc());
    while begins_node(parser.peek()) {
        items.push(node(parser, depth)?)?;
    }
    parser.expect(Terminal::Close)?;
    Ok(Node::Collection(bracket, items))
}

#[cycle(node)]
#[tactic(auto, unfolding(crate::specs::Reading::property_list))]
fn property_list<'a>(
    parser: &mut Parser<'_, 'a>,
    depth: usize,
) -> Result<Items<Property<'a>>, GrammarFault>
    ensures reads { Reads (spec.property_list (spec.node depth) parser.old) result parser.new }
    ensures shorter { OnOk result (length parser.new ≤ length parser.old) }
{
    if !begins_verb(parser.peek()) {
        return Ok(Items::new(parser.alloc()));
    }
    property_list_not_empty(parser, depth)
}

#[cycle(node)]
#[tactic(auto, unfolding(crate::specs::Reading::property_list_not_empty))]
fn property_list_not_empty<'a>(
    parser: &mut Parser<'_, 'a>,
    depth: usize,
) -> Result<Items<Property<'a>>, GrammarFault>
    ensures reads { Reads (spec.property_list_not_empty
        (spec.node depth) parser.old) result parser.new }
    ensures shorter { OnOk result (length parser.new < length parser.old) }
{
    let mut all = Items::new(parser.alloc());
    all.push(property(parser, depth)?)?;
    while parser.eat(Terminal::Semicolon) {
        if let Some(property) = optional_property(parser, depth)? {
            all.push(property)?;
        }
    }
    Ok(all)
}

#[cycle(node)]
#[tactic(auto, unfolding(crate::specs::Reading::optional_property))]
fn optional_property<'a>(
    parser: &mut Parser<'_, 'a>,
    depth: usize,
) -> Result<Option<Property<'a>>, GrammarFault>
    ensures reads { Reads (spec.optional_property (spec.node depth) parser.old) result parser.new }
    ensures shorter { OnOk result (length parser.new ≤ length parser.old) }
{
    if !begins_verb(parser.peek()) {
        return Ok(None);
    }
    Ok(Some(property(parser, depth)?))
}

#[cycle(node)]
#[tactic(auto, unfolding(crate::specs::Reading::property))]
fn property<'a>(parser: &mut Parser<'_, 'a>, depth: usize) -> Result<Property<'a>, GrammarFault>
    ensures reads { Reads (spec.property (spec.node depth) parser.old) result parser.new }
    ensures shorter { OnOk result (length parser.new < length parser.old) }
{
    Ok(Property {
        verb: verb(parser)?,
        objects: objects(parser, depth)?,
    })
}

#[cycle(node)]
#[tactic(auto, unfolding(crate::specs::Reading::objects))]
fn objects<'a>(parser: &mut Parser<'_, 'a>, depth: usize) -> Result<Items<Node<'a>>, GrammarFault>
    ensures reads { Reads (spec.objects (spec.node depth) parser.old) result parser.new }
    ensures shorter { OnOk result (length parser.new < length parser.old) }
{
    let mut all = Items::new(parser.alloc());
    all.push(node(parser, depth)?)?;
    while parser.eat(Terminal::Comma) {
        all.push(node(parser, depth)?)?;
    }
    Ok(all)
}

#[tactic(auto, unfolding(crate::specs::Reading::properties_of))]
fn properties_of<'a>(
    parser: &mut Parser<'_, 'a>,
    subject: &Node<'a>,
    depth: usize,
) -> Result<Items<Property<'a>>, GrammarFault>
    ensures reads { Reads (spec.properties_of
        (spec.node depth) subject.now parser.old) result parser.new }
    ensures shorter { OnOk result (length parser.new ≤ length parser.old) }
{
    if stands_alone(subject) {
        property_list(parser, depth)
    } else {
        property_list_not_empty(parser, depth)
    }
}

#[tactic(auto, unfolding(crate::specs::Reading::same_subject))]
fn same_subject<'a>(parser: &mut Parser<'_, 'a>, depth: usize) -> Result<Triples<'a>, GrammarFault>
    ensures reads { Reads (spec.same_subject (spec.node depth) parser.old) result parser.new }
    ensures shorter { OnOk result (length parser.new < length parser.old) }
{
    let subject = node(parser, depth)?;
    let properties = properties_of(parser, &subject, depth)?;
    Ok(Triples {
        subject,
        properties,
    })
}

fn sees_another(parser: &Parser<'_, '_>) -> bool
    ensures { result ≡ spec.sees_another parser.now }
{
    parser.sees(Terminal::Dot) && begins_node(parser.peek_second())
}

/// Triples with dots between them, and perhaps one behind them (52: TriplesTemplate). The depth is
/// how many brackets may be open from the one around them on.
#[tactic(auto, unfolding(crate::specs::Reading::triples_template))]
pub fn triples_template<'a>(
    parser: &mut Parser<'_, 'a>,
    depth: usize,
) -> Result<Items<Triples<'a>>, GrammarFault>
    ensures reads { Reads (spec.triples_template (spec.node depth) parser.old) result parser.new }
    ensures shorter { OnOk result (length parser.new < length parser.old) }
{
    let mut all = Items::new(parser.alloc());
    all.push(same_subject(parser, depth)?)?;
    while sees_another(parser) {
        parser.pass();
        all.push(same_subject(parser, depth)?)?;
    }
    parser.eat(Terminal::Dot);
    Ok(all)
}
