//! The productions of Turtle inside a statement (Turtle 1.1, section 6.5). A bracket is a
//! recursion, and a list a loop.

ghost use Rattle.std.specs.Prelude.{◌≡◌, ◌≤◌, ◌<◌, [], ◌∷◌, length, OnOk, OnErr, IfOk, IfErr};
ghost use Rattle.rdf_grammar.specs.Readings.{Reads};
ghost use Rattle.rdf_grammar.specs.declared.fault.GrammarFault.TheVariants.{Syntax};
ghost use Rattle.rdf_turtle.specs.Inside.Reading as spec;

use crate::lexeme::Parser;
use crate::terminal::Terminal;
use crate::tree::{Node, Property, Verb};
use rdf_grammar::{GrammarFault, iri, literal};
use rdf_terms::{Items, NoMemory};
use std::alloc::Global;

fn begins_verb(terminal: Option<Terminal>) -> bool
    ensures { result ≡ spec.begins_verb terminal }
{
    matches!(
        terminal,
        Some(Terminal::A | Terminal::Iri | Terminal::Pname)
    )
}

fn begins_subject(terminal: Option<Terminal>) -> bool
    ensures { result ≡ spec.begins_subject terminal }
{
    matches!(
        terminal,
        Some(
            Terminal::BlankLabel
                | Terminal::OpenBracket
                | Terminal::Open
                | Terminal::Iri
                | Terminal::Pname
        )
    )
}

fn begins_node(terminal: Option<Terminal>) -> bool
    ensures { result ≡ spec.begins_node terminal }
{
    matches!(
        terminal,
        Some(
            Terminal::Iri
                | Terminal::Pname
                | Terminal::BlankLabel
                | Terminal::OpenBracket
                | Terminal::Open
                | Terminal::Text
                | Terminal::Integer
                | Terminal::Decimal
                | Terminal::Double
                | Terminal::True
                | Terminal::False
        )
    )
}

#[tactic(auto, unfolding(crate::specs::Inside::Reading::verb, rdf_grammar::specs::Readings::any))]
#[inline(always)]
fn verb<'a>(parser: &mut Parser<'_, 'a>) -> Result<Verb<'a>, GrammarFault>
    ensures reads { Reads (spec.verb parser.old) result parser.new }
    ensures fault { IfErr result (λ e. e ≡ Syntax) }
    ensures kept { OnErr result (parser.new ≡ parser.old) }
    ensures shorter { OnOk result (length parser.new < length parser.old) }
{
    match parser.peek() {
        Some(Terminal::A) => {
            parser.pass();
            Ok(Verb::Type)
        }
        _ => Ok(Verb::Name(iri(parser)?)),
    }
}

#[cycle(node)]
#[tactic(auto, unfolding(crate::specs::Inside::Reading::node, crate::specs::Inside::Reading::object))]
#[inline(always)]
fn node<'a>(parser: &mut Parser<'_, 'a>, depth: usize) -> Result<Node<'a>, GrammarFault>
    ensures reads { Reads (spec.node depth parser.old) result parser.new }
    ensures shorter { OnOk result (length parser.new < length parser.old) }
{
    if depth == 0 {
        return Err(GrammarFault::Syntax);
    }
    object(parser, depth - 1)
}

#[cycle(node)]
#[tactic(auto, unfolding(crate::specs::Inside::Reading::object))]
#[inline(always)]
fn object<'a>(parser: &mut Parser<'_, 'a>, depth: usize) -> Result<Node<'a>, GrammarFault>
    ensures reads { Reads (spec.object (spec.node depth) parser.old) result parser.new }
    ensures shorter { OnOk result (length parser.new < length parser.old) }
{
    if begins_subject(parser.peek()) {
        subject(parser, depth)
    } else {
        Ok(Node::Literal(literal(parser)?))
    }
}

#[cycle(node)]
#[tactic(auto, unfolding(crate::specs::Inside::Reading::subject))]
#[inline(always)]
pub fn subject<'a>(parser: &mut Parser<'_, 'a>, depth: usize) -> Result<Node<'a>, GrammarFault>
    ensures reads { Reads (spec.subject (spec.node depth) parser.old) result parser.new }
    ensures shorter { OnOk result (length parser.new < length parser.old) }
{
    match parser.peek() {
        Some(Terminal::BlankLabel) => Ok(Node::Label(parser.value(Terminal::BlankLabel)?)),
        Some(Terminal::OpenBracket) => Ok(Node::Blank(bracketed(parser, depth)?)),
        Some(Terminal::Open) => Ok(Node::Collection(collection(parser, depth)?)),
        _ => Ok(Node::Name(iri(parser)?)),
    }
}

/// `[ ]`, or with properties.
#[cycle(node)]
#[tactic(auto, unfolding(crate::specs::Inside::Reading::bracketed))]
pub fn bracketed<'a>(
    parser: &mut Parser<'_, 'a>,
    depth: usize,
) -> Result<Items<Property<'a>>, GrammarFault>
    ensures reads { Reads (spec.bracketed (spec.node depth) parser.old) result parser.new }
    ensures shorter { OnOk result (length parser.new < length parser.old) }
{
    parser.expect(Terminal::OpenBracket)?;
    let properties = optional_predicate_object_list(parser, depth)?;
    parser.expect(Terminal::CloseBracket)?;
    Ok(properties)
}

#[cycle(node)]
#[tactic(auto, unfolding(crate::specs::Inside::Reading::collection))]
fn collection<'a>(
    parser: &mut Parser<'_, 'a>,
    depth: usize,
) -> Result<Items<Node<'a>>, GrammarFault>
    ensures reads { Reads (spec.collection (spec.node depth) parser.old) result parser.new }
    ensures shorter { OnOk result (length parser.new < length parser.old) }
{
    parser.expect(Terminal::Open)?;
    let mut items = Items::new(parser.alloc());
    while begins_node(parser.peek()) {
        items.push(node(parser, depth)?)?;
    }
    parser.expect(Terminal::Close)?;
    Ok(items)
}

#[cycle(node)]
#[tactic(auto, unfolding(crate::specs::Inside::Reading::optional_predicate_object_list))]
pub fn optional_predicate_object_list<'a>(
    parser: &mut Parser<'_, 'a>,
    depth: usize,
) -> Result<Items<Property<'a>>, GrammarFault>
    ensures reads { Reads (spec.optional_predicate_object_list
        (spec.node depth) parser.old) result parser.new }
    ensures shorter { OnOk result (length parser.new ≤ length parser.old) }
{
    if !begins_verb(parser.peek()) {
        return Ok(Items::new(parser.alloc()));
    }
    predicate_object_list(parser, depth)
}

/// How many properties there is room for from the start.
const ROOM: usize = 8;

// No properties yet, with room for as many as a subject has in most texts.
fn some_properties<'a>(alloc: Global) -> Result<Items<Property<'a>>, NoMemory>
    ensures { IfOk result (λ properties. properties ≡ []) }
{
    Ok(Items::from_vec(Vec::with_capacity(alloc, ROOM)?))
}

#[cycle(node)]
#[tactic(auto, unfolding(crate::specs::Inside::Reading::predicate_object_list))]
pub fn predicate_object_list<'a>(
    parser: &mut Parser<'_, 'a>,
    depth: usize,
) -> Result<Items<Property<'a>>, GrammarFault>
    ensures reads { Reads (spec.predicate_object_list
        (spec.node depth) parser.old) result parser.new }
    ensures shorter { OnOk result (length parser.new < length parser.old) }
{
    let mut all = some_properties(parser.alloc())?;
    all.push(property(parser, depth)?)?;
    while parser.eat(Terminal::Semicolon) {
        if let Some(property) = optional_property(parser, depth)? {
            all.push(property)?;
        }
    }
    Ok(all)
}

#[cycle(node)]
#[tactic(auto, unfolding(crate::specs::Inside::Reading::optional_property))]
fn optional_property<'a>(
    parser: &mut Parser<'_, 'a>,
    depth: usize,
) -> Result<Option<Property<'a>>, GrammarFault>
    ensures reads { Reads (spec.optional_property (spec.node depth) parser.old) result parser.new }
    ensures shorter { OnOk result (length parser.new ≤ length parser.old) }
{
    if !begins_verb(parser.peek()) {
        return Ok(None);
    }
    Ok(Some(property(parser, depth)?))
}

#[cycle(node)]
#[tactic(auto, unfolding(crate::specs::Inside::Reading::property))]
fn property<'a>(parser: &mut Parser<'_, 'a>, depth: usize) -> Result<Property<'a>, GrammarFault>
    ensures reads { Reads (spec.property (spec.node depth) parser.old) result parser.new }
    ensures shorter { OnOk result (length parser.new < length parser.old) }
{
    Ok(Property {
        verb: verb(parser)?,
        objects: objects(parser, depth)?,
    })
}

/// How many objects there is room for where a comma stands behind the first.
const SEVERAL: usize = 4;

// The first object of a verb, with room for those behind it.
#[inline(always)]
fn first_object<'a>(parser: &Parser<'_, 'a>, first: Node<'a>) -> Result<Items<Node<'a>>, NoMemory>
    ensures { IfOk result (λ objects. objects ≡ first.entry ∷ []) }
{
    let room = if parser.sees(Terminal::Comma) {
        SEVERAL
    } else {
        1
    };
    let mut objects = Items::from_vec(Vec::with_capacity(parser.alloc(), room)?);
    objects.push(first)?;
    Ok(objects)
}

#[cycle(node)]
#[tactic(auto, unfolding(crate::specs::Inside::Reading::objects))]
#[inline(always)]
fn objects<'a>(parser: &mut Parser<'_, 'a>, depth: usize) -> Result<Items<Node<'a>>, GrammarFault>
    ensures reads { Reads (spec.objects (spec.node depth) parser.old) result parser.new }
    ensures shorter { OnOk result (length parser.new < length parser.old) }
{
    let first = node(parser, depth)?;
    let mut all = first_object(parser, first)?;
    while parser.eat(Terminal::Comma) {
        all.push(node(parser, depth)?)?;
    }
    Ok(all)
}
