//! Groups (SPARQL 1.1 Query, section 19.8). A group in a group is a recursion, and a list a loop.

ghost use Rattle.std.specs.Prelude.{◌≡◌, ◌≤◌, ◌<◌, length, MatchResult, OnOk, Option, Some};
ghost use Rattle.rdf_grammar.specs.Readings.{Fails, Reads};
ghost use Rattle.sparql_grammar.specs.Bodies.{put, put_some};
ghost use Rattle.sparql_grammar.specs.declared.tree.Element.{Element};
ghost use Rattle.sparql_grammar.specs.GroupReading as spec;
ghost use Rattle.sparql_grammar.specs.GroupReading.{group_within, in_filter};
ghost use Rattle.sparql_grammar.specs.Reading.{in_data};

use crate::body::Body;
use crate::grammar::{begins_node, triples_template, var_or_iri};
use crate::tree::{Element, Group, Member};
use rdf_grammar::{GrammarFault, MAX_OPEN};
use rdf_terms::Items;
use sparql_expressions::constraint;
use sparql_terminals::{Parser, Terminal};

/// How many parentheses a constraint may open: the group around it is open too.
const MAX_PARENTHESES: usize = MAX_OPEN - 1;

fn begins_pattern(terminal: Option<Terminal>) -> bool
    ensures { result ≡ spec.begins_pattern terminal }
{
    matches!(
        terminal,
        Some(
            Terminal::OpenBrace
                | Terminal::Optional
                | Terminal::MinusWord
                | Terminal::Graph
                | Terminal::Filter
        )
    )
}

#[tactic(auto, unfolding(crate::specs::GroupReading::maybe_block))]
fn maybe_block<'a>(parser: &mut Parser<'_, 'a>) -> Result<Option<Element<'a>>, GrammarFault>
    ensures reads { Reads (spec.maybe_block in_data parser.old) result parser.new }
    ensures shorter { OnOk result (length parser.new ≤ length parser.old) }
{
    if !begins_node(parser.peek()) {
        return Ok(None);
    }
    Ok(Some(Element::Block(triples_template(parser, MAX_OPEN)?)))
}

// Puts the block that comes next, if one does, behind what has been read.
fn put_block<'a>(parser: &mut Parser<'_, 'a>, body: &mut Body<'a>) -> Result<(), GrammarFault>
    ensures puts { MatchResult result
        (λ done. (block : Option Element)
        × (spec.maybe_block in_data parser.old ≡ Some (block, parser.new))
        × (body.new ≡ put_some block body.old))
        (λ fault. Fails (spec.maybe_block in_data parser.old) fault) }
    ensures shorter { OnOk result (length parser.new ≤ length parser.old) }
{
    let block = maybe_block(parser)?;
    body.put_some(block)?;
    Ok(())
}

/// A group (53: GroupGraphPattern). The depth is how many groups may be open from this one on.
#[cycle(group)]
#[tactic(auto, unfolding(crate::specs::GroupReading::group))]
pub fn group<'a>(parser: &mut Parser<'_, 'a>, depth: usize) -> Result<Group<'a>, GrammarFault>
    ensures reads { Reads (group_within depth parser.old) result parser.new }
    ensures shorter { OnOk result (length parser.new < length parser.old) }
{
    if depth == 0 {
        return Err(GrammarFault::Syntax);
    }
    group_graph_pattern(parser, depth - 1)
}

#[cycle(group)]
#[tactic(auto, unfolding(crate::specs::GroupReading::group_graph_pattern))]
fn group_graph_pattern<'a>(
    parser: &mut Parser<'_, 'a>,
    depth: usize,
) -> Result<Group<'a>, GrammarFault>
    ensures reads { Reads
        (spec.group_graph_pattern in_data in_filter (group_within depth) parser.old)
        result parser.new }
    ensures shorter { OnOk result (length parser.new < length parser.old) }
{
    parser.expect(Terminal::OpenBrace)?;
    let group = contents(parser, depth)?;
    parser.expect(Terminal::CloseBrace)?;
    Ok(group)
}

#[cycle(group)]
#[tactic(auto, unfolding(crate::specs::GroupReading::contents))]
fn contents<'a>(parser: &mut Parser<'_, 'a>, depth: usize) -> Result<Group<'a>, GrammarFault>
    ensures reads { Reads
        (spec.contents in_data in_filter (group_within depth) parser.old)
        result parser.new }
    ensures shorter { OnOk result (length parser.new ≤ length parser.old) }
{
    let mut body = Body::new(parser.alloc());
    put_block(parser, &mut body)?;
    while begins_pattern(parser.peek()) {
        put_pattern(parser, depth, &mut body)?;
        parser.eat(Terminal::Dot);
        put_block(parser, &mut body)?;
    }
    Ok(body.into_group()?)
}

// Puts the pattern or the filter that comes next behind what has been read.
#[cycle(group)]
fn put_pattern<'a>(
    parser: &mut Parser<'_, 'a>,
    depth: usize,
    body: &mut Body<'a>,
) -> Result<(), GrammarFault>
    ensures puts { MatchResult result
        (λ done. (element : Element)
        × (spec.pattern_or_filter in_filter (group_within depth) parser.old
        ≡ Some (element, parser.new))
        × (body.new ≡ put element body.old))
        (λ fault. Fails
        (spec.pattern_or_filter in_filter (group_within depth) parser.old) fault) }
    ensures shorter { OnOk result (length parser.new < length parser.old) }
{
    let element = pattern_or_filter(parser, depth)?;
    body.put(element)?;
    Ok(())
}

#[cycle(group)]
#[tactic(auto, unfolding(crate::specs::GroupReading::pattern_or_filter, rdf_grammar::specs::Readings::any))]
fn pattern_or_filter<'a>(
    parser: &mut Parser<'_, 'a>,
    depth: usize,
) -> Result<Element<'a>, GrammarFault>
    ensures reads { Reads
        (spec.pattern_or_filter in_filter (group_within depth) parser.old)
        result parser.new }
    ensures shorter { OnOk result (length parser.new < length parser.old) }
{
    match parser.peek() {
        Some(Terminal::Filter) => {
            parser.pass();
            Ok(Element::Filter(constraint(parser, MAX_PARENTHESES)?))
        }
        _ => Ok(Element::Pattern(pattern(parser, depth)?)),
    }
}

#[cycle(group)]
#[tactic(auto, unfolding(crate::specs::GroupReading::pattern, rdf_grammar::specs::Readings::any))]
fn pattern<'a>(parser: &mut Parser<'_, 'a>, depth: usize) -> Result<Member<'a>, GrammarFault>
    ensures reads { Reads (spec.pattern (group_within depth) parser.old) result parser.new }
    ensures shorter { OnOk result (length parser.new < length parser.old) }
{
    match parser.peek() {
        Some(Terminal::Optional) => {
            parser.pass();
            Ok(Member::Optional(group(parser, depth)?))
        }
        Some(Terminal::MinusWord) => {
            parser.pass();
            Ok(Member::Minus(group(parser, depth)?))
        }
        Some(Terminal::Graph) => {
            parser.pass();
            graph_pattern(parser, depth)
        }
        _ => group_or_union(parser, depth),
    }
}

#[cycle(group)]
#[tactic(auto, unfolding(crate::specs::GroupReading::graph_pattern))]
fn graph_pattern<'a>(parser: &mut Parser<'_, 'a>, depth: usize) -> Result<Member<'a>, GrammarFault>
    ensures reads { Reads
        (spec.graph_pattern (group_within depth) parser.old) result parser.new }
    ensures shorter { OnOk result (length parser.new < length parser.old) }
{
    let graph = var_or_iri(parser)?;
    Ok(Member::Graph(graph, group(parser, depth)?))
}

#[cycle(group)]
#[tactic(auto, unfolding(crate::specs::GroupReading::group_or_union))]
fn group_or_union<'a>(parser: &mut Parser<'_, 'a>, depth: usize) -> Result<Member<'a>, GrammarFault>
    ensures reads { Reads
        (spec.group_or_union (group_within depth) parser.old) result parser.new }
    ensures shorter { OnOk result (length parser.new < length parser.old) }
{
    let mut groups = Items::new(parser.alloc());
    groups.push(group(parser, depth)?)?;
    while parser.eat(Terminal::Union) {
        groups.push(group(parser, depth)?)?;
    }
    Ok(Member::Union(groups))
}
