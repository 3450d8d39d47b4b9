//! The operations of a request (SPARQL 1.1 Query, section 19.8).

ghost use Rattle.std.specs.Prelude.{◌≡◌, ◌≤◌, ◌<◌, length, [], OnOk};
ghost use Rattle.rdf_grammar.specs.Readings.{Reads};
ghost use Rattle.sparql_terminals.specs.declared.terminal.Terminal.TheVariants as terminal;
ghost use Rattle.sparql_grammar.specs.GroupReading.{whole_group};
ghost use Rattle.sparql_grammar.specs.OperationReading as spec;
ghost use Rattle.sparql_grammar.specs.Reading.{in_data, node, triples_template};
ghost use Rattle.sparql_grammar.specs.declared.tree.Operation.TheVariants as operation;

use crate::grammar::{begins_node, triples_template, var_or_iri};
use crate::group::group;
use crate::prologue::{begins_declaration, declaration};
use crate::tree::{Block, GraphOrDefault, GraphRefAll, Modify, Name, Operation, Part, Triples};
use rdf_grammar::{GrammarFault, MAX_OPEN, iri};
use rdf_terms::Items;
use sparql_terminals::{Parser, Terminal};

#[tactic(auto, unfolding(crate::specs::OperationReading::graph_ref))]
fn graph_ref<'a>(parser: &mut Parser<'_, 'a>) -> Result<Name<'a>, GrammarFault>
    ensures reads { Reads (spec.graph_ref parser.old) result parser.new }
    ensures shorter { OnOk result (length parser.new < length parser.old) }
{
    parser.expect(Terminal::Graph)?;
    iri(parser)
}

#[tactic(auto, unfolding(crate::specs::OperationReading::graph_ref_all, rdf_grammar::specs::Readings::any))]
fn graph_ref_all<'a>(parser: &mut Parser<'_, 'a>) -> Result<GraphRefAll<'a>, GrammarFault>
    ensures reads { Reads (spec.graph_ref_all parser.old) result parser.new }
    ensures shorter { OnOk result (length parser.new < length parser.old) }
{
    match parser.peek() {
        Some(Terminal::Default) => {
            parser.pass();
            Ok(GraphRefAll::Default)
        }
        Some(Terminal::Named) => {
            parser.pass();
            Ok(GraphRefAll::Named)
        }
        Some(Terminal::All) => {
            parser.pass();
            Ok(GraphRefAll::All)
        }
        _ => Ok(GraphRefAll::Graph(graph_ref(parser)?)),
    }
}

#[tactic(auto, unfolding(crate::specs::OperationReading::graph_or_default, rdf_grammar::specs::Readings::any))]
fn graph_or_default<'a>(parser: &mut Parser<'_, 'a>) -> Result<GraphOrDefault<'a>, GrammarFault>
    ensures reads { Reads (spec.graph_or_default parser.old) result parser.new }
    ensures shorter { OnOk result (length parser.new < length parser.old) }
{
    match parser.peek() {
        Some(Terminal::Default) => {
            parser.pass();
            Ok(GraphOrDefault::Default)
        }
        _ => {
            parser.eat(Terminal::Graph);
            Ok(GraphOrDefault::Graph(iri(parser)?))
        }
    }
}

#[tactic(auto, unfolding(crate::specs::OperationReading::create))]
fn create<'a>(parser: &mut Parser<'_, 'a>) -> Result<Operation<'a>, GrammarFault>
    ensures reads { Reads (spec.create parser.old) result parser.new }
    ensures shorter { OnOk result (length parser.new < length parser.old) }
{
    let silent = parser.eat(Terminal::Silent);
    let graph = graph_ref(parser)?;
    Ok(Operation::Create { silent, graph })
}

// What CLEAR and DROP act on.
#[tactic(auto, unfolding(crate::specs::OperationReading::on_graphs))]
fn on_graphs<'a>(parser: &mut Parser<'_, 'a>) -> Result<(bool, GraphRefAll<'a>), GrammarFault>
    ensures reads { Reads (spec.on_graphs parser.old) result parser.new }
    ensures shorter { OnOk result (length parser.new < length parser.old) }
{
    let silent = parser.eat(Terminal::Silent);
    let graphs = graph_ref_all(parser)?;
    Ok((silent, graphs))
}

// Where COPY, MOVE and ADD take from and bring to.
#[tactic(auto, unfolding(crate::specs::OperationReading::between))]
fn between<'a>(
    parser: &mut Parser<'_, 'a>,
) -> Result<(bool, GraphOrDefault<'a>, GraphOrDefault<'a>), GrammarFault>
    ensures reads { Reads (spec.between parser.old) result parser.new }
    ensures shorter { OnOk result (length parser.new < length parser.old) }
{
    let silent = parser.eat(Terminal::Silent);
    let from = graph_or_default(parser)?;
    parser.expect(Terminal::To)?;
    let to = graph_or_default(parser)?;
    Ok((silent, from, to))
}

// An operation on whole graphs.
#[tactic(auto, unfolding(crate::specs::OperationReading::graph_operation, rdf_grammar::specs::Readings::any))]
fn graph_operation<'a>(parser: &mut Parser<'_, 'a>) -> Result<Operation<'a>, GrammarFault>
    ensures reads { Reads (spec.graph_operation parser.old) result parser.new }
    ensures shorter { OnOk result (length parser.new < length parser.old) }
{
    match parser.peek() {
        Some(Terminal::Create) => {
            parser.pass();
            create(parser)
        }
        Some(Terminal::Clear) => {
            parser.pass();
            let (silent, graphs) = on_graphs(parser)?;
            Ok(Operation::Clear { silent, graphs })
        }
        Some(Terminal::Drop) => {
            parser.pass();
            let (silent, graphs) = on_graphs(parser)?;
            Ok(Operation::Drop { silent, graphs })
        }
        Some(Terminal::Copy) => {
            parser.pass();
            let (silent, from, to) = between(parser)?;
            Ok(Operation::Copy { silent, from, to })
        }
        Some(Terminal::Move) => {
            parser.pass();
            let (silent, from, to) = between(parser)?;
            Ok(Operation::Move { silent, from, to })
        }
        Some(Terminal::Add) => {
            parser.pass();
            let (silent, from, to) = between(parser)?;
            Ok(Operation::Add { silent, from, to })
        }
        _ => Err(GrammarFault::Syntax),
    }
}

#[tactic(auto, unfolding(crate::specs::OperationReading::triples))]
fn triples<'a>(
    parser: &mut Parser<'_, 'a>,
    depth: usize,
) -> Result<Items<Triples<'a>>, GrammarFault>
    ensures reads { Reads
        (spec.triples (triples_template (node depth)) parser.old) result parser.new }
    ensures shorter { OnOk result (length parser.new ≤ length parser.old) }
{
    if !begins_node(parser.peek()) {
        return Ok(Items::new(parser.alloc()));
    }
    triples_template(parser, depth)
}

#[tactic(auto, unfolding(crate::specs::OperationReading::default_block))]
fn default_block<'a>(parser: &mut Parser<'_, 'a>) -> Result<Block<'a>, GrammarFault>
    ensures reads { Reads (spec.default_block in_data parser.old) result parser.new }
    ensures shorter { OnOk result (length parser.new ≤ length parser.old) }
{
    Ok(Block {
        graph: None,
        triples: triples(parser, MAX_OPEN)?,
    })
}

#[tactic(auto, unfolding(crate::specs::OperationReading::named_block))]
fn named_block<'a>(parser: &mut Parser<'_, 'a>) -> Result<Block<'a>, GrammarFault>
    ensures reads { Reads (spec.named_block spec.in_graph parser.old) result parser.new }
    ensures shorter { OnOk result (length parser.new < length parser.old) }
{
    parser.expect(Terminal::Graph)?;
    let graph = var_or_iri(parser)?;
    parser.expect(Terminal::OpenBrace)?;
    let triples = triples(parser, MAX_OPEN - 1)?;
    parser.expect(Terminal::CloseBrace)?;
    Ok(Block {
        graph: Some(graph),
        triples,
    })
}

#[tactic(auto, unfolding(crate::specs::OperationReading::quads))]
fn quads<'a>(parser: &mut Parser<'_, 'a>) -> Result<Items<Block<'a>>, GrammarFault>
    ensures reads { Reads (spec.quads in_data spec.in_graph parser.old) result parser.new }
    ensures shorter { OnOk result (length parser.new ≤ length parser.old) }
{
    let mut blocks = Items::new(parser.alloc());
    blocks.push(default_block(parser)?)?;
    while parser.sees(Terminal::Graph) {
        blocks.push(named_block(parser)?)?;
        parser.eat(Terminal::Dot);
        blocks.push(default_block(parser)?)?;
    }
    Ok(blocks)
}

#[tactic(auto, unfolding(crate::specs::OperationReading::quad_pattern))]
fn quad_pattern<'a>(parser: &mut Parser<'_, 'a>) -> Result<Items<Block<'a>>, GrammarFault>
    ensures reads { Reads (spec.quad_pattern in_data spec.in_graph parser.old) result parser.new }
    ensures shorter { OnOk result (length parser.new < length parser.old) }
{
    parser.expect(Terminal::OpenBrace)?;
    let blocks = quads(parser)?;
    parser.expect(Terminal::CloseBrace)?;
    Ok(blocks)
}

#[tactic(auto, unfolding(crate::specs::OperationReading::data_of))]
fn insert_data<'a>(parser: &mut Parser<'_, 'a>) -> Result<Operation<'a>, GrammarFault>
    ensures reads { Reads
        (spec.data_of in_data spec.in_graph terminal.Insert operation.InsertData parser.old)
        result parser.new }
    ensures shorter { OnOk result (length parser.new < length parser.old) }
{
    parser.expect(Terminal::Insert)?;
    parser.expect(Terminal::Data)?;
    Ok(Operation::InsertData(quad_pattern(parser)?))
}

#[tactic(auto, unfolding(crate::specs::OperationReading::data_of))]
fn delete_data<'a>(parser: &mut Parser<'_, 'a>) -> Result<Operation<'a>, GrammarFault>
    ensures reads { Reads
        (spec.data_of in_data spec.in_graph terminal.Delete operation.DeleteData parser.old)
        result parser.new }
    ensures shorter { OnOk result (length parser.new < length parser.old) }
{
    parser.expect(Terminal::Delete)?;
    parser.expect(Terminal::Data)?;
    Ok(Operation::DeleteData(quad_pattern(parser)?))
}

#[tactic(auto, unfolding(crate::specs::OperationReading::delete_where))]
fn delete_where<'a>(parser: &mut Parser<'_, 'a>) -> Result<Operation<'a>, GrammarFault>
    ensures reads { Reads (spec.delete_where in_data spec.in_graph parser.old) result parser.new }
    ensures shorter { OnOk result (length parser.new < length parser.old) }
{
    parser.expect(Terminal::Delete)?;
    parser.expect(Terminal::Where)?;
    Ok(Operation::DeleteWhere(quad_pattern(parser)?))
}

#[tactic(auto, unfolding(crate::specs::OperationReading::insert_clause))]
fn insert_clause<'a>(parser: &mut Parser<'_, 'a>) -> Result<Items<Block<'a>>, GrammarFault>
    ensures reads { Reads (spec.insert_clause in_data spec.in_graph parser.old) result parser.new }
    ensures shorter { OnOk result (length parser.new < length parser.old) }
{
    parser.expect(Terminal::Insert)?;
    quad_pattern(parser)
}

// What is deleted, and what is inserted.
#[tactic(auto, unfolding(crate::specs::OperationReading::templates, crate::specs::OperationReading::delete_clause))]
fn templates<'a>(
    parser: &mut Parser<'_, 'a>,
) -> Result<(Items<Block<'a>>, Items<Block<'a>>), GrammarFault>
    ensures reads { Reads (spec.templates in_data spec.in_graph parser.old) result parser.new }
    ensures shorter { OnOk result (length parser.new < length parser.old) }
{
    match parser.peek() {
        Some(Terminal::Delete) => {
            parser.expect(Terminal::Delete)?;
            let delete = quad_pattern(parser)?;
            if !parser.sees(Terminal::Insert) {
                return Ok((delete, Items::new(parser.alloc())));
            }
            Ok((delete, insert_clause(parser)?))
        }
        _ => Ok((Items::new(parser.alloc()), insert_clause(parser)?)),
    }
}

#[tactic(auto, unfolding(crate::specs::OperationReading::modify, rdf_grammar::specs::Terminals::the))]
fn modify<'a>(parser: &mut Parser<'_, 'a>) -> Result<Modify<'a>, GrammarFault>
    ensures reads { Reads
        (spec.modify in_data spec.in_graph whole_group parser.old) result parser.new }
    ensures shorter { OnOk result (length parser.new < length parser.old) }
{
    let with = if parser.eat(Terminal::With) {
        Some(iri(parser)?)
    } else {
        None
    };
    let (delete, insert) = templates(parser)?;
    parser.expect(Terminal::Where)?;
    Ok(Modify {
        with,
        delete,
        insert,
        group: group(parser, MAX_OPEN)?,
    })
}

#[tactic(auto, unfolding(crate::specs::OperationReading::operation))]
fn operation<'a>(parser: &mut Parser<'_, 'a>) -> Result<Operation<'a>, GrammarFault>
    ensures reads { Reads
        (spec.operation in_data spec.in_graph whole_group parser.old) result parser.new }
    ensures shorter { OnOk result (length parser.new < length parser.old) }
{
    match parser.peek() {
        Some(Terminal::Insert) => match parser.peek_second() {
            Some(Terminal::Data) => insert_data(parser),
            _ => Ok(Operation::Modify(modify(parser)?)),
        },
        Some(Terminal::Delete) => match parser.peek_second() {
            Some(Terminal::Data) => delete_data(parser),
            Some(Terminal::Where) => delete_where(parser),
            _ => Ok(Operation::Modify(modify(parser)?)),
        },
        Some(Terminal::With) => Ok(Operation::Modify(modify(parser)?)),
        _ => graph_operation(parser),
    }
}

#[tactic(auto, unfolding(crate::specs::OperationReading::ended_operation))]
fn ended_operation<'a>(parser: &mut Parser<'_, 'a>) -> Result<Part<'a>, GrammarFault>
    ensures reads { Reads
        (spec.ended_operation in_data spec.in_graph whole_group parser.old) result parser.new }
    ensures shorter { OnOk result (length parser.new < length parser.old) }
{
    let operation = operation(parser)?;
    if parser.is_more() {
        if let Err(fault) = parser.expect(Terminal::Semicolon) {
            drop(operation);
            return Err(fault);
        }
    }
    Ok(Part::Operation(operation))
}

#[tactic(auto, unfolding(crate::specs::OperationReading::part))]
fn part<'a>(parser: &mut Parser<'_, 'a>) -> Result<Part<'a>, GrammarFault>
    ensures reads { Reads
        (spec.part in_data spec.in_graph whole_group parser.old) result parser.new }
    ensures shorter { OnOk result (length parser.new < length parser.old) }
{
    if begins_declaration(parser.peek()) {
        return Ok(Part::Declaration(declaration(parser)?));
    }
    ended_operation(parser)
}

/// The parts of a request up to the last lexeme (29: Update).
#[tactic(auto, unfolding(crate::specs::OperationReading::request, crate::specs::OperationReading::update))]
pub fn request<'a>(parser: &mut Parser<'_, 'a>) -> Result<Items<Part<'a>>, GrammarFault>
    ensures reads { Reads (spec.request 99 parser.old) result parser.new }
    ensures all { OnOk result (parser.new ≡ []) }
{
    let mut all = Items::new(parser.alloc());
    while parser.is_more() {
        all.push(part(parser)?)?;
    }
    Ok(all)
}
