//! Statements and documents (Turtle 1.1, section 6.5).

ghost use Rattle.std.specs.Prelude.{◌≡◌, ◌+◌, ◌≤◌, ◌<◌, length, OnOk, OnErr, IfErr};
ghost use Rattle.rdf_grammar.specs.Readings.{Reads};
ghost use Rattle.rdf_grammar.specs.declared.fault.GrammarFault.TheVariants.{Syntax};
ghost use Rattle.rdf_turtle.specs.Inside.Reading as spec;

use crate::grammar::{bracketed, optional_predicate_object_list, predicate_object_list, subject};
use crate::lexeme::Parser;
use crate::terminal::Terminal;
use crate::tree::{Node, Property, Statement};
use rdf_grammar::{GrammarFault, binding};
use rdf_terms::Items;

#[tactic(auto, unfolding(crate::specs::Inside::Reading::binding))]
fn prefix<'a>(parser: &mut Parser<'_, 'a>) -> Result<Statement<'a>, GrammarFault>
    ensures reads { Reads (spec.binding parser.old) result parser.new }
    ensures fault { IfErr result (λ e. e ≡ Syntax) }
    ensures shorter { OnOk result (length parser.new < length parser.old) }
{
    let (prefix, reference) = binding(parser)?;
    Ok(Statement::Prefix(prefix, reference))
}

#[tactic(auto, unfolding(crate::specs::Inside::Reading::base))]
fn base<'a>(parser: &mut Parser<'_, 'a>) -> Result<Statement<'a>, GrammarFault>
    ensures reads { Reads (spec.base parser.old) result parser.new }
    ensures fault { IfErr result (λ e. e ≡ Syntax) }
    ensures kept { OnErr result (parser.new ≡ parser.old) }
    ensures shorter { OnOk result (length parser.new < length parser.old) }
{
    Ok(Statement::Base(parser.value(Terminal::Iri)?))
}

fn predicate_object_list_behind<'a>(
    parser: &mut Parser<'_, 'a>,
    inside: &[Property<'a>],
    depth: usize,
) -> Result<Items<Property<'a>>, GrammarFault>
    ensures reads { Reads (spec.predicate_object_list_behind
        (spec.node depth) inside.now parser.old) result parser.new }
    ensures shorter { OnOk result (length parser.new ≤ length parser.old) }
{
    match inside {
        [] => predicate_object_list(parser, depth),
        [_, ..] => optional_predicate_object_list(parser, depth),
    }
}

#[tactic(auto, unfolding(crate::specs::Inside::Reading::about_blank))]
fn about_blank<'a>(parser: &mut Parser<'_, 'a>, depth: usize) -> Result<Statement<'a>, GrammarFault>
    requires { depth ≤ 100 }
    ensures reads { Reads (spec.about_blank (spec.node depth)
        (spec.node (depth + 1)) parser.old) result parser.new }
    ensures shorter { OnOk result (length parser.new < length parser.old) }
{
    let inside = bracketed(parser, depth)?;
    let properties = predicate_object_list_behind(parser, inside.as_slice(), depth + 1)?;
    Ok(Statement::Triples(Node::Blank(inside), properties))
}

#[tactic(auto, unfolding(crate::specs::Inside::Reading::about_subject))]
fn about_subject<'a>(
    parser: &mut Parser<'_, 'a>,
    depth: usize,
) -> Result<Statement<'a>, GrammarFault>
    requires { depth ≤ 100 }
    ensures reads { Reads (spec.about_subject (spec.node depth)
        (spec.node (depth + 1)) parser.old) result parser.new }
    ensures shorter { OnOk result (length parser.new < length parser.old) }
{
    let subject = subject(parser, depth)?;
    let properties = predicate_object_list(parser, depth + 1)?;
    Ok(Statement::Triples(subject, properties))
}

#[tactic(auto, unfolding(crate::specs::Inside::Reading::triples))]
fn triples<'a>(parser: &mut Parser<'_, 'a>, depth: usize) -> Result<Statement<'a>, GrammarFault>
    requires { depth ≤ 100 }
    ensures reads { Reads (spec.triples (spec.node depth)
        (spec.node (depth + 1)) parser.old) result parser.new }
    ensures shorter { OnOk result (length parser.new < length parser.old) }
{
    match parser.peek() {
        Some(Terminal::OpenBracket) => about_blank(parser, depth),
        _ => about_subject(parser, depth),
    }
}

// What was read, where a dot follows.
fn ended<'a>(
    parser: &mut Parser<'_, 'a>,
    statement: Statement<'a>,
) -> Result<Statement<'a>, GrammarFault>
    ensures reads { Reads (spec.ended statement.entry parser.old) result parser.new }
    ensures shorter { OnOk result (length parser.new < length parser.old) }
{
    parser.expect(Terminal::Dot)?;
    Ok(statement)
}

/// The next statement, with so many brackets inside one another at most, or one more around nothing.
#[tactic(auto, unfolding(crate::specs::Inside::Reading::statement, rdf_grammar::specs::Readings::any))]
pub fn statement<'a>(
    parser: &mut Parser<'_, 'a>,
    depth: usize,
) -> Result<Statement<'a>, GrammarFault>
    requires { depth ≤ 100 }
    ensures reads { Reads (spec.statement (spec.node depth)
        (spec.node (depth + 1)) parser.old) result parser.new }
    ensures shorter { OnOk result (length parser.new < length parser.old) }
{
    match parser.peek() {
        Some(Terminal::AtPrefix) => {
            parser.pass();
            let statement = prefix(parser)?;
            ended(parser, statement)
        }
        Some(Terminal::AtBase) => {
            parser.pass();
            let statement = base(parser)?;
            ended(parser, statement)
        }
        Some(Terminal::Prefix) => {
            parser.pass();
            prefix(parser)
        }
        Some(Terminal::Base) => {
            parser.pass();
            base(parser)
        }
        _ => {
            let statement = triples(parser, depth)?;
            ended(parser, statement)
        }
    }
}
