//! Prologues (SPARQL 1.1 Query, section 19.8).

ghost use Rattle.std.specs.Prelude.{◌≡◌, ◌≤◌, ◌<◌, length, OnOk};
ghost use Rattle.rdf_grammar.specs.Readings.{Reads};
ghost use Rattle.sparql_grammar.specs.PrologueReading as spec;

use crate::tree::Declaration;
use rdf_grammar::{GrammarFault, binding};
use rdf_terms::Items;
use sparql_terminals::{Parser, Terminal};

#[tactic(auto, unfolding(crate::specs::PrologueReading::base))]
fn base<'a>(parser: &mut Parser<'_, 'a>) -> Result<Declaration<'a>, GrammarFault>
    ensures reads { Reads (spec.base parser.old) result parser.new }
    ensures shorter { OnOk result (length parser.new < length parser.old) }
{
    Ok(Declaration::Base(parser.value(Terminal::Iri)?))
}

#[tactic(auto, unfolding(crate::specs::PrologueReading::prefix))]
fn prefix<'a>(parser: &mut Parser<'_, 'a>) -> Result<Declaration<'a>, GrammarFault>
    ensures reads { Reads (spec.prefix parser.old) result parser.new }
    ensures shorter { OnOk result (length parser.new < length parser.old) }
{
    let (prefix, reference) = binding(parser)?;
    Ok(Declaration::Prefix(prefix, reference))
}

/// Whether a declaration begins with this terminal.
pub fn begins_declaration(terminal: Option<Terminal>) -> bool
    ensures { result ≡ spec.begins_declaration terminal }
{
    matches!(terminal, Some(Terminal::Base | Terminal::Prefix))
}

/// A declaration (5: BaseDecl, 6: PrefixDecl).
#[tactic(auto, unfolding(crate::specs::PrologueReading::declaration, rdf_grammar::specs::Readings::any))]
pub fn declaration<'a>(parser: &mut Parser<'_, 'a>) -> Result<Declaration<'a>, GrammarFault>
    ensures reads { Reads (spec.declaration parser.old) result parser.new }
    ensures shorter { OnOk result (length parser.new < length parser.old) }
{
    match parser.peek() {
        Some(Terminal::Base) => {
            parser.pass();
            base(parser)
        }
        Some(Terminal::Prefix) => {
            parser.pass();
            prefix(parser)
        }
        _ => Err(GrammarFault::Syntax),
    }
}

/// Declarations, as long as there are more (4: Prologue).
#[tactic(auto, unfolding(crate::specs::PrologueReading::prologue))]
pub fn prologue<'a>(parser: &mut Parser<'_, 'a>) -> Result<Items<Declaration<'a>>, GrammarFault>
    ensures reads { Reads (spec.prologue parser.old) result parser.new }
    ensures shorter { OnOk result (length parser.new ≤ length parser.old) }
{
    let mut all = Items::new(parser.alloc());
    while begins_declaration(parser.peek()) {
        all.push(declaration(parser)?)?;
    }
    Ok(all)
}
