//! Where the first name of a document stands that has no IRI.
ghost use Rattle.std.specs.Prelude.{◌≡◌, [], IfOk, OnOk};
ghost use Rattle.rdf_turtle.specs.FaultyNames as spec;
ghost use Rattle.rdf_turtle.specs.Inside.NamePlaces.{StartsAt};
ghost use Rattle.rdf_turtle.specs.Leaves.{takes_tag};

use crate::survey::terminal_of;
use crate::terminal::Terminal;
use indexmap::IndexSet;
use rdf_grammar::Key;
use rdf_terms::{Iri, IriFault, NoMemory};
use rdf_tokens::{Found, Slice, TokenWalk, iri_value, prefix_part};
use std::alloc::Global;

// What a lexeme is, behind a text or not.
fn taken(behind: bool, terminal: Terminal) -> Terminal
    ensures { result ≡ spec.taken behind terminal }
{
    match terminal {
        Terminal::AtPrefix | Terminal::AtBase if behind => Terminal::AtWord,
        _ => terminal,
    }
}

fn is_text(terminal: Terminal) -> bool
    ensures { result ≡ takes_tag terminal }
{
    matches!(terminal, Terminal::Text)
}

fn declares_behind(declares: bool, terminal: Terminal) -> bool
    ensures { result ≡ spec.declares_behind declares terminal }
{
    match terminal {
        Terminal::AtPrefix | Terminal::Prefix => true,
        Terminal::Pname => false,
        _ => declares,
    }
}

// Whether a prefixed name is used whose prefix is none of these.
fn is_unbound<'a>(
    declares: bool,
    bound: &IndexSet<Key<'a>>,
    terminal: Terminal,
    name: &Slice<'a>,
) -> bool
    ensures { result ≡ spec.is_unbound declares bound.now.keys terminal name.now }
{
    match terminal {
        Terminal::Pname => !declares && !bound.contains(&Key::of(&prefix_part(name))),
        _ => false,
    }
}

// Adds the prefix that a lexeme declares, if it does.
fn bind<'a>(
    declares: bool,
    bound: &mut IndexSet<Key<'a>>,
    terminal: Terminal,
    name: &Slice<'a>,
) -> Result<(), NoMemory>
    ensures { OnOk result
        (bound.new.keys ≡ spec.bound_behind declares bound.old.keys terminal name.now) }
{
    match terminal {
        Terminal::Pname => {
            if declares {
                bound.insert(Key::of(&prefix_part(name)))?;
            }
            Ok(())
        }
        _ => Ok(()),
    }
}

// The byte where such a name starts: what is bound is kept by the caller.
fn first_unbound_in<'a>(text: &'a str, bound: &mut IndexSet<Key<'a>>) -> Result<usize, NoMemory>
    requires { bound.old.keys ≡ [] }
    ensures { IfOk result (λ place. StartsAt text.now spec.first_unbound place) }
{
    let mut walk = TokenWalk::over(text);
    let mut behind = false;
    let mut declares = false;
    while let Some(found) = walk.next() {
        match found {
            Found::Token(start, kind, name) => {
                let read = terminal_of(kind, &name);
                let terminal = taken(behind, read);
                if is_unbound(declares, bound, terminal, &name) {
                    return Ok(start);
                }
                bind(declares, bound, terminal, &name)?;
                declares = declares_behind(declares, terminal);
                behind = is_text(read);
            }
            Found::NoToken(_) => return Ok(text.len()),
        }
    }
    Ok(text.len())
}

/// The byte where the first prefixed name starts whose prefix isn't declared before it, or the end of the
/// text where none is such a name.
///
/// # Errors
/// [`NoMemory`] where memory is wanting.
pub(crate) fn first_unbound(alloc: Global, text: &str) -> Result<usize, NoMemory>
    ensures { IfOk result (λ place. StartsAt text.now spec.first_unbound place) }
{
    let mut bound = IndexSet::new(alloc);
    first_unbound_in(text, &mut bound)
}

fn moves_behind(moves: bool, terminal: Terminal) -> bool
    ensures { result ≡ spec.moves_behind moves terminal }
{
    match terminal {
        Terminal::AtBase | Terminal::Base => true,
        Terminal::Iri => false,
        _ => moves,
    }
}

// Whether a reference has no scheme where no base is in force.
fn lacks(alloc: Global, based: bool, reference: &Slice<'_>) -> Result<bool, NoMemory>
    ensures { IfOk result (λ lacks. lacks ≡ spec.lacks based reference.now) }
{
    if based {
        return Ok(false);
    }
    let text = iri_value(alloc, reference)?;
    match Iri::from_text(text) {
        Err(IriFault::Relative) => Ok(true),
        _ => Ok(false),
    }
}

fn is_lacking(
    alloc: Global,
    based: bool,
    terminal: Terminal,
    reference: &Slice<'_>,
) -> Result<bool, NoMemory>
    ensures { IfOk result (λ lacks. lacks ≡ spec.is_lacking based terminal reference.now) }
{
    match terminal {
        Terminal::Iri => lacks(alloc, based, reference),
        _ => Ok(false),
    }
}

fn base_behind(moves: bool, based: bool, terminal: Terminal) -> bool
    ensures { result ≡ spec.base_behind moves based terminal }
{
    match terminal {
        Terminal::Iri => moves || based,
        _ => based,
    }
}

/// The byte where the first reference starts that has no scheme where no base is in force, or the end of
/// the text where none is such a reference. A base is in force at the start, or none.
///
/// # Errors
/// [`NoMemory`] where memory is wanting.
pub(crate) fn first_lacking(alloc: Global, based: bool, text: &str) -> Result<usize, NoMemory>
    ensures { IfOk result (λ place. StartsAt text.now (spec.first_lacking based) place) }
{
    let mut walk = TokenWalk::over(text);
    let mut behind = false;
    let mut moves = false;
    let mut in_force = based;
    while let Some(found) = walk.next() {
        match found {
            Found::Token(start, kind, reference) => {
                let read = terminal_of(kind, &reference);
                let terminal = taken(behind, read);
                if is_lacking(alloc, in_force, terminal, &reference)? {
                    return Ok(start);
                }
                in_force = base_behind(moves, in_force, terminal);
                moves = moves_behind(moves, terminal);
                behind = is_text(read);
            }
            Found::NoToken(_) => return Ok(text.len()),
        }
    }
    Ok(text.len())
}
