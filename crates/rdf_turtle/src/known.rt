//! Whether prefixes are declared before they are used.
ghost use Rattle.std.specs.Prelude.{◌≡◌, OnOk, map};
ghost use Rattle.std.specs.List.{list_all};
ghost use Rattle.std.specs.Option.{is_none};
ghost use Rattle.rdf_turtle.specs.Known as spec;
ghost use Rattle.rdf_grammar.specs.Prologue.{knows};

use crate::tree::{Literal, Name, Node, Property, Statement, Verb};
use indexmap::IndexSet;
use rdf_grammar::Key;
use rdf_terms::NoMemory;

// Each of these answers where the first name stands whose prefix isn't declared.

fn unknown_name<'a>(declared: &IndexSet<Key<'a>>, name: &Name<'a>) -> Option<usize>
    ensures { is_none result ≡ knows declared.now.keys name.now }
{
    match name {
        Name::Full(_) => None,
        Name::Prefixed(prefix, _) => {
            if declared.contains(&Key::of(prefix)) {
                None
            } else {
                Some(prefix.start())
            }
        }
    }
}

fn unknown_verb<'a>(declared: &IndexSet<Key<'a>>, verb: &Verb<'a>) -> Option<usize>
    ensures { is_none result ≡ spec.known_verb declared.now.keys verb.now }
{
    match verb {
        Verb::Name(name) => unknown_name(declared, name),
        Verb::Type => None,
    }
}

#[cycle(known)]
fn unknown_node<'a>(declared: &IndexSet<Key<'a>>, node: &Node<'a>) -> Option<usize>
    ensures { is_none result ≡ spec.known_node declared.now.keys node.now }
{
    match node {
        Node::Name(name) => unknown_name(declared, name),
        Node::Label(_) => None,
        Node::Blank(properties) => unknown_properties(declared, properties.as_slice()),
        Node::Collection(items) => unknown_nodes(declared, items.as_slice()),
        Node::Literal(Literal::Typed(_, name)) => unknown_name(declared, name),
        Node::Literal(_) => None,
    }
}

#[cycle(known)]
fn unknown_nodes<'a>(declared: &IndexSet<Key<'a>>, nodes: &[Node<'a>]) -> Option<usize>
    ensures { is_none result ≡ list_all spec.holds (map
        (spec.known_node declared.now.keys) nodes.now) }
{
    for node in nodes {
        if let Some(start) = unknown_node(declared, node) {
            return Some(start);
        }
    }
    None
}

#[cycle(known)]
fn unknown_property<'a>(declared: &IndexSet<Key<'a>>, property: &Property<'a>) -> Option<usize>
    ensures { is_none result ≡ spec.known_property declared.now.keys property.now }
{
    if let Some(start) = unknown_verb(declared, &property.verb) {
        return Some(start);
    }
    unknown_nodes(declared, property.objects.as_slice())
}

#[cycle(known)]
fn unknown_properties<'a>(
    declared: &IndexSet<Key<'a>>,
    properties: &[Property<'a>],
) -> Option<usize>
    ensures { is_none result ≡ list_all spec.holds (map
        (spec.known_property declared.now.keys) properties.now) }
{
    for property in properties {
        if let Some(start) = unknown_property(declared, property) {
            return Some(start);
        }
    }
    None
}

/// Where the first name of a statement stands whose prefix isn't one of these.
#[tactic(auto, unfolding(crate::specs::Known::known_statement))]
pub(crate) fn unknown_in<'a>(
    declared: &IndexSet<Key<'a>>,
    statement: &Statement<'a>,
) -> Option<usize>
    ensures { is_none result ≡ spec.known_statement declared.now.keys statement.now }
{
    match statement {
        Statement::Triples(node, properties) => {
            if let Some(start) = unknown_node(declared, node) {
                return Some(start);
            }
            unknown_properties(declared, properties.as_slice())
        }
        Statement::Prefix(_, _) | Statement::Base(_) => None,
    }
}

/// Adds the prefix that a statement declares, if it does.
pub(crate) fn declare<'a>(
    declared: &mut IndexSet<Key<'a>>,
    statement: &Statement<'a>,
) -> Result<(), NoMemory>
    ensures { OnOk result (declared.new.keys
        ≡ spec.declared_behind declared.old.keys statement.now) }
{
    if let Statement::Prefix(prefix, _) = statement {
        declared.insert(Key::of(prefix))?;
    }
    Ok(())
}
