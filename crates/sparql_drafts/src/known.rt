//! Whether prefixes are declared before they are used.
ghost use Rattle.std.specs.Prelude.{◌≡◌, OnOk, map};
ghost use Rattle.std.specs.List.{list_all};
ghost use Rattle.rdf_grammar.specs.Literals.{known_literal};
ghost use Rattle.rdf_grammar.specs.Prologue.{knows};
ghost use Rattle.sparql_grammar.specs.Proper.{holds};
ghost use Rattle.sparql_drafts.specs.Known as spec;

use indexmap::IndexSet;
use rdf_grammar::Key;
use rdf_terms::NoMemory;
use sparql_grammar::{Block, Declaration, Literal, Name, Node, Property, Triples, VarOrIri, Verb};

// Each of these answers whether the prefix of each name is declared.

/// Whether a name's prefix is one of these.
pub fn knows_name<'a>(declared: &IndexSet<Key<'a>>, name: &Name<'a>) -> bool
    ensures { result ≡ knows declared.now.keys name.now }
{
    match name {
        Name::Full(_) => true,
        Name::Prefixed(prefix, _) => declared.contains(&Key::of(prefix)),
    }
}

fn knows_verb<'a>(declared: &IndexSet<Key<'a>>, verb: &Verb<'a>) -> bool
    ensures { result ≡ spec.known_verb declared.now.keys verb.now }
{
    match verb {
        Verb::Name(name) => knows_name(declared, name),
        Verb::Variable(_) | Verb::Type => true,
    }
}

/// Whether the prefix of a literal's datatype is one of these.
pub fn knows_literal<'a>(declared: &IndexSet<Key<'a>>, literal: &Literal<'a>) -> bool
    ensures { result ≡ known_literal declared.now.keys literal.now }
{
    match literal {
        Literal::Typed(_, name) => knows_name(declared, name),
        Literal::Plain(_)
        | Literal::Tagged(_, _)
        | Literal::Integer(_)
        | Literal::Decimal(_)
        | Literal::Double(_)
        | Literal::Boolean(..) => true,
    }
}

#[cycle(known)]
fn knows_node<'a>(declared: &IndexSet<Key<'a>>, node: &Node<'a>) -> bool
    ensures { result ≡ spec.known_node declared.now.keys node.now }
{
    match node {
        Node::Variable(_) | Node::Label(_) => true,
        Node::Name(name) => knows_name(declared, name),
        Node::Literal(literal) => knows_literal(declared, literal),
        Node::Blank(_, properties) => knows_properties(declared, properties.as_slice()),
        Node::Collection(_, items) => knows_nodes(declared, items.as_slice()),
    }
}

#[cycle(known)]
fn knows_nodes<'a>(declared: &IndexSet<Key<'a>>, nodes: &[Node<'a>]) -> bool
    ensures { result ≡ list_all holds (map (spec.known_node declared.now.keys) nodes.now) }
{
    for node in nodes {
        if !knows_node(declared, node) {
            return false;
        }
    }
    true
}

#[cycle(known)]
fn knows_property<'a>(declared: &IndexSet<Key<'a>>, property: &Property<'a>) -> bool
    ensures { result ≡ spec.known_property declared.now.keys property.now }
{
    knows_verb(declared, &property.verb) && knows_nodes(declared, property.objects.as_slice())
}

#[cycle(known)]
fn knows_properties<'a>(declared: &IndexSet<Key<'a>>, properties: &[Property<'a>]) -> bool
    ensures { result ≡ list_all holds (map
        (spec.known_property declared.now.keys) properties.now) }
{
    for property in properties {
        if !knows_property(declared, property) {
            return false;
        }
    }
    true
}

fn knows_triples<'a>(declared: &IndexSet<Key<'a>>, triples: &Triples<'a>) -> bool
    ensures { result ≡ spec.known_triples declared.now.keys triples.now }
{
    knows_node(declared, &triples.subject)
        && knows_properties(declared, triples.properties.as_slice())
}

/// Whether each prefix of triples is one of these.
pub fn knows_all_triples<'a>(declared: &IndexSet<Key<'a>>, all: &[Triples<'a>]) -> bool
    ensures { result ≡ list_all holds (map (spec.known_triples declared.now.keys) all.now) }
{
    for triples in all {
        if !knows_triples(declared, triples) {
            return false;
        }
    }
    true
}

/// Whether a name's prefix is one of these; a variable has none.
pub fn knows_var_or_iri<'a>(declared: &IndexSet<Key<'a>>, name: &VarOrIri<'a>) -> bool
    ensures { result ≡ spec.known_var_or_iri declared.now.keys name.now }
{
    match name {
        VarOrIri::Name(name) => knows_name(declared, name),
        VarOrIri::Variable(_) => true,
    }
}

fn knows_graph<'a>(declared: &IndexSet<Key<'a>>, graph: &Option<VarOrIri<'a>>) -> bool
    ensures { result ≡ spec.known_graph declared.now.keys graph.now }
{
    match graph {
        Some(name) => knows_var_or_iri(declared, name),
        None => true,
    }
}

fn knows_block<'a>(declared: &IndexSet<Key<'a>>, block: &Block<'a>) -> bool
    ensures { result ≡ spec.known_block declared.now.keys block.now }
{
    knows_graph(declared, &block.graph) && knows_all_triples(declared, block.triples.as_slice())
}

/// Whether each prefix of an operation's data is one of these.
pub fn knows_blocks<'a>(declared: &IndexSet<Key<'a>>, blocks: &[Block<'a>]) -> bool
    ensures { result ≡ list_all holds (map (spec.known_block declared.now.keys) blocks.now) }
{
    for block in blocks {
        if !knows_block(declared, block) {
            return false;
        }
    }
    true
}

/// Adds the prefix that a declaration declares, if it does (SPARQL 1.1 Query, section 4.1.1).
///
/// # Errors
/// [`NoMemory`] where memory is wanting.
pub fn declare_prefix<'a>(
    declared: &mut IndexSet<Key<'a>>,
    declaration: &Declaration<'a>,
) -> Result<(), NoMemory>
    ensures { let behind = spec.declared_behind declared.old.keys declaration.now in
        OnOk result (declared.new.keys ≡ behind) }
{
    match declaration {
        Declaration::Prefix(prefix, _) => {
            declared.insert(Key::of(prefix))?;
        }
        Declaration::Base(_) => {}
    }
    Ok(())
}
