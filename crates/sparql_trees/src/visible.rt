//! The variables that a pattern shows, and those that it names (SPARQL 1.1 Query, section 18.2.1).
ghost use Rattle.std.specs.Prelude.{◌≡◌, [], ◌∷◌, IfOk, OnOk, map};
ghost use Rattle.std.specs.List.{flat_map};
ghost use Rattle.sparql_trees.specs.InScope.{MinusNames, MinusShowsNone, ScopeTable};
ghost use Rattle.sparql_trees.specs.Visible as spec;
ghost use Rattle.sparql_trees.specs.VisibleLaws.{NamedAreSorted, OneVisible, VisibleAreSorted};

use crate::pattern::{Member, Pattern, TriplePattern, VarOrIri, VarOrTerm};
use rdf_terms::{Items, NoMemory, Text};
use std::alloc::Global;
use std::collections::BTreeSet;

fn add_name(names: &mut BTreeSet<Text>, name: &Text) -> Result<(), NoMemory>
    ensures { OnOk result (names.new.keys ≡ spec.with_names names.old.keys (name.now ∷ [])) }
{
    names.insert(name.copy()?)?;
    Ok(())
}

fn add_name_of(names: &mut BTreeSet<Text>, name: &VarOrIri) -> Result<(), NoMemory>
    ensures { OnOk result (names.new.keys
        ≡ spec.with_names names.old.keys (spec.name_names name.now)) }
{
    match name {
        VarOrIri::Variable(name) => add_name(names, name),
        VarOrIri::Iri(_) => Ok(()),
    }
}

fn add_place(names: &mut BTreeSet<Text>, place: &VarOrTerm) -> Result<(), NoMemory>
    ensures { OnOk result (names.new.keys
        ≡ spec.with_names names.old.keys (spec.place_names place.now)) }
{
    match place {
        VarOrTerm::Variable(name) => add_name(names, name),
        VarOrTerm::Hidden(_) | VarOrTerm::Term(_) => Ok(()),
    }
}

fn add_triple(names: &mut BTreeSet<Text>, triple: &TriplePattern) -> Result<(), NoMemory>
    ensures { OnOk result (names.new.keys
        ≡ spec.with_names names.old.keys (spec.triple_names triple.now)) }
{
    add_place(names, &triple.subject)?;
    add_name_of(names, &triple.predicate)?;
    add_place(names, &triple.object)
}

fn add_triples(names: &mut BTreeSet<Text>, triples: &[TriplePattern]) -> Result<(), NoMemory>
    ensures { OnOk result (names.new.keys
        ≡ spec.with_names names.old.keys (flat_map spec.triple_names triples.now)) }
{
    for triple in triples {
        add_triple(names, triple)?;
    }
    Ok(())
}

// The names of a group, those that stand in MINUS alone where they are asked for.
#[cycle(group)]
fn add_group(names: &mut BTreeSet<Text>, pattern: &Pattern, minus: bool) -> Result<(), NoMemory>
    ensures { OnOk result (names.new.keys
        ≡ spec.with_names names.old.keys (spec.names_where minus pattern.now)) }
{
    add_members(names, pattern.members.as_slice(), minus)
}

#[cycle(group)]
fn add_members(names: &mut BTreeSet<Text>, members: &[Member], minus: bool) -> Result<(), NoMemory>
    ensures { OnOk result (names.new.keys
        ≡ spec.with_names names.old.keys (spec.joined (map (spec.member_names minus) members.now))) }
{
    for member in members {
        add_member(names, member, minus)?;
    }
    Ok(())
}

#[cycle(group)]
fn add_groups(names: &mut BTreeSet<Text>, groups: &[Pattern], minus: bool) -> Result<(), NoMemory>
    ensures { OnOk result (names.new.keys
        ≡ spec.with_names names.old.keys (spec.joined (map (spec.names_where minus) groups.now))) }
{
    for group in groups {
        add_group(names, group, minus)?;
    }
    Ok(())
}

#[cycle(group)]
fn add_member(names: &mut BTreeSet<Text>, member: &Member, minus: bool) -> Result<(), NoMemory>
    ensures { OnOk result (names.new.keys
        ≡ spec.with_names names.old.keys (spec.member_names minus member.now)) }
{
    match member {
        Member::Basic(basic) => add_triples(names, basic.triples.as_slice()),
        Member::Union(groups) => add_groups(names, groups.as_slice(), minus),
        Member::Optional(group) => add_group(names, group, minus),
        Member::Graph(name, group) => {
            add_name_of(names, name)?;
            add_group(names, group, minus)
        }
        Member::Minus(group) => {
            if !minus {
                return Ok(());
            }
            add_group(names, group, minus)
        }
    }
}

// The names of a pattern, each once and in the order of their code points.
fn variables_of(alloc: Global, pattern: &Pattern, minus: bool) -> Result<Items<Text>, NoMemory>
    ensures { IfOk result (λ names. names ≡ spec.with_names [] (spec.names_where minus pattern.now)) }
{
    let mut names = BTreeSet::new(alloc);
    add_group(&mut names, pattern, minus)?;
    let mut listed = Items::new(alloc);
    for name in names {
        listed.push(name)?;
    }
    Ok(listed)
}

/// The visible variables of a pattern: the names that stand in its triple patterns or as GRAPH's
/// name, at any depth but not in MINUS alone, each once and in the order of their code points
/// (section 18.2.1).
///
/// # Errors
/// [`NoMemory`] where memory is wanting.
#[tactic(auto, unfolding(crate::specs::Visible::visible))]
pub fn visible_variables(alloc: Global, pattern: &Pattern) -> Result<Items<Text>, NoMemory>
    ensures { IfOk result (λ names. names ≡ spec.visible pattern.now) }
{
    variables_of(alloc, pattern, false)
}

/// The variables that a pattern names anywhere, those too that stand in MINUS alone, each once and
/// in the order of their code points. The solutions of a MINUS's right side bind them.
///
/// # Errors
/// [`NoMemory`] where memory is wanting.
#[tactic(auto, unfolding(crate::specs::Visible::named))]
pub fn named_variables(alloc: Global, pattern: &Pattern) -> Result<Items<Text>, NoMemory>
    ensures { IfOk result (λ names. names ≡ spec.named pattern.now) }
{
    variables_of(alloc, pattern, true)
}

/// The visible variables are just the names that stand in the pattern outside MINUS, each once, in
/// the order of their code points, and there is one such list; the named ones are just those that
/// stand anywhere in it.
pub fn one_list_of_visible_variables()
    ensures sorted { VisibleAreSorted }
    ensures one { OneVisible }
    ensures named { NamedAreSorted }
{}

/// Which variables each form of a pattern brings into scope (the table of section 18.2.1): triples
/// those that occur in them, a group those of its members, UNION those of its groups, OPTIONAL those
/// of its group, GRAPH those of its group and its name, MINUS and FILTER none. So it is of those that
/// a pattern names, but that those of MINUS's group are among them.
pub fn forms_bring_into_scope()
    ensures visible { ScopeTable spec.visible }
    ensures named { ScopeTable spec.named }
    ensures minus { MinusShowsNone }
    ensures named_in_minus { MinusNames }
{}
