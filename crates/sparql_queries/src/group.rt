//! What groups say (SPARQL 1.1 Query, section 5).
ghost use Rattle.std.specs.Prelude.{◌≡◌, OnOk, IsTrue, map};
ghost use Rattle.std.specs.List.{list_all};
ghost use Rattle.std.specs.Option.{option_map};
ghost use Rattle.sparql_drafts.specs.Kept.{Gives, Tells};
ghost use Rattle.sparql_expressions.specs.ProperExpressions.{proper_expression};
ghost use Rattle.sparql_grammar.specs.Proper as proper;
ghost use Rattle.sparql_grammar.specs.Proper.{holds};
ghost use Rattle.sparql_queries.specs.Collected.{collected};
ghost use Rattle.sparql_queries.specs.Expressions.{all, expression_in};
ghost use Rattle.sparql_queries.specs.Groups as spec;

use crate::basic::{triple_patterns, variable_name};
use crate::expression::expressions;
use rdf_terms::Items;
use rdf_tokens::Slice;
use sparql_drafts::{DraftFault, Scope};
use sparql_expressions::Expression as Filter;
use sparql_grammar::{Group, Member as Written, Triples, VarOrIri as WrittenName};
use sparql_trees::{BasicGraphPattern, Member, Pattern, VarOrIri};
use std::alloc::Global;

// Triples that stand together.
#[tactic(auto, unfolding(crate::specs::Groups::basic))]
pub(crate) fn basic<'a>(
    alloc: Global,
    scope: &mut Scope<'a>,
    labels: &mut Items<Items<Slice<'a>>>,
    triples: &[Triples<'a>],
) -> Result<BasicGraphPattern, DraftFault>
    requires proper { IsTrue (list_all holds (map proper.proper_triples triples.now)) }
    ensures gives { let says = spec.basic scope.old.prologue triples.now in
        Gives (says labels.old) result labels.new }
    ensures prologue { scope.new.prologue ≡ scope.old.prologue }
{
    let quads = scope.basic_graph_pattern(triples)?;
    let triples = triple_patterns(alloc, quads.patterns.as_slice())?;
    labels.push(quads.labels)?;
    Ok(BasicGraphPattern {
        triples,
        hidden: quads.blanks,
    })
}

// What GRAPH names.
pub(crate) fn named<'a>(
    alloc: Global,
    scope: &mut Scope<'a>,
    name: &WrittenName<'a>,
) -> Result<VarOrIri, DraftFault>
    requires proper { IsTrue (proper.proper_var_or_iri name.now) }
    ensures tells { Tells (spec.graph_name scope.old.prologue name.now) result }
    ensures prologue { scope.new.prologue ≡ scope.old.prologue }
{
    match name {
        WrittenName::Variable(name) => Ok(VarOrIri::Variable(variable_name(alloc, name)?)),
        WrittenName::Name(name) => Ok(VarOrIri::Iri(scope.iri(name)?)),
    }
}

// A group of these members, and of what its FILTERs ask.
#[tactic(auto, using(sparql_drafts::proofs::CallerLemmas::map_fails))]
fn with_filters<'a>(
    alloc: Global,
    scope: &mut Scope<'a>,
    members: Items<Member>,
    filters: &[Filter<'a>],
) -> Result<Pattern, DraftFault>
    requires { IsTrue (list_all proper_expression filters.now) }
    ensures tells { let asked = all (map (expression_in scope.old.prologue) filters.now) in
        Tells (option_map (spec.pattern_with members) asked) result }
    ensures prologue { scope.new.prologue ≡ scope.old.prologue }
{
    let filters = expressions(alloc, scope, filters)?;
    Ok(Pattern { members, filters })
}

/// What a group says: names have their IRIs, and the blank nodes of each basic graph pattern are
/// hidden variables, numbered from 0 by their places in the text (SPARQL 1.1 Query, sections 4.1 and
/// 5). The blank node labels of each basic graph pattern come behind those that are there.
///
/// # Errors
/// [`DraftFault::NoIri`] where a name has no IRI; [`DraftFault::NoMemory`] where memory is wanting.
#[cycle(group)]
pub fn pattern_of<'a>(
    alloc: Global,
    scope: &mut Scope<'a>,
    labels: &mut Items<Items<Slice<'a>>>,
    group: &Group<'a>,
) -> Result<Pattern, DraftFault>
    requires proper { IsTrue (proper.proper_group group.now) }
    ensures gives { let says = spec.group scope.old.prologue group.now in
        Gives (says labels.old) result labels.new }
    ensures prologue { OnOk result (scope.new.prologue ≡ scope.old.prologue) }
{
    let members = members_of(alloc, scope, labels, group.members.as_slice())?;
    with_filters(alloc, scope, members, group.filters.as_slice())
}

#[cycle(group)]
fn members_of<'a>(
    alloc: Global,
    scope: &mut Scope<'a>,
    labels: &mut Items<Items<Slice<'a>>>,
    members: &[Written<'a>],
) -> Result<Items<Member>, DraftFault>
    requires proper { IsTrue (list_all holds (map proper.proper_member members.now)) }
    ensures gives { let says = collected (map (spec.member_in scope.old.prologue) members.now) in
        Gives (says labels.old) result labels.new }
    ensures prologue { OnOk result (scope.new.prologue ≡ scope.old.prologue) }
{
    let mut made = Items::new(alloc);
    for member in members {
        let one = member_of(alloc, scope, labels, member)?;
        made.push(one)?;
    }
    Ok(made)
}

#[cycle(group)]
fn patterns_of<'a>(
    alloc: Global,
    scope: &mut Scope<'a>,
    labels: &mut Items<Items<Slice<'a>>>,
    groups: &[Group<'a>],
) -> Result<Items<Pattern>, DraftFault>
    requires proper { IsTrue (list_all holds (map proper.proper_group groups.now)) }
    ensures gives { let says = collected (map (spec.group scope.old.prologue) groups.now) in
        Gives (says labels.old) result labels.new }
    ensures prologue { OnOk result (scope.new.prologue ≡ scope.old.prologue) }
{
    let mut made = Items::new(alloc);
    for group in groups {
        let one = pattern_of(alloc, scope, labels, group)?;
        made.push(one)?;
    }
    Ok(made)
}

#[cycle(group)]
#[tactic(auto, using(crate::proofs::GroupLemmas::graph_said, crate::proofs::GroupLemmas::graph_fails))]
fn member_of<'a>(
    alloc: Global,
    scope: &mut Scope<'a>,
    labels: &mut Items<Items<Slice<'a>>>,
    member: &Written<'a>,
) -> Result<Member, DraftFault>
    requires proper { IsTrue (proper.proper_member member.now) }
    ensures gives { let says = spec.member_in scope.old.prologue member.now in
        Gives (says labels.old) result labels.new }
    ensures prologue { OnOk result (scope.new.prologue ≡ scope.old.prologue) }
{
    match member {
        Written::Triples(triples) => {
            Ok(Member::Basic(basic(alloc, scope, labels, triples.as_slice())?))
        }
        Written::Union(groups) => {
            Ok(Member::Union(patterns_of(alloc, scope, labels, groups.as_slice())?))
        }
        Written::Optional(group) => {
            Ok(Member::Optional(pattern_of(alloc, scope, labels, group)?))
        }
        Written::Graph(name, group) => {
            let name = named(alloc, scope, name)?;
            let pattern = pattern_of(alloc, scope, labels, group)?;
            Ok(Member::Graph(name, pattern))
        }
        Written::Minus(group) => Ok(Member::Minus(pattern_of(alloc, scope, labels, group)?)),
    }
}
