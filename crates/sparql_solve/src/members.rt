//! Members of groups: which of them are looked up, and which variables they name.
ghost use Rattle.std.specs.Prelude.{◌≡◌, ◌∷◌, [], IfOk, IfSome, IsTrue, Some, map};
ghost use Rattle.std.specs.Option.{option_copied};
ghost use Rattle.rdf_terms.specs.declared.quad.GraphName.{GraphName};
ghost use Rattle.sparql_trees.specs.declared.pattern.BasicGraphPattern.{BasicGraphPattern};
ghost use Rattle.sparql_algebra.specs.Algebra.{element, graph, translation, union_of};
ghost use Rattle.sparql_algebra.specs.Solutions.{solutions};
ghost use Rattle.sparql_solve.specs.Sides.{HoldsJust, HoldsNone, HoldsOnly, RemovesJust, lone_joined};
ghost use Rattle.sparql_solve.specs.Members.{element_solutions};
ghost use Rattle.sparql_solve.specs.Under.{IsLookUpOf, is_joined, is_removed};

use crate::evaluation::Evaluation;
use crate::look_ups::{Graphs, LookUp, graphs_of, look_up_in, look_up_of_names};
use rdf_dataset::Source;
use rdf_terms::{GraphName, NoMemory};
use sparql_trees::{BasicGraphPattern, Member, Pattern, VarOrIri};

/// Whether the member is joined: all but OPTIONAL and MINUS are.
pub(crate) fn is_joined(member: &Member) -> bool
    ensures { result ≡ is_joined (element member.now) }
{
    match member {
        Member::Optional(_) | Member::Minus(_) => false,
        Member::Basic(_) | Member::Union(_) | Member::Graph(_, _) => true,
    }
}

/// Whether the member takes solutions away, as MINUS does.
pub(crate) fn is_removed(member: &Member) -> bool
    ensures { result ≡ is_removed (element member.now) }
{
    matches!(member, Member::Minus(_))
}

// The only member, where it is joined.
fn lone_joined(members: &[Member]) -> Option<&Member>
    ensures { option_copied result ≡ lone_joined members.now }
{
    let [member] = members else {
        return None;
    };
    match member {
        Member::Optional(_) | Member::Minus(_) => None,
        Member::Basic(_) | Member::Union(_) | Member::Graph(_, _) => Some(member),
    }
}

/// The only member of a group without filters.
pub(crate) fn lone_member(pattern: &Pattern) -> Option<&Member>
    ensures { IfSome (option_copied result) (λ member. HoldsOnly pattern.now member) }
{
    match pattern.members.as_slice() {
        [member] if pattern.filters.is_empty() => Some(member),
        _ => None,
    }
}

// The basic graph pattern that is all that the group holds.
fn lone_basic(pattern: &Pattern) -> Option<&BasicGraphPattern>
    ensures just { IfSome (option_copied result) (λ basic. HoldsJust pattern.now basic) }
    ensures all { (basic : BasicGraphPattern) → HoldsJust pattern.now basic →
        option_copied result ≡ Some basic }
{
    if !pattern.filters.is_empty() {
        return None;
    }
    let [member] = pattern.members.as_slice() else {
        return None;
    };
    match member {
        Member::Basic(basic) => Some(basic),
        _ => None,
    }
}

/// The basic graph pattern that is all that MINUS holds.
pub(crate) fn removed_basic(member: &Member) -> Option<&BasicGraphPattern>
    ensures just { IfSome (option_copied result) (λ basic. RemovesJust member.now basic) }
    ensures all { (basic : BasicGraphPattern) → RemovesJust member.now basic →
        option_copied result ≡ Some basic }
{
    match member {
        Member::Minus(pattern) => lone_basic(pattern),
        _ => None,
    }
}

// Whether the group holds neither members nor filters.
fn holds_none(pattern: &Pattern) -> bool
    ensures { IsTrue result → HoldsNone pattern.now }
{
    pattern.members.is_empty() && pattern.filters.is_empty()
}

// The look-ups of GRAPH with a basic graph pattern or with nothing, whichever graph is the active
// one.
fn look_up_of_graph<S: Source>(
    evaluation: &Evaluation<S>,
    name: &VarOrIri,
    pattern: &Pattern,
) -> Result<Option<LookUp>, NoMemory>
    ensures { IfOk result (λ found. IfSome found (λ look_up. (active : GraphName) →
        IsLookUpOf evaluation.now.scope.variables.now (S.contents evaluation.now.source.now) look_up
        (λ d. solutions evaluation.now.scope.variables.now d active (graph name.now
        (translation pattern.now))))) }
{
    if holds_none(pattern) {
        let named = graphs_of(evaluation.source, name)?;
        return Ok(Some(look_up_of_names(evaluation.scope.alloc, named)));
    }
    let Some(basic) = lone_basic(pattern) else {
        return Ok(None);
    };
    let graphs = graphs_of(evaluation.source, name)?;
    Ok(Some(look_up_in(
        evaluation.scope.alloc,
        evaluation.scope.variables,
        graphs,
        basic,
    )?))
}

// The only group, where there is no UNION.
fn lone_group(groups: &[Pattern]) -> Option<&Pattern>
    ensures { IfSome (option_copied result) (λ group. groups.now ≡ group ∷ []) }
{
    match groups {
        [group] => Some(group),
        _ => None,
    }
}

// The look-ups of a group that stands alone, without UNION, and holds just a basic graph pattern.
fn look_up_of_groups<S: Source>(
    evaluation: &Evaluation<S>,
    graph: &GraphName,
    groups: &[Pattern],
) -> Result<Option<LookUp>, NoMemory>
    ensures { IfOk result (λ found. IfSome found (λ look_up.
        IsLookUpOf evaluation.now.scope.variables.now (S.contents evaluation.now.source.now) look_up
        (λ d. solutions evaluation.now.scope.variables.now d graph.now
        (union_of (map translation groups.now))))) }
{
    let Some(group) = lone_group(groups) else {
        return Ok(None);
    };
    let Some(basic) = lone_basic(group) else {
        return Ok(None);
    };
    let own = Graphs::One(graph.copy()?);
    Ok(Some(look_up_in(
        evaluation.scope.alloc,
        evaluation.scope.variables,
        own,
        basic,
    )?))
}

/// The look-ups of a member that is a basic graph pattern, by itself, in GRAPH or in a group.
pub(crate) fn look_up_of_joined<S: Source>(
    evaluation: &Evaluation<S>,
    graph: &GraphName,
    member: &Member,
) -> Result<Option<LookUp>, NoMemory>
    ensures { IfOk result (λ found. IfSome found (λ look_up.
        IsLookUpOf evaluation.now.scope.variables.now (S.contents evaluation.now.source.now) look_up
        (λ d. element_solutions evaluation.now.scope.variables.now d graph.now
        (element member.now)))) }
{
    match member {
        Member::Basic(basic) => {
            let graphs = Graphs::One(graph.copy()?);
            Ok(Some(look_up_in(
                evaluation.scope.alloc,
                evaluation.scope.variables,
                graphs,
                basic,
            )?))
        }
        Member::Graph(name, pattern) => { look_up_of_graph(evaluation, name, pattern) }
        Member::Union(groups) => { look_up_of_groups(evaluation, graph, groups.as_slice()) }
        Member::Optional(_) | Member::Minus(_) => Ok(None),
    }
}

/// The look-ups of a member that is a basic graph pattern, by itself, in GRAPH, in a group, or in
/// OPTIONAL.
pub(crate) fn look_up_of<S: Source>(
    evaluation: &Evaluation<S>,
    graph: &GraphName,
    member: &Member,
) -> Result<Option<LookUp>, NoMemory>
    ensures { IfOk result (λ found. IfSome found (λ look_up.
        IsLookUpOf evaluation.now.scope.variables.now (S.contents evaluation.now.source.now) look_up
        (λ d. element_solutions evaluation.now.scope.variables.now d graph.now
        (element member.now)))) }
{
    match member {
        Member::Optional(pattern) => match lone_joined(pattern.members.as_slice()) {
            Some(inner) => look_up_of_joined(evaluation, graph, inner),
            None => Ok(None),
        },
        _ => look_up_of_joined(evaluation, graph, member),
    }
}
