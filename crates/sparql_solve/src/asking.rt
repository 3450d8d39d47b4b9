//! Whether a group has a solution (ASK; SPARQL 1.1 Query, section 16.3). A UNION or a GRAPH that
//! stands alone in it is gone into; the members of other groups are followed in chunks of rows.
ghost use Rattle.std.specs.Prelude.{◌≡◌, [], IfOk, cond, length, map};
ghost use Rattle.std.specs.List.{flat_map, list_any};
ghost use Rattle.rdf_terms.specs.declared.quad.GraphName.TheVariants.{Named};
ghost use Rattle.rdf_terms.specs.declared.quad.GraphName.{GraphName};
ghost use Rattle.sparql_algebra.specs.Algebra.{element, graph, group_of, translation, union_of};
ghost use Rattle.sparql_algebra.specs.Listing.{Listing, Lists};
ghost use Rattle.sparql_algebra.specs.Results.{is_some_solution};
ghost use Rattle.sparql_algebra.specs.Solutions.{solutions};
ghost use Rattle.sparql_solve.specs.Ask.{SaysWhether};
ghost use Rattle.sparql_solve.specs.Under.{under_name};
ghost use Rattle.sparql_values.specs.Mapping.{same_term};

use crate::above::Above;
use crate::chunks::{Behind, Group, first_rooms, some_after};
use crate::counted::Counted;
use crate::evaluation::{Evaluation, Scope};
use crate::evaluator::{graph_under, unit_rows};
use crate::look_ups::is_named;
use crate::members::lone_member;
use crate::names::{named_graph, names_under};
use crate::shapes::{before_apart, group_reads};
use rdf_dataset::Source;
use rdf_terms::{GraphName, NoMemory, Term, Text};
use sparql_trees::{Member, Pattern, VarOrIri};
use std::cell::Cell;

/// Whether a group has a solution in a graph.
pub(crate) fn has_solution<S: Source>(
    scope: Scope,
    graph: &GraphName,
    source: &S,
    pattern: &Pattern,
) -> Result<bool, NoMemory>
    ensures { IfOk result (λ answer. (d : Listing) → Lists (S.contents source.now) d →
        answer ≡ is_some_solution
        (solutions scope.entry.variables.now d graph.now (translation pattern.now))) }
{
    let nothing = Above::nothing(scope.alloc, scope.variables)?;
    let looked = Cell::new(0);
    let counted = Counted {
        source,
        looked: &looked,
    };
    let evaluation = Evaluation {
        scope,
        source: &counted,
        looked: &looked,
    };
    some_in_group(&evaluation, graph, pattern, &nothing)
}

// Whether a group has a solution, its members being followed in chunks.
fn some_in_members<S: Source>(
    evaluation: &Evaluation<S>,
    graph: &GraphName,
    pattern: &Pattern,
    under: &Above,
) -> Result<bool, NoMemory>
    ensures { IfOk result (λ answer.
        SaysWhether evaluation.now.scope.variables.now (S.contents evaluation.now.source.now)
        under.now answer
        (λ d. solutions evaluation.now.scope.variables.now d graph.now (translation pattern.now))) }
{
    let rows = unit_rows(evaluation.scope.alloc, evaluation.scope.variables)?;
    let rooms = first_rooms(evaluation.scope.alloc)?;
    let group = Group {
        evaluation,
        graph,
        filters: pattern.filters.as_slice(),
        under,
    };
    let behind = Behind {
        members: pattern.members.as_slice(),
        rooms: rooms.as_slice(),
    };
    some_after(&group, rows, behind)
}

// Whether a group has a solution.
#[cycle(some)]
fn some_in_group<S: Source>(
    evaluation: &Evaluation<S>,
    graph: &GraphName,
    pattern: &Pattern,
    under: &Above,
) -> Result<bool, NoMemory>
    ensures { IfOk result (λ answer.
        SaysWhether evaluation.now.scope.variables.now (S.contents evaluation.now.source.now)
        under.now answer
        (λ d. solutions evaluation.now.scope.variables.now d graph.now (translation pattern.now))) }
{
    let Some(member) = lone_member(pattern) else {
        return some_in_members(evaluation, graph, pattern, under);
    };
    match member {
        Member::Union(groups) => {
            let groups = groups.as_slice();
            some_in_union(evaluation, graph, groups, under)
        }
        Member::Graph(name, inner) => some_in_graph(evaluation, name, inner, under),
        _ => some_in_members(evaluation, graph, pattern, under),
    }
}

// Whether one of the groups with UNION between them has a solution: others aren't looked at then.
#[cycle(some)]
fn some_in_union<S: Source>(
    evaluation: &Evaluation<S>,
    graph: &GraphName,
    groups: &[Pattern],
    under: &Above,
) -> Result<bool, NoMemory>
    ensures { IfOk result (λ answer.
        SaysWhether evaluation.now.scope.variables.now (S.contents evaluation.now.source.now)
        under.now answer
        (λ d. solutions evaluation.now.scope.variables.now d graph.now
        (union_of (map translation groups.now)))) }
{
    if groups.is_empty() {
        return Ok(true);
    }
    for group in groups {
        if some_in_group(evaluation, graph, group, under)? {
            return Ok(true);
        }
    }
    Ok(false)
}

// Whether the group in GRAPH with a variable has to be found name by name.
fn is_found_by_name(pattern: &Pattern) -> bool {
    let members = pattern.members.as_slice();
    let is_whole = before_apart(members) == members.len();
    group_reads(pattern) && (is_whole || !pattern.filters.is_empty())
}

// Whether GRAPH has a solution, whichever graph is the active one.
#[cycle(some)]
fn some_in_graph<S: Source>(
    evaluation: &Evaluation<S>,
    name: &VarOrIri,
    pattern: &Pattern,
    under: &Above,
) -> Result<bool, NoMemory>
    ensures { IfOk result (λ answer. (active : GraphName) →
        SaysWhether evaluation.now.scope.variables.now (S.contents evaluation.now.source.now)
        under.now answer
        (λ d. solutions evaluation.now.scope.variables.now d active (graph name.now
        (translation pattern.now)))) }
{
    match name {
        VarOrIri::Iri(iri) => {
            let name = Term::Iri(iri.copy()?);
            some_in_named(evaluation, name, pattern, under)
        }
        VarOrIri::Variable(variable) if is_found_by_name(pattern) => {
            let names = names_under(evaluation, variable, under)?;
            some_in_each(evaluation, variable, &names, pattern, under)
        }
        VarOrIri::Variable(_) => {
            let rows = graph_under(evaluation, name, pattern, under)?;
            Ok(!rows.as_slice().is_empty())
        }
    }
}

// Whether GRAPH with an IRI has a solution: none where no graph has that name.
#[cycle(some)]
fn some_in_named<S: Source>(
    evaluation: &Evaluation<S>,
    name: Term,
    pattern: &Pattern,
    under: &Above,
) -> Result<bool, NoMemory>
    ensures { IfOk result (λ answer.
        SaysWhether evaluation.now.scope.variables.now (S.contents evaluation.now.source.now)
        under.now answer
        (λ d. cond (list_any (same_term name) d.names)
        (solutions evaluation.now.scope.variables.now d (Named name) (translation pattern.now)) [])) }
{
    if !is_named(evaluation.source, &name) {
        return Ok(false);
    }
    let graph = GraphName::Named(name);
    some_in_group(evaluation, &graph, pattern, under)
}

// Whether the group has a solution in one of the graphs of these names, under the row and the name,
// to which the variable is bound.
#[cycle(some)]
fn some_in_each<S: Source>(
    evaluation: &Evaluation<S>,
    variable: &Text,
    names: &[Term],
    pattern: &Pattern,
    under: &Above,
) -> Result<bool, NoMemory>
    ensures { IfOk result (λ answer. length under.now ≡ length evaluation.now.scope.variables.now →
        (d : Listing) → Lists (S.contents evaluation.now.source.now) d → answer ≡ is_some_solution
        (flat_map (under_name evaluation.now.scope.variables.now d variable.now
        (translation pattern.now) under.now)
        names.now)) }
{
    for name in names {
        let named = named_graph(&evaluation.scope, variable, name, under)?;
        if some_in_group(evaluation, &named.graph, pattern, &named.above)? {
            return Ok(true);
        }
    }
    Ok(false)
}
