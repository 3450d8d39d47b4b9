//! The evaluator: a group's members from left to right, each found under the rows so far (SPARQL
//! 1.1 Query, section 18.6). Every function answers what is compatible with the row above it.
ghost use Rattle.std.specs.Prelude.{◌≡◌, ◌&&◌, ◌∷◌, [], IfOk, IfSome, None, cond, false, drop, length, map, replicate, take, true, ◌≤◌};
ghost use Rattle.std.specs.List.{flat_map, list_all, list_any};
ghost use Rattle.rdf_terms.specs.declared.quad.GraphName.TheVariants.{Default, Named};
ghost use Rattle.rdf_terms.specs.declared.quad.GraphName.{GraphName};
ghost use Rattle.sparql_trees.specs.declared.pattern.VarOrIri.TheVariants.{Variable};
ghost use Rattle.sparql_algebra.specs.Algebra.{element, filtered, graph, group_of, translation, union_of};
ghost use Rattle.sparql_algebra.specs.Bags.{SameBag};
ghost use Rattle.sparql_algebra.specs.Listing.{Listing, Lists};
ghost use Rattle.sparql_algebra.specs.Solutions.{solutions};
ghost use Rattle.sparql_algebra.specs.Under.{reads};
ghost use Rattle.sparql_solve.specs.Members.{AreSolutions, element_solutions};
ghost use Rattle.sparql_values.specs.Mapping.{same_term};
ghost use Rattle.sparql_solve.specs.Steps.{Begins};
ghost use Rattle.sparql_solve.specs.Under.{AreMade, AreUnder, IsLookUpFor, IsLookUpOf, all_made, asked, is_joined, is_unit, is_wide, masked, under_name};

use crate::above::Above;
use crate::basic::basic_under;
use crate::counted::Counted;
use crate::evaluation::{Evaluation, Scope};
use crate::filters::filtered_rows;
use crate::flags::Flags;
use crate::look_ups::{Graphs, LookUp, is_named, look_up_in};
use crate::mappings::Mapping;
use crate::members::{is_joined, is_removed, look_up_of, removed_basic};
use crate::names::{named_graph, names_under, rows_of_names};
use crate::once::is_found_once;
use crate::shapes::{before_apart, group_reads};
use crate::sharing::{asked_columns, gather, stops};
use crate::sides::{
    Begun, Found, Made, asked, asked_once, first_served, nothing_begun, passed_with, rows_and,
    rows_beside, rows_looked_up,
};
use rdf_dataset::Source;
use rdf_terms::{GraphName, NoMemory, Term, Text};
use sparql_trees::{Expression, Member, Pattern, VarOrIri};
use sparql_values::SortedNames;
use std::alloc::Global;
use std::cell::Cell;

/// The solutions of a group in a graph.
pub(crate) fn group_rows<S: Source>(
    scope: Scope,
    graph: &GraphName,
    source: &S,
    pattern: &Pattern,
) -> Result<Vec<Mapping>, NoMemory>
    ensures { IfOk result (λ out. AreSolutions (S.contents source.now) out.items
        (λ d. solutions scope.entry.variables.now d graph.now (translation pattern.now))) }
{
    let nothing = Above::nothing(scope.alloc, scope.variables)?;
    let looked = Cell::new(0);
    let counted = Counted {
        source,
        looked: &looked,
    };
    let evaluation = Evaluation {
        scope,
        source: &counted,
        looked: &looked,
    };
    group_under(&evaluation, graph, pattern, &nothing)
}

/// The solution of the empty pattern: the row that binds nothing.
pub(crate) fn unit_rows(alloc: Global, variables: &SortedNames) -> Result<Vec<Mapping>, NoMemory>
    ensures { IfOk result (λ out. out.items ≡ replicate (length variables.now) None ∷ []) }
{
    let mut rows = Vec::new(alloc);
    rows.push(Mapping::unbound(alloc, variables)?)?;
    Ok(rows)
}

// Whether there is one row alone, which binds nothing.
fn is_unit(rows: &[Mapping]) -> bool
    ensures { result ≡ is_unit rows.now }
{
    match rows {
        [row] => row.is_unbound(),
        _ => false,
    }
}

// Whether the member is joined to the row that binds nothing, as the first one of a group is.
fn is_first(rows: &[Mapping], member: &Member) -> bool
    ensures { result ≡ (is_unit rows.now && is_joined (element member.now)) }
{
    is_unit(rows) && is_joined(member)
}

// The look-ups by which a member is found under rows: all that OPTIONAL and MINUS have, since they
// are found under the row alone, and those of joined members where the row above binds nothing.
fn direct_look_up<S: Source>(
    evaluation: &Evaluation<S>,
    graph: &GraphName,
    member: &Member,
    under: &Above,
) -> Result<Option<LookUp>, NoMemory>
    ensures gives { IfOk result (λ found. IfSome found (λ look_up.
        IsLookUpOf evaluation.now.scope.variables.now (S.contents evaluation.now.source.now) look_up
        (λ d. element_solutions evaluation.now.scope.variables.now d graph.now
        (element member.now)))) }
    ensures counts { IfOk result (λ found. IfSome found (λ look_up.
        IsLookUpFor evaluation.now.scope.variables.now (S.contents evaluation.now.source.now)
        (element member.now) look_up
        (λ d. element_solutions evaluation.now.scope.variables.now d graph.now
        (element member.now)))) }
{
    if let Some(basic) = removed_basic(member) {
        let graphs = Graphs::One(graph.copy()?);
        return Ok(Some(look_up_in(
            evaluation.scope.alloc,
            evaluation.scope.variables,
            graphs,
            basic,
        )?));
    }
    if is_removed(member) || is_joined(member) && !under.is_unbound() {
        return Ok(None);
    }
    look_up_of(evaluation, graph, member)
}

// What a member makes of the first rows by look-ups under each of them, where it has such, and the
// rows that are left.
fn begun_directly<S: Source>(
    evaluation: &Evaluation<S>,
    graph: &GraphName,
    rows: Vec<Mapping>,
    member: &Member,
    under: &Above,
) -> Result<Begun, NoMemory>
    ensures { IfOk result (λ b. Begins evaluation.now.scope.variables.now
        (S.contents evaluation.now.source.now) graph.now under.now
        (element member.now) rows.items b.rows.items b.rest.items) }
{
    let Some(look_up) = direct_look_up(evaluation, graph, member, under)? else {
        return Ok(nothing_begun(evaluation.scope.alloc, rows));
    };
    rows_looked_up(evaluation, graph, rows, &look_up, member, under)
}

// A group: its members under its own filters, which are asked of its own rows.
#[cycle(follow)]
fn group_under<S: Source>(
    evaluation: &Evaluation<S>,
    graph: &GraphName,
    pattern: &Pattern,
    under: &Above,
) -> Result<Vec<Mapping>, NoMemory>
    ensures { IfOk result (λ out. AreUnder evaluation.now.scope.variables.now
        (S.contents evaluation.now.source.now) under.now out.items
        (λ d. solutions evaluation.now.scope.variables.now d graph.now (translation pattern.now))) }
{
    let members = pattern.members.as_slice();
    let rows = members_under(evaluation, graph, members, under)?;
    let filters = pattern.filters.as_slice();
    filtered_rows(&evaluation.scope, rows, filters)
}

// The members, from left to right.
#[cycle(follow)]
fn members_under<S: Source>(
    evaluation: &Evaluation<S>,
    graph: &GraphName,
    members: &[Member],
    under: &Above,
) -> Result<Vec<Mapping>, NoMemory>
    ensures { IfOk result (λ out. AreUnder evaluation.now.scope.variables.now
        (S.contents evaluation.now.source.now) under.now out.items
        (λ d. solutions evaluation.now.scope.variables.now d graph.now
        (group_of (map element members.now)))) }
{
    let many = members.len();
    first_under(evaluation, graph, members, many, under)
}

// So many of the first members, from left to right.
#[cycle(follow)]
fn first_under<S: Source>(
    evaluation: &Evaluation<S>,
    graph: &GraphName,
    members: &[Member],
    many: usize,
    under: &Above,
) -> Result<Vec<Mapping>, NoMemory>
    requires { many ≤ length members.now }
    ensures { IfOk result (λ out. AreUnder evaluation.now.scope.variables.now
        (S.contents evaluation.now.source.now) under.now out.items
        (λ d. solutions evaluation.now.scope.variables.now d graph.now
        (group_of (map element (take many members.now))))) }
{
    let mut rows = unit_rows(evaluation.scope.alloc, evaluation.scope.variables)?;
    for place in 0..many {
        let member = &members[place];
        rows = rows_after(evaluation, graph, rows, member, under)?;
    }
    Ok(rows)
}

/// The rows after a member of the group.
#[cycle(follow)]
pub(crate) fn rows_after<S: Source>(
    evaluation: &Evaluation<S>,
    graph: &GraphName,
    rows: Vec<Mapping>,
    member: &Member,
    under: &Above,
) -> Result<Vec<Mapping>, NoMemory>
    ensures { IfOk result (λ out. AreMade evaluation.now.scope.variables.now
        (S.contents evaluation.now.source.now) graph.now under.now
        (element member.now) rows.items out.items) }
{
    let begun = begun_directly(evaluation, graph, rows, member, under)?;
    if begun.rest.is_empty() {
        return Ok(begun.rows);
    }
    let is_slow = begun.is_slow;
    let more = rows_left(evaluation, graph, begun.rest, is_slow, member, under)?;
    rows_and(begun.rows, more)
}

// What a member makes of rows under which it isn't looked up one by one: some are found once for all
// of them, others for what the rows share.
#[cycle(follow)]
fn rows_left<S: Source>(
    evaluation: &Evaluation<S>,
    graph: &GraphName,
    rows: Vec<Mapping>,
    is_slow: bool,
    member: &Member,
    under: &Above,
) -> Result<Vec<Mapping>, NoMemory>
    ensures { IfOk result (λ out. AreMade evaluation.now.scope.variables.now
        (S.contents evaluation.now.source.now) graph.now under.now
        (element member.now) rows.items out.items) }
{
    let is_once = is_found_once(evaluation, graph, &rows, is_slow, member, under)?;
    if is_once {
        return made_at_once(evaluation, graph, &rows, member, under);
    }
    if is_first(&rows, member) {
        return member_under(evaluation, graph, member, under);
    }
    rows_gathered(evaluation, graph, rows, member, under)
}

// What a member makes of rows, which are put side by side where they share what is found.
#[cycle(follow)]
fn rows_gathered<S: Source>(
    evaluation: &Evaluation<S>,
    graph: &GraphName,
    mut rows: Vec<Mapping>,
    member: &Member,
    under: &Above,
) -> Result<Vec<Mapping>, NoMemory>
    ensures { IfOk result (λ out. AreMade evaluation.now.scope.variables.now
        (S.contents evaluation.now.source.now) graph.now under.now
        (element member.now) rows.items out.items) }
{
    let flags = asked_columns(
        evaluation.scope.alloc,
        evaluation.scope.variables,
        member,
        rows.len(),
    )?;
    gather(&mut rows, &flags)?;
    let made = rows_followed(evaluation, graph, &rows, &flags, member, under)?;
    with_the_rest(evaluation, graph, &rows, made, member, under)
}

// What a member makes of rows one after another, found for what they have at the columns that it
// asks for; rows that have the same there share what was found.
#[cycle(follow)]
fn rows_followed<S: Source>(
    evaluation: &Evaluation<S>,
    graph: &GraphName,
    rows: &[Mapping],
    flags: &Flags,
    member: &Member,
    under: &Above,
) -> Result<Made, NoMemory>
    requires { length flags.now ≡ length evaluation.now.scope.variables.now }
    ensures { IfOk result (λ m. AreMade evaluation.now.scope.variables.now
        (S.contents evaluation.now.source.now) graph.now under.now
        (element member.now) (take m.done rows.now) m.rows.items) }
{
    let before = evaluation.looked.get();
    let mut out = Vec::new(evaluation.scope.alloc);
    let mut done = 0;
    while done < rows.len() {
        let taken = evaluation.looked.get().saturating_sub(before);
        if stops(member, taken, done, rows.len(), out.len()) {
            return Ok(Made { rows: out, done });
        }
        let rest = &rows[done..];
        let found = found_for(evaluation, graph, &rest[0], flags, member, under)?;
        let mut made = first_served(&evaluation.scope, rest, flags, found, member, under)?;
        out.append(&mut made.rows)?;
        done += made.done;
    }
    Ok(Made { rows: out, done })
}

// What is found for a row: under what it has at the columns that are asked for.
#[cycle(follow)]
fn found_for<S: Source>(
    evaluation: &Evaluation<S>,
    graph: &GraphName,
    row: &Mapping,
    flags: &Flags,
    member: &Member,
    under: &Above,
) -> Result<Found, NoMemory>
    ensures columns { IfOk result (λ f. f.columns ≡ masked flags.now row.now) }
    ensures rows { IfOk result (λ f. AreUnder evaluation.now.scope.variables.now
        (S.contents evaluation.now.source.now)
        (asked (element member.now) under.now f.columns) f.rows.items
        (λ d. element_solutions evaluation.now.scope.variables.now d graph.now
        (element member.now))) }
{
    let columns = row.masked(evaluation.scope.alloc, flags)?;
    let asked = asked(evaluation.scope.alloc, member, under, &columns)?;
    let rows = member_under(evaluation, graph, member, &asked)?;
    Ok(Found { columns, rows })
}

// What was made of the first rows, and what the member makes of the others, for which it is found
// once and joined.
#[cycle(follow)]
fn with_the_rest<S: Source>(
    evaluation: &Evaluation<S>,
    graph: &GraphName,
    rows: &[Mapping],
    made: Made,
    member: &Member,
    under: &Above,
) -> Result<Vec<Mapping>, NoMemory>
    ensures { IfOk result (λ out.
        AreMade evaluation.now.scope.variables.now (S.contents evaluation.now.source.now) graph.now
        under.now (element member.now)
        (take made.done rows.now) made.rows.items →
        AreMade evaluation.now.scope.variables.now (S.contents evaluation.now.source.now) graph.now
        under.now (element member.now)
        rows.now out.items) }
{
    if rows.len() <= made.done {
        return Ok(made.rows);
    }
    let rest = &rows[made.done..];
    let more = made_at_once(evaluation, graph, rest, member, under)?;
    rows_and(made.rows, more)
}

// What the member makes of rows, for which it is found once and joined.
#[cycle(follow)]
fn made_at_once<S: Source>(
    evaluation: &Evaluation<S>,
    graph: &GraphName,
    rows: &[Mapping],
    member: &Member,
    under: &Above,
) -> Result<Vec<Mapping>, NoMemory>
    ensures { IfOk result (λ out. AreMade evaluation.now.scope.variables.now
        (S.contents evaluation.now.source.now) graph.now under.now (element member.now)
        rows.now out.items) }
{
    let asked = asked_once(&evaluation.scope, member, under)?;
    let found = member_under(evaluation, graph, member, &asked)?;
    rows_beside(&evaluation.scope, rows, &found, member, under)
}

// The solutions of a member, of OPTIONAL without its group's filters, of MINUS those of its group.
#[cycle(follow)]
fn member_under<S: Source>(
    evaluation: &Evaluation<S>,
    graph: &GraphName,
    member: &Member,
    under: &Above,
) -> Result<Vec<Mapping>, NoMemory>
    ensures { IfOk result (λ out. AreUnder evaluation.now.scope.variables.now
        (S.contents evaluation.now.source.now) under.now out.items
        (λ d. element_solutions evaluation.now.scope.variables.now d graph.now
        (element member.now))) }
{
    match member {
        Member::Basic(basic) => basic_under(evaluation, graph, basic, under),
        Member::Union(groups) => {
            let groups = groups.as_slice();
            union_under(evaluation, graph, groups, under)
        }
        Member::Optional(pattern) => {
            let members = pattern.members.as_slice();
            members_under(evaluation, graph, members, under)
        }
        Member::Graph(name, pattern) => graph_under(evaluation, name, pattern, under),
        Member::Minus(pattern) => group_under(evaluation, graph, pattern, under),
    }
}

// Groups with UNION between them, one after another, or one alone.
#[cycle(follow)]
fn union_under<S: Source>(
    evaluation: &Evaluation<S>,
    graph: &GraphName,
    groups: &[Pattern],
    under: &Above,
) -> Result<Vec<Mapping>, NoMemory>
    ensures { IfOk result (λ out. AreUnder evaluation.now.scope.variables.now
        (S.contents evaluation.now.source.now) under.now out.items
        (λ d. solutions evaluation.now.scope.variables.now d graph.now
        (union_of (map translation groups.now)))) }
{
    if groups.is_empty() {
        return unit_rows(evaluation.scope.alloc, evaluation.scope.variables);
    }
    let mut out = Vec::new(evaluation.scope.alloc);
    for group in groups {
        let mut found = group_under(evaluation, graph, group, under)?;
        out.append(&mut found)?;
    }
    Ok(out)
}

/// GRAPH, whichever graph is the active one. It sets the active graph, so with a variable a group
/// whose triple patterns all stand in GRAPH is found once for all names.
#[cycle(follow)]
pub(crate) fn graph_under<S: Source>(
    evaluation: &Evaluation<S>,
    name: &VarOrIri,
    pattern: &Pattern,
    under: &Above,
) -> Result<Vec<Mapping>, NoMemory>
    ensures { IfOk result (λ out. (active : GraphName) →
        AreUnder evaluation.now.scope.variables.now (S.contents evaluation.now.source.now) under.now
        out.items
        (λ d. solutions evaluation.now.scope.variables.now d active (graph name.now
        (translation pattern.now)))) }
{
    match name {
        VarOrIri::Iri(iri) => {
            let name = Term::Iri(iri.copy()?);
            named_under(evaluation, name, pattern, under)
        }
        VarOrIri::Variable(variable) => {
            if group_reads(pattern) {
                return reading_under(evaluation, variable, pattern, under);
            }
            once_under(evaluation, variable, pattern, under)
        }
    }
}

// GRAPH with a variable and a group that doesn't see the active graph: it is found once.
#[cycle(follow)]
fn once_under<S: Source>(
    evaluation: &Evaluation<S>,
    variable: &Text,
    pattern: &Pattern,
    under: &Above,
) -> Result<Vec<Mapping>, NoMemory>
    requires { reads (translation pattern.now) ≡ false }
    ensures { IfOk result (λ out. (active : GraphName) →
        AreUnder evaluation.now.scope.variables.now (S.contents evaluation.now.source.now)
        under.now out.items (λ d. solutions evaluation.now.scope.variables.now d active
        (graph (Variable variable.now) (translation pattern.now)))) }
{
    let names = names_under(evaluation, variable, under)?;
    let active = GraphName::Default;
    let rows = group_under(evaluation, &active, pattern, under)?;
    rows_of_names(&evaluation.scope, variable, &names, &rows, under)
}

// GRAPH with an IRI: nothing where no graph has that name.
#[cycle(follow)]
fn named_under<S: Source>(
    evaluation: &Evaluation<S>,
    name: Term,
    pattern: &Pattern,
    under: &Above,
) -> Result<Vec<Mapping>, NoMemory>
    ensures { IfOk result (λ out. AreUnder evaluation.now.scope.variables.now
        (S.contents evaluation.now.source.now) under.now out.items
        (λ d. cond (list_any (same_term name) d.names)
        (solutions evaluation.now.scope.variables.now d (Named name) (translation pattern.now)) [])) }
{
    if !is_named(evaluation.source, &name) {
        return Ok(Vec::new(evaluation.scope.alloc));
    }
    let graph = GraphName::Named(name);
    group_under(evaluation, &graph, pattern, under)
}

// GRAPH with a variable and triple patterns. Where the group has no filters, the members at its end
// that don't see the active graph are found behind all names: once, and not once for each name.
#[cycle(follow)]
fn reading_under<S: Source>(
    evaluation: &Evaluation<S>,
    variable: &Text,
    pattern: &Pattern,
    under: &Above,
) -> Result<Vec<Mapping>, NoMemory>
    ensures { IfOk result (λ out. (active : GraphName) →
        AreUnder evaluation.now.scope.variables.now (S.contents evaluation.now.source.now) under.now
        out.items
        (λ d. solutions evaluation.now.scope.variables.now d active
        (graph (Variable variable.now) (translation pattern.now)))) }
{
    let names = names_under(evaluation, variable, under)?;
    let members = pattern.members.as_slice();
    let filters = pattern.filters.as_slice();
    if !filters.is_empty() {
        let all = members.len();
        return each_under(evaluation, variable, &names, members, all, filters, under);
    }
    let first = before_apart(members);
    let rows = each_under(evaluation, variable, &names, members, first, filters, under)?;
    apart_under(evaluation, rows, members, first, under)
}

// What the members from one on, which don't see the active graph, make of rows, from left to right.
#[cycle(follow)]
fn apart_under<S: Source>(
    evaluation: &Evaluation<S>,
    mut rows: Vec<Mapping>,
    members: &[Member],
    first: usize,
    under: &Above,
) -> Result<Vec<Mapping>, NoMemory>
    requires { first ≤ length members.now }
    ensures { IfOk result (λ out. let vs = evaluation.now.scope.variables.now in
        (d : Listing) → Lists (S.contents evaluation.now.source.now) d →
        length under.now ≡ length vs → list_all (is_wide vs) rows.items ≡ true →
        SameBag out.items
        (all_made vs d Default under.now (map element (drop first members.now)) rows.items)) }
{
    for place in first..members.len() {
        let active = GraphName::Default;
        let member = &members[place];
        rows = rows_after(evaluation, &active, rows, member, under)?;
    }
    Ok(rows)
}

// So many of the first members under the filters in the graph of the name, to which the variable is
// bound.
#[cycle(follow)]
fn name_under<S: Source>(
    evaluation: &Evaluation<S>,
    variable: &Text,
    name: &Term,
    members: &[Member],
    many: usize,
    filters: &[Expression],
    under: &Above,
) -> Result<Vec<Mapping>, NoMemory>
    requires { many ≤ length members.now }
    ensures { IfOk result (λ out. let vs = evaluation.now.scope.variables.now in
        length under.now ≡ length vs → AreSolutions (S.contents evaluation.now.source.now) out.items
        (λ d. under_name vs d variable.now (filtered filters.now
        (group_of (map element (take many members.now)))) under.now name.now)) }
{
    let named = named_graph(&evaluation.scope, variable, name, under)?;
    let found = first_under(evaluation, &named.graph, members, many, &named.above)?;
    passed_with(&evaluation.scope, found, filters, &named.bound)
}

// So many of the first members under the filters in the graphs of these names, under the row and the
// name, to which the variable is bound.
#[cycle(follow)]
fn each_under<S: Source>(
    evaluation: &Evaluation<S>,
    variable: &Text,
    names: &[Term],
    members: &[Member],
    many: usize,
    filters: &[Expression],
    under: &Above,
) -> Result<Vec<Mapping>, NoMemory>
    requires { many ≤ length members.now }
    ensures { IfOk result (λ out. length under.now ≡ length evaluation.now.scope.variables.now →
        AreSolutions (S.contents evaluation.now.source.now) out.items (λ d. flat_map
        (under_name evaluation.now.scope.variables.now d
        variable.now (filtered filters.now (group_of (map element (take many members.now))))
        under.now) names.now)) }
{
    let mut out = Vec::new(evaluation.scope.alloc);
    for name in names {
        let mut made = name_under(evaluation, variable, name, members, many, filters, under)?;
        out.append(&mut made)?;
    }
    Ok(out)
}
