//! Basic graph patterns looked up under the rows of the left side (SPARQL 1.1 Query, sections 13.3,
//! 18.3.1 and 18.5).
ghost use Rattle.std.specs.Prelude.{◌≡◌, ◌∷◌, [], IfOk, IfSome, Some, length};
ghost use Rattle.std.specs.Option.{option_copied};
ghost use Rattle.std.specs.List.{flat_map, list_any};
ghost use Rattle.rdf_terms.specs.declared.term.Term.{Term};
ghost use Rattle.rdf_dataset.specs.Sorted.{ListsOnce};
ghost use Rattle.sparql_values.specs.Mapping.{empty_mapping, same_term};
ghost use Rattle.sparql_algebra.specs.Bags.{SameBag};
ghost use Rattle.sparql_algebra.specs.Listing.{Listing, Lists};
ghost use Rattle.sparql_algebra.specs.Results.{is_some_solution};
ghost use Rattle.sparql_solve.specs.LookUps.{looked_up};
ghost use Rattle.sparql_solve.specs.Sides.{found, found_in, found_under, graph_where, graphs_of, look_up_in, tried};
ghost use Rattle.sparql_solve.specs.Members.{AreSolutions};
ghost use Rattle.sparql_solve.specs.Partners.{AreFound};
ghost use Rattle.sparql_solve.specs.declared.place.Places.{Places};

use crate::evaluation::Evaluation;
use crate::grown::copies_grown;
use crate::mappings::Mapping;
use crate::matching::{
    asks_same, cut_rows, few_quads_of, matching_rows, moved_of_one, rows_of_one, some_of_one,
};
use crate::place::{Places, all_places};
use crate::values::copy_value;
use rdf_dataset::Source;
use rdf_terms::{GraphName, Items, NoMemory, Quad, Term, Text};
use sparql_trees::{BasicGraphPattern, VarOrIri};
use sparql_values::SortedNames;
use std::alloc::Global;

/// Where a basic graph pattern is looked up.
#[derive(Drop)]
pub enum Graphs {
    /// In this graph.
    One(GraphName),
    /// Nowhere: no graph has the name.
    Missing,
    /// In each graph that has a name, to which this variable is bound.
    Each(Text),
}

/// The look-ups of a basic graph pattern, one triple pattern after another.
#[derive(Drop)]
pub struct LookUp {
    pub graphs: Graphs,
    /// Those of each triple pattern.
    pub places: Items<Places>,
    /// How many hidden variables there are.
    pub hidden: u64,
}

/// Whether a graph has the name.
pub(crate) fn is_named<S: Source>(source: &S, name: &Term) -> bool
    ensures { (d : Listing) → Lists (S.contents source.now) d →
        result ≡ list_any (same_term name.now) d.names }
{
    source.has_name(name)
}

/// The names of the graphs.
pub(crate) fn graph_names<S: Source>(alloc: Global, source: &S) -> Result<Vec<Term>, NoMemory>
    ensures { IfOk result
        (λ names. ListsOnce (S.contents source.now).names names.items) }
{
    let mut names = Vec::new(alloc);
    source.names(&mut names)?;
    Ok(names)
}

// The graph of the name, where there is one.
fn graph_of_name<S: Source>(source: &S, name: Term) -> Graphs
    ensures { (d : Listing) → Lists (S.contents source.now) d →
        result ≡ graph_where (list_any (same_term name) d.names) name }
{
    if is_named(source, &name) {
        Graphs::One(GraphName::Named(name))
    } else {
        Graphs::Missing
    }
}

/// The graphs that stand behind GRAPH.
pub(crate) fn graphs_of<S: Source>(source: &S, name: &VarOrIri) -> Result<Graphs, NoMemory>
    ensures { IfOk result (λ graphs. (d : Listing) → Lists (S.contents source.now) d →
        graphs ≡ graphs_of d.names name.now) }
{
    Ok(match name {
        VarOrIri::Variable(variable) => Graphs::Each(variable.copy()?),
        VarOrIri::Iri(iri) => graph_of_name(source, Term::Iri(iri.copy()?)),
    })
}

/// The look-ups of a basic graph pattern in these graphs.
pub(crate) fn look_up_in(
    alloc: Global,
    variables: &SortedNames,
    graphs: Graphs,
    basic: &BasicGraphPattern,
) -> Result<LookUp, NoMemory>
    ensures { IfOk result (λ look_up. look_up ≡ look_up_in variables.now graphs basic.now) }
{
    let places = Items::from_vec(all_places(alloc, variables, basic.triples.as_slice())?);
    let hidden = basic.hidden;
    Ok(LookUp {
        graphs,
        places,
        hidden,
    })
}

/// Whether the rows have the same at each place of the triple patterns. Nothing but time rests on it.
pub(crate) fn asks_all_same(row: &Mapping, other: &Mapping, patterns: &[Places]) -> bool {
    patterns.iter().all(|places| asks_same(row, other, places))
}

/// The look-ups of no triple pattern: what they find are the graphs.
pub(crate) fn look_up_of_names(alloc: Global, graphs: Graphs) -> LookUp
    ensures graphs { result.graphs ≡ graphs }
    ensures places { result.places ≡ [] }
    ensures hidden { result.hidden ≡ 0 }
{
    LookUp {
        graphs,
        places: Items::new(alloc),
        hidden: 0,
    }
}

// The only triple pattern.
fn only_pattern(look_up: &LookUp) -> Option<&Places>
    ensures alone { IfSome (option_copied result) (λ p. look_up.now.places ≡ p ∷ []) }
    ensures all { (p : Places) → look_up.now.places ≡ p ∷ [] → option_copied result ≡ Some p }
{
    match look_up.places.as_slice() {
        [places] => Some(places),
        _ => None,
    }
}

/// The only triple pattern, where there are no hidden variables.
pub(crate) fn lone_pattern(look_up: &LookUp) -> Option<&Places>
    ensures alone { IfSome (option_copied result) (λ p. look_up.now.places ≡ p ∷ []) }
    ensures shown { IfSome result (λ _. look_up.now.hidden ≡ 0) }
{
    if look_up.hidden != 0 {
        return None;
    }
    only_pattern(look_up)
}

// What is found in one graph under the row, which is moved on.
fn grown_in_graph<S: Source>(
    alloc: Global,
    graph: &GraphName,
    source: &S,
    look_up: &LookUp,
    row: Mapping,
) -> Result<Vec<Mapping>, NoMemory>
    ensures { IfOk result (λ out. AreSolutions (S.contents source.now) out.items
        (λ d. found_in d look_up.now graph.now row)) }
{
    if let Some(places) = lone_pattern(look_up) {
        return moved_of_one(alloc, graph, source, places, row);
    }
    let columns = row.len();
    let mut start = Vec::new(alloc);
    start.push(row.widen(alloc, look_up.hidden)?)?;
    let rows = matching_rows(alloc, graph, source, look_up.places.as_slice(), start)?;
    cut_rows(alloc, rows, columns)
}

// What is found under the row in one graph.
fn rows_in_graph<S: Source>(
    alloc: Global,
    graph: &GraphName,
    source: &S,
    look_up: &LookUp,
    row: &Mapping,
) -> Result<Vec<Mapping>, NoMemory>
    ensures { IfOk result (λ out. AreSolutions (S.contents source.now) out.items
        (λ d. found_in d look_up.now graph.now row.now)) }
{
    if let Some(places) = lone_pattern(look_up) {
        return rows_of_one(alloc, graph, source, places, row);
    }
    grown_in_graph(alloc, graph, source, look_up, row.copy(alloc)?)
}

/// The names that a graph's variable may have, which has this value so far.
pub(crate) fn tried_names<S: Source>(
    alloc: Global,
    source: &S,
    value: Option<Term>,
) -> Result<Vec<Term>, NoMemory>
    ensures { IfOk result (λ names. (d : Listing) → Lists (S.contents source.now) d →
        SameBag names.items (tried d.names value)) }
{
    match value {
        None => graph_names(alloc, source),
        Some(name) => {
            let mut names = Vec::new(alloc);
            if is_named(source, &name) {
                names.push(name)?;
            }
            Ok(names)
        }
    }
}

// What is found under the row in the graph of the name, to which the variable is bound first.
fn rows_under_name<S: Source>(
    evaluation: &Evaluation<S>,
    variable: &Text,
    name: &Term,
    look_up: &LookUp,
    row: &Mapping,
) -> Result<Vec<Mapping>, NoMemory>
    ensures { IfOk result (λ out. AreSolutions (S.contents evaluation.now.source.now) out.items
        (λ d. found_under evaluation.now.scope.variables.now d look_up.now variable.now row.now
        name.now)) }
{
    let bound = Mapping::single(
        evaluation.scope.alloc,
        evaluation.scope.variables,
        variable,
        name,
    )?;
    if row.is_compatible(&bound) {
        let graph = GraphName::Named(name.copy()?);
        let row = row.merged(evaluation.scope.alloc, &bound)?;
        return rows_in_graph(
            evaluation.scope.alloc,
            &graph,
            evaluation.source,
            look_up,
            &row,
        );
    }
    Ok(Vec::new(evaluation.scope.alloc))
}

// What is found under the row in the graphs of these names.
fn rows_under_names<S: Source>(
    evaluation: &Evaluation<S>,
    variable: &Text,
    names: &[Term],
    look_up: &LookUp,
    row: &Mapping,
) -> Result<Vec<Mapping>, NoMemory>
    ensures { IfOk result (λ out. AreSolutions (S.contents evaluation.now.source.now) out.items
        (λ d. flat_map (found_under evaluation.now.scope.variables.now d look_up.now variable.now
        row.now) names.now)) }
{
    let mut out = Vec::new(evaluation.scope.alloc);
    for name in names {
        let mut found = rows_under_name(evaluation, variable, name, look_up, row)?;
        out.append(&mut found)?;
    }
    Ok(out)
}

/// What is found under the row.
pub(crate) fn found_rows<S: Source>(
    evaluation: &Evaluation<S>,
    look_up: &LookUp,
    row: &Mapping,
) -> Result<Vec<Mapping>, NoMemory>
    ensures { IfOk result (λ out. AreSolutions (S.contents evaluation.now.source.now) out.items
        (λ d. found evaluation.now.scope.variables.now d look_up.now row.now)) }
{
    match &look_up.graphs {
        Graphs::One(graph) => rows_in_graph(
            evaluation.scope.alloc,
            graph,
            evaluation.source,
            look_up,
            row,
        ),
        Graphs::Missing => Ok(Vec::new(evaluation.scope.alloc)),
        Graphs::Each(variable) => {
            let value = copy_value(row.value_in(evaluation.scope.variables.column(variable)))?;
            let names = tried_names(evaluation.scope.alloc, evaluation.source, value)?;
            rows_under_names(evaluation, variable, &names, look_up, row)
        }
    }
}

// What is found in the graph of the name under the row, which is moved on, the variable bound first.
fn grown_under_name<S: Source>(
    evaluation: &Evaluation<S>,
    variable: &Text,
    name: &Term,
    look_up: &LookUp,
    mut row: Mapping,
) -> Result<Vec<Mapping>, NoMemory>
    ensures { IfOk result (λ out. length row ≡ length evaluation.now.scope.variables.now →
        AreSolutions (S.contents evaluation.now.source.now) out.items
        (λ d. found_under evaluation.now.scope.variables.now d look_up.now variable.now row
        name.now)) }
{
    if !row.bind(
        evaluation.scope.alloc,
        evaluation.scope.variables.column(variable),
        name,
    )? {
        return Ok(Vec::new(evaluation.scope.alloc));
    }
    let graph = GraphName::Named(name.copy()?);
    grown_in_graph(
        evaluation.scope.alloc,
        &graph,
        evaluation.source,
        look_up,
        row,
    )
}

// What is found in the graphs of these names under the row, which is moved on to the last one.
fn grown_under_names<S: Source>(
    evaluation: &Evaluation<S>,
    variable: &Text,
    names: &[Term],
    look_up: &LookUp,
    row: Mapping,
) -> Result<Vec<Mapping>, NoMemory>
    ensures { IfOk result (λ out. length row ≡ length evaluation.now.scope.variables.now →
        AreSolutions (S.contents evaluation.now.source.now) out.items (λ d.
        flat_map (found_under evaluation.now.scope.variables.now d look_up.now variable.now row)
        names.now)) }
{
    let Some((last, others)) = names.split_last() else {
        return Ok(Vec::new(evaluation.scope.alloc));
    };
    let mut out = rows_under_names(evaluation, variable, others, look_up, &row)?;
    let mut more = grown_under_name(evaluation, variable, last, look_up, row)?;
    out.append(&mut more)?;
    Ok(out)
}

/// What is found under the row, which is moved on.
pub(crate) fn grown_rows<S: Source>(
    evaluation: &Evaluation<S>,
    look_up: &LookUp,
    row: Mapping,
) -> Result<Vec<Mapping>, NoMemory>
    ensures { IfOk result (λ out. length row ≡ length evaluation.now.scope.variables.now →
        AreSolutions (S.contents evaluation.now.source.now) out.items
        (λ d. found evaluation.now.scope.variables.now d look_up.now row)) }
{
    match &look_up.graphs {
        Graphs::One(graph) => grown_in_graph(
            evaluation.scope.alloc,
            graph,
            evaluation.source,
            look_up,
            row,
        ),
        Graphs::Missing => found_rows(evaluation, look_up, &row),
        Graphs::Each(variable) => {
            let value = copy_value(row.value_in(evaluation.scope.variables.column(variable)))?;
            let names = tried_names(evaluation.scope.alloc, evaluation.source, value)?;
            grown_under_names(evaluation, variable, &names, look_up, row)
        }
    }
}

/// Some of what is found under the row, one at least where there is any.
pub(crate) fn some_found<S: Source>(
    evaluation: &Evaluation<S>,
    look_up: &LookUp,
    row: &Mapping,
) -> Result<Vec<Mapping>, NoMemory>
    ensures { IfOk result (λ out. (d : Listing) → Lists (S.contents evaluation.now.source.now) d →
        is_some_solution out.items
        ≡ is_some_solution (found evaluation.now.scope.variables.now d look_up.now row.now)) }
{
    if let Graphs::One(graph) = &look_up.graphs {
        if let Some(places) = lone_pattern(look_up) {
            return some_of_one(
                evaluation.scope.alloc,
                graph,
                evaluation.source,
                places,
                row,
            );
        }
    }
    found_rows(evaluation, look_up, row)
}

/// The quads of what is looked up by itself, whatever rows bind, where it is one triple pattern in one
/// graph that has fewer triples than so many: no more of them are looked at.
pub(crate) fn few_found<S: Source>(
    evaluation: &Evaluation<S>,
    look_up: &LookUp,
    most: usize,
) -> Result<Option<Vec<Quad>>, NoMemory>
    ensures { IfOk result (λ few. IfSome few (λ quads. AreFound evaluation.now.scope.variables.now
        (S.contents evaluation.now.source.now) look_up.now quads.items)) }
{
    let Graphs::One(graph) = &look_up.graphs else {
        return Ok(None);
    };
    let Some(places) = only_pattern(look_up) else {
        return Ok(None);
    };
    let unbound = Mapping::unbound(evaluation.scope.alloc, evaluation.scope.variables)?;
    let nothing = unbound.widen(evaluation.scope.alloc, look_up.hidden)?;
    let few = few_quads_of(
        evaluation.scope.alloc,
        graph,
        evaluation.source,
        places,
        &nothing,
        most,
    )?;
    if few.are_all {
        return Ok(Some(few.quads));
    }
    Ok(None)
}

/// The rows of the quads of what is looked up by itself.
pub(crate) fn rows_of_found<S: Source>(
    evaluation: &Evaluation<S>,
    look_up: &LookUp,
    quads: Vec<Quad>,
) -> Result<Vec<Mapping>, NoMemory>
    requires { AreFound evaluation.now.scope.variables.now
        (S.contents evaluation.now.source.now) look_up.now quads.items }
    ensures { IfOk result (λ out. AreSolutions
        (S.contents evaluation.now.source.now) out.items
        (λ d. found evaluation.now.scope.variables.now d look_up.now
        (empty_mapping evaluation.now.scope.variables.now))) }
{
    let Some(places) = only_pattern(look_up) else {
        unreachable!()
    };
    let unbound = Mapping::unbound(evaluation.scope.alloc, evaluation.scope.variables)?;
    let nothing = unbound.widen(evaluation.scope.alloc, look_up.hidden)?;
    let rows = copies_grown(evaluation.scope.alloc, &nothing, places, quads)?;
    let columns = evaluation.scope.variables.len();
    cut_rows(evaluation.scope.alloc, rows, columns)
}
