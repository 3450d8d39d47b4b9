//! Graphs that are emptied, dropped, copied, moved and added.
ghost use Rattle.std.specs.Prelude.{◌≡◌, ℕ, false, IfOk, IsTrue, OnOk};
ghost use Rattle.rdf_terms.specs.Below.{IsGraphBelow};
ghost use Rattle.rdf_terms.specs.Quad.{may_name_graph};
ghost use Rattle.sparql_eval.specs.Graphs.{graph_of, same_graph};
ghost use Rattle.sparql_eval.specs.Operations.{copied, onto};
ghost use Rattle.sparql_eval.specs.Inside.Staging.{gone, graphs_emptied, one_emptied, transferred};
ghost use Rattle.sparql_trees.specs.declared.operation.GraphRefAll.TheVariants.{Named as each_named};

use crate::quads::add_graph;
use rdf_dataset::{Source, Staged};
use rdf_terms::{GraphName, NoMemory, Term};
use sparql_trees::{GraphOrDefault, GraphRefAll};
use std::alloc::Global;

// The name of the graph.
fn name_of(graph: &GraphOrDefault) -> Result<GraphName, NoMemory>
    ensures value { IfOk result (λ name. name ≡ graph_of graph.now) }
    ensures right { IfOk result (λ name. IsTrue (may_name_graph name)) }
    ensures below { IfOk result (λ name. (next : ℕ) → IsGraphBelow next name) }
{
    Ok(match graph {
        GraphOrDefault::Default => GraphName::Default,
        GraphOrDefault::Graph(iri) => GraphName::Named(Term::Iri(iri.copy()?)),
    })
}

fn is_same_graph(graph: &GraphName, other: &GraphName) -> bool
    ensures { result ≡ same_graph graph.now other.now }
{
    graph.cmp(other).is_eq()
}

// Empties a graph and takes its name away, where it has one.
fn drop_graph<D: Source>(graph: &GraphName, view: &mut Staged<'_, D>) -> Result<(), NoMemory>
    ensures ok { OnOk result (view.new.now ≡ gone view.old.now graph.now) }
    ensures beneath { view.new.under ≡ view.old.under }
{
    view.clear_graph(graph)?;
    if let GraphName::Named(name) = graph {
        view.drop_name(name)?;
    }
    Ok(())
}

/// What becomes of the names of graphs that are emptied.
#[derive(Clone, Copy)]
pub(crate) enum Names {
    /// CLEAR
    Stay,
    /// DROP
    Go,
}

// Empties a graph; its name stays or goes.
fn empty_one<D: Source>(
    graph: &GraphName,
    names: Names,
    view: &mut Staged<'_, D>,
) -> Result<(), NoMemory>
    ensures ok { OnOk result (view.new.now ≡ one_emptied names view.old.now graph.now) }
    ensures beneath { view.new.under ≡ view.old.under }
{
    match names {
        Names::Stay => view.clear_graph(graph),
        Names::Go => drop_graph(graph, view),
    }
}

// Empties all named graphs; their names stay or go.
fn empty_named<D: Source>(names: Names, view: &mut Staged<'_, D>) -> Result<(), NoMemory>
    ensures ok { OnOk result (view.new.now ≡ graphs_emptied names view.old.now each_named) }
    ensures beneath { view.new.under ≡ view.old.under }
{
    match names {
        Names::Stay => view.clear_named(),
        Names::Go => view.drop_named(),
    }
}

/// CLEAR, where the names stay, and DROP, where they go: empties the graphs.
pub(crate) fn empty_graphs<D: Source>(
    graphs: &GraphRefAll,
    names: Names,
    view: &mut Staged<'_, D>,
) -> Result<(), NoMemory>
    ensures ok { OnOk result (view.new.now ≡ graphs_emptied names view.old.now graphs.now) }
    ensures beneath { view.new.under ≡ view.old.under }
{
    match graphs {
        GraphRefAll::Graph(iri) => {
            let graph = GraphName::Named(Term::Iri(iri.copy()?));
            empty_one(&graph, names, view)
        }
        GraphRefAll::Default => view.clear_default(),
        GraphRefAll::Named => empty_named(names, view),
        GraphRefAll::All => {
            view.clear_default()?;
            empty_named(names, view)
        }
    }
}

// Makes the second graph hold the triples of the first and no others.
fn replace_graph<D: Source>(
    alloc: Global,
    from: &GraphName,
    to: &GraphName,
    view: &mut Staged<'_, D>,
) -> Result<(), NoMemory>
    requires apart { same_graph from.now to.now ≡ false }
    requires right { IsTrue (may_name_graph to.now) }
    requires below { (next : ℕ) → IsGraphBelow next to.now }
    ensures ok { OnOk result (view.new.now ≡ copied view.old.now from.now to.now) }
    ensures beneath { view.new.under ≡ view.old.under }
{
    view.clear_graph(to)?;
    add_graph(alloc, from, to, view)
}

/// What is brought from one graph into another.
#[derive(Clone, Copy)]
pub(crate) enum Transfer {
    /// COPY: the second graph has the triples of the first and no others.
    Copy,
    /// MOVE: as COPY, and the first graph goes.
    Move,
    /// ADD: the second graph has the triples of the first beside its own.
    Add,
}

/// COPY, MOVE and ADD. A graph onto itself changes nothing.
pub(crate) fn transfer_graph<D: Source>(
    alloc: Global,
    kind: Transfer,
    from: &GraphOrDefault,
    to: &GraphOrDefault,
    view: &mut Staged<'_, D>,
) -> Result<(), NoMemory>
    ensures ok { let g = graph_of from.now in let h = graph_of to.now in let s = view.old.now in
        OnOk result (view.new.now ≡ onto g h s (transferred kind s g h)) }
    ensures beneath { view.new.under ≡ view.old.under }
{
    let from = name_of(from)?;
    let to = name_of(to)?;
    if is_same_graph(&from, &to) {
        return Ok(());
    }
    match kind {
        Transfer::Copy => replace_graph(alloc, &from, &to, view),
        Transfer::Move => {
            replace_graph(alloc, &from, &to, view)?;
            drop_graph(&from, view)
        }
        Transfer::Add => add_graph(alloc, &from, &to, view),
    }
}
