//! Quads that go and come, one after another.
ghost use Rattle.std.specs.Prelude.{◌≡◌, IsTrue, OnOk};
ghost use Rattle.rdf_terms.specs.Below.{AreBelow, IsGraphBelow};
ghost use Rattle.rdf_terms.specs.Quad.{is_graph, may_name_graph};
ghost use Rattle.rdf_dataset.specs.Insertion.{with_all};
ghost use Rattle.sparql_eval.specs.Graphs.{quad_in};
ghost use Rattle.sparql_eval.specs.Operations.{added, without_all};

use rdf_dataset::{Source, Staged, sources_are_sound};
use rdf_terms::{GraphName, NoMemory, Quad};
use std::alloc::Global;

/// Takes the quads away.
pub(crate) fn remove_all<D: Source>(
    quads: &[Quad],
    view: &mut Staged<'_, D>,
) -> Result<(), NoMemory>
    ensures ok { OnOk result (view.new.now ≡ without_all view.old.now quads.now) }
    ensures beneath { view.new.under ≡ view.old.under }
{
    for quad in quads {
        view.remove(quad)?;
    }
    Ok(())
}

/// Brings the quads in, with the names of their graphs.
pub(crate) fn insert_all<D: Source>(
    quads: Vec<Quad>,
    view: &mut Staged<'_, D>,
) -> Result<(), NoMemory>
    requires { AreBelow view.old.now.next quads.items }
    ensures ok { OnOk result (view.new.now ≡ with_all view.old.now quads.items) }
    ensures beneath { view.new.under ≡ view.old.under }
{
    for quad in quads {
        view.insert(quad)?;
    }
    Ok(())
}

// The same triple in another graph.
fn quad_in(graph: GraphName, quad: Quad) -> Quad
    requires { IsTrue (may_name_graph graph) }
    ensures { result ≡ quad_in graph quad }
{
    let (_, subject, predicate, object) = quad.into_parts();
    let moved = Quad::new(graph, subject, predicate, object);
    moved.unwrap()
}

/// Brings the triples of a graph into another, whose name comes too.
pub(crate) fn add_graph<D: Source>(
    alloc: Global,
    from: &GraphName,
    to: &GraphName,
    view: &mut Staged<'_, D>,
) -> Result<(), NoMemory>
    requires right { IsTrue (may_name_graph to.now) }
    requires below { IsGraphBelow view.old.now.next to.now }
    ensures ok { OnOk result (view.new.now ≡ added view.old.now from.now to.now) }
    ensures beneath { view.new.under ≡ view.old.under }
{
    sources_are_sound(view);
    let mut found = Vec::new(alloc);
    view.matches(from, None, None, None, &mut found)?;
    for quad in found {
        view.insert(quad_in(to.copy()?, quad))?;
    }
    match to {
        GraphName::Default => Ok(()),
        GraphName::Named(name) => {
            view.add_name(name.copy()?)?;
            Ok(())
        }
    }
}
