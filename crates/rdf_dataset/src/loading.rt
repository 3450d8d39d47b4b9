//! The net that the quads of a document make, at once: no view is staged for it.
ghost use Rattle.std.specs.Prelude.{◌≡◌, ◌≤◌, ◌+◌, map, Some, IsTrue, IfOk, OnOk, option_copied};
ghost use Rattle.std.specs.FinSet as set;
ghost use Rattle.std.specs.List.{AllByRecursion};
ghost use Rattle.rdf_terms.specs.Below.{AreBelow};
ghost use Rattle.rdf_terms.specs.Order.{quad_cmp};
ghost use Rattle.rdf_terms.specs.Quad.{is_quad};
ghost use Rattle.rdf_sets.specs.Delta.{IsDelta};
ghost use Rattle.rdf_dataset.specs.Insertion.{quad_from};
ghost use Rattle.rdf_dataset.specs.Loading.{IsNetOfData, names_with, quads_with};
ghost use Rattle.rdf_dataset.specs.State.{Names, last_number, with_graph};

use crate::insertion::quad_from;
use crate::net::Net;
use crate::source::Source;
use crate::staged::LAST_NUMBER;
use rdf_sets::{Delta, Sorted, TreeDelta};
use rdf_terms::{GraphName, NoMemory, Quad, Term};
use std::alloc::Global;

// The quads with their blank nodes, whose numbers lie below `blanks`, numbered on from `first`.
fn numbered_on(
    alloc: Global,
    first: u64,
    blanks: u64,
    quads: Vec<Quad>,
) -> Result<Vec<Quad>, NoMemory>
    requires below { AreBelow blanks quads.items }
    requires room { first + blanks ≤ last_number }
    ensures { IfOk result (λ moved. moved.items ≡ map (quad_from first) quads.items) }
{
    if first == 0 || blanks == 0 {
        return Ok(quads);
    }
    let mut moved = Vec::with_capacity(alloc, quads.len())?;
    for quad in quads {
        moved.push(quad_from(first, quad))?;
    }
    Ok(moved)
}

// Those of the quads that the source hasn't, each once, in order.
pub(crate) fn new_quads<D: Source>(under: &D, quads: Vec<Quad>) -> Sorted<Quad>
    ensures { set.from_list {R = quad_cmp} result ≡ set.difference
        (quads_with (D.contents under.now).quads quads.items) (D.contents under.now).quads }
{
    let mut new = quads;
    new.retain(|quad| !under.contains(quad));
    Sorted::from_list(new)
}

/// Puts the name of a quad's graph in.
pub(crate) fn name_graph<D: Source>(
    names: &mut TreeDelta<Term>,
    under: &D,
    quad: &Quad,
) -> Result<(), NoMemory>
    ensures ok { OnOk result ((t : Names) →
        IsDelta (D.contents under.now).names t names.old.added names.old.removed →
        IsDelta (D.contents under.now).names (with_graph t quad.now.graph)
        names.new.added names.new.removed) }
    ensures sound { IsTrue (is_quad quad.now) }
{
    let GraphName::Named(name) = quad.graph() else {
        return Ok(());
    };
    let name = name.copy()?;
    let beneath = under.has_name(&name);
    names.insert(beneath, name)?;
    Ok(())
}

// Whether the graph is that of the quad before.
fn is_that(before: Option<&GraphName>, graph: &GraphName) -> bool
    ensures { IsTrue result → option_copied before.entry ≡ Some graph.now }
{
    match before {
        Some(before) => *before == *graph,
        None => false,
    }
}

// The names that the graphs of quads bring. Quads of one graph often stand together: its name is
// looked for once then.
pub(crate) fn new_names<D: Source>(
    alloc: Global,
    under: &D,
    quads: &[Quad],
) -> Result<Delta<Term>, NoMemory>
    ensures names { IfOk result (λ names. IsDelta (D.contents under.now).names
        (names_with (D.contents under.now).names quads.now) names.added names.removed) }
    ensures sound { OnOk result (AllByRecursion (λ q. IsTrue (is_quad q)) quads.now) }
{
    let mut names = TreeDelta::none(alloc);
    let mut before: Option<&GraphName> = None;
    for quad in quads {
        let graph = quad.graph();
        if !is_that(before, graph) {
            name_graph(&mut names, under, quad)?;
        }
        before = Some(graph);
    }
    names.into_delta(alloc)
}

impl Net {
    /// The net from what the source holds to what it holds once the quads of a document have come
    /// in, whose blank nodes have the numbers below `blanks`, or `None` where the counter would pass
    /// the last number: the same that [`Staged::insert_data`](crate::Staged::insert_data) leads to.
    ///
    /// # Errors
    /// [`NoMemory`] where memory is wanting.
    pub fn of_data<D: Source>(
        alloc: Global,
        under: &D,
        quads: Vec<Quad>,
        blanks: u64,
    ) -> Result<Option<Net>, NoMemory>
        requires below { AreBelow blanks quads.items }
        ensures { IfOk result (IsNetOfData (D.contents under.now) quads.items blanks) }
    {
        let first = under.next_blank();
        if first > LAST_NUMBER || blanks > LAST_NUMBER - first {
            return Ok(None);
        }
        let quads = numbered_on(alloc, first, blanks, quads)?;
        let names = new_names(alloc, under, &quads)?;
        Ok(Some(Net {
            quads: Delta {
                added: new_quads(under, quads),
                removed: Sorted::new(alloc),
            },
            names,
            before: first,
            after: first + blanks,
        }))
    }
}
