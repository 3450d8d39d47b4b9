//! Parts of a view that were emptied, or lost many of their quads: what they hold now is found without what lies beneath.
ghost use Rattle.std.specs.Prelude.{◌≡◌, Bool, Option, None, IsTrue, IfSome, option_copied};
ghost use Rattle.rdf_terms.specs.Lists.{ListsOnce};
ghost use Rattle.std.specs.FinSet as set;
ghost use Rattle.rdf_terms.specs.Order.{term_cmp};
ghost use Rattle.rdf_terms.specs.Quad.{QuadParts};
ghost use Rattle.rdf_terms.specs.declared.quad.GraphName.TheVariants.{Named as named};
ghost use Rattle.rdf_dataset.specs.State.{State, Quads, Names, matches, with_name, with_quad, without_name, without_quad};
ghost use Rattle.rdf_dataset.specs.Inside.Emptied.{AreHeld, AreNames, AreParts, FindsTheSame, IsPart};

use rdf_sets::Tree;
use rdf_store::Store;
use rdf_terms::{GraphName, Quad, Term};
use std::alloc::Global;

/// What a view holds now in the parts that were emptied since it began, or lost many of their quads: the default graph, the
/// named ones together, the names of graphs, and named graphs one by one, which one store holds with the names of those
/// that are found there. Another part isn't here. Nor is one for whose growth memory was wanting: it is given up, which costs time and
/// changes no answer.
#[derive(Drop)]
pub(crate) struct Emptied {
    pub(crate) default: Option<Store>,
    pub(crate) named: Option<Store>,
    pub(crate) names: Option<Tree<Term>>,
    pub(crate) graphs: Option<Store>,
}

// The part with the quad, which belongs there.
fn gained(part: Option<Store>, quad: &Quad) -> Option<Store>
    ensures { (quads : Quads) (test : QuadParts → Bool) → IsTrue (test quad.now) →
        IsPart test part quads → IsPart test result (set.insert quads quad.now) }
{
    let mut store = part?;
    match store.insert(quad) {
        Ok(_) => Some(store),
        Err(_) => None,
    }
}

// The graphs with the quad, where the one that it belongs to is among them.
fn gained_apart(graphs: Option<Store>, name: &Term, quad: &Quad) -> Option<Store>
    ensures { (quads : Quads) → quad.now.graph ≡ named name.now →
        AreHeld graphs quads → AreHeld result (set.insert quads quad.now) }
{
    let mut held = graphs?;
    if !held.has_name(name) {
        return Some(held);
    }
    match held.insert(quad) {
        Ok(_) => Some(held),
        Err(_) => None,
    }
}

// A part of these quads.
fn part_of(alloc: Global, quads: &[Quad]) -> Option<Store>
    ensures { IfSome result (λ part. part.quads ≡ set.from_list quads.now) }
{
    let mut part = Store::new(alloc);
    match part.insert_all(quads, &[]) {
        Ok(()) => Some(part),
        Err(_) => None,
    }
}

// The graphs with one more, which has these quads.
fn graph_gained(graphs: Option<Store>, name: &Term, quads: &[Quad]) -> Option<Store>
    requires { (s : State) × AreHeld graphs s.quads
        × ListsOnce (set.retain s.quads (matches (named name.now) None None None)) quads.now }
    ensures { (s : State) →
        ListsOnce (set.retain s.quads (matches (named name.now) None None None)) quads.now →
        AreHeld graphs s.quads → AreHeld result s.quads }
{
    let mut more = graphs?;
    if more.has_name(name) {
        return Some(more);
    }
    let name = name.copy().ok()?;
    match more.insert_all(quads, &[name]) {
        Ok(()) => Some(more),
        Err(_) => None,
    }
}

// The part, or the graphs, without the quad.
fn lost(part: Option<Store>, quad: &Quad) -> Option<Store>
    ensures part { (quads : Quads) (test : QuadParts → Bool) →
        IsPart test part quads → IsPart test result (set.remove quads quad.now) }
    ensures graphs { (quads : Quads) →
        AreHeld part quads → AreHeld result (set.remove quads quad.now) }
{
    let mut store = part?;
    store.remove(quad);
    Some(store)
}

// The names with one more.
fn name_gained(part: Option<Tree<Term>>, name: &Term) -> Option<Tree<Term>>
    ensures { (names : Names) → AreNames part names → AreNames result (set.insert names name.now) }
{
    let mut tree = part?;
    match name.copy() {
        Ok(name) => match tree.insert(name) {
            Ok(_) => Some(tree),
            Err(_) => None,
        },
        Err(_) => None,
    }
}

// The names without one.
fn name_lost(part: Option<Tree<Term>>, name: &Term) -> Option<Tree<Term>>
    ensures { (names : Names) → AreNames part names → AreNames result (set.remove names name.now) }
{
    let mut tree = part?;
    tree.remove(name);
    Some(tree)
}

impl Emptied {
    /// No part was emptied. It takes no memory.
    pub(crate) fn none(alloc: Global) -> Emptied
        ensures { (s : State) → AreParts result s }
    {
        Emptied {
            default: None,
            named: None,
            names: None,
            graphs: Some(Store::new(alloc)),
        }
    }

    /// A graph has these quads: it is found in a part of its own from now on.
    pub(crate) fn hold(&mut self, alloc: Global, graph: &GraphName, quads: &[Quad])
        requires { (s : State) × AreParts self.old s
            × ListsOnce (set.retain s.quads (matches graph.now None None None)) quads.now }
        ensures { (s : State) →
            ListsOnce (set.retain s.quads (matches graph.now None None None)) quads.now →
            AreParts self.old s → AreParts self.new s }
    {
        match graph {
            GraphName::Default => self.default = part_of(alloc, quads),
            GraphName::Named(name) => {
                self.graphs = graph_gained(self.graphs.take(), name, quads);
            }
        }
    }

    /// A quad has come, and the name of its graph.
    pub(crate) fn insert(&mut self, quad: &Quad)
        ensures { (s : State) → AreParts self.old s → AreParts self.new (with_quad s quad.now) }
    {
        match quad.graph() {
            GraphName::Default => self.default = gained(self.default.take(), quad),
            GraphName::Named(name) => {
                self.named = gained(self.named.take(), quad);
                self.names = name_gained(self.names.take(), name);
                self.graphs = gained_apart(self.graphs.take(), name, quad);
            }
        }
    }

    /// A quad has gone.
    pub(crate) fn remove(&mut self, quad: &Quad)
        ensures { (s : State) → AreParts self.old s → AreParts self.new (without_quad s quad.now) }
    {
        self.default = lost(self.default.take(), quad);
        self.named = lost(self.named.take(), quad);
        self.graphs = lost(self.graphs.take(), quad);
    }

    /// A name has come.
    pub(crate) fn add_name(&mut self, name: &Term)
        ensures { (s : State) → AreParts self.old s → AreParts self.new (with_name s name.now) }
    {
        self.names = name_gained(self.names.take(), name);
    }

    /// A name has gone.
    pub(crate) fn drop_name(&mut self, name: &Term)
        ensures { (s : State) → AreParts self.old s → AreParts self.new (without_name s name.now) }
    {
        self.names = name_lost(self.names.take(), name);
    }

    // The graphs that were emptied one by one, where this is among them.
    fn graphs_with(&self, name: &Term) -> Option<&Store>
        ensures { IfSome result (λ part. (s : State) → AreParts self.now s →
            FindsTheSame (named name.now) part.now.quads s.quads) }
    {
        let graphs = self.graphs.as_ref()?;
        if graphs.has_name(name) {
            Some(graphs)
        } else {
            None
        }
    }

    /// The part in which the graph is found, where that part was emptied.
    pub(crate) fn part(&self, graph: &GraphName) -> Option<&Store>
        ensures { IfSome result (λ part. (s : State) → AreParts self.now s →
            FindsTheSame graph.now part.now.quads s.quads) }
    {
        match graph {
            GraphName::Default => self.default.as_ref(),
            GraphName::Named(name) => match self.named.as_ref() {
                Some(part) => Some(part),
                None => self.graphs_with(name),
            },
        }
    }
}
