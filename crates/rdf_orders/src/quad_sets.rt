//! A set of quads in three orders, beside a set of graph names.
ghost use Rattle.std.specs.Prelude.{◌≡◌, [], false, not, IsOk, IfOk, OnOk, OnErr};
ghost use Rattle.std.specs.FinSet as set;
ghost use Rattle.rdf_orders.specs.Quads.{quad_of, quads_of};
ghost use Rattle.rdf_orders.specs.Contents.{ids_of, IsDisjoint, ListsKeys, ListsIds, empty_contents, with_quad, without_quad, with_name, without_name, with_all, without_all};
ghost use Rattle.rdf_orders.specs.Inside.Gains.{GainsSomeOf};

use crate::key_tree::KeyTree;
use crate::order::Key;
use crate::trees::Trees;
use rdf_terms::NoMemory;
use std::alloc::Global;
use std::collections::BTreeSet;
use std::marker::Model;

/// A set of quads in all three orders, and a set of graph names, all as numbers.
#[derive(Drop)]
pub struct QuadSets {
    pub(crate) trees: Trees,
    pub(crate) names: BTreeSet<u64>,
    alloc: Global,
}

impl Model for QuadSets {
    ghost use Rattle.rdf_orders.specs.Contents.{Contents, contents_code};

    ghost Value = { Contents };

    ghost coded = { contents_code };

    ghost use Rattle.rdf_orders.specs.Contents.{ids_of};
    ghost use Rattle.rdf_orders.specs.Inside.Mirror.{quads_in, Mirrors};

    ghost view = { λ s. record { quads = quads_in s.trees; names = ids_of s.names.keys } };

    ghost invariant = { λ s. Mirrors s.trees (quads_in s.trees) };
}

impl QuadSets {
    /// No quads and no names. It takes no memory.
    pub fn new(alloc: Global) -> QuadSets
        ensures { result ≡ empty_contents }
    {
        QuadSets {
            trees: Trees::new(alloc),
            names: BTreeSet::new(alloc),
            alloc,
        }
    }

    /// The quads, each once, by their keys in `Spo` and in that order.
    pub fn keys(&self) -> &KeyTree
        ensures { ListsKeys self.now.quads result.now.keys }
    {
        self.trees.rising()
    }

    /// The graph names, each once, in the order of their numbers.
    pub fn names(&self) -> &BTreeSet<u64>
        ensures { ListsIds self.now.names result.now.keys }
    {
        // (that they rise is what any call of the set tells)
        let _ = self.names.len();
        &self.names
    }

    /// Whether there is a quad with this key in `Spo`.
    pub fn contains(&self, quad: &Key) -> bool
        ensures { result ≡ set.contains self.now.quads (quad_of quad.now) }
    {
        self.trees.contains(quad)
    }

    /// Whether there is a graph of this name.
    pub fn has_name(&self, name: u64) -> bool
        ensures { result ≡ set.contains self.now.names name }
    {
        self.names.contains(&name)
    }

    /// Adds the quad with this key in `Spo`, and answers whether it is new.
    ///
    /// # Errors
    /// [`NoMemory`] where memory is wanting: nothing has changed then.
    pub fn insert(&mut self, quad: &Key) -> Result<bool, NoMemory>
        ensures ok { OnOk result (self.new ≡ with_quad self.old (quad_of quad.now)) }
        ensures new { IfOk result (λ new.
            new ≡ not (set.contains self.old.quads (quad_of quad.now))) }
        ensures err { OnErr result (self.new ≡ self.old) }
    {
        self.trees.insert(quad)
    }

    /// Takes the quad with this key in `Spo` out, and answers whether it was there. It takes no
    /// memory.
    pub fn remove(&mut self, quad: &Key) -> bool
        ensures quads { self.new ≡ without_quad self.old (quad_of quad.now) }
        ensures was { result ≡ set.contains self.old.quads (quad_of quad.now) }
    {
        self.trees.remove(quad)
    }

    /// Adds the name of a graph, and answers whether it is new.
    ///
    /// # Errors
    /// [`NoMemory`] where memory is wanting: nothing has changed then.
    pub fn add_name(&mut self, name: u64) -> Result<bool, NoMemory>
        ensures ok { OnOk result (self.new ≡ with_name self.old name) }
        ensures new { IfOk result (λ new. new ≡ not (set.contains self.old.names name)) }
        ensures err { OnErr result (self.new ≡ self.old) }
    {
        Ok(self.names.insert(name)?)
    }

    /// Takes the name of a graph away, and answers whether it was there. It takes no memory.
    pub fn drop_name(&mut self, name: u64) -> bool
        ensures names { self.new ≡ without_name self.old name }
        ensures was { result ≡ set.contains self.old.names name }
    {
        self.names.remove(&name)
    }

    /// Adds quads and names of which none is there, all of them or none. Where the quads are as
    /// many as those that are there, or more, each order is built of both at once, which is faster
    /// and takes less memory.
    ///
    /// # Errors
    /// [`NoMemory`] where memory is wanting: nothing has changed then.
    pub fn insert_all(&mut self, quads: &[Key], names: &[u64]) -> Result<(), NoMemory>
        requires new_quads { IsDisjoint self.old.quads (quads_of quads.now) }
        requires new_names { IsDisjoint self.old.names (ids_of names.now) }
        ensures ok { OnOk result (self.new ≡ with_all self.old quads.now names.now) }
        ensures err { OnErr result (self.new ≡ self.old) }
        ensures free { quads.now ≡ [] → names.now ≡ [] → IsOk result }
    {
        if let Err(refused) = self.insert_each(quads, names) {
            self.remove_all(quads, names);
            return Err(refused);
        }
        Ok(())
    }

    /// Adds the quads of a list and names as [`insert_all`](QuadSets::insert_all) does. Where the
    /// orders are built at once, the list goes before the memory of all three is taken.
    ///
    /// # Errors
    /// [`NoMemory`] where memory is wanting: nothing has changed then.
    pub fn insert_list(&mut self, quads: Vec<Key>, names: &[u64]) -> Result<(), NoMemory>
        requires new_quads { IsDisjoint self.old.quads (quads_of quads.items) }
        requires new_names { IsDisjoint self.old.names (ids_of names.now) }
        ensures ok { OnOk result (self.new ≡ with_all self.old quads.items names.now) }
        ensures err { OnErr result (self.new ≡ self.old) }
        ensures free { quads.items ≡ [] → names.now ≡ [] → IsOk result }
    {
        if self.are_many(quads.len()) {
            return self.rebuild(quads, names);
        }
        self.insert_all(quads.as_slice(), names)
    }

    // Whether so many quads are as many as those that are there, or more, and any at all: then new
    // trees of both are made faster than these come into the old ones one by one.
    fn are_many(&self, quads: usize) -> bool
        ensures { quads ≡ 0 → result ≡ false }
    {
        quads > 0 && quads >= self.trees.len()
    }

    // Adds the quads of a list and names: where there is memory for new trees and for the names, the
    // new trees take the place of the old ones.
    fn rebuild(&mut self, quads: Vec<Key>, names: &[u64]) -> Result<(), NoMemory>
        requires new_names { IsDisjoint self.old.names (ids_of names.now) }
        ensures ok { OnOk result (self.new ≡ with_all self.old quads.items names.now) }
        ensures err { OnErr result (self.new ≡ self.old) }
    {
        let trees = self.trees.with_list(self.alloc, quads)?;
        self.insert_all(&[], names)?;
        self.trees = trees;
        Ok(())
    }

    // Adds the quads, then the names, up to the one that is refused.
    fn insert_each(&mut self, quads: &[Key], names: &[u64]) -> Result<(), NoMemory>
        ensures ok { OnOk result (self.new ≡ with_all self.old quads.now names.now) }
        ensures err { OnErr result (GainsSomeOf self.old self.new quads.now names.now) }
        ensures free { quads.now ≡ [] → names.now ≡ [] → IsOk result }
    {
        self.insert_quads(quads)?;
        for name in names {
            self.add_name(*name)?;
        }
        Ok(())
    }

    // Adds the quads up to the one that is refused, or, where they are many, all at once.
    fn insert_quads(&mut self, quads: &[Key]) -> Result<(), NoMemory>
        ensures ok { OnOk result (self.new ≡ with_all self.old quads.now []) }
        ensures err { OnErr result (GainsSomeOf self.old self.new quads.now []) }
        ensures free { quads.now ≡ [] → IsOk result }
    {
        if self.are_many(quads.len()) {
            self.trees = self.trees.with_quads(self.alloc, quads)?;
            return Ok(());
        }
        for quad in quads {
            self.insert(quad)?;
        }
        Ok(())
    }

    /// Takes quads and names out, those of them that are there. It takes no memory.
    pub fn remove_all(&mut self, quads: &[Key], names: &[u64])
        ensures { self.new ≡ without_all self.old quads.now names.now }
    {
        for quad in quads {
            self.remove(quad);
        }
        for name in names {
            self.drop_name(*name);
        }
    }
}
