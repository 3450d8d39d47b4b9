//! Quads and graph names behind a table of their terms.
ghost use Rattle.std.specs.Prelude.{◌≡◌, [], not, IsOk, IfOk, OnOk, OnErr};
ghost use Rattle.std.specs.FinSet as set;
ghost use Rattle.rdf_orders.specs.Contents.{IsDisjoint};
ghost use Rattle.rdf_store.specs.Stored.{empty_stored, with_quad, without_quad, with_name, without_name, with_all, without_all};

use crate::numbers::{find_quad, find_term, number_quad, number_quads, number_term, number_terms};
use rdf_orders::QuadSets;
use rdf_terms::{NoMemory, Quad, Term, TermTable, terms_are_held_once};
use std::alloc::Global;
use std::marker::Model;

/// A set of quads, which look-ups find in three orders, and a set of graph names. Each term is kept
/// once, and stays while the store stands.
#[derive(Drop)]
pub struct Store {
    pub(crate) table: TermTable,
    pub(crate) sets: QuadSets,
    pub(crate) alloc: Global,
}

impl Model for Store {
    ghost use Rattle.rdf_store.specs.Stored.{Stored, stored_code};

    ghost Value = { Stored };

    ghost coded = { stored_code };

    ghost use Rattle.rdf_store.specs.Inside.Numbers.{HaveTerms, shown};

    ghost view = { λ s. shown s.table s.sets };

    ghost invariant = { λ s. HaveTerms s.table s.sets };
}

impl Store {
    /// No quads and no names. It takes no memory.
    pub fn new(alloc: Global) -> Store
        ensures { result ≡ empty_stored }
    {
        Store {
            table: TermTable::new(alloc),
            sets: QuadSets::new(alloc),
            alloc,
        }
    }

    /// How many quads there are.
    pub fn len(&self) -> usize
        ensures { result ≡ set.len self.now.quads }
    {
        terms_are_held_once(&self.table);
        self.sets.keys().len()
    }

    /// Whether the quad is there. It takes no memory.
    pub fn contains(&self, quad: &Quad) -> bool
        ensures { result ≡ set.contains self.now.quads quad.now }
    {
        terms_are_held_once(&self.table);
        match find_quad(&self.table, quad) {
            Some(key) => self.sets.contains(&key),
            None => false,
        }
    }

    /// Whether a graph has the name, be it empty. It takes no memory.
    pub fn has_name(&self, name: &Term) -> bool
        ensures { result ≡ set.contains self.now.names name.now }
    {
        terms_are_held_once(&self.table);
        match find_term(&self.table, name) {
            Some(number) => self.sets.has_name(number),
            None => false,
        }
    }

    /// Adds the quad, and answers whether it is new. The name of its graph is another matter.
    ///
    /// # Errors
    /// [`NoMemory`] where memory is wanting: nothing has changed then.
    pub fn insert(&mut self, quad: &Quad) -> Result<bool, NoMemory>
        ensures ok { OnOk result (self.new ≡ with_quad self.old quad.now) }
        ensures new { IfOk result (λ new. new ≡ not (set.contains self.old.quads quad.now)) }
        ensures err { OnErr result (self.new ≡ self.old) }
    {
        let key = number_quad(&mut self.table, quad)?;
        terms_are_held_once(&self.table);
        self.sets.insert(&key)
    }

    /// Takes the quad out, and answers whether it was there. It takes no memory.
    pub fn remove(&mut self, quad: &Quad) -> bool
        ensures quads { self.new ≡ without_quad self.old quad.now }
        ensures was { result ≡ set.contains self.old.quads quad.now }
    {
        terms_are_held_once(&self.table);
        match find_quad(&self.table, quad) {
            Some(key) => self.sets.remove(&key),
            None => false,
        }
    }

    /// Adds the name of a graph, and answers whether it is new.
    ///
    /// # Errors
    /// [`NoMemory`] where memory is wanting: nothing has changed then.
    pub fn add_name(&mut self, name: &Term) -> Result<bool, NoMemory>
        ensures ok { OnOk result (self.new ≡ with_name self.old name.now) }
        ensures new { IfOk result (λ new. new ≡ not (set.contains self.old.names name.now)) }
        ensures err { OnErr result (self.new ≡ self.old) }
    {
        let number = number_term(&mut self.table, name)?;
        terms_are_held_once(&self.table);
        self.sets.add_name(number)
    }

    /// Takes the name of a graph away, and answers whether it was there. It takes no memory.
    pub fn drop_name(&mut self, name: &Term) -> bool
        ensures names { self.new ≡ without_name self.old name.now }
        ensures was { result ≡ set.contains self.old.names name.now }
    {
        terms_are_held_once(&self.table);
        match find_term(&self.table, name) {
            Some(number) => self.sets.drop_name(number),
            None => false,
        }
    }

    /// Adds quads and names of which none is there, all of them or none. Where the quads are as
    /// many as those that are there, or more, each order is built of both at once. It takes no memory
    /// where none is added.
    ///
    /// # Errors
    /// [`NoMemory`] where memory is wanting: nothing has changed then.
    pub fn insert_all(&mut self, quads: &[Quad], names: &[Term]) -> Result<(), NoMemory>
        requires new_quads { IsDisjoint self.old.quads (set.from_list quads.now) }
        requires new_names { IsDisjoint self.old.names (set.from_list names.now) }
        ensures ok { OnOk result (self.new ≡ with_all self.old quads.now names.now) }
        ensures err { OnErr result (self.new ≡ self.old) }
        ensures free { quads.now ≡ [] → names.now ≡ [] → IsOk result }
    {
        let keys = number_quads(self.alloc, &mut self.table, quads)?;
        let numbers = number_terms(self.alloc, &mut self.table, names)?;
        terms_are_held_once(&self.table);
        self.sets.insert_list(keys, &numbers)
    }

    /// Takes quads and names out, those of them that are there. It takes no memory.
    pub fn remove_all(&mut self, quads: &[Quad], names: &[Term])
        ensures { self.new ≡ without_all self.old quads.now names.now }
    {
        for quad in quads {
            self.remove(quad);
        }
        for name in names {
            self.drop_name(name);
        }
    }
}
