//! Quads in a list, up to the store that they make.
ghost use Rattle.std.specs.Prelude.{◌≡◌, ◌-◌, ◌∷◌, ◌++◌, [], length, slice_get, Some, IfOk, IsTrue, OnOk, OnErr};
ghost use Rattle.std.specs.List.{AllByRecursion, flat_map};
ghost use Rattle.rdf_terms.specs.Quad.{is_quad};
ghost use Rattle.rdf_orders.specs.Contents.{empty_contents, ids_of, with_all};
ghost use Rattle.rdf_store.specs.Gathered.{gathered};
ghost use Rattle.rdf_store.specs.Inside.Names.{name_in};

use crate::numbers::append_key;
use crate::store::Store;
use rdf_orders::{Key, KeyTree, QuadSets};
use rdf_terms::{NoMemory, Quad, TermTable};
use std::alloc::Global;
use std::marker::Model;

/// Quads in the order in which they came, from which a store is made. Each term is kept once, and a
/// quad is four numbers.
#[derive(Drop)]
pub struct QuadList {
    table: TermTable,
    keys: Vec<Key>,
    alloc: Global,
}

impl Model for QuadList {
    ghost use Rattle.std.specs.Prelude.{All, List, map};
    ghost use Rattle.rdf_terms.specs.Quad.{QuadParts};
    ghost use Rattle.rdf_orders.specs.Quads.{quad_of};
    ghost use Rattle.rdf_store.specs.Inside.Numbers.{HasTerms, parts_of};

    ghost Value = { List QuadParts };

    ghost view = { λ l. map (parts_of l.table) l.keys.items };

    ghost invariant = { λ l. All (λ key. HasTerms l.table (quad_of key)) l.keys.items };
}

// Whether the name is the last of these.
fn is_last(names: &[u64], name: u64) -> bool
    ensures { IsTrue result → slice_get names.now (length names.now - 1) ≡ Some name }
{
    match names.last() {
        Some(last) => *last == name,
        None => false,
    }
}

// Puts the name of a key's graph behind others, unless it is the last of them.
fn add_name(names: &mut Vec<u64>, key: &Key) -> Result<(), NoMemory>
    ensures { OnOk result (ids_of names.new.items ≡ ids_of (names.old.items ++ name_in key.now)) }
{
    let Some(name) = key[0].checked_sub(1) else {
        return Ok(());
    };
    if is_last(names, name) {
        return Ok(());
    }
    names.push(name)?;
    Ok(())
}

// The names of the graphs of keys. That of neighbours stands there once.
fn graph_names(alloc: Global, keys: &KeyTree) -> Result<Vec<u64>, NoMemory>
    ensures { IfOk result (λ names. ids_of names.items ≡ ids_of (flat_map name_in keys.now.keys)) }
{
    let mut names = Vec::new(alloc);
    for key in keys.iter() {
        add_name(&mut names, &key)?;
    }
    Ok(names)
}

// The quads that have these keys in `Spo`, in all three orders, and the names of their graphs.
fn sets_of(alloc: Global, keys: Vec<Key>) -> Result<QuadSets, NoMemory>
    ensures { IfOk result (λ sets.
        sets ≡ with_all empty_contents keys.items (flat_map name_in keys.items)) }
{
    let mut sets = QuadSets::new(alloc);
    sets.insert_list(keys, &[])?;
    let names = graph_names(alloc, sets.keys())?;
    sets.insert_all(&[], &names)?;
    Ok(sets)
}

impl QuadList {
    /// No quads. It takes no memory.
    pub fn new(alloc: Global) -> QuadList
        ensures { result ≡ [] }
    {
        QuadList {
            table: TermTable::new(alloc),
            keys: Vec::new(alloc),
            alloc,
        }
    }

    /// Puts the quad behind the others. Of its terms the new ones are kept.
    ///
    /// # Errors
    /// [`NoMemory`] where memory is wanting: the list is as before then.
    pub fn push(&mut self, quad: &Quad) -> Result<(), NoMemory>
        ensures ok { OnOk result (self.new ≡ self.old ++ quad.now ∷ []) }
        ensures err { OnErr result (self.new ≡ self.old) }
    {
        append_key(&mut self.table, &mut self.keys, quad)
    }

    /// The store of these quads and of the names of their graphs. The list goes before the memory of
    /// all three orders is taken.
    ///
    /// # Errors
    /// [`NoMemory`] where memory is wanting.
    pub fn into_store(self) -> Result<Store, NoMemory>
        ensures store { IfOk result (λ store. store ≡ gathered self) }
        ensures sound { OnOk result (AllByRecursion (λ q. IsTrue (is_quad q)) self) }
    {
        let QuadList { table, keys, alloc } = self;
        let sets = sets_of(alloc, keys)?;
        Ok(Store { table, sets, alloc })
    }
}
