//! The model: what the dataset should hold, in plain vectors.
use crate::keys::Key;
use std::alloc::Global;

const LAST_NUMBER: u64 = 1_000_000_000_000_000_000;

/// The quads and the names, each once, and the number of the next blank node.
#[derive(Drop)]
pub struct Model {
    quads: Vec<Key>,
    names: Vec<u8>,
    next: u64,
}

impl Model {
    pub fn new(alloc: Global, next: u64) -> Model {
        Model {
            quads: Vec::new(alloc),
            names: Vec::new(alloc),
            next,
        }
    }

    pub fn copy(&self, alloc: Global) -> Option<Model> {
        Some(Model {
            quads: self.quads.as_slice().to_vec(alloc).ok()?,
            names: self.names.as_slice().to_vec(alloc).ok()?,
            next: self.next,
        })
    }

    pub fn has(&self, key: Key) -> bool {
        self.quads.as_slice().contains(&key)
    }

    pub fn has_name(&self, name: u8) -> bool {
        self.names.as_slice().contains(&name)
    }

    pub fn count_of_names(&self) -> usize {
        self.names.len()
    }

    pub fn next(&self) -> u64 {
        self.next
    }

    pub fn is_empty_graph(&self, name: u8) -> bool {
        for key in &self.quads {
            if key.graph == name {
                return false;
            }
        }
        true
    }

    /// A quad comes with its graph's name.
    pub fn insert(&mut self, key: Key) -> Option<bool> {
        if self.has(key) {
            return Some(false);
        }
        if key.graph != 0 {
            self.add_name(key.graph)?;
        }
        self.quads.push(key).ok()?;
        Some(true)
    }

    pub fn add_name(&mut self, name: u8) -> Option<bool> {
        if self.has_name(name) {
            return Some(false);
        }
        self.names.push(name).ok()?;
        Some(true)
    }

    /// A quad goes without its graph's name.
    pub fn remove(&mut self, key: Key) -> bool {
        let before = self.quads.len();
        self.quads.retain(|other| *other != key);
        self.quads.len() < before
    }

    pub fn drop_name(&mut self, name: u8) -> bool {
        let before = self.names.len();
        self.names.retain(|other| *other != name);
        self.names.len() < before
    }

    /// The first of the numbers, or none where the counter would pass 10^18.
    pub fn take_blanks(&mut self, count: u64) -> Option<u64> {
        let first = self.next;
        let after = first.checked_add(count)?;
        if after > LAST_NUMBER {
            return None;
        }
        self.next = after;
        Some(first)
    }
}
