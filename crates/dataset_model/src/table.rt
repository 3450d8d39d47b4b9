//! All possible quads and names.
use crate::keys::{KEYS, Key, NAMES, key_at};
use crate::terms::{name, quad};
use rdf_terms::{Quad, Term};
use std::alloc::Global;

#[derive(Drop)]
pub struct QuadEntry {
    pub key: Key,
    pub quad: Quad,
}

#[derive(Drop)]
pub struct NameEntry {
    pub number: u8,
    pub name: Term,
}

/// Each possible quad and each possible name, with its numbers.
#[derive(Drop)]
pub struct Table {
    pub quads: Vec<QuadEntry>,
    pub names: Vec<NameEntry>,
}

impl Table {
    /// `None` where memory is wanting.
    pub fn new(alloc: Global) -> Option<Table> {
        Some(Table {
            quads: quads(alloc)?,
            names: names(alloc)?,
        })
    }
}

fn quads(alloc: Global) -> Option<Vec<QuadEntry>> {
    let mut all = Vec::new(alloc);
    for place in 0..KEYS {
        let key = key_at(place);
        let quad = quad(alloc, key)?;
        all.push(QuadEntry { key, quad }).ok()?;
    }
    Some(all)
}

fn names(alloc: Global) -> Option<Vec<NameEntry>> {
    let mut all = Vec::new(alloc);
    for before in 0..NAMES {
        let number = before + 1;
        let name = name(alloc, number)?;
        all.push(NameEntry { number, name }).ok()?;
    }
    Some(all)
}
