//! A call of a session, tried where its requests for memory may be refused. A twin of the session is never
//! refused: what the call leaves of it is what is wanted.
use crate::alike::{are_alike, has_changes, has_names};
use crate::command::{Command, answer, counts};
use crate::scene::Scene;
use rdf_session::{Counts, Keeper, KeeperFault};
use rdf_terms::NoMemory;
use std::alloc::Global;
use told_parts::{Told, memory_is_back, requests_count};

// What stands before a text that is written.
const BEFORE: &[u8] = b"before";

/// A call, with what it must answer.
#[derive(Clone, Copy)]
pub enum Call {
    /// A command, with the numbers of the quads that it adds and removes.
    Command(Command, u64, u64),
    /// A query, with the text of its answer and the number of its rows.
    Query(&'static [u8], &'static [u8], u64),
    /// The net since the base, with the numbers of the quads that it adds and removes.
    Changes(usize, usize),
    /// The graph names, with how many there are.
    Names(usize),
    /// The quads as text.
    Quads,
    /// The state text.
    State,
}

/// A call over a session, under a name.
#[derive(Clone, Copy)]
pub struct Trial(pub &'static str, pub Scene, pub Call);

impl Trial {
    /// Whether the call, where it is refused, leaves the session as it was, and made again answers as it
    /// should.
    pub fn told(self, alloc: Global) -> Told {
        let Trial(name, scene, call) = self;
        let mut tried = scene.begun(alloc);
        let mut twin = scene.begun(alloc);
        let is_kept = scene.is_set(&mut tried)
            && scene.is_set(&mut twin)
            && is_right(alloc, call, &mut tried, &mut twin)
            && are_alike(alloc, &mut tried, &mut twin);
        Told::kept(name, is_kept)
    }
}

// Whether a call answers as it should, and a command the twin too.
fn is_right(alloc: Global, call: Call, tried: &mut Keeper, twin: &mut Keeper) -> bool {
    match call {
        Call::Command(command, added, removed) => {
            is_answered(alloc, call, tried, twin)
                && answer(twin, command) == Ok(counts(added, removed))
        }
        Call::Quads => is_written(alloc, tried, twin, false),
        Call::State => is_written(alloc, tried, twin, true),
        _ => is_answered(alloc, call, tried, twin),
    }
}

// Whether the call answers as it should, or where it is refused and has left all as it was, does so then.
fn is_answered(alloc: Global, call: Call, tried: &mut Keeper, twin: &mut Keeper) -> bool {
    requests_count(alloc);
    match attempt(alloc, call, tried, twin) {
        Some(is_right) => is_right,
        None => are_alike(alloc, tried, twin) && attempt(alloc, call, tried, twin) == Some(true),
    }
}

// Whether the call, once, answers as it should; nothing where it is refused. Behind it memory is back.
fn attempt(alloc: Global, call: Call, tried: &mut Keeper, twin: &Keeper) -> Option<bool> {
    match call {
        Call::Command(command, added, removed) => {
            carried_out(alloc, tried, command, counts(added, removed))
        }
        Call::Query(text, payload, rows) => query(alloc, tried, text, payload, rows),
        Call::Changes(added, removed) => changes(alloc, tried, twin, added, removed),
        Call::Names(count) => names(alloc, tried, twin, count),
        Call::Quads | Call::State => Some(false),
    }
}

fn carried_out(
    alloc: Global,
    keeper: &mut Keeper,
    command: Command,
    wanted: Counts,
) -> Option<bool> {
    let found = answer(keeper, command);
    memory_is_back(alloc);
    match found {
        Ok(counts) => Some(counts == wanted),
        Err(KeeperFault::NoMemory(_)) => None,
        Err(_) => Some(false),
    }
}

fn query(alloc: Global, keeper: &Keeper, text: &[u8], payload: &[u8], rows: u64) -> Option<bool> {
    let found = keeper.query(text);
    memory_is_back(alloc);
    match found {
        Ok(answer) => Some(answer.payload.as_slice() == payload && answer.rows == rows),
        Err(KeeperFault::NoMemory(_)) => None,
        Err(_) => Some(false),
    }
}

fn changes(
    alloc: Global,
    tried: &Keeper,
    twin: &Keeper,
    added: usize,
    removed: usize,
) -> Option<bool> {
    let found = tried.changes();
    memory_is_back(alloc);
    match found {
        Ok(net) => {
            let are_counts = net.added().len() == added && net.removed().len() == removed;
            Some(are_counts && has_changes(twin, &net))
        }
        Err(_) => None,
    }
}

fn names(alloc: Global, tried: &Keeper, twin: &Keeper, count: usize) -> Option<bool> {
    let found = tried.names();
    memory_is_back(alloc);
    match found {
        Ok(names) => Some(names.len() == count && has_names(twin, names.as_slice())),
        Err(_) => None,
    }
}

// Whether the text is written behind one that was there, as the twin writes it.
fn is_written(alloc: Global, tried: &mut Keeper, twin: &mut Keeper, is_state: bool) -> bool {
    match BEFORE.to_vec(alloc) {
        Ok(mut text) => {
            is_appended(alloc, tried, twin, &mut text, is_state)
                && writes(alloc, twin, text.as_slice(), is_state)
        }
        Err(_) => false,
    }
}

// Whether this is what is written behind one that was there.
fn writes(alloc: Global, keeper: &Keeper, wanted: &[u8], is_state: bool) -> bool {
    match BEFORE.to_vec(alloc) {
        Ok(mut text) => append(keeper, &mut text, is_state).is_ok() && text.as_slice() == wanted,
        Err(_) => false,
    }
}

// Whether it is appended, behind a refusal too, which leaves all as it was.
fn is_appended(
    alloc: Global,
    tried: &mut Keeper,
    twin: &mut Keeper,
    text: &mut Vec<u8>,
    is_state: bool,
) -> bool {
    requests_count(alloc);
    let first = append(tried, text, is_state);
    memory_is_back(alloc);
    if first.is_ok() {
        return true;
    }
    text.as_slice() == BEFORE
        && are_alike(alloc, tried, twin)
        && append(tried, text, is_state).is_ok()
}

fn append(keeper: &Keeper, text: &mut Vec<u8>, is_state: bool) -> Result<(), NoMemory> {
    if is_state {
        return keeper.dump(text);
    }
    keeper.write_quads(text)?;
    Ok(())
}
