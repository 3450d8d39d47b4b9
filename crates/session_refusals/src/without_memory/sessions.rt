//! Calls of a session, each over one that was made for it.
use crate::alike::are_alike;
use crate::command::{Command, answer};
use crate::scene::{Scene, are_accepted};
use rdf_session::{Counts, Keeper, KeeperFault};
use std::alloc::Global;
use told_parts::{Told, memory_is_back, requests_count};

// Commands, and what the next one is answered behind them.
#[derive(Clone, Copy)]
struct Case(&'static [Command], Command, Result<Counts, KeeperFault>);

const REMOVED: Counts = Counts {
    added: 0,
    removed: 1,
};

const UNCHANGED: Counts = Counts {
    added: 0,
    removed: 0,
};

// Entries that removed no quad and no name are undone, and such as added none made again. Behind these come
// nothing to move over, and marks that aren't behind.
const CASES: [Case; 9] = [
    Case(&[Command::Redo], Command::Undo, Ok(REMOVED)),
    Case(&[Command::Undo], Command::Undo, Ok(REMOVED)),
    Case(&[Command::Undo], Command::Redo, Ok(REMOVED)),
    Case(&[Command::Redo], Command::Redo, Ok(REMOVED)),
    Case(
        &[Command::Rollback(b"base")],
        Command::Undo,
        Err(KeeperFault::NothingToUndo),
    ),
    Case(
        &[Command::Redo, Command::Redo],
        Command::Redo,
        Err(KeeperFault::NothingToRedo),
    ),
    Case(
        &[],
        Command::Rollback(b"ahead"),
        Err(KeeperFault::MarkAhead),
    ),
    Case(
        &[],
        Command::Rollback(b"none"),
        Err(KeeperFault::NoSuchMark),
    ),
    Case(&[], Command::Rollback(b"here"), Ok(UNCHANGED)),
];

pub fn outcome(alloc: Global) -> Told {
    let is_kept = are_answered(alloc) && is_committed(alloc) && is_made(alloc);
    Told::kept("sessions without memory", is_kept)
}

fn are_answered(alloc: Global) -> bool {
    for case in &CASES {
        if !is_answered(alloc, *case) {
            return false;
        }
    }
    true
}

// Whether the command is answered so, and as in a twin that has memory.
fn is_answered(alloc: Global, case: Case) -> bool {
    let Case(before, command, wanted) = case;
    let mut tried = Scene::Between.begun(alloc);
    let mut twin = Scene::Between.begun(alloc);
    is_behind(&mut tried, before)
        && is_behind(&mut twin, before)
        && is_same(alloc, &mut tried, &mut twin, command, wanted)
        && are_alike(alloc, &mut tried, &mut twin)
}

fn is_behind(keeper: &mut Keeper, before: &[Command]) -> bool {
    Scene::Between.is_set(keeper) && are_accepted(keeper, before)
}

fn is_same(
    alloc: Global,
    tried: &mut Keeper,
    twin: &mut Keeper,
    command: Command,
    wanted: Result<Counts, KeeperFault>,
) -> bool {
    requests_count(alloc);
    let found = answer(tried, command);
    memory_is_back(alloc);
    found == wanted && found == answer(twin, command)
}

fn is_committed(alloc: Global) -> bool {
    let mut tried = Scene::Between.begun(alloc);
    let mut twin = Scene::Between.begun(alloc);
    is_behind(&mut tried, &[])
        && is_behind(&mut twin, &[])
        && is_base(alloc, &mut tried, &mut twin)
        && are_alike(alloc, &mut tried, &mut twin)
}

fn is_base(alloc: Global, tried: &mut Keeper, twin: &mut Keeper) -> bool {
    requests_count(alloc);
    tried.commit();
    let is_base = tried.entries().is_empty() && tried.next_blank() == 2;
    memory_is_back(alloc);
    twin.commit();
    is_base
}

// A session is made without memory, also one with a depth.
fn is_made(alloc: Global) -> bool {
    requests_count(alloc);
    let keeper = Keeper::new(alloc, None).with_depth(7);
    let is_new = keeper.entries().is_empty() && keeper.next_blank() == 0;
    memory_is_back(alloc);
    is_new
}
