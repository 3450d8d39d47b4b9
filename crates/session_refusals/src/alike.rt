//! Whether two sessions are alike in all that calls show of them.
use crate::command::{Command, answer};
use crate::scene::MARKS;
use rdf_dataset::Net;
use rdf_session::Keeper;
use rdf_terms::Term;
use std::alloc::Global;

// More than any session here has entries.
const MOST_STEPS: usize = 16;

/// Whether quads, names, counter, net and entries are the same, and undo, redo and each mark lead to the
/// same states. Both are then where they were.
pub fn are_alike(alloc: Global, tried: &mut Keeper, twin: &mut Keeper) -> bool {
    show_alike(alloc, tried, twin)
        && have_same_entries(tried, twin)
        && lead_alike(alloc, tried, twin)
        && show_alike(alloc, tried, twin)
}

fn show_alike(alloc: Global, tried: &Keeper, twin: &Keeper) -> bool {
    have_same_names(tried, twin)
        && have_same_changes(tried, twin)
        && tried.next_blank() == twin.next_blank()
        && have_same_quads(alloc, tried, twin)
}

fn have_same_names(tried: &Keeper, twin: &Keeper) -> bool {
    match tried.names() {
        Ok(names) => has_names(twin, names.as_slice()),
        Err(_) => false,
    }
}

/// Whether a session has these graph names.
pub fn has_names(keeper: &Keeper, wanted: &[Term]) -> bool {
    match keeper.names() {
        Ok(names) => names.as_slice() == wanted,
        Err(_) => false,
    }
}

fn have_same_changes(tried: &Keeper, twin: &Keeper) -> bool {
    match tried.changes() {
        Ok(net) => has_changes(twin, &net),
        Err(_) => false,
    }
}

/// Whether this is what changed in a session.
pub fn has_changes(keeper: &Keeper, wanted: &Net) -> bool {
    match keeper.changes() {
        Ok(net) => are_same_nets(&net, wanted),
        Err(_) => false,
    }
}

fn have_same_quads(alloc: Global, tried: &Keeper, twin: &Keeper) -> bool {
    let mut found = Vec::new(alloc);
    let mut wanted = Vec::new(alloc);
    tried.write_quads(&mut found).is_ok()
        && twin.write_quads(&mut wanted).is_ok()
        && found.as_slice() == wanted.as_slice()
}

fn have_same_entries(tried: &Keeper, twin: &Keeper) -> bool {
    if tried.entries().len() != twin.entries().len() {
        return false;
    }
    for (entry, wanted) in tried.entries().iter().zip(twin.entries()) {
        if !are_same_nets(entry, wanted) {
            return false;
        }
    }
    true
}

// Whether two nets have the same quads, names and counters.
fn are_same_nets(net: &Net, wanted: &Net) -> bool {
    net.added() == wanted.added()
        && net.removed() == wanted.removed()
        && net.names_added() == wanted.names_added()
        && net.names_removed() == wanted.names_removed()
        && net.before() == wanted.before()
        && net.after() == wanted.after()
}

fn lead_alike(alloc: Global, tried: &mut Keeper, twin: &mut Keeper) -> bool {
    match (
        steps(alloc, tried, twin, Command::Undo),
        steps(alloc, tried, twin, Command::Redo),
    ) {
        (Some(back), Some(entries)) => {
            marks_lead_alike(alloc, tried, twin) && go_back(alloc, tried, twin, back, entries)
        }
        _ => false,
    }
}

// Both are then at the end.
fn marks_lead_alike(alloc: Global, tried: &mut Keeper, twin: &mut Keeper) -> bool {
    for mark in &MARKS {
        if step(alloc, tried, twin, Command::Rollback(*mark)).is_none()
            || steps(alloc, tried, twin, Command::Redo).is_none()
        {
            return false;
        }
    }
    true
}

// From the end to where so many steps led back.
fn go_back(
    alloc: Global,
    tried: &mut Keeper,
    twin: &mut Keeper,
    back: usize,
    entries: usize,
) -> bool {
    for _ in back..entries {
        if step(alloc, tried, twin, Command::Undo).is_none() {
            return false;
        }
    }
    true
}

// How often the command leads on; nothing where the sessions differ at a step. Both are then at an end.
fn steps(alloc: Global, tried: &mut Keeper, twin: &mut Keeper, command: Command) -> Option<usize> {
    for taken in 0..MOST_STEPS {
        if !step(alloc, tried, twin, command)? {
            return Some(taken);
        }
    }
    None
}

// Whether the command leads on; nothing where the sessions differ then.
fn step(alloc: Global, tried: &mut Keeper, twin: &mut Keeper, command: Command) -> Option<bool> {
    let found = answer(tried, command);
    if found == answer(twin, command) && have_same_quads(alloc, tried, twin) {
        Some(found.is_ok())
    } else {
        None
    }
}
