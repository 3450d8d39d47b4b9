//! Runs the cases of tables that call queries and updates as a host does: how much patterns look at, and updates that no text
//! has. It waits for no crate above `sparql_eval`. It writes of each table how many agree, and the name of each case that doesn't.
#![tactic(auto)]

mod counting;
mod look_ups;
mod made;
mod templates;

use case_tables::{Case, read_table};
use std::alloc::Global;
use std::rt::Files;
use std::{fs, io};

fn main(rt: HostRuntime) -> io::Result<()> {
    run_table(&rt, "look_ups.table")?;
    run_table(&rt, "templates.table")
}

fn run_table<R: Files + Print + AllocGlobal>(rt: &R, path: &str) -> io::Result<()> {
    let text = fs::read_to_string(rt, path)?;
    let cases = read_table(rt.alloc(), text.as_str())?;
    let mut all = 0u64;
    for case in cases.get(1..).unwrap_or(&[]) {
        let name = case.name();
        match judge(rt.alloc(), case) {
            Some((agree, 0)) => all = all.saturating_add(agree),
            Some((_, differ)) => println!(rt; "{path}: {name}: {differ} differ")?,
            None => println!(rt; "{path}: {name}: it can't be run")?,
        }
    }
    println!(rt; "{path}: {all} agree")
}

// How much of a case agrees, and how much doesn't.
fn judge(alloc: Global, case: &Case) -> Option<(u64, u64)> {
    if case.find("object").is_some() {
        templates::judge(alloc, case)
    } else {
        look_ups::judge(alloc, case)
    }
}
