//! Runs the cases of tables that call the keeper as a host does: what is read and written over devices, where each call of
//! them fails in turn; what each call of a keeper answers; and texts near to a state text. It writes of each table how many
//! runs agree, and the name of each case in which one doesn't. What a document or a script shows stands in `tests/`.
#![tactic(auto)]

mod call;
mod device;
mod judge;
mod kept;
mod near;
mod run;
mod subject;
mod tally;
mod transcript;

use crate::judge::judge;
use crate::tally::Tally;
use case_tables::{Case, read_table};
use std::rt::Files;
use std::{fs, io};

// What lies in `data/`.
const TABLES: [&str; 4] = [
    "sessions.table",
    "documents.table",
    "keeper.table",
    "states.table",
];

fn main(rt: HostRuntime) -> io::Result<()> {
    for path in TABLES {
        run_table(&rt, path)?;
    }
    Ok(())
}

fn run_table<R: Files + Print + AllocGlobal>(rt: &R, path: &str) -> io::Result<()> {
    let text = fs::read_to_string(rt, path)?;
    let cases = read_table(rt.alloc(), text.as_str())?;
    match cases.split_first() {
        Some((_above, cases)) => run_cases(rt, path, cases),
        None => Ok(()),
    }
}

fn run_cases<R: Print + AllocGlobal>(rt: &R, path: &str, cases: &[Case]) -> io::Result<()> {
    let mut all = Tally::NONE;
    for case in cases {
        let tally = judge(rt.alloc(), case)?;
        if tally.differ > 0 {
            let name = case.name();
            let Tally { agree, differ } = tally;
            println!(rt; "{path}: {name}: {agree} agree, {differ} differ")?;
        }
        all = all.and(tally);
    }
    let Tally { agree, differ } = all;
    println!(rt; "{path}: {agree} agree, {differ} differ")
}
