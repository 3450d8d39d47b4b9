//! Runs the cases of the tables of the program's words and files over files in memory, by [`rdf_keeper::start_over`], where `tests/run`
//! runs the program itself. It writes of each table how many cases agree, and the name of each that doesn't. A word that is no text is
//! the program's own matter: such a case is left to `tests/run`.
#![tactic(auto)]

mod memory;
mod verdict;

use crate::verdict::{Verdict, judge};
use case_tables::{Case, read_table};
use std::rt::Files;
use std::{fs, io};

// What lies in `data/`.
const TABLES: [&str; 4] = [
    "words.table",
    "files.table",
    "several.table",
    "depths.table",
];

fn main(rt: HostRuntime) -> io::Result<()> {
    for path in TABLES {
        run_table(&rt, path)?;
    }
    Ok(())
}

fn run_table<R: Files + Print + AllocGlobal>(rt: &R, path: &str) -> io::Result<()> {
    let text = fs::read_to_string(rt, path)?;
    let cases = read_table(rt.alloc(), text.as_str())?;
    match cases.split_first() {
        Some((shared, cases)) => run_cases(rt, path, shared, cases),
        None => Ok(()),
    }
}

// Runs the cases, over what holds for all of them.
fn run_cases<R: Print + AllocGlobal>(
    rt: &R,
    path: &str,
    shared: &Case,
    cases: &[Case],
) -> io::Result<()> {
    let mut agreed = 0u64;
    let mut left = 0u64;
    for case in cases {
        match judge(rt.alloc(), shared, case)? {
            Verdict::Agrees => agreed = agreed.saturating_add(1),
            Verdict::NoText => left = left.saturating_add(1),
            Verdict::Differs(status) => {
                let name = case.name();
                println!(rt; "{path}: {name}: it differs, with status {status}")?;
            }
        }
    }
    println!(rt; "{path}: {agreed} agree, {left} with a word that is no text")
}
