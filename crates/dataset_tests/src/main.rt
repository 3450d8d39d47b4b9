//! Calls of datasets, views, nets and sets of numbers, as tables have them, with answers from outside: each call once, and look-ups. It
//! writes of each table how many cases agree, and of a case that doesn't the first line that is answered otherwise, or that memory is
//! wanting.
#![tactic(auto)]

mod answer;
mod case;
mod changes;
mod datasets;
mod lookups;
mod nets;
mod orders;
mod questions;
mod terms;

use crate::answer::Verdict;
use crate::case::Case;
use std::alloc::Global;
use std::rt::Files;
use std::{fs, io};

// What lies in `data/`.
const TABLES: [&str; 2] = ["datasets.table", "orders.table"];

fn main(rt: HostRuntime) -> io::Result<()> {
    for path in TABLES {
        run_table(&rt, path)?;
    }
    Ok(())
}

fn run_table<R: Files + Print + AllocGlobal>(rt: &R, path: &str) -> io::Result<()> {
    let text = fs::read_to_string(rt, path)?;
    let mut agreed = 0u64;
    for text in text.as_str().split("== ").skip(1) {
        let case = Case::new(text);
        match judged(rt.alloc(), case).differing() {
            None => agreed = agreed.saturating_add(1),
            Some(line) => {
                let name = case.name();
                println!(rt; "{path}: {name}: {line}")?;
            }
        }
    }
    println!(rt; "{path}: {agreed} agree")
}

// A case that has sets of numbers is about these, and any other about a dataset.
fn judged<'a>(alloc: Global, case: Case<'a>) -> Verdict<'a> {
    let mut verdict = Verdict::new();
    if case.has("sets") {
        orders::judge(alloc, case, &mut verdict);
    } else {
        datasets::judge(alloc, case, &mut verdict);
    }
    verdict
}
