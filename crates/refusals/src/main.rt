//! Calls the crates from terms to Turtle where any request for memory may be refused: one of them, or one
//! and all behind it until the call is over. Each call that is refused leaves what it was lent as it was,
//! and is made again; so the program writes the same whichever request is refused, but for the place at
//! which a part says that it was, and `tools/fail-alloc` compares.
#![tactic(auto)]

mod datasets;
mod lines;
mod terms;
mod turtle;
mod without_memory;

use std::alloc::Global;
use std::io;
use told_parts::{Told, run_parts};

const PARTS: usize = 6;

fn main(rt: HostRuntime) -> io::Result<()> {
    run_parts(&rt, PARTS, line)
}

// What a part finds.
fn line(alloc: Global, part: usize) -> Told {
    match part {
        0 => Told::new(terms::outcome(alloc)),
        1 => Told::new(datasets::outcome(alloc)),
        2 => Told::new(turtle::outcome(alloc)),
        3 => lines::outcome(alloc),
        4 => without_memory::terms::outcome(alloc),
        _ => without_memory::datasets::outcome(alloc),
    }
}
