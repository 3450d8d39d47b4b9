//! Calls sessions, scripts, conversions and checks where any request for memory may be refused, as `refusals`
//! calls what stands below them.
#![tactic(auto)]

mod alike;
mod checks;
mod command;
mod conversions;
mod scene;
mod script;
mod states;
mod trial;
mod trials;
mod without_memory;

use crate::trials::TRIALS;
use std::alloc::Global;
use std::io;
use told_parts::{Told, run_parts};

// The parts that `own` has; behind them are the trials.
const OWN: usize = 9;

fn main(rt: HostRuntime) -> io::Result<()> {
    run_parts(&rt, OWN + TRIALS.len(), line)
}

// What a part finds.
fn line(alloc: Global, part: usize) -> Told {
    match part.checked_sub(OWN) {
        None => own(alloc, part),
        Some(number) => match TRIALS.get(number) {
            Some(trial) => trial.told(alloc),
            None => Told::new("no such part"),
        },
    }
}

fn own(alloc: Global, part: usize) -> Told {
    match part {
        0 => script::outcome(alloc),
        1 => conversions::quads(alloc),
        2 => conversions::triples(alloc),
        3 => conversions::turtle(alloc),
        4 => without_memory::sessions::outcome(alloc),
        5 => without_memory::names::outcome(alloc),
        6 => Told::new(states::outcome(alloc)),
        7 => checks::quads(alloc),
        _ => checks::turtle(alloc),
    }
}
