//! Makes 500 mixed changes on a dataset and on a model of it in plain vectors, and compares the two
//! after each; then 500 commits, reverts and look-ups on a dataset and on the plain one. It writes how
//! many steps agreed before the first that didn't.
//!
//! With the words `measure orders COUNT` or `measure plain COUNT` it times a load of so many quads
//! and what takes it back, on a dataset or on the plain one.
#![tactic(auto)]

mod catalogue;
mod compare;
mod keys;
mod measure;
mod model;
mod revertible;
mod rounds;
mod steps;
mod table;
mod terms;
mod trial;
mod twins;
mod vocabulary;

use measure::measure;
use plain_dataset::PlainDataset;
use rdf_dataset::Dataset;
use std::io::ErrorKind;
use std::rt::Clock;
use std::{env, io};

fn main(rt: HostRuntime) -> io::Result<()> {
    let words = env::args(&rt)?.skip(1).collect::<Vec<String>>(rt.alloc())?;
    match words.as_slice() {
        [] => compare_all(&rt),
        [verb, kind, count] if verb.as_str() == "measure" => measured(&rt, kind, count),
        _ => Err(unknown_words()),
    }
}

fn compare_all<R: Print + AllocGlobal>(rt: &R) -> io::Result<()> {
    let agreed = rounds::steps_that_agree(rt.alloc());
    println!(rt; "{agreed} steps agree")?;
    let alike = twins::steps_alike(rt.alloc());
    println!(rt; "{alike} steps of two datasets agree")
}

fn measured<R: Print + AllocGlobal + Clock>(rt: &R, kind: &str, count: &str) -> io::Result<()> {
    let Ok(count) = count.parse() else {
        return Err(unknown_words());
    };
    match kind {
        "orders" => measure(rt, &mut Dataset::new(rt.alloc()), count),
        "plain" => measure(rt, &mut PlainDataset::new(rt.alloc()), count),
        _ => Err(unknown_words()),
    }
}

fn unknown_words() -> io::Error {
    io::Error::from(ErrorKind::InvalidInput)
}
