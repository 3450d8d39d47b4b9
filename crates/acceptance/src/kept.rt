//! What each call of a keeper answers.
use crate::subject::word_of;
use crate::tally::Tally;
use case_tables::Case;
use rdf_keeper::{Counts, Format, Keeper, KeeperFault};
use rdf_terms::write_term;
use std::alloc::Global;
use std::io;
use std::io::Write;

// The greatest depth that a case may want.
const GREATEST_DEPTH: usize = 100;

/// Counts a run: whether a keeper answers each line of a case as it wants.
pub(crate) fn agrees(alloc: Global, case: &Case) -> io::Result<Tally> {
    let mut keeper = keeper_of(alloc, case);
    let mut output = Vec::new(alloc);
    for line in word_of(case, "stdin").unwrap_or("").lines() {
        answer(&mut keeper, line, &mut output)?;
    }
    let mut tally = Tally::NONE;
    tally.count(Some(output.as_slice()) == case.find("stdout"));
    Ok(tally)
}

// An empty keeper, of the depth that a case wants.
fn keeper_of(alloc: Global, case: &Case) -> Keeper {
    let keeper = Keeper::new(alloc, None);
    match word_of(case, "depth").unwrap_or("").parse() {
        Ok(depth) if 1 <= depth && depth <= GREATEST_DEPTH => keeper.with_depth(depth),
        _ => keeper,
    }
}

// Makes the call that a line names, and writes what it answers.
fn answer(keeper: &mut Keeper, line: &str, out: &mut Vec<u8>) -> io::Result<()> {
    match line.split_once(' ') {
        Some(("load", text)) => {
            let answer = keeper.load(Format::NQuads, text.as_bytes());
            write_counts(answer, out)
        }
        Some(("mark", name)) => write_done(keeper.mark(name.as_bytes()).is_ok(), out),
        Some(("rollback", name)) => write_counts(keeper.rollback(name.as_bytes()), out),
        _ => answer_word(keeper, line, out),
    }
}

fn answer_word(keeper: &mut Keeper, line: &str, out: &mut Vec<u8>) -> io::Result<()> {
    match line {
        "undo" => write_counts(keeper.undo(), out),
        "redo" => write_counts(keeper.redo(), out),
        "commit" => {
            keeper.commit();
            write_done(true, out)
        }
        _ => show(keeper, line, out),
    }
}

// Writes what a keeper shows.
fn show(keeper: &Keeper, line: &str, out: &mut Vec<u8>) -> io::Result<()> {
    match line {
        "entries" => writeln!(out, "{}", keeper.entries().len()),
        "next" => writeln!(out, "{}", keeper.next_blank()),
        "changes" => match keeper.changes() {
            Ok(net) => writeln!(out, "+{} -{}", net.added().len(), net.removed().len()),
            Err(_) => write_done(false, out),
        },
        "names" => show_names(keeper, out),
        "quads" => match keeper.write_quads(out) {
            Ok(count) => writeln!(out, "{count}"),
            Err(_) => write_done(false, out),
        },
        _ => write_done(false, out),
    }
}

fn show_names(keeper: &Keeper, out: &mut Vec<u8>) -> io::Result<()> {
    let Ok(names) = keeper.names() else {
        return write_done(false, out);
    };
    for name in &names {
        if write_term(name, out).is_err() {
            return write_done(false, out);
        }
        writeln!(out)?;
    }
    Ok(())
}

fn write_counts(answer: Result<Counts, KeeperFault>, out: &mut Vec<u8>) -> io::Result<()> {
    match answer {
        Ok(Counts { added, removed }) => writeln!(out, "+{added} -{removed}"),
        Err(fault) => writeln!(out, "{}", fault.name()),
    }
}

fn write_done(is_done: bool, out: &mut Vec<u8>) -> io::Result<()> {
    writeln!(out, "{}", if is_done { "done" } else { "not done" })
}
