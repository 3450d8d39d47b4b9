//! What a case wants, and what the program does.
use crate::memory::Memory;
use case_tables::Case;
use rdf_keeper::start_over;
use std::alloc::Global;
use std::{io, str};

/// Whether the program does what a case wants.
#[derive(Drop)]
pub(crate) enum Verdict {
    Agrees,
    /// It does otherwise, and this is its status.
    Differs(u8),
    /// One of its words is no text, so it isn't run.
    NoText,
}

/// Runs a case, over what holds for all, and compares what it writes and answers.
pub(crate) fn judge(alloc: Global, shared: &Case, case: &Case) -> io::Result<Verdict> {
    let Ok(words) = str::from_utf8(part_of(shared, case, "args")) else {
        return Ok(Verdict::NoText);
    };
    let mut given = Vec::new(alloc);
    for word in words.lines() {
        given.push(String::from_str(alloc, word)?)?;
    }
    run_case(alloc, shared, case, given.as_slice())
}

fn run_case(alloc: Global, shared: &Case, case: &Case, words: &[String]) -> io::Result<Verdict> {
    let mut folder = Memory {
        files: case.parts(),
        unreadable: unreadable_of(case),
    };
    let input = part_of(shared, case, "stdin");
    let mut output = Vec::new(alloc);
    let mut errors = Vec::new(alloc);
    let status = start_over(alloc, &mut folder, words, input, &mut output, &mut errors);
    let agrees = is_status(alloc, shared, case, status)?
        && is_wanted(shared, case, ["stdout", "stdout.has"], output.as_slice())
        && is_wanted(shared, case, ["stderr", "stderr.has"], errors.as_slice());
    Ok(if agrees {
        Verdict::Agrees
    } else {
        Verdict::Differs(status)
    })
}

// What a case says by that name, or what holds for all, or nothing.
fn part_of<'a>(shared: &'a Case, case: &'a Case, name: &str) -> &'a [u8] {
    case.find(name).or_else(|| shared.find(name)).unwrap_or(b"")
}

// The file that the program may not read.
fn unreadable_of(case: &Case) -> Option<&str> {
    let device = str::from_utf8(case.find("device")?).ok()?;
    device.trim_end().strip_prefix("unreadable ")
}

fn is_status(alloc: Global, shared: &Case, case: &Case, status: u8) -> io::Result<bool> {
    let line = format!(in alloc; "{status}\n")?;
    let wanted = part_of(shared, case, "status");
    Ok(line.as_str().as_bytes() == wanted || wanted.is_empty() && status == 0)
}

// Whether the bytes are those that the first name gives, or have in their lines each of those that the second gives.
fn is_wanted(shared: &Case, case: &Case, names: [&str; 2], was: &[u8]) -> bool {
    let [whole, lines] = names;
    match case.find(lines) {
        Some(wanted) => has_lines(wanted, was),
        None => was == part_of(shared, case, whole),
    }
}

fn has_lines(wanted: &[u8], was: &[u8]) -> bool {
    let (Ok(wanted), Ok(was)) = (str::from_utf8(wanted), str::from_utf8(was)) else {
        return false;
    };
    wanted
        .lines()
        .all(|text| was.lines().any(|line| line.contains(text)))
}
