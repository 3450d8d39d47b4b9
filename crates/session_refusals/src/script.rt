//! A script whose commands are read one at a call, tried where any request for memory may be refused: the
//! refused command answers so, and the others as in a script without it; or, where the line or the body
//! had no room, the session ends there. The number of that command is the part's place.
use rdf_keeper::{Settings, Status, run};
use rdf_session::Keeper;
use std::alloc::Global;
use std::io;
use std::io::Read;
use told_parts::{Told, memory_is_back, requests_count};

// Each takes memory.
const COMMANDS: [&[u8]; 10] = [
    b"%load nquads\n<a:s> <a:p> \"x\" <a:g> .\n%end\n",
    b"%mark a\n",
    b"%print\n",
    b"%update\nDELETE DATA { GRAPH <a:g> { <a:s> <a:p> \"x\" } }\n%end\n",
    b"%undo\n",
    b"%update\nINSERT DATA { <a:s> <a:p> 1 }\n%end\n",
    b"%changes\n",
    b"%query\nSELECT ?o WHERE { <a:s> <a:p> ?o }\n%end\n",
    b"%graphs\n",
    b"%rollback a\n",
];

const ANSWERS: &[u8] =
    b"ok +1 -0\nok\n<a:s> <a:p> \"x\" <a:g> .\nok 1\nok +0 -1\nok +1 -0\nok +1 -0\n+ graph <a:g>\n+ <a:s> <a:p> \"1\"^^<http://www.w3.org/2001/XMLSchema#integer> .\n+ <a:s> <a:p> \"x\" <a:g> .\nok 3\n?o\n\"1\"^^<http://www.w3.org/2001/XMLSchema#integer>\nok 1\n<a:g>\nok 1\nok +0 -1\n";

const REFUSED: &[u8] = b"refused: NoMemory\n";

// More than any of these scripts is answered.
const ROOM: usize = 4096;

// Gives a command at each call, but for one that is left out. As the next is asked for, the one before has
// been answered: memory is back then.
#[derive(Drop)]
struct Commands {
    alloc: Global,
    next: usize,
    left_out: Option<usize>,
}

impl Read for Commands {
    fn read(&mut self, buf: &mut [u8]) -> io::Result<usize> {
        memory_is_back(self.alloc);
        if self.left_out == Some(self.next) {
            self.next = self.next.saturating_add(1);
        }
        let Some(command) = COMMANDS.get(self.next) else {
            return Ok(0);
        };
        self.next = self.next.saturating_add(1);
        for (place, byte) in buf.iter_mut().zip(*command) {
            *place = *byte;
        }
        requests_count(self.alloc);
        Ok(command.len().min(buf.len()))
    }
}

/// Whether a script is answered as it should, and at which command it was refused.
pub fn outcome(alloc: Global) -> Told {
    let name = "script, 10 places";
    match tried(alloc) {
        Some(refused_at) => Told::kept(name, true).at(refused_at),
        None => Told::kept(name, false),
    }
}

// Nothing where it isn't answered so.
fn tried(alloc: Global) -> Option<Option<u64>> {
    match Vec::with_capacity(alloc, ROOM) {
        Ok(mut output) => {
            let status = ran(alloc, None, &mut output);
            memory_is_back(alloc);
            place(alloc, status, output.as_slice())
        }
        Err(_) => None,
    }
}

// The command at which it was refused, if it was.
fn place(alloc: Global, status: Status, output: &[u8]) -> Option<Option<u64>> {
    match status {
        Status::Accepted if output == ANSWERS => Some(None),
        Status::Refused => Some(Some(refused_command(alloc, output)?)),
        Status::NoMemory(_) if ends_with_answer(output) && ANSWERS.starts_with(output) => {
            Some(Some(answers_in(output).saturating_add(1)))
        }
        _ => None,
    }
}

// Runs the script, whose answers are appended.
fn ran(alloc: Global, left_out: Option<usize>, output: &mut Vec<u8>) -> Status {
    let mut keeper = Keeper::new(alloc, None);
    let mut commands = Commands {
        alloc,
        next: 0,
        left_out,
    };
    let settings = Settings { stop: false };
    run(alloc, &mut keeper, &mut commands, output, settings)
}

// The number of the one command that was refused, where the others are answered as without it.
fn refused_command(alloc: Global, output: &[u8]) -> Option<u64> {
    let (before, behind) = parted(output)?;
    let number = answers_in(before);
    if is_without(alloc, number as usize, before, behind) {
        Some(number.saturating_add(1))
    } else {
        None
    }
}

// Whether these two are what the script without a command is answered.
fn is_without(alloc: Global, left_out: usize, before: &[u8], behind: &[u8]) -> bool {
    match Vec::with_capacity(alloc, ROOM) {
        Ok(mut wanted) => {
            let _status = ran(alloc, Some(left_out), &mut wanted);
            wanted.starts_with(before)
                && wanted.ends_with(behind)
                && wanted.len() == before.len().saturating_add(behind.len())
        }
        Err(_) => false,
    }
}

// What stands before the refusal, and what behind it.
fn parted(output: &[u8]) -> Option<(&[u8], &[u8])> {
    for place in 0..output.len() {
        if ends_with_answer(&output[..place]) && output[place..].starts_with(REFUSED) {
            return Some((
                &output[..place],
                output.get(place.checked_add(REFUSED.len())?..)?,
            ));
        }
    }
    None
}

// Whether it ends where an answer does: its last line begins as an answer's last.
fn ends_with_answer(output: &[u8]) -> bool {
    let mut is_answer = true;
    for place in 0..output.len() {
        if is_of_lines(&output[..place]) && output[place] != b'\n' {
            is_answer = output[place..].starts_with(b"ok");
        }
    }
    is_answer && is_of_lines(output)
}

// Whether no line is begun at its end.
fn is_of_lines(output: &[u8]) -> bool {
    output.is_empty() || output.ends_with(b"\n")
}

// How many lines begin as an answer's last.
fn answers_in(output: &[u8]) -> u64 {
    let mut count = 0u64;
    for place in 0..output.len() {
        if is_of_lines(&output[..place]) && output[place..].starts_with(b"ok") {
            count = count.saturating_add(1);
        }
    }
    count
}
