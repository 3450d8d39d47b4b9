//! The program `rdfkeep`: its words, standard input, output and error are handed to `start`.
#![tactic(auto)]

use rdf_keeper::start;
use std::env;
use std::io::{ErrorKind, Write};
use std::process::ExitCode;

fn main(rt: HostRuntime) -> ExitCode {
    let args = match env::args(&rt) {
        Ok(args) => args,
        Err(error) if error.kind() == ErrorKind::OutOfMemory => return no_memory(&mut rt.stderr()),
        Err(_) => return refused(&mut rt.stderr(), b"rdfkeep: a word is no text\n", 2),
    };
    let Ok(words) = args.skip(1).collect::<Vec<String>>(rt.alloc()) else {
        return no_memory(&mut rt.stderr());
    };
    let status = start(
        &rt,
        words.as_slice(),
        rt.stdin(),
        &mut rt.stdout(),
        &mut rt.stderr(),
    );
    ExitCode::from(status)
}

fn no_memory<W: Write>(errors: &mut W) -> ExitCode {
    refused(errors, b"rdfkeep: no memory\n", 4)
}

// Says why the words can't be taken, and ends with that status.
fn refused<W: Write>(errors: &mut W, line: &[u8], status: u8) -> ExitCode {
    let _ = errors.write_all(line);
    ExitCode::from(status)
}
