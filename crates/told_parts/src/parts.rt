//! The parts of the program, each of which writes a line.
//!
//! The input's first byte asks for one, `0` for the first; without input all are asked for. A part says
//! where its requests for memory count, by the signs in `signs`, so `tools/fail-alloc` counts those of one
//! part, and has each refused in turn.

use std::alloc::Global;
use std::fmt::Display;
use std::io;
use std::io::Read;

/// Writes the line of each part that is asked for.
pub fn run_parts<R: Input + Print + AllocGlobal, L: Display + Drop, F: Fn(Global, usize) -> L>(
    rt: &R,
    parts: usize,
    line: F,
) -> io::Result<()>
    requires { F.IsAlwaysCallable line }
{
    let alloc = rt.alloc();
    let asked = part_asked(&mut rt.reader())?;
    for part in 0..parts {
        if asked.is_none() || asked == Some(part) {
            println!(rt; "{}", line(alloc, part))?;
        }
    }
    Ok(())
}

// The part that the input's first byte asks for, if it has one.
fn part_asked<R: Read>(input: &mut R) -> io::Result<Option<usize>> {
    let mut first = [0u8; 1];
    let bytes = input.read(&mut first)?;
    if bytes == 0 {
        Ok(None)
    } else {
        Ok(Some(first[0].saturating_sub(b'0') as usize))
    }
}
