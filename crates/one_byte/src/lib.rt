//! A reader that gives one byte at a call, and a writer that takes one, until each ends or fails, and
//! devices that fail once: for tests of what reads and writes.
//!
//! `format_tests` and `acceptance` call it; the program doesn't.
#![tactic(auto)]

ghost use Rattle.std.specs.Prelude.{◌≡◌, [], IfOk, MatchBool, ◌≢◌};

use std::alloc::Global;
use std::io;
use std::io::{ErrorKind, Read, Write};

/// What a reader answers behind its last byte, and a writer that has no room left.
#[derive(Clone, Copy)]
pub enum Ending {
    /// That no byte was moved: the input's end, or a writer that takes nothing.
    Nothing,
    /// The error [`ErrorKind::Interrupted`].
    Interrupted,
    /// The error [`ErrorKind::Other`].
    Failed,
}

impl Ending {
    fn answer(self) -> io::Result<usize>
        ensures { IfOk result (λ moved. moved ≡ 0) }
    {
        match self {
            Ending::Nothing => Ok(0),
            Ending::Interrupted => Err(io::Error::from(ErrorKind::Interrupted)),
            Ending::Failed => Err(io::Error::from(ErrorKind::Other)),
        }
    }
}

/// Gives its bytes, one at a call.
#[derive(Drop)]
pub struct OneByteReader {
    /// The bytes that are still to come.
    pub bytes: &'static [u8],
    /// What it answers behind them.
    pub ending: Ending,
}

impl Read for OneByteReader {
    fn read(&mut self, buf: &mut [u8]) -> io::Result<usize> {
        if buf.is_empty() {
            return Ok(0);
        }
        match self.bytes {
            [first, rest @ ..] => {
                buf[0] = *first;
                self.bytes = rest;
                Ok(1)
            }
            [] => self.ending.answer(),
        }
    }
}

/// Takes so many bytes, one at a call.
#[derive(Drop)]
pub struct OneByteWriter {
    /// The bytes that it took.
    pub taken: Vec<u8>,
    /// How many more bytes it takes.
    pub room: usize,
    /// What it answers where it has no room.
    pub ending: Ending,
}

impl OneByteWriter {
    /// A writer that takes so many bytes. It takes no memory before the first.
    pub fn new(alloc: Global, room: usize, ending: Ending) -> OneByteWriter
        ensures taken { result.taken.items ≡ [] }
        ensures room { result.room ≡ room }
        ensures ending { result.ending ≡ ending }
    {
        OneByteWriter {
            taken: Vec::new(alloc),
            room,
            ending,
        }
    }
}

impl Write for OneByteWriter {
    fn write(&mut self, buf: &[u8]) -> io::Result<usize> {
        match buf {
            [] => Ok(0),
            [first, ..] if self.room > 0 => {
                self.taken.push(*first)?;
                self.room -= 1;
                Ok(1)
            }
            _ => self.ending.answer(),
        }
    }

    fn flush(&mut self) -> io::Result<()> {
        Ok(())
    }
}

/// A reader or writer that fails at one call, and goes on as if it hadn't been made.
#[derive(Drop)]
pub struct OnceFailing<T: Drop> {
    /// What reads or writes at the other calls.
    pub device: T,
    /// How many calls come before the one that fails.
    pub before: u64,
    /// What that one answers.
    pub failure: Ending,
    /// How many calls were made so far.
    pub calls: u64,
}

impl<T: Drop> OnceFailing<T> {
    /// A device that fails at the call behind so many.
    pub fn new(device: T, before: u64, failure: Ending) -> OnceFailing<T>
        ensures before { result.before ≡ before }
        ensures failure { result.failure ≡ failure }
        ensures calls { result.calls ≡ 0 }
    {
        OnceFailing {
            device,
            before,
            failure,
            calls: 0,
        }
    }

    // Counts a call, and says whether it is the one that fails.
    fn is_failing(&mut self) -> bool
        ensures fails { MatchBool result (self.old.calls ≡ self.old.before)
            (self.old.calls ≢ self.old.before) }
        ensures before { self.new.before ≡ self.old.before }
    {
        let call = self.calls;
        self.calls = call.saturating_add(1);
        call == self.before
    }
}

impl<R: Read + Drop> Read for OnceFailing<R> {
    fn read(&mut self, buf: &mut [u8]) -> io::Result<usize> {
        if self.is_failing() {
            return self.failure.answer();
        }
        self.device.read(buf)
    }
}

impl<W: Write + Drop> Write for OnceFailing<W> {
    fn write(&mut self, buf: &[u8]) -> io::Result<usize> {
        if self.is_failing() {
            return self.failure.answer();
        }
        self.device.write(buf)
    }

    fn flush(&mut self) -> io::Result<()> {
        self.device.flush()
    }
}
