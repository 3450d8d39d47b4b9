//! Devices over a transcript.
use crate::transcript::Transcript;
use std::cell::Cell;
use std::io;
use std::io::{Read, Write};

/// Gives the input of a transcript in pieces, and notes whether before each just what is due was written.
#[derive(Drop)]
pub(crate) struct Giver<'a> {
    pub(crate) transcript: &'a Transcript,
    /// How many bytes the first pieces have; the others have one.
    pub(crate) lengths: &'a [usize],
    /// How many bytes the taker has.
    pub(crate) written: &'a Cell<usize>,
    /// How many bytes were given, in how many pieces.
    pub(crate) read: usize,
    pub(crate) pieces: usize,
    /// What was written was due, each time.
    pub(crate) is_due: bool,
}

impl Read for Giver<'_> {
    fn read(&mut self, buf: &mut [u8]) -> io::Result<usize> {
        if self.transcript.due(self.read).written != self.written.get() {
            self.is_due = false;
        }
        let length = self.lengths.get(self.pieces).copied().unwrap_or(1);
        let rest = self.transcript.input().get(self.read..).unwrap_or(b"");
        let mut piece = rest.get(..length).unwrap_or(rest);
        let given = piece.read(buf)?;
        self.read = self.read.saturating_add(given);
        self.pieces = self.pieces.saturating_add(1);
        Ok(given)
    }
}

/// Takes so many bytes at a call at most.
#[derive(Drop)]
pub(crate) struct Taker<'a> {
    pub(crate) most: usize,
    pub(crate) taken: Vec<u8>,
    pub(crate) written: &'a Cell<usize>,
}

impl Write for Taker<'_> {
    fn write(&mut self, buf: &[u8]) -> io::Result<usize> {
        let length = buf.len().min(self.most);
        self.taken.extend_from_slice(&buf[..length])?;
        self.written.set(self.taken.len());
        Ok(length)
    }

    fn flush(&mut self) -> io::Result<()> {
        Ok(())
    }
}
