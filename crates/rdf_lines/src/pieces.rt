//! The pieces of a stream.
ghost use Rattle.std.specs.Prelude.{◌≡◌, ◌<◌, ◌≤◌, ◌+◌, ◌^◌, [], length, drop, IfOk, OnOk};
ghost use Rattle.rdf_lines.specs.Pieces.{Refills};

use crate::fault::FaultKind;
use rdf_terms::NoMemory;
use std::alloc::Global;
use std::io::Read;
use std::marker::Model;

/// The size of a piece.
const PIECE: usize = 65536;

// After so many read calls a stream that hasn't ended is a read fault.
const READ_CALLS: u64 = 1 << 40;

/// The unread rest of a stream's last piece.
#[derive(Drop)]
pub struct Pieces {
    buffer: Vec<u8>,
    start: usize,
    end: usize,
    // the read calls that are left
    calls: u64,
}

impl Model for Pieces {
    ghost use Rattle.std.specs.Prelude.{◌≡◌, ◌≤◌, ◌^◌, length, slice_range, vec_len};
    ghost use Rattle.rdf_lines.specs.Pieces.{Held};

    ghost Value = { Held };

    ghost view = { λ p. record {
      held = slice_range p.buffer.items p.start p.end;
      calls = p.calls;
    } };

    ghost invariant = { λ p. (p.start ≤ p.end) × (p.end ≤ vec_len p.buffer)
        × (vec_len p.buffer ≡ 65536) × (p.calls ≤ 2 ^ 40) };
}

impl Pieces {
    /// No piece yet. A stream is read at most 2^40 times.
    pub fn new(alloc: Global) -> Result<Self, NoMemory>
        ensures { IfOk result (λ p. p ≡ record { held = []; calls = 2 ^ 40 }) }
    {
        Ok(Pieces {
            buffer: vec![in alloc; 0; PIECE]?,
            start: 0,
            end: 0,
            calls: READ_CALLS,
        })
    }

    /// The unread rest of the piece.
    pub fn held(&self) -> &[u8]
        ensures { result.now ≡ self.now.held }
    {
        &self.buffer[self.start..self.end]
    }

    /// Goes on by n bytes.
    pub fn advance(&mut self, n: usize)
        requires { n ≤ length self.old.held }
        ensures { self.new ≡ record self.old { held = drop n self.old.held } }
    {
        self.start += n;
    }

    /// Reads the next piece, where none is held. Says whether there is one.
    pub fn refill<R: Read>(&mut self, stream: &mut R) -> Result<bool, FaultKind>
        requires { self.old.held ≡ [] }
        ensures piece { Refills (R.remaining stream.old) result (R.remaining stream.new)
            self.new.held }
        ensures size { length self.new.held ≤ 65536 }
        ensures calls { OnOk result (self.new.calls + 1 ≡ self.old.calls) }
        ensures falls { self.new.calls ≤ self.old.calls }
        ensures tries { 0 < self.old.calls → self.new.calls < self.old.calls }
    {
        self.start = 0;
        self.end = 0;
        if self.calls == 0 {
            return Err(FaultKind::Read);
        }
        self.calls -= 1;
        match stream.read(self.buffer.as_mut_slice()) {
            Ok(n) => {
                self.end = n;
                Ok(n > 0)
            }
            Err(_) => Err(FaultKind::Read),
        }
    }
}
