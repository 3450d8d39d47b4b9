//! Reading to the end of a stream.
ghost use Rattle.std.specs.Prelude.{◌≡◌, ℕ, List, length};
ghost use Rattle.std.specs.Io.KnownBytes.{Consumes, IsAtEnd};
ghost use Rattle.rdf_streams.specs.Streams.{ReadsTo};

use rdf_terms::NoMemory;
use std::alloc::Global;
use std::io::Read;

/// How reading ended.
#[derive(Clone, Copy, Debug, PartialEq, Eq)]
pub enum Ending {
    /// The end was read.
    AtEnd,
    /// A read call failed, or so many found no end.
    Failed,
    /// A growth was refused.
    NoMemory(NoMemory),
}

/// The most read calls of one session, of one conversion and of one text that is read to its end.
pub const READ_CALLS: u64 = 1 << 40;

// How many bytes are read at once at most.
const PIECE: usize = 65536;

/// Reads to the end or to the first fault, at most [`READ_CALLS`] times, and appends what was read to what is held. A piece
/// for which there is no memory isn't kept.
pub fn read_all<R: Read>(reader: &mut R, held: &mut Vec<u8>) -> Ending
    ensures { ReadsTo (R.remaining reader.old) (R.remaining reader.new)
        held.old.items result held.new.items }
{
    let mut buffer = [0u8; PIECE];
    for _ in 0..READ_CALLS {
        match reader.read(&mut buffer) {
            Ok(0) => return Ending::AtEnd,
            Ok(n) => match held.extend_from_slice(&buffer[..n]) {
                Ok(()) => {}
                Err(refused) => return Ending::NoMemory(NoMemory::from(refused)),
            },
            Err(_) => return Ending::Failed,
        }
    }
    Ending::Failed
}
