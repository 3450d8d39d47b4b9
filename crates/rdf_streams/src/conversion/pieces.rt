//! Texts that are gathered until there is a piece of them to write.
ghost use Rattle.std.specs.Prelude.{◌≡◌, [], OnOk};
ghost use Rattle.rdf_streams.specs.Inside.Pieces.{Puts};

use crate::streams::{WriteFault, write_whole};
use std::io::Write;

// How many bytes are written at once at least, but for the last.
const PIECE: usize = 32768;

/// Writes what was gathered.
pub(crate) fn flush<W: Write>(writer: &mut W, gathered: &mut Vec<u8>) -> Result<(), WriteFault>
    ensures puts { Puts (W.contents writer.old) gathered.old.items []
        result (W.contents writer.new) gathered.new.items }
    ensures all { OnOk result (gathered.new.items ≡ []) }
{
    write_whole(writer, gathered.as_slice())?;
    gathered.clear();
    Ok(())
}

/// Writes what was gathered, if that is a piece.
pub(crate) fn flush_piece<W: Write>(
    writer: &mut W,
    gathered: &mut Vec<u8>,
) -> Result<(), WriteFault>
    ensures { Puts (W.contents writer.old) gathered.old.items []
        result (W.contents writer.new) gathered.new.items }
{
    if gathered.len() < PIECE {
        return Ok(());
    }
    flush(writer, gathered)
}

/// Gathers a text. Where there is no memory for it, it is written.
#[inline(always)]
pub(crate) fn put<W: Write>(
    writer: &mut W,
    gathered: &mut Vec<u8>,
    text: &[u8],
) -> Result<(), WriteFault>
    ensures { Puts (W.contents writer.old) gathered.old.items text.now
        result (W.contents writer.new) gathered.new.items }
{
    match gathered.extend_from_slice(text) {
        Ok(()) => Ok(()),
        Err(_) => {
            flush(writer, gathered)?;
            write_whole(writer, text)
        }
    }
}
