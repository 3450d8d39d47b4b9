//! Writing the whole of a text.
ghost use Rattle.std.specs.Prelude.{◌≡◌, ◌++◌, ℕ, List};
ghost use Rattle.rdf_streams.specs.Devices.{Event};
ghost use Rattle.rdf_streams.specs.Streams.{WritesOn, WritesTo};

use crate::streams::{Device, LentWriter};
use std::io::Write;

/// A write call failed, or took nothing.
#[derive(Clone, Copy, Debug, PartialEq, Eq)]
pub struct WriteFault;

/// Writes the whole text over a device. No call comes behind one that fails or takes nothing.
///
/// # Errors
/// A [`WriteFault`] where a call failed or took nothing. A proper front of the text is written then.
pub fn write_on<D: Device>(device: &mut D, text: &[u8]) -> Result<(), WriteFault>
    ensures { WritesOn D.step device.old text.now result device.new }
{
    let mut rest = text;
    while !rest.is_empty() {
        match device.write(rest) {
            Ok(0) => return Err(WriteFault),
            Ok(n) => rest = rest.split_at(n).1,
            Err(_) => return Err(WriteFault),
        }
    }
    Ok(())
}

/// Writes the whole text over a writer. No call comes behind one that fails or takes nothing.
///
/// # Errors
/// A [`WriteFault`] where a call failed or took nothing. A proper front of the text is written then.
pub fn write_whole<W: Write>(writer: &mut W, text: &[u8]) -> Result<(), WriteFault>
    ensures { WritesTo (W.contents writer.old) text.now result (W.contents writer.new) }
{
    let mut device = LentWriter { writer };
    let answer = write_on(&mut device, text);
    // No effect at run time. The proof reads what the writer holds from this use.
    let _ = &*device.writer;
    answer
}
