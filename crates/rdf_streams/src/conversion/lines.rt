//! Documents of lines, written while they are read.
ghost use Rattle.std.specs.Prelude.{◌≡◌, ◌++◌, ℕ, List, Some, MatchResult};
ghost use Rattle.std.specs.Io.KnownBytes.{Appends};
ghost use Rattle.rdf_streams.specs.Conversion.Converts.{ConvertsLines};
ghost use Rattle.rdf_streams.specs.Conversion.Orders.{LinesConverted};
ghost use Rattle.rdf_streams.specs.Devices.{Event, Leads};
ghost use Rattle.rdf_streams.specs.Streams.{WritesOn};

use crate::conversion::fault::ConvertFault;
use crate::conversion::gathered::{gather, gather_last};
use crate::streams::{Device, Lent, READ_CALLS, write_on};
use rdf_lines::{FedLines, LineFormat, what_is_fed_comes_first};
use std::alloc::Global;
use std::io::{Read, Write};

// How many bytes are read at once at most.
const PIECE: usize = 65536;

/// Converts a document of lines over a device: before each read call the lines of all statements that came are written.
pub(crate) fn convert_lines_on<D: Device>(
    alloc: Global,
    format: LineFormat,
    device: &mut D,
) -> Result<(), ConvertFault>
    ensures { (log : List Event) × Leads D.step device.old log device.new
        × LinesConverted READ_CALLS format log result }
{
    what_is_fed_comes_first();
    let mut document = FedLines::new(alloc, format);
    let mut lines = Vec::new(alloc);
    let mut buffer = [0u8; PIECE];
    for turn in 0..READ_CALLS {
        match device.read(&mut buffer) {
            Ok(0) => {
                let ended = gather_last(document, &mut lines);
                if write_on(device, lines.as_slice()).is_err() {
                    return Err(ConvertFault::Write);
                }
                return ended;
            }
            Ok(n) => {
                let fed = gather(document, &buffer[..n], &mut lines);
                if write_on(device, lines.as_slice()).is_err() {
                    return Err(ConvertFault::Write);
                }
                lines.clear();
                match fed {
                    Ok(next) => document = next,
                    Err(fault) => return Err(fault),
                }
            }
            Err(_) => return Err(ConvertFault::Read),
        }
    }
    Err(ConvertFault::Read)
}

/// The same, over a reader and a writer.
pub(crate) fn convert_lines<R: Read, W: Write>(
    alloc: Global,
    format: LineFormat,
    reader: &mut R,
    writer: &mut W,
) -> Result<(), ConvertFault>
    ensures { (text : List ℕ) → R.remaining reader.old ≡ Some text →
        (out : List ℕ) × Appends (W.contents writer.old) (W.contents writer.new) out
        × ConvertsLines format text (R.remaining reader.new) out result }
{
    let mut device = Lent { reader, writer };
    let answer = convert_lines_on(alloc, format, &mut device);
    // No effect at run time. The proof reads what the two hold from these uses.
    let _ = &*device.reader;
    let _ = &*device.writer;
    answer
}
