//! Documents of lines, counted while they are read.
ghost use Rattle.std.specs.Prelude.{◌≡◌, ℕ, List, Some};
ghost use Rattle.rdf_streams.specs.Checks.{ChecksLines};

use crate::checking::counted::{count_last, count_piece};
use crate::conversion::ConvertFault;
use crate::streams::READ_CALLS;
use rdf_lines::{FedLines, LineFormat};
use std::alloc::Global;
use std::io::Read;

// How many bytes are read at once at most.
const PIECE: usize = 65536;

/// Counts the statements of a document of lines.
pub(crate) fn check_lines<R: Read>(
    alloc: Global,
    format: LineFormat,
    reader: &mut R,
) -> Result<u64, ConvertFault>
    ensures { (text : List ℕ) → R.remaining reader.old ≡ Some text →
        ChecksLines format text (R.remaining reader.new) result }
{
    let mut document = FedLines::new(alloc, format);
    let mut count = 0;
    let mut buffer = [0u8; PIECE];
    for turn in 0..READ_CALLS {
        match reader.read(&mut buffer) {
            Ok(0) => return count_last(document, count),
            Ok(n) => match count_piece(document, &buffer[..n], count) {
                Ok((next, counted)) => {
                    document = next;
                    count = counted;
                }
                Err(fault) => return Err(fault),
            },
            Err(_) => return Err(ConvertFault::Read),
        }
    }
    Err(ConvertFault::Read)
}
