//! The statements of a piece of a document, counted.
ghost use Rattle.std.specs.Prelude.{◌+◌, ◌<◌, ◌^◌, length, MatchResult};
ghost use Rattle.rdf_streams.specs.Inside.Counted.{CountEnds, CountStops, CountsOn};

use crate::conversion::{ConvertFault, fault_of};
use rdf_lines::{FedLines, what_is_fed_comes_first};

/// Feeds the reader a piece, and counts the statements whose line ends come with it.
pub(crate) fn count_piece(
    document: FedLines,
    piece: &[u8],
    count: u64,
) -> Result<(FedLines, u64), ConvertFault>
    requires number { document.number + length piece.now < 2 ^ 64 }
    requires fits { count + length piece.now < 2 ^ 64 }
    ensures { MatchResult result (λ r. CountsOn document piece.now count r.0 r.1)
        (CountStops document piece.now) }
{
    what_is_fed_comes_first();
    let mut reader = document;
    let mut rest = piece;
    let mut counted = count;
    loop {
        match reader.take(rest) {
            Ok((next, said, after)) => match said {
                Some(quad) => {
                    drop(quad);
                    counted += 1;
                    reader = next;
                    rest = after;
                }
                None => return Ok((next, counted)),
            },
            Err(fault) => return Err(fault_of(fault)),
        }
    }
}

/// The text has ended: counts the statement of its last line, if that has no line end and says one.
pub(crate) fn count_last(document: FedLines, count: u64) -> Result<u64, ConvertFault>
    requires number { document.number + 1 < 2 ^ 64 }
    requires fits { count + 1 < 2 ^ 64 }
    ensures { CountEnds document count result }
{
    what_is_fed_comes_first();
    match document.end() {
        Ok(None) => Ok(count),
        Ok(Some(quad)) => {
            drop(quad);
            Ok(count + 1)
        }
        Err(fault) => Err(fault_of(fault)),
    }
}
