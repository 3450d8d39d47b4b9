//! The lines of a piece of a document, gathered until they are written.
ghost use Rattle.std.specs.Prelude.{◌+◌, ◌<◌, ◌^◌, List, length, MatchResult};
ghost use Rattle.rdf_streams.specs.Inside.Gathered.{Ends, GoesOn, Grows, Stops};
ghost use Rattle.rdf_terms.specs.declared.quad.Quad.{Quad};

use crate::conversion::fault::{ConvertFault, fault_of};
use rdf_lines::FedLines;

/// Feeds the reader a piece, and gathers the lines of the statements whose line ends come with it. At a fault those before it
/// are gathered.
pub(crate) fn gather(
    document: FedLines,
    piece: &[u8],
    lines: &mut Vec<u8>,
) -> Result<FedLines, ConvertFault>
    requires { document.number + length piece.now < 2 ^ 64 }
    ensures { (more : List Quad) × Grows lines.old.items more lines.new.items
        × MatchResult result (GoesOn document piece.now more) (Stops document piece.now more) }
{
    match document.write(piece, lines) {
        Ok(next) => Ok(next),
        Err(fault) => Err(fault_of(fault)),
    }
}

/// The text has ended: gathers the line of its last statement, if that has no line end.
pub(crate) fn gather_last(document: FedLines, lines: &mut Vec<u8>) -> Result<(), ConvertFault>
    requires { document.number + 1 < 2 ^ 64 }
    ensures { (more : List Quad) × Grows lines.old.items more lines.new.items
        × Ends document more result }
{
    match document.write_last(lines) {
        Ok(()) => Ok(()),
        Err(fault) => Err(fault_of(fault)),
    }
}
