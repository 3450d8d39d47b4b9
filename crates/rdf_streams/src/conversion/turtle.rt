//! Documents of Turtle, written once they are read.
ghost use Rattle.std.specs.Prelude.{◌≡◌, ℕ, List, Some};
ghost use Rattle.std.specs.Option.{option_copied};
ghost use Rattle.std.specs.Io.KnownBytes.{Appends};
ghost use Rattle.rdf_streams.specs.Conversion.Converts.{ConvertsTurtle};

use crate::conversion::fault::{ConvertFault, turtle_fault};
use crate::conversion::triple_lines::TripleLines;
use crate::streams::{Ending, read_all};
use rdf_terms::Iri;
use rdf_turtle::read_turtle_into;
use std::alloc::Global;
use std::io::{Read, Write};

/// Converts a document of Turtle.
pub(crate) fn convert_turtle<R: Read, W: Write>(
    alloc: Global,
    base: Option<&Iri>,
    reader: &mut R,
    writer: &mut W,
) -> Result<(), ConvertFault>
    ensures { (text : List ℕ) → R.remaining reader.old ≡ Some text →
        (out : List ℕ) × Appends (W.contents writer.old) (W.contents writer.new) out
        × ConvertsTurtle (option_copied base.entry) text out result }
{
    let mut held = Vec::new(alloc);
    match read_all(reader, &mut held) {
        Ending::AtEnd => match read_turtle_into::<TripleLines>(alloc, held.as_slice(), base) {
            Ok(lines) => lines.write(alloc, writer),
            Err(fault) => Err(turtle_fault(fault)),
        },
        Ending::Failed => Err(ConvertFault::Read),
        Ending::NoMemory(refused) => Err(ConvertFault::NoMemory(refused)),
    }
}
