//! Documents of Turtle, counted once they are read.
ghost use Rattle.std.specs.Prelude.{◌≡◌, ℕ, List, Some};
ghost use Rattle.std.specs.Option.{option_copied};
ghost use Rattle.rdf_streams.specs.Checks.{ChecksTurtle};

use crate::conversion::{ConvertFault, TripleLines, turtle_fault};
use crate::streams::{Ending, read_all};
use rdf_terms::Iri;
use rdf_turtle::read_turtle_into;
use std::alloc::Global;
use std::io::Read;

/// Counts the triples of a document of Turtle.
pub(crate) fn check_turtle<R: Read>(
    alloc: Global,
    base: Option<&Iri>,
    reader: &mut R,
) -> Result<u64, ConvertFault>
    ensures { (text : List ℕ) → R.remaining reader.old ≡ Some text →
        ChecksTurtle (option_copied base.entry) text result }
{
    let mut held = Vec::new(alloc);
    match read_all(reader, &mut held) {
        Ending::AtEnd => match read_turtle_into::<TripleLines>(alloc, held.as_slice(), base) {
            Ok(lines) => Ok(lines.count()),
            Err(fault) => Err(turtle_fault(fault)),
        },
        Ending::Failed => Err(ConvertFault::Read),
        Ending::NoMemory(refused) => Err(ConvertFault::NoMemory(refused)),
    }
}
