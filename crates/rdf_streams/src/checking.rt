//! How many statements documents have, or their faults: those of lines are counted while they are read, those of Turtle once they
//! are read.
ghost use Rattle.std.specs.Prelude.{◌≡◌, ℕ, List, Some};
ghost use Rattle.std.specs.Option.{option_copied};
ghost use Rattle.rdf_streams.specs.Checks.{Checks};

mod counted;
mod lines;
mod turtle;

use crate::checking::lines::check_lines;
use crate::checking::turtle::check_turtle;
use crate::conversion::ConvertFault;
use rdf_lines::LineFormat;
use rdf_session::Format;
use rdf_terms::Iri;
use std::alloc::Global;
use std::io::Read;

/// Reads a document, and answers how many statements it has (RDF 1.1 N-Quads, section 2; RDF 1.1 N-Triples, section 2; RDF 1.1
/// Turtle, section 6). A statement that stands twice counts twice.
///
/// A document of lines is read to its first faulty line, and nothing of it is held but its labels and the line that is read. One
/// of Turtle is read whole, its relative IRIs against the base.
///
/// # Errors
/// A [`ConvertFault`], which is never [`ConvertFault::Write`].
pub fn check<R: Read>(
    alloc: Global,
    format: Format,
    base: Option<&Iri>,
    reader: &mut R,
) -> Result<u64, ConvertFault>
    ensures { (text : List ℕ) → R.remaining reader.old ≡ Some text →
        Checks format (option_copied base.entry) text (R.remaining reader.new) result }
{
    match format {
        Format::NQuads => check_lines(alloc, LineFormat::NQuads, reader),
        Format::NTriples => check_lines(alloc, LineFormat::NTriples, reader),
        Format::Turtle => check_turtle(alloc, base, reader),
    }
}
