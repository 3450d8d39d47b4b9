//! Documents written as canonical N-Quads: those of lines while they are read, those of Turtle once they are read.
ghost use Rattle.std.specs.Prelude.{◌≡◌, ℕ, List, Some};
ghost use Rattle.std.specs.Io.KnownBytes.{Appends};
ghost use Rattle.rdf_streams.specs.Conversion.Converts.{Converts};

mod fault;
mod gathered;
mod held;
mod line;
mod lines;
mod parts;
mod pieces;
mod predicates;
mod triple_lines;
mod turtle;
mod writing;

use crate::conversion::lines::convert_lines;
use crate::conversion::turtle::convert_turtle;
pub use fault::{ConvertFault, DocumentFault};
pub(crate) use fault::{fault_of, turtle_fault};
use rdf_lines::LineFormat;
use rdf_session::Format;
use rdf_terms::Iri;
use std::alloc::Global;
use std::io::{Read, Write};
pub(crate) use triple_lines::TripleLines;

/// Writes each statement of a document, in its order, as a canonical line of N-Quads (RDF 1.1 N-Quads, section 4).
/// A statement that stands twice is written twice. Blank nodes are numbered from 0 by first appearance.
///
/// A document of lines is written while it is read, so the memory that is taken doesn't grow with it, but for its
/// labels. A line that is faulty, a failed read or want of memory ends it: what comes before is written.
///
/// A document of Turtle is read whole, its relative IRIs against the base, and then its lines are written: a faulty one,
/// a failed read and want of memory write nothing.
///
/// # Errors
/// A [`ConvertFault`]. A write call that fails or takes nothing ends a conversion too.
pub fn convert<R: Read, W: Write>(
    alloc: Global,
    format: Format,
    base: Option<Iri>,
    reader: &mut R,
    writer: &mut W,
) -> Result<(), ConvertFault>
    ensures { (text : List ℕ) → R.remaining reader.old ≡ Some text →
        (out : List ℕ) × Appends (W.contents writer.old) (W.contents writer.new) out
        × Converts format base text (R.remaining reader.new) out result }
{
    match format {
        Format::NQuads => convert_lines(alloc, LineFormat::NQuads, reader, writer),
        Format::NTriples => convert_lines(alloc, LineFormat::NTriples, reader, writer),
        Format::Turtle => convert_turtle(alloc, base.as_ref(), reader, writer),
    }
}
