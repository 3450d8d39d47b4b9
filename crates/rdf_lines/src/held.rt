//! The statements of held bytes.
ghost use Rattle.std.specs.Prelude.{◌≡◌, ◌<◌, [], ◌∷◌, length, MatchResult, None};
ghost use Rattle.rdf_lines.specs.Lines.{lines};
ghost use Rattle.rdf_lines.specs.LineEnds.{LinesAreTheText, NoOthersAreTheText};
ghost use Rattle.rdf_lines.specs.Document.{IsDocument, StopsBehind, TellsFault, EachTextIsOneDocument};
ghost use Rattle.rdf_lines.specs.Blanks.{BlankNumbersAreBelow, NodesAreToldApart, NumbersComeInOrder};

use crate::cut::{feed_len, whole_line};
use crate::fault::{FaultKind, LineFault};
use crate::format::LineFormat;
use crate::progress::Progress;
use crate::shared::push_shared;
use rdf_terms::{Quad, TermTable};
use std::alloc::Global;

// The first line without its end, and what comes after that.
fn first_line(text: &[u8]) -> (&[u8], &[u8])
    requires { 0 < length text.now }
    ensures lines { lines text.now ≡ result.0.now ∷ lines result.1.now }
    ensures falls { length result.1.now < length text.now }
{
    match whole_line(text, false) {
        Some(place) => {
            let after = text.split_at(place.end + 1).1;
            let feed = feed_len(after, place.by_return);
            (&text[place.start..place.end], after.split_at(feed).1)
        }
        None => text.split_at(text.len()),
    }
}

/// The quads of a document of lines (RDF 1.1 N-Triples, section 2; RDF 1.1 N-Quads, section 2), in the order of its lines. Labels
/// are numbered from 0 by first appearance: subject, object and graph of each statement.
///
/// # Errors
/// The first faulty line, with its number from 1, and the first of these that applies to it: [`FaultKind::NotUtf8`],
/// [`FaultKind::Syntax`], [`FaultKind::Relative`]; or [`FaultKind::NoMemory`] at any line. Never `Read` or `Failed`.
pub fn read_lines(alloc: Global, format: LineFormat, bytes: &[u8]) -> Result<Vec<Quad>, LineFault>
    ensures { MatchResult result
        (λ quads. IsDocument format bytes.now quads.items None)
        (λ fault. TellsFault format bytes.now fault fault.kind) }
{
    let mut quads = Vec::new(alloc);
    match read_into(alloc, format, bytes, &mut quads) {
        Ok(()) => Ok(quads),
        Err(fault) => Err(fault),
    }
}

// Reads the quads of a document. At a fault those of the lines before are there.
fn read_into(
    alloc: Global,
    format: LineFormat,
    bytes: &[u8],
    quads: &mut Vec<Quad>,
) -> Result<(), LineFault>
    requires { quads.old.items ≡ [] }
    ensures { MatchResult result
        (λ _. IsDocument format bytes.now quads.new.items None)
        (λ fault. StopsBehind format bytes.now quads.new.items fault fault.kind) }
{
    let mut progress = Progress::new(alloc);
    let mut terms = TermTable::new(alloc);
    let mut rest = bytes;
    while !rest.is_empty() {
        let (line, after) = first_line(rest);
        let number = progress.number;
        match progress.line(alloc, format, line) {
            Ok(None) => {}
            Ok(Some(quad)) => match push_shared(&mut terms, quads, quad) {
                Ok(()) => {}
                Err(refused) => {
                    return Err(LineFault {
                        line: number,
                        kind: FaultKind::from(refused),
                    });
                }
            },
            Err(fault) => return Err(fault),
        }
        rest = after;
    }
    Ok(())
}

/// The lines of a text, each with its end, are the text, and no others are (N-Triples, section 7,
/// EOL): no line holds LF or CR, and LF, CR or CRLF ends each, or the end of the text one that isn't
/// empty.
pub fn lines_are_the_text()
    ensures there { LinesAreTheText }
    ensures alone { NoOthersAreTheText }
{}

/// Each text is a document, and just one.
pub fn each_text_is_one_document()
    ensures { EachTextIsOneDocument }
{}

/// The blank numbers of a document are just those below the number of its labels.
pub fn blank_numbers_are_below()
    ensures { BlankNumbersAreBelow }
{}

/// Two labels of a document share a number just where they are equal, and its blank numbers come in order of first
/// appearance (RDF 1.1 N-Quads, section 2.4).
pub fn labels_are_told_apart()
    ensures apart { NodesAreToldApart }
    ensures order { NumbersComeInOrder }
{}
