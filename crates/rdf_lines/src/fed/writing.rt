//! The canonical lines of a text that is fed a piece at a time.
ghost use Rattle.std.specs.Prelude.{◌≡◌, ◌++◌, ◌+◌, ◌<◌, ◌^◌, [], List, length, MatchResult, OnOk};
ghost use Rattle.std.specs.List.{flat_map};
ghost use Rattle.rdf_terms.specs.declared.quad.Quad.{Quad};
ghost use Rattle.rdf_lines.specs.Fed.{EndsBehind, FaultsBehind, TakesAll};
ghost use Rattle.rdf_lines.specs.Inside.Slices.{WritesLine};
ghost use Rattle.rdf_lines.specs.QuadText.{quad_text};

use crate::cut::whole_line;
use crate::fault::{FaultKind, LineFault};
use crate::fed::FedLines;

impl FedLines {
    // Reads the line that this part ends, and appends the canonical line of what it says.
    fn write_line(&mut self, part: &[u8], lines: &mut Vec<u8>) -> Result<(), LineFault>
        requires { self.old.number + 1 < 2 ^ 64 }
        ensures writes { WritesLine self.old.format (self.old.line ++ part.now) self.old.number
            self.old.labels lines.old.items result self.new.number self.new.labels
            lines.new.items }
        ensures line { OnOk result (self.new.line ≡ []) }
        ensures format { self.new.format ≡ self.old.format }
    {
        if self.line.is_empty() {
            return self
                .progress
                .write_line(self.alloc, self.format, part, lines);
        }
        if let Err(refused) = self.line.extend_from_slice(part) {
            return Err(self.progress.fault(FaultKind::from(refused)));
        }
        let answer = self
            .progress
            .write_line(self.alloc, self.format, self.line.as_slice(), lines);
        self.line.clear();
        answer
    }

    /// Takes the next piece of the text, and appends the canonical line of each statement whose line ends with it (RDF 1.1
    /// N-Quads, section 4), in their order. Labels are numbered from 0 by first appearance. A statement of a line in which no
    /// IRI and no literal is written otherwise than in canonical form takes no memory but that of its line and its labels.
    ///
    /// # Errors
    /// The fault of a line that ends in the piece, as of [`crate::LineReader::next`], or [`FaultKind::NoMemory`]. The lines of
    /// the statements before it are appended.
    pub fn write(mut self, piece: &[u8], lines: &mut Vec<u8>) -> Result<FedLines, LineFault>
        requires { self.number + length piece.now < 2 ^ 64 }
        ensures { (more : List Quad) × (lines.new.items
            ≡ lines.old.items ++ flat_map quad_text more)
            × MatchResult result (TakesAll self piece.now more)
            (FaultsBehind self piece.now more) }
    {
        let mut rest = piece;
        while let Some(place) = whole_line(rest, self.behind_return) {
            let after = rest.split_at(place.end + 1).1;
            match self.write_line(&rest[place.start..place.end], lines) {
                Ok(()) => {}
                Err(fault) => return Err(fault),
            }
            self.behind_return = place.by_return;
            rest = after;
        }
        match self.keep_front(rest) {
            Ok(()) => Ok(self),
            Err(fault) => Err(fault),
        }
    }

    /// The text has ended: appends the canonical line of what its last line says, if that has no end and says something.
    ///
    /// # Errors
    /// The fault of that line. Nothing is appended then.
    pub fn write_last(mut self, lines: &mut Vec<u8>) -> Result<(), LineFault>
        requires { self.number + 1 < 2 ^ 64 }
        ensures { (more : List Quad) × (lines.new.items
            ≡ lines.old.items ++ flat_map quad_text more) × EndsBehind self more result }
    {
        if self.line.is_empty() {
            return Ok(());
        }
        self.progress
            .write_line(self.alloc, self.format, self.line.as_slice(), lines)
    }
}
