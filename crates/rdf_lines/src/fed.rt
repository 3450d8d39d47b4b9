//! Statements of a text that is fed a piece at a time.
ghost use Rattle.std.specs.Prelude.{◌≡◌, ◌++◌, ◌+◌, ◌<◌, ◌^◌, [], length, MatchResult, OnOk};
ghost use Rattle.rdf_lines.specs.Fed.{Ends, Faults, FedBegins, HasBeenFed, Takes, with_front};
ghost use Rattle.rdf_lines.specs.FaultName.{no_memory};
ghost use Rattle.rdf_lines.specs.Pieces.{HasNoLine};
ghost use Rattle.rdf_lines.specs.Reader.{ReadsLine};

mod writing;

use crate::cut::{feed_len, whole_line};
use crate::fault::{FaultKind, LineFault};
use crate::format::LineFormat;
use crate::progress::Progress;
use rdf_terms::Quad;
use std::alloc::Global;
use std::marker::Model;

/// A reader of the statements of a text that is fed a piece at a time, for one who reads the pieces and has to know when
/// all that came so far is answered. Between two pieces it holds the front of the line that it is in.
#[derive(Drop)]
pub struct FedLines {
    alloc: Global,
    format: LineFormat,
    line: Vec<u8>,
    behind_return: bool,
    progress: Progress,
}

impl Model for FedLines {
    ghost use Rattle.rdf_lines.specs.Fed.{Fed};

    ghost Value = { Fed };

    ghost view = { λ f. record {
      format = f.format;
      line = f.line.items;
      behind_return = f.behind_return;
      number = f.progress.number;
      labels = f.progress.labels;
    } };
}

impl FedLines {
    /// A reader that was fed nothing yet.
    pub fn new(alloc: Global, format: LineFormat) -> FedLines
        ensures fed { HasBeenFed [] [] result }
        ensures format { result.format ≡ format }
        ensures number { result.number ≡ 1 }
    {
        FedLines {
            alloc,
            format,
            line: Vec::new(alloc),
            behind_return: false,
            progress: Progress::new(alloc),
        }
    }

    // Reads the line that this part ends, which is copied only where its front came before.
    fn read_line(&mut self, part: &[u8]) -> Result<Option<Quad>, LineFault>
        requires { self.old.number + 1 < 2 ^ 64 }
        ensures reads { ReadsLine self.old.format (self.old.line ++ part.now) self.old.number
            self.old.labels result self.new.number self.new.labels }
        ensures line { OnOk result (self.new.line ≡ []) }
        ensures format { self.new.format ≡ self.old.format }
    {
        if self.line.is_empty() {
            return self.progress.line(self.alloc, self.format, part);
        }
        if let Err(refused) = self.line.extend_from_slice(part) {
            return Err(self.progress.fault(FaultKind::from(refused)));
        }
        let answer = self
            .progress
            .line(self.alloc, self.format, self.line.as_slice());
        self.line.clear();
        answer
    }

    // Takes the front of a line.
    fn keep_front(&mut self, front: &[u8]) -> Result<(), LineFault>
        requires { HasNoLine self.old.behind_return front.now }
        ensures { MatchResult result
            (λ _. self.new ≡ with_front self.old front.now)
            (λ fault. (fault.line ≡ self.old.number) × (fault.kind ≡ no_memory)) }
    {
        if front.is_empty() {
            return Ok(());
        }
        let feed = feed_len(front, self.behind_return);
        if let Err(refused) = self.line.extend_from_slice(front.split_at(feed).1) {
            return Err(self.progress.fault(FaultKind::from(refused)));
        }
        self.behind_return = false;
        Ok(())
    }

    /// Takes the next bytes of the text up to the first line end with which a statement comes, and gives its quad and what is
    /// left of the piece; or takes the whole piece, where it ends no statement. Labels are numbered from 0 by first appearance.
    ///
    /// # Errors
    /// The fault of a line that ends in the piece, as of [`crate::LineReader::next`], or [`FaultKind::NoMemory`].
    pub fn take<'a>(
        mut self,
        piece: &'a [u8],
    ) -> Result<(FedLines, Option<Quad>, &'a [u8]), LineFault>
        requires { self.number + length piece.now < 2 ^ 64 }
        ensures { MatchResult result (λ r. Takes self piece.now r.1 r.2.now r.0)
            (Faults self piece.now) }
    {
        let mut rest = piece;
        while let Some(place) = whole_line(rest, self.behind_return) {
            let after = rest.split_at(place.end + 1).1;
            match self.read_line(&rest[place.start..place.end]) {
                Ok(None) => {}
                Ok(Some(quad)) => {
                    self.behind_return = place.by_return;
                    return Ok((self, Some(quad), after));
                }
                Err(fault) => return Err(fault),
            }
            self.behind_return = place.by_return;
            rest = after;
        }
        match self.keep_front(rest) {
            Ok(()) => Ok((self, None, rest.split_at(rest.len()).1)),
            Err(fault) => Err(fault),
        }
    }

    /// The text has ended: the quad of its last line, if that has no end and says one.
    ///
    /// # Errors
    /// The fault of that line.
    pub fn end(mut self) -> Result<Option<Quad>, LineFault>
        requires { self.number + 1 < 2 ^ 64 }
        ensures { Ends self result }
    {
        if self.line.is_empty() {
            return Ok(None);
        }
        self.progress
            .line(self.alloc, self.format, self.line.as_slice())
    }
}

/// However a text goes on of which a reader was fed the front, its document has the quads first that the reader answered.
pub fn what_is_fed_comes_first()
    ensures { FedBegins }
{}
