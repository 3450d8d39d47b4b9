//! Statements from a reader, one at a time.
ghost use Rattle.std.specs.Prelude.{◌≡◌, ◌≢◌, IfOk, MatchBool, Result, Ok, Err, Some, None, is_ok, if◌then◌else◌};
ghost use Rattle.rdf_lines.specs.Reader.{Call, OneLine, IsFresh, over, HoldsNothing, FallsAtOk, FallsAtQuad, AnswersAreTheDocument, StartsWithNothing, QuadsAddUp, EndIsTheDocument, FaultStops};
ghost use Rattle.rdf_lines.specs.declared.state.ReaderState.TheVariants.{Reading, Failed};

use crate::cut::{Cut, next_line, whole_line};
use crate::fault::{FaultKind, LineFault};
use crate::format::LineFormat;
use crate::pieces::Pieces;
use crate::progress::Progress;
use crate::state::ReaderState;
use rdf_terms::{NoMemory, Quad};
use std::alloc::Global;
use std::io::Read;
use std::marker::Model;

/// A reader of the statements of a stream, which is lent to each call. BetweenCalls two calls it holds the unread rest of a
/// piece of the stream, and the line that it is in.
#[derive(Drop)]
pub struct LineReader {
    alloc: Global,
    format: LineFormat,
    pieces: Pieces,
    behind_return: bool,
    line: Vec<u8>,
    progress: Progress,
    state: ReaderState,
}

impl Model for LineReader {
    ghost use Rattle.std.specs.Prelude.{◌≤◌, ◌+◌, ◌^◌};
    ghost use Rattle.rdf_lines.specs.Reader.{BetweenCalls, going};
    ghost use Rattle.rdf_lines.specs.Pieces.{room};

    ghost Value = { BetweenCalls };

    ghost view = { λ r. record {
      format = r.format;
      held = r.pieces.held;
      behind_return = r.behind_return;
      number = r.progress.number;
      labels = r.progress.labels;
      state = r.state;
      left = room r.pieces + going r.state;
    } };

    ghost invariant = { λ r. r.progress.number + room r.pieces ≤ 2 ^ 56 + 1 };
}

fn state_after(answer: &Result<Option<Quad>, LineFault>, next: ReaderState) -> ReaderState
    ensures { result ≡ (if is_ok answer.now then next else Failed) }
{
    if answer.is_ok() {
        next
    } else {
        ReaderState::Failed
    }
}

impl LineReader {
    /// A reader of the lines of a stream. It reads the stream at most 2^40 times, and takes it for faulty where it hasn't
    /// ended then.
    ///
    /// # Errors
    /// [`NoMemory`] where memory for its buffer is wanting.
    pub fn new(alloc: Global, format: LineFormat) -> Result<Self, NoMemory>
        ensures { IfOk result (IsFresh format) }
    {
        Ok(LineReader {
            alloc,
            format,
            pieces: Pieces::new(alloc)?,
            behind_return: false,
            line: Vec::new(alloc),
            progress: Progress::new(alloc),
            state: ReaderState::Reading,
        })
    }

    // Takes one line, which is copied only where the held piece hasn't the whole of it.
    fn one_line<R: Read>(&mut self, stream: &mut R) -> Result<Option<Quad>, LineFault>
        requires { self.old.state ≡ Reading }
        ensures line { OneLine (over (R.remaining stream.old) self.old) result
            (over (R.remaining stream.new) self.new) }
        ensures empty { HoldsNothing result self.new.held }
        ensures falls { FallsAtOk self.old result self.new }
    {
        match whole_line(self.pieces.held(), self.behind_return) {
            Some(place) => {
                let line = &self.pieces.held()[place.start..place.end];
                let answer = self.progress.line(self.alloc, self.format, line);
                self.behind_return = place.by_return;
                self.pieces.advance(place.end + 1);
                self.state = state_after(&answer, ReaderState::Reading);
                answer
            }
            None => self.gathered_line(stream),
        }
    }

    // Takes one line, gathered from the pieces.
    fn gathered_line<R: Read>(&mut self, stream: &mut R) -> Result<Option<Quad>, LineFault>
        requires { self.old.state ≡ Reading }
        ensures line { OneLine (over (R.remaining stream.old) self.old) result
            (over (R.remaining stream.new) self.new) }
        ensures empty { HoldsNothing result self.new.held }
        ensures falls { FallsAtOk self.old result self.new }
    {
        match next_line(
            &mut self.pieces,
            stream,
            &mut self.behind_return,
            &mut self.line,
        ) {
            Ok(Cut::Line) => {
                let answer = self
                    .progress
                    .line(self.alloc, self.format, self.line.as_slice());
                self.state = state_after(&answer, ReaderState::Reading);
                answer
            }
            Ok(Cut::Last) => {
                let answer = self
                    .progress
                    .line(self.alloc, self.format, self.line.as_slice());
                self.state = state_after(&answer, ReaderState::Ended);
                answer
            }
            Ok(Cut::End) => {
                self.state = ReaderState::Ended;
                Ok(None)
            }
            Err(kind) => {
                self.state = ReaderState::Failed;
                Err(self.progress.fault(kind))
            }
        }
    }

    fn is_reading(&self) -> bool
        ensures { MatchBool result (self.now.state ≡ Reading) (self.now.state ≢ Reading) }
    {
        matches!(self.state, ReaderState::Reading)
    }

    /// The quad of the next statement of the stream, which is the same at each call, or `None` at the end and from then on. Labels are numbered from 0 by first appearance.
    ///
    /// # Errors
    /// A fault with the number of its line: [`FaultKind::NotUtf8`], [`FaultKind::Syntax`] or [`FaultKind::Relative`] where the
    /// next line that isn't blank is faulty; [`FaultKind::Read`] and [`FaultKind::NoMemory`] at the line that isn't wholly
    /// read; and [`FaultKind::Failed`], with the line of the fault before, from the first fault on.
    pub fn next<R: Read>(&mut self, stream: &mut R) -> Result<Option<Quad>, LineFault>
        ensures call { Call (over (R.remaining stream.old) self.old) result
            (over (R.remaining stream.new) self.new) }
        ensures empty { HoldsNothing result self.new.held }
        ensures falls { FallsAtQuad self.old result self.new }
    {
        match self.state {
            ReaderState::Failed => return Err(self.progress.fault(FaultKind::Failed)),
            ReaderState::Ended => return Ok(None),
            ReaderState::Reading => {}
        }
        while self.is_reading() {
            match self.one_line(stream) {
                Ok(None) => {}
                Ok(Some(quad)) => return Ok(Some(quad)),
                Err(fault) => return Err(fault),
            }
        }
        Ok(None)
    }
}

/// Whatever pieces a text comes in, the answers of one call of `next` after another are its document.
pub fn answers_are_the_document()
    ensures { AnswersAreTheDocument }
{}

/// The law call by call, for a loop: what has been read before the first call, after a quad, at the end and at a fault.
pub fn each_answer_is_of_the_document()
    ensures starts { StartsWithNothing }
    ensures goes_on { QuadsAddUp }
    ensures ends { EndIsTheDocument }
    ensures stops { FaultStops }
{}
