//! A session that begins with a document of lines, which is fed to it a piece at a time.
ghost use Rattle.std.specs.Prelude.{◌≡◌, ◌+◌, ◌<◌, ◌^◌, ◌++◌, [], ℕ, List, Option, length, MatchResult};
ghost use Rattle.rdf_lines.specs.Fed.{HasBeenFed};
ghost use Rattle.rdf_session.specs.Documents.{of_lines};
ghost use Rattle.rdf_session.specs.FedStart.{BeginsFed, FeedsOn, IsFed, StopsFed};
ghost use Rattle.rdf_session.specs.Inside.FedQuads.{EndsLines, StopsLines, TakesIn};
ghost use Rattle.rdf_session.specs.Inside.Starting.{BeginsAt};

use crate::fault::KeeperFault;
use crate::keeper::Keeper;
use crate::load::line_refusal;
use crate::start::StartQuads;
use rdf_dataset::Dataset;
use rdf_lines::{FedLines, LineFormat};
use rdf_terms::Iri;
use std::alloc::Global;
use std::marker::Model;

/// The start of a session, which is fed the text of a document of lines a piece at a time. Of the text it holds the front of
/// the line that it is in; the quads of the lines before have come in.
#[derive(Drop)]
pub struct FedStart {
    alloc: Global,
    base_iri: Option<Iri>,
    lines: FedLines,
    quads: StartQuads,
}

impl Model for FedStart {
    ghost use Rattle.rdf_session.specs.FedStart.{Start};

    ghost Value = { Start };

    ghost view = { λ s. record { base_iri = s.base_iri; lines = s.lines; quads = s.quads } };
}

// Feeds the reader a piece, and takes in the quads of the lines whose ends come with it.
fn take_in(lines: FedLines, quads: &mut StartQuads, piece: &[u8]) -> Result<FedLines, KeeperFault>
    requires { lines.number + length piece.now < 2 ^ 64 }
    ensures { MatchResult result (λ new. TakesIn lines quads.old piece.now new quads.new)
        (StopsLines lines piece.now) }
{
    let mut reader = lines;
    let mut rest = piece;
    loop {
        match reader.take(rest) {
            Ok((next, said, after)) => match said {
                Some(quad) => match quads.push(quad) {
                    Ok(()) => {
                        reader = next;
                        rest = after;
                    }
                    Err(refused) => return Err(KeeperFault::NoMemory(refused)),
                },
                None => return Ok(next),
            },
            Err(fault) => return Err(line_refusal(fault)),
        }
    }
}

// The text has ended: takes in the quad of its last line, if that has no line end and says one.
fn take_last(lines: FedLines, quads: &mut StartQuads) -> Result<(), KeeperFault>
    requires { lines.number + 1 < 2 ^ 64 }
    ensures { EndsLines lines quads.old result quads.new }
{
    match lines.end() {
        Ok(None) => Ok(()),
        Ok(Some(quad)) => match quads.push(quad) {
            Ok(()) => Ok(()),
            Err(refused) => Err(KeeperFault::NoMemory(refused)),
        },
        Err(fault) => Err(line_refusal(fault)),
    }
}

// The text has ended: the dataset that its load makes of an empty one.
fn end_lines(lines: FedLines, mut quads: StartQuads) -> Result<Dataset, KeeperFault>
    requires { lines.number + 1 < 2 ^ 64 }
    ensures { (base : Option (List ℕ)) (text : List ℕ) → HasBeenFed text quads lines →
        BeginsAt (of_lines lines.format) base text result }
{
    match take_last(lines, &mut quads) {
        Ok(()) => quads.into_dataset(),
        Err(fault) => {
            drop(quads);
            Err(fault)
        }
    }
}

impl FedStart {
    /// The start of a session to which nothing was fed yet, with a base IRI for the requests that resolve against one. It takes
    /// no memory.
    pub fn new(alloc: Global, base: Option<Iri>, format: LineFormat) -> FedStart
        ensures fed { IsFed [] result }
        ensures base_iri { result.base_iri ≡ base }
        ensures format { result.lines.format ≡ format }
        ensures number { result.lines.number ≡ 1 }
    {
        FedStart {
            alloc,
            base_iri: base,
            lines: FedLines::new(alloc, format),
            quads: StartQuads::new(alloc),
        }
    }

    /// Takes the next bytes of the text.
    ///
    /// # Errors
    /// `Line` at the first faulty line that ends in the piece, `NoMemory`: those of [`Keeper::begun_with`] over the text,
    /// however it goes on.
    pub fn feed(self, piece: &[u8]) -> Result<FedStart, KeeperFault>
        requires { self.lines.number + length piece.now < 2 ^ 64 }
        ensures { MatchResult result (FeedsOn self piece.now) (StopsFed self piece.now) }
    {
        let FedStart {
            alloc,
            base_iri,
            lines,
            mut quads,
        } = self;
        match take_in(lines, &mut quads, piece) {
            Ok(lines) => Ok(FedStart {
                alloc,
                base_iri,
                lines,
                quads,
            }),
            Err(fault) => {
                drop(quads);
                drop(base_iri);
                Err(fault)
            }
        }
    }

    /// The text has ended: the session that begins with it, as [`Keeper::begun_with`] has it.
    ///
    /// # Errors
    /// Those of [`Keeper::begun_with`].
    pub fn end(self) -> Result<Keeper, KeeperFault>
        requires { self.lines.number + 1 < 2 ^ 64 }
        ensures { BeginsFed self result }
    {
        let FedStart {
            alloc,
            base_iri,
            lines,
            quads,
        } = self;
        match end_lines(lines, quads) {
            Ok(dataset) => Ok(Keeper::over(alloc, dataset, base_iri)),
            Err(fault) => {
                drop(base_iri);
                Err(fault)
            }
        }
    }
}
