//! The session that begins with data that are read: a document of lines by pieces, and whatever else whole.
ghost use Rattle.std.specs.Prelude.{◌≡◌, ◌+◌, ◌<◌, ◌^◌, ℕ, List, Option, Some, None, Err, IfOk, IfSome, length};
ghost use Rattle.std.specs.Option.{option_copied};
ghost use Rattle.rdf_keeper.specs.Inside.Starting.{BeginsReading, GoesOn, IsSoFar, number_of};
ghost use Rattle.rdf_keeper.specs.Inside.Starts.{RefusesData};
ghost use Rattle.rdf_keeper.specs.Program.Sessions.{Begins, BeginsNamed, BeginsOver};
ghost use Rattle.rdf_keeper.specs.declared.program.words.StartFormat.TheVariants.{Document};
ghost use Rattle.rdf_lines.specs.declared.format.LineFormat.{LineFormat};
ghost use Rattle.rdf_session.specs.Beginning.{BeginsWithLoad};
ghost use Rattle.rdf_session.specs.Documents.{of_lines};
ghost use Rattle.rdf_session.specs.History.{nothing};
ghost use Rattle.rdf_session.specs.declared.format.Format.{Format};

use crate::program::data::{all_of, over_read};
use crate::program::folder::Folder;
use crate::program::once_words::INPUT;
use crate::program::outcome::Outcome;
use crate::program::watch::Progress;
use crate::program::words::StartFormat;
use rdf_lines::LineFormat;
use rdf_session::{FedStart, Format, Keeper, KeeperFault};
use rdf_streams::READ_CALLS;
use rdf_terms::{Iri, NoMemory};
use std::alloc::Global;
use std::io::{Read, Write};

// How many bytes are read at once at most.
const PIECE: usize = 65536;

/// What a document of lines has come to, of which a front was read: the start of a session to which that was fed, or how a fault
/// of one of its lines ends the program. What stands behind a fault is read on, since a read that fails goes before it.
#[derive(Drop)]
pub(crate) enum LinesSoFar {
    Sound(FedStart),
    Faulty(Outcome),
}

// How the refusal of a document ends the program.
fn refused(fault: KeeperFault) -> Outcome
    ensures { (format : Format) (base : Option (List ℕ)) (text : List ℕ) →
        BeginsWithLoad format base text (Err fault) →
        RefusesData (Document format) base text result }
{
    match fault {
        KeeperFault::NoMemory(wanting) => Outcome::NoMemory(wanting),
        _ => Outcome::BadData(fault),
    }
}

impl LinesSoFar {
    // With a piece more.
    fn feed(self, piece: &[u8]) -> Result<LinesSoFar, NoMemory>
        requires { number_of self + length piece.now < 2 ^ 64 }
        ensures { IfOk result (GoesOn self piece.now) }
    {
        match self {
            LinesSoFar::Sound(start) => match start.feed(piece) {
                Ok(next) => Ok(LinesSoFar::Sound(next)),
                Err(fault) => match refused(fault) {
                    Outcome::NoMemory(wanting) => Err(wanting),
                    outcome => Ok(LinesSoFar::Faulty(outcome)),
                },
            },
            LinesSoFar::Faulty(outcome) => Ok(LinesSoFar::Faulty(outcome)),
        }
    }

    // At the end of the text.
    fn end(self) -> Result<Keeper, Outcome>
        requires { number_of self + 1 < 2 ^ 64 }
        ensures { (format : LineFormat) (base : Option (List ℕ)) (text : List ℕ) →
            IsSoFar format base text self →
            BeginsOver (Document (of_lines format)) base text result }
    {
        match self {
            LinesSoFar::Sound(start) => match start.end() {
                Ok(keeper) => Ok(keeper),
                Err(fault) => Err(refused(fault)),
            },
            LinesSoFar::Faulty(outcome) => Err(outcome),
        }
    }
}

// A session without history over a document of lines, which is read to its end by pieces.
fn begun_by_lines<R: Read>(
    alloc: Global,
    base: Option<Iri>,
    format: LineFormat,
    reader: &mut R,
) -> Result<Keeper, Outcome>
    ensures { BeginsReading (Document (of_lines format)) base (R.remaining reader.old) result }
{
    let mut so_far = LinesSoFar::Sound(FedStart::new(alloc, base, format));
    let mut buffer = [0u8; PIECE];
    for turn in 0..READ_CALLS {
        match reader.read(&mut buffer) {
            Ok(0) => return so_far.end(),
            Ok(n) => match so_far.feed(&buffer[..n]) {
                Ok(next) => so_far = next,
                Err(wanting) => return Err(Outcome::NoMemory(wanting)),
            },
            Err(_) => {
                drop(so_far);
                return Err(Outcome::ReadFailed);
            }
        }
    }
    drop(so_far);
    Err(Outcome::ReadFailed)
}

// The format of lines of the data, where they are a document of lines.
fn lines_in(format: StartFormat) -> Option<LineFormat>
    ensures { IfSome result (λ lines. format ≡ Document (of_lines lines)) }
{
    match format {
        StartFormat::Document(Format::NQuads) => Some(LineFormat::NQuads),
        StartFormat::Document(Format::NTriples) => Some(LineFormat::NTriples),
        StartFormat::Document(Format::Turtle) | StartFormat::State => None,
    }
}

// A session without history over all that a reader has left.
fn begun_by<R: Read>(
    alloc: Global,
    base: Option<Iri>,
    format: StartFormat,
    reader: &mut R,
) -> Result<Keeper, Outcome>
    ensures { BeginsReading format base (R.remaining reader.old) result }
{
    match lines_in(format) {
        Some(lines) => begun_by_lines(alloc, base, lines, reader),
        None => over_read(alloc, base, format, all_of(alloc, reader)),
    }
}

// A session without history over the data of a file.
fn begun_by_file<F: Folder, P: Write>(
    alloc: Global,
    folder: &mut F,
    base: Option<Iri>,
    path: &str,
    format: StartFormat,
    progress: &mut Progress<P>,
) -> Result<Keeper, Outcome>
    ensures { Begins F.step format (Some path.now) base folder.old result folder.new }
{
    match folder.open(path) {
        Ok(file) => {
            progress.begin(F::size_of(&file));
            begun_by(alloc, base, format, &mut progress.watch(file))
        }
        Err(_) => Err(Outcome::ReadFailed),
    }
}

/// A session without history over the data of a file, or of standard input, which is called `-`.
pub(crate) fn begun_by_named<F: Folder, R: Read, P: Write>(
    alloc: Global,
    folder: &mut F,
    base: Option<Iri>,
    path: &str,
    format: StartFormat,
    reader: &mut R,
    progress: &mut Progress<P>,
) -> Result<Keeper, Outcome>
    ensures { BeginsNamed F.step format path.now base (folder.old, R.remaining reader.old) result
        (folder.new, R.remaining reader.new) }
{
    if path == INPUT {
        progress.begin(None);
        return begun_by(alloc, base, format, &mut progress.watch(reader));
    }
    begun_by_file(alloc, folder, base, path, format, progress)
}

/// A session without history over the data of a file, or over none.
pub(crate) fn begun<F: Folder, P: Write>(
    alloc: Global,
    folder: &mut F,
    base: Option<Iri>,
    path: Option<&str>,
    format: StartFormat,
    progress: &mut Progress<P>,
) -> Result<Keeper, Outcome>
    ensures begins { Begins F.step format (option_copied path.entry) base folder.old result
        folder.new }
    ensures unbounded { IfOk result (λ keeper. keeper.depth ≡ None) }
    ensures without_history { IfOk result (λ keeper. keeper.states ≡ nothing) }
{
    match path {
        None => Ok(Keeper::new(alloc, base)),
        Some(path) => begun_by_file(alloc, folder, base, path, format, progress),
    }
}
