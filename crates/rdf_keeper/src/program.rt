//! The whole program, over its words, its standard input, output and error.
ghost use Rattle.std.specs.Prelude.{◌≡◌, ◌≢◌, ◌≤◌, [], IsTrue, string_bytes};
ghost use Rattle.std.specs.Option.{option_copied};
ghost use Rattle.std.specs.Io.KnownBytes.{Appends};
ghost use Rattle.rdf_keeper.specs.Inside.Once.{WritesOut};
ghost use Rattle.rdf_keeper.specs.Inside.Outcomes.{TellsEnding, status_of};
ghost use Rattle.rdf_keeper.specs.Inside.Starts.{outcome_after};
ghost use Rattle.rdf_keeper.specs.Program.Openings.{anything};
ghost use Rattle.rdf_keeper.specs.Program.Sessions.{BeginsRun, GivesBase};
ghost use Rattle.rdf_keeper.specs.Program.Words.{AsksNothing, ConvertsAll, ConvertsBytes, Does, DoesAsked, Runs, RunsNamed, RunsScript};
ghost use Rattle.rdf_keeper.specs.Progress.{AsksProgress};
ghost use Rattle.rdf_keeper.specs.declared.program.folder.HostFolder.{HostFolder};
ghost use Rattle.rdf_keeper.specs.declared.program.outcome.Outcome.{Outcome};
ghost use Rattle.rdf_keeper.specs.declared.program.outcome.Outcome.TheVariants.{BadWords};

mod check;
mod data;
mod folder;
mod help;
mod once;
mod once_words;
mod outcome;
mod several;
mod starting;
mod watch;
mod words;

use crate::program::check::check_words;
use crate::program::data::{bounded, depth_of};
pub use crate::program::folder::Folder;
use crate::program::folder::HostFolder;
use crate::program::once::{query_words, update_words};
use crate::program::outcome::{Outcome, outcome_of, report};
use crate::program::starting::begun;
use crate::program::watch::{Progress, silent};
use crate::program::words::{Asked, ConvertWords, RunWords, WordsFault, read_words};
use crate::script::{Settings, Status, run};
use rdf_session::{Format, Keeper};
use rdf_streams::{convert, write_whole};
use rdf_terms::{Iri, IriFault};
use std::alloc::Global;
use std::io::{Read, Write};
use std::rt::Files;

// The base that the words give, if any.
fn base_of(alloc: Global, word: Option<&str>) -> Result<Option<Iri>, Outcome>
    ensures { GivesBase (option_copied word.entry) result }
{
    match word {
        None => Ok(None),
        Some(text) => match Iri::new(alloc, text) {
            Ok(iri) => Ok(Some(iri)),
            Err(IriFault::NoMemory(refused)) => Err(Outcome::NoMemory(refused)),
            Err(IriFault::Relative | IriFault::BadCharacter) => Err(Outcome::BadBase),
        },
    }
}

// The session that the words begin with.
fn session_of<F: Folder, P: Write>(
    alloc: Global,
    folder: &mut F,
    words: RunWords<'_>,
    progress: &mut Progress<P>,
) -> Result<Keeper, Outcome>
    ensures { BeginsRun F.step words.entry folder.old result folder.new }
{
    let depth = depth_of(words.depth)?;
    let base = base_of(alloc, words.base)?;
    match begun(alloc, folder, base, words.data, words.format, progress) {
        Ok(keeper) => Ok(bounded(keeper, depth)),
        Err(outcome) => Err(outcome),
    }
}

// How a script's end ends the program.
fn outcome_after(status: Status) -> Outcome
    ensures same { result ≡ outcome_after status }
    ensures told { status_of result ≢ 2 }
{
    match status {
        Status::Accepted => Outcome::Done,
        Status::Refused => Outcome::SomeRefused,
        Status::ReadFailed => Outcome::ReadFailed,
        Status::WriteFailed => Outcome::WriteFailed,
        Status::NoMemory(refused) => Outcome::NoMemory(refused),
    }
}

// Runs a script to its end.
fn run_all<R: Read, W: Write>(
    alloc: Global,
    keeper: &mut Keeper,
    reader: &mut R,
    writer: &mut W,
    settings: Settings,
) -> Outcome
    ensures told { status_of result ≢ 2 }
    ensures ran { RunsScript settings.stop keeper.old (R.remaining reader.old)
        (W.contents writer.old) (W.contents writer.new) result }
{
    outcome_after(run(alloc, keeper, reader, writer, settings))
}

// Runs the script that the words name, in a session that is lent.
fn run_named<F: Folder, R: Read, W: Write>(
    alloc: Global,
    folder: &mut F,
    words: RunWords<'_>,
    keeper: &mut Keeper,
    reader: &mut R,
    writer: &mut W,
) -> Outcome
    ensures does { RunsNamed F.step words.entry keeper.old (R.remaining reader.old)
        (W.contents writer.old) (W.contents writer.new) folder.old result folder.new }
    ensures told { status_of result ≢ 2 }
{
    let settings = Settings { stop: words.stop };
    match words.script {
        None => run_all(alloc, keeper, reader, writer, settings),
        Some(path) => match folder.open(path) {
            Ok(mut file) => run_all(alloc, keeper, &mut file, writer, settings),
            Err(_) => Outcome::ReadFailed,
        },
    }
}

fn run_words<F: Folder, R: Read, W: Write, P: Write>(
    alloc: Global,
    folder: &mut F,
    words: RunWords<'_>,
    reader: &mut R,
    writer: &mut W,
    progress: &mut Progress<P>,
) -> Outcome
    ensures does { Runs F.step words.entry (R.remaining reader.old) (W.contents writer.old)
        (W.contents writer.new) folder.old result folder.new }
    ensures silent { status_of result ≡ 2 →
        Appends (W.contents writer.old) (W.contents writer.new) [] }
{
    let started = session_of(alloc, folder, words, progress);
    progress.clear();
    match started {
        Ok(mut keeper) => {
            let outcome = run_named(alloc, folder, words, &mut keeper, reader, writer);
            drop(keeper);
            outcome
        }
        Err(outcome) => outcome,
    }
}

// Converts a document to its end.
fn convert_all<R: Read + Drop, W: Write>(
    alloc: Global,
    format: Format,
    base: Option<Iri>,
    mut reader: R,
    writer: &mut W,
) -> Outcome
    ensures told { status_of result ≢ 2 }
    ensures written { ConvertsBytes format base (R.remaining reader) (W.contents writer.old)
        (W.contents writer.new) result }
{
    outcome_of(convert(alloc, format, base, &mut reader, writer))
}

// The same, where it is told meanwhile how far the document is read: that changes nothing of it.
fn convert_told<R: Read + Drop, W: Write, P: Write>(
    alloc: Global,
    format: Format,
    base: Option<Iri>,
    reader: R,
    writer: &mut W,
    progress: &mut Progress<P>,
) -> Outcome
    ensures told { status_of result ≢ 2 }
    ensures written { ConvertsBytes format base (R.remaining reader) (W.contents writer.old)
        (W.contents writer.new) result }
{
    let outcome = convert_all(alloc, format, base, progress.watch(reader), writer);
    progress.clear();
    outcome
}

fn convert_words<F: Folder, R: Read, W: Write, P: Write>(
    alloc: Global,
    folder: &mut F,
    words: ConvertWords<'_>,
    reader: &mut R,
    writer: &mut W,
    progress: &mut Progress<P>,
) -> Outcome
    ensures does { ConvertsAll F.step words.entry (R.remaining reader.old)
        (W.contents writer.old) (W.contents writer.new) folder.old result folder.new }
    ensures silent { status_of result ≡ 2 →
        Appends (W.contents writer.old) (W.contents writer.new) [] }
{
    let base = match base_of(alloc, words.base) {
        Ok(base) => base,
        Err(outcome) => return outcome,
    };
    match words.file {
        None => convert_told(alloc, words.from, base, reader, writer, progress),
        Some(path) => match folder.open(path) {
            Ok(file) => {
                progress.begin(F::size_of(&file));
                convert_told(alloc, words.from, base, file, writer, progress)
            }
            Err(_) => Outcome::ReadFailed,
        },
    }
}

fn show<W: Write>(text: &str, writer: &mut W) -> Outcome
    ensures written { WritesOut (W.contents writer.old) text.now result (W.contents writer.new) }
    ensures told { status_of result ≢ 2 }
{
    match write_whole(writer, text.as_bytes()) {
        Ok(()) => Outcome::Done,
        Err(_) => Outcome::WriteFailed,
    }
}

// Does what the words ask for, and tells how far documents are read.
fn do_asked<F: Folder, R: Read, W: Write, P: Write>(
    alloc: Global,
    folder: &mut F,
    asked: &Asked<'_>,
    reader: &mut R,
    writer: &mut W,
    progress: &mut Progress<P>,
) -> Outcome
    ensures does { Does F.step asked.now (R.remaining reader.old) (W.contents writer.old)
        (W.contents writer.new) folder.old result folder.new }
    ensures silent { status_of result ≡ 2 →
        Appends (W.contents writer.old) (W.contents writer.new) [] }
{
    match asked {
        Asked::Run(words) => run_words(alloc, folder, *words, reader, writer, progress),
        Asked::Convert(words) => convert_words(alloc, folder, *words, reader, writer, progress),
        Asked::Query(words) => query_words(alloc, folder, words, reader, writer, progress),
        Asked::Update(words) => update_words(alloc, folder, words, reader, writer, progress),
        Asked::Check(words) => check_words(alloc, folder, words, reader, writer, progress),
        Asked::Shown(text) => show(text.as_str(), writer),
    }
}

// The same, where that is told on a device.
fn do_told<F: Folder, R: Read, W: Write, E: Write>(
    alloc: Global,
    folder: &mut F,
    asked: &Asked<'_>,
    reader: &mut R,
    writer: &mut W,
    errors: &mut E,
) -> Outcome
    ensures does { Does F.step asked.now (R.remaining reader.old) (W.contents writer.old)
        (W.contents writer.new) folder.old result folder.new }
    ensures silent { status_of result ≡ 2 →
        Appends (W.contents writer.old) (W.contents writer.new) [] }
{
    let mut progress = Progress::new(errors);
    do_asked(alloc, folder, asked, reader, writer, &mut progress)
}

// The same, where that is told nowhere.
fn do_untold<F: Folder, R: Read, W: Write>(
    alloc: Global,
    folder: &mut F,
    asked: &Asked<'_>,
    reader: &mut R,
    writer: &mut W,
) -> Outcome
    ensures does { Does F.step asked.now (R.remaining reader.old) (W.contents writer.old)
        (W.contents writer.new) folder.old result folder.new }
    ensures silent { status_of result ≡ 2 →
        Appends (W.contents writer.old) (W.contents writer.new) [] }
{
    do_asked(alloc, folder, asked, reader, writer, &mut silent())
}

// Whether `--progress` stands among the words that may be options: those behind `--` are files.
fn has_progress_word(words: &[String]) -> bool
    ensures { IsTrue result → AsksProgress string_bytes words.now }
{
    for word in words {
        if word.as_str() == "--progress" {
            return true;
        }
        if word.as_str() == "--" {
            return false;
        }
    }
    false
}

// Does what the words ask for, and tells on standard error how far documents are read where they ask for that too.
fn answer_asked<F: Folder, R: Read, W: Write, E: Write>(
    alloc: Global,
    folder: &mut F,
    words: &[String],
    asked: &Asked<'_>,
    reader: &mut R,
    writer: &mut W,
    errors: &mut E,
) -> Outcome
    ensures does { Does F.step asked.now (R.remaining reader.old) (W.contents writer.old)
        (W.contents writer.new) folder.old result folder.new }
    ensures silent { status_of result ≡ 2 →
        Appends (W.contents writer.old) (W.contents writer.new) [] }
    ensures quiet { (AsksProgress string_bytes words.now → ⊥) →
        Appends (E.contents errors.old) (E.contents errors.new) [] }
{
    // (that the word is there is what the contract knows of its option)
    if asked.has_progress() && has_progress_word(words) {
        do_told(alloc, folder, asked, reader, writer, errors)
    } else {
        do_untold(alloc, folder, asked, reader, writer)
    }
}

// Tells why words ask for nothing, as far as standard error takes that, and how it ends the program.
fn refuse_words<E: Write>(fault: &WordsFault, errors: &mut E) -> Outcome
    ensures asks { AsksNothing result }
    ensures quiet { result ≢ BadWords →
        Appends (E.contents errors.old) (E.contents errors.new) [] }
{
    match fault {
        WordsFault::Usage(text) => {
            let _ = write_whole(errors, text.as_str().as_bytes());
            Outcome::BadWords
        }
        WordsFault::Misuse(text) => {
            let _ = write_whole(errors, text.as_bytes());
            Outcome::BadWords
        }
        WordsFault::Format(_) => Outcome::BadWords,
        WordsFault::NoMemory(refused) => Outcome::NoMemory(*refused),
        WordsFault::ParserNoMemory => Outcome::ParserNoMemory,
    }
}

// Answers words, also those that ask for nothing.
fn answer_words<F: Folder, R: Read, W: Write, E: Write>(
    alloc: Global,
    folder: &mut F,
    words: &[String],
    reader: &mut R,
    writer: &mut W,
    errors: &mut E,
) -> Outcome
    ensures does { DoesAsked F.step (R.remaining reader.old) (W.contents writer.old)
        (W.contents writer.new) folder.old result folder.new }
    ensures silent { status_of result ≡ 2 →
        Appends (W.contents writer.old) (W.contents writer.new) [] }
    ensures quiet { result ≢ BadWords →
        (AsksProgress string_bytes words.now → ⊥) →
        Appends (E.contents errors.old) (E.contents errors.new) [] }
{
    match read_words(alloc, words) {
        Ok(asked) => {
            let outcome = answer_asked(alloc, folder, words, &asked, reader, writer, errors);
            drop(asked);
            outcome
        }
        Err(fault) => {
            let outcome = refuse_words(&fault, errors);
            drop(fault);
            outcome
        }
    }
}

/// The whole program `rdfkeep`, as [`start_over`], over the files of a host.
pub fn start<T: Files + AllocGlobal, R: Read + Drop, W: Write, E: Write>(
    rt: &T,
    words: &[String],
    reader: R,
    writer: &mut W,
    errors: &mut E,
) -> u8
    // of the files nothing is known
    ensures does { (before after : HostFolder T) × (outcome : Outcome)
        × (result ≡ status_of outcome)
        × DoesAsked anything (R.remaining reader) (W.contents writer.old) (W.contents writer.new)
        before outcome after
        × ((AsksProgress string_bytes words.now → ⊥) →
        TellsEnding outcome (E.contents errors.old) (E.contents errors.new)) }
    ensures status { result ≤ 4 }
    ensures silent { result ≡ 2 → Appends (W.contents writer.old) (W.contents writer.new) [] }
    ensures quiet { result ≡ 0 →
        (AsksProgress string_bytes words.now → ⊥) →
        Appends (E.contents errors.old) (E.contents errors.new) [] }
{
    let mut folder = HostFolder { rt };
    start_over(rt.alloc(), &mut folder, words, reader, writer, errors)
}

/// The whole program `rdfkeep`, over its words (without its own name), the files that they name, its standard input, output and
/// error. Answers the exit status:
///
/// - 0 where all was accepted, written or shown;
/// - 1 where a command of the script, the query or the request was refused, or a document that is converted or checked is
///   faulty;
/// - 2 where the words are no command line of the program, the base is no IRI, or the start data are refused;
/// - 3 where a file doesn't open, or a read or a write failed;
/// - 4 where memory was wanting.
///
/// Faults are found in this order: the words, the base, the start data (each opened, read, loaded), the script (opened),
/// and then those of the session; or the query or the request (opened, read, answered), and then those of writing.
///
/// With `--progress` standard error tells how many bytes of a document are read, while it is read, and is cleared of that before
/// anything else is written on it. What standard output gets and the status don't depend on it.
pub fn start_over<F: Folder, R: Read + Drop, W: Write, E: Write>(
    alloc: Global,
    folder: &mut F,
    words: &[String],
    mut reader: R,
    writer: &mut W,
    errors: &mut E,
) -> u8
    // it opens, reads and writes what the words ask for, up to the first fault, of which the line is told on standard error
    ensures does { (outcome : Outcome) × (result ≡ status_of outcome)
        × DoesAsked F.step (R.remaining reader) (W.contents writer.old) (W.contents writer.new)
        folder.old outcome folder.new
        × ((AsksProgress string_bytes words.now → ⊥) →
        TellsEnding outcome (E.contents errors.old) (E.contents errors.new)) }
    ensures status { result ≤ 4 }
    // where the words, the base or the start data are wrong, nothing is written
    ensures silent { result ≡ 2 → Appends (W.contents writer.old) (W.contents writer.new) [] }
    // where all went well, nothing is complained of, nor told where no word asks for it
    ensures quiet { result ≡ 0 →
        (AsksProgress string_bytes words.now → ⊥) →
        Appends (E.contents errors.old) (E.contents errors.new) [] }
{
    let outcome = answer_words(alloc, folder, words, &mut reader, writer, errors);
    report(&outcome, errors)
}
