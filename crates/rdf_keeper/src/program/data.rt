//! The session that a run begins with.
ghost use Rattle.std.specs.Prelude.{◌≡◌, ◌≢◌, None, IfOk, IfErr, Err};
ghost use Rattle.std.specs.Option.{option_copied};
ghost use Rattle.rdf_keeper.specs.Program.Sessions.{BeginsOver, GivesDepth, LoadsOne};
ghost use Rattle.rdf_keeper.specs.Program.Stages.{mapped};
ghost use Rattle.rdf_keeper.specs.Program.Texts.{ReadsAll, ReadsFile, ReadsNamed};
ghost use Rattle.rdf_keeper.specs.Inside.Outcomes.{status_of};
ghost use Rattle.rdf_keeper.specs.declared.program.words.StartFormat.TheVariants.{Document, State};
ghost use Rattle.rdf_session.specs.Depth.{IsDepth};
ghost use Rattle.rdf_session.specs.History.{nothing};
ghost use Rattle.rdf_session.specs.Session.{with_depth};

use crate::program::folder::Folder;
use crate::program::once_words::INPUT;
use crate::program::outcome::Outcome;
use crate::program::watch::Progress;
use crate::program::words::StartFormat;
use rdf_lines::StateFault;
use rdf_session::{Format, Keeper, KeeperFault};
use rdf_streams::{Ending, read_all};
use rdf_terms::Iri;
use std::alloc::Global;
use std::io::{Read, Write};

// The greatest depth of a history.
const GREATEST_DEPTH: usize = 1_000_000;

/// A depth that a history can have, where the words give one.
pub(crate) fn depth_of(word: Option<usize>) -> Result<Option<usize>, Outcome>
    ensures { GivesDepth word result }
{
    match word {
        Some(depth) if depth == 0 || depth > GREATEST_DEPTH => Err(Outcome::BadWords),
        _ => Ok(word),
    }
}

/// The session, which has no history, with one that is bounded where a depth is given.
pub(crate) fn bounded(keeper: Keeper, depth: Option<usize>) -> Keeper
    requires depth { IsDepth depth }
    requires unbounded { keeper.depth ≡ None }
    requires without_history { keeper.states ≡ nothing }
    ensures { result ≡ with_depth depth keeper }
{
    match depth {
        None => keeper,
        Some(depth) => keeper.with_depth(depth),
    }
}

/// What a document loads becomes part of the start of a session without history.
pub(crate) fn load_start(keeper: &mut Keeper, format: Format, text: Vec<u8>) -> Result<(), Outcome>
    ensures { LoadsOne format text.items keeper.old (mapped (λ _. keeper.new) result) }
{
    match keeper.load_text(format, text) {
        Ok(_) => {
            keeper.commit();
            Ok(())
        }
        Err(KeeperFault::NoMemory(refused)) => Err(Outcome::NoMemory(refused)),
        Err(fault) => Err(Outcome::BadData(fault)),
    }
}

// A session whose start is what a document loads.
fn loaded(
    alloc: Global,
    base: Option<Iri>,
    format: Format,
    text: Vec<u8>,
) -> Result<Keeper, Outcome>
    ensures { BeginsOver (Document format) base text.items result }
{
    match Keeper::begun_with(alloc, base, format, text) {
        Ok(keeper) => Ok(keeper),
        Err(KeeperFault::NoMemory(wanting)) => Err(Outcome::NoMemory(wanting)),
        Err(refusal) => Err(Outcome::BadData(refusal)),
    }
}

// A session whose start is the state of a state text.
fn restored(alloc: Global, base: Option<Iri>, text: Vec<u8>) -> Result<Keeper, Outcome>
    ensures { BeginsOver State base text.items result }
{
    match Keeper::restore_text(alloc, text, base) {
        Ok(keeper) => Ok(keeper),
        Err(StateFault::NotState) => Err(Outcome::NotState),
        Err(StateFault::NoMemory(refused)) => Err(Outcome::NoMemory(refused)),
    }
}

// A session without history over the data of a text.
fn over_data(
    alloc: Global,
    base: Option<Iri>,
    format: StartFormat,
    text: Vec<u8>,
) -> Result<Keeper, Outcome>
    ensures { BeginsOver format base text.items result }
{
    match format {
        StartFormat::Document(format) => loaded(alloc, base, format, text),
        StartFormat::State => restored(alloc, base, text),
    }
}

/// A session without history over the data that were read, unless reading them ended the program.
pub(crate) fn over_read(
    alloc: Global,
    base: Option<Iri>,
    format: StartFormat,
    read: Result<Vec<u8>, Outcome>,
) -> Result<Keeper, Outcome>
    ensures read { IfOk read (λ text. BeginsOver format base text.items result) }
    ensures unread { IfErr read (λ outcome. result ≡ Err outcome) }
{
    match read {
        Ok(text) => over_data(alloc, base, format, text),
        Err(outcome) => Err(outcome),
    }
}

/// All that a reader has left.
pub(crate) fn all_of<R: Read>(alloc: Global, reader: &mut R) -> Result<Vec<u8>, Outcome>
    ensures whole { ReadsAll (R.remaining reader.old) (mapped (λ text. text.items) result) }
    ensures told { IfErr result (λ outcome. status_of outcome ≢ 2) }
{
    let mut text = Vec::new(alloc);
    match read_all(reader, &mut text) {
        Ending::AtEnd => Ok(text),
        Ending::Failed => Err(Outcome::ReadFailed),
        Ending::NoMemory(refused) => Err(Outcome::NoMemory(refused)),
    }
}

/// The bytes of a file.
pub(crate) fn text_of<F: Folder, P: Write>(
    alloc: Global,
    folder: &mut F,
    path: &str,
    progress: &mut Progress<P>,
) -> Result<Vec<u8>, Outcome>
    ensures read { ReadsFile F.step path.now folder.old (mapped (λ text. text.items) result)
        folder.new }
    ensures told { IfErr result (λ outcome. status_of outcome ≢ 2) }
{
    match folder.open(path) {
        Ok(file) => {
            progress.begin(F::size_of(&file));
            all_of(alloc, &mut progress.watch(file))
        }
        Err(_) => Err(Outcome::ReadFailed),
    }
}

/// The bytes of a file, or of standard input, which is called `-`.
pub(crate) fn text_named<F: Folder, R: Read, P: Write>(
    alloc: Global,
    folder: &mut F,
    path: &str,
    reader: &mut R,
    progress: &mut Progress<P>,
) -> Result<Vec<u8>, Outcome>
    ensures read { ReadsNamed F.step path.now (folder.old, R.remaining reader.old)
        (mapped (λ text. text.items) result) (folder.new, R.remaining reader.new) }
    ensures told { IfErr result (λ outcome. status_of outcome ≢ 2) }
{
    if path == INPUT {
        progress.begin(None);
        return all_of(alloc, &mut progress.watch(reader));
    }
    text_of(alloc, folder, path, progress)
}
