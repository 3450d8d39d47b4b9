//! The session that several files of data begin.
ghost use Rattle.rdf_keeper.specs.Program.Sessions.{BeginsAll, BeginsFirst, LoadsFurther};
ghost use Rattle.rdf_keeper.specs.Program.Stages.{mapped};

use crate::program::data::{load_start, text_named};
use crate::program::folder::Folder;
use crate::program::once_words::{DataWords, DocumentWord, StartWord};
use crate::program::outcome::Outcome;
use crate::program::starting::begun_by_named;
use crate::program::watch::Progress;
use rdf_session::Keeper;
use rdf_terms::Iri;
use std::alloc::Global;
use std::io::{Read, Write};

// What further documents load, one behind another, becomes part of the start of a session.
fn load_further<F: Folder, R: Read, P: Write>(
    alloc: Global,
    folder: &mut F,
    keeper: &mut Keeper,
    words: &[DocumentWord<'_>],
    reader: &mut R,
    progress: &mut Progress<P>,
) -> Result<(), Outcome>
    ensures { LoadsFurther F.step words.now keeper.old (folder.old, R.remaining reader.old)
        (mapped (λ _. keeper.new) result) (folder.new, R.remaining reader.new) }
{
    for word in words {
        let text = text_named(alloc, folder, word.path, reader, progress)?;
        load_start(keeper, word.format, text)?;
    }
    Ok(())
}

// The session with what further documents load.
fn with_further<F: Folder, R: Read, P: Write>(
    alloc: Global,
    folder: &mut F,
    mut keeper: Keeper,
    words: &[DocumentWord<'_>],
    reader: &mut R,
    progress: &mut Progress<P>,
) -> Result<Keeper, Outcome>
    ensures { LoadsFurther F.step words.now keeper (folder.old, R.remaining reader.old) result
        (folder.new, R.remaining reader.new) }
{
    match load_further(alloc, folder, &mut keeper, words, reader, progress) {
        Ok(()) => Ok(keeper),
        Err(outcome) => {
            drop(keeper);
            Err(outcome)
        }
    }
}

// A session without history over the data of the first file, or over none.
fn begun_first<F: Folder, R: Read, P: Write>(
    alloc: Global,
    folder: &mut F,
    base: Option<Iri>,
    first: Option<StartWord<'_>>,
    reader: &mut R,
    progress: &mut Progress<P>,
) -> Result<Keeper, Outcome>
    ensures { BeginsFirst F.step first.entry base (folder.old, R.remaining reader.old) result
        (folder.new, R.remaining reader.new) }
{
    match first {
        None => Ok(Keeper::new(alloc, base)),
        Some(word) => begun_by_named(
            alloc,
            folder,
            base,
            word.path,
            word.format,
            reader,
            progress,
        ),
    }
}

/// A session without history over the data of files, one behind another.
pub(crate) fn begun_with_all<F: Folder, R: Read, P: Write>(
    alloc: Global,
    folder: &mut F,
    base: Option<Iri>,
    words: &DataWords<'_>,
    reader: &mut R,
    progress: &mut Progress<P>,
) -> Result<Keeper, Outcome>
    ensures { BeginsAll F.step words.now base (folder.old, R.remaining reader.old) result
        (folder.new, R.remaining reader.new) }
{
    match begun_first(alloc, folder, base, words.first, reader, progress) {
        Ok(start) => with_further(
            alloc,
            folder,
            start,
            words.further.as_slice(),
            reader,
            progress,
        ),
        Err(outcome) => Err(outcome),
    }
}
