//! One query, and one request, of data.
ghost use Rattle.std.specs.Prelude.{◌≡◌, ◌≢◌, [], ℕ, List, Option, Result, Ok, IfErr};
ghost use Rattle.std.specs.Option.{option_copied};
ghost use Rattle.std.specs.Io.KnownBytes.{Appends};
ghost use Rattle.rdf_keeper.specs.Inside.Once.{WritesOut, WritesReply, WritesShown, refusal};
ghost use Rattle.rdf_keeper.specs.Inside.Outcomes.{status_of};
ghost use Rattle.rdf_keeper.specs.Program.Sessions.{BeginsOnce};
ghost use Rattle.rdf_keeper.specs.Program.Stages.{mapped};
ghost use Rattle.rdf_keeper.specs.Program.Texts.{ReadsNamed};
ghost use Rattle.rdf_keeper.specs.Program.Words.{Queries, QueriesNamed, Updates, UpdatesNamed};
ghost use Rattle.rdf_session.specs.Query.{RepliesIn};
ghost use Rattle.rdf_session.specs.Request.{Update};
ghost use Rattle.rdf_session.specs.Session.{Do, Session, Transition, reply_of};
ghost use Rattle.rdf_session.specs.declared.fault.Counts.{Counts};
ghost use Rattle.rdf_session.specs.declared.fault.KeeperFault.{KeeperFault};
ghost use Rattle.rdf_session.specs.declared.query.Answer.{Answer};

use crate::program::base_of;
use crate::program::data::text_named;
use crate::program::folder::Folder;
use crate::program::once_words::{DataWords, QueryWords, UpdateWords};
use crate::program::outcome::Outcome;
use crate::program::several::begun_with_all;
use crate::program::watch::{Progress, silent};
use crate::script::answer::append_topic;
use crate::script::command::Topic;
use rdf_session::{Keeper, KeeperFault, ResultsFormat};
use rdf_streams::write_whole;
use std::alloc::Global;
use std::io::{Read, Write};

// How a refused query or request ends the program.
fn refusal(fault: KeeperFault) -> Outcome
    ensures same { result ≡ refusal fault }
    ensures told { status_of result ≢ 2 }
{
    match fault {
        KeeperFault::NoMemory(refused) => Outcome::NoMemory(refused),
        fault => Outcome::BadText(fault),
    }
}

// Writes a text.
fn write_out<W: Write>(text: &[u8], writer: &mut W) -> Outcome
    ensures written { WritesOut (W.contents writer.old) text.now result (W.contents writer.new) }
    ensures told { status_of result ≢ 2 }
{
    match write_whole(writer, text) {
        Ok(()) => Outcome::Done,
        Err(_) => Outcome::WriteFailed,
    }
}

// Writes what a query answers, and nothing where it is refused.
fn write_reply<W: Write>(
    keeper: &Keeper,
    format: ResultsFormat,
    text: &[u8],
    writer: &mut W,
) -> Outcome
    ensures answers { (reply : Result Answer KeeperFault)
        × RepliesIn format keeper.now text.now reply
        × WritesReply (W.contents writer.old) reply result (W.contents writer.new) }
    ensures told { status_of result ≢ 2 }
{
    match keeper.query_in(format, text) {
        Ok(answer) => write_out(answer.payload.as_slice(), writer),
        Err(fault) => refusal(fault),
    }
}

// Writes what a session shows.
fn write_topic<W: Write>(alloc: Global, keeper: &Keeper, topic: Topic, writer: &mut W) -> Outcome
    ensures shows { (counts : Counts) →
        WritesShown topic keeper.now (W.contents writer.old) (Ok counts) result
        (W.contents writer.new) }
    ensures told { status_of result ≢ 2 }
{
    let mut payload = Vec::new(alloc);
    match append_topic(keeper, topic, &mut payload) {
        Ok(_) => write_out(payload.as_slice(), writer),
        Err(refused) => Outcome::NoMemory(refused),
    }
}

// Applies a request, and writes what the session behind it shows, and nothing where it is refused.
fn write_update<W: Write>(
    alloc: Global,
    keeper: &mut Keeper,
    topic: Topic,
    text: &[u8],
    writer: &mut W,
) -> Outcome
    ensures applies { (reply : Result Counts KeeperFault) × (end : Session)
        × Transition keeper.old (Do (Update text.now)) (reply_of reply) end
        × WritesShown topic end (W.contents writer.old) reply result (W.contents writer.new) }
    ensures told { status_of result ≢ 2 }
{
    match keeper.update(text) {
        Ok(_) => write_topic(alloc, keeper, topic, writer),
        Err(fault) => refusal(fault),
    }
}

// The query or the request, of which it isn't told how far it is read.
fn asked_text<F: Folder, R: Read>(
    alloc: Global,
    folder: &mut F,
    path: &str,
    reader: &mut R,
) -> Result<Vec<u8>, Outcome>
    ensures read { ReadsNamed F.step path.now (folder.old, R.remaining reader.old)
        (mapped (λ text. text.items) result) (folder.new, R.remaining reader.new) }
    ensures told { IfErr result (λ outcome. status_of outcome ≢ 2) }
{
    text_named(alloc, folder, path, reader, &mut silent())
}

// The session that words begin with.
fn session_with<F: Folder, R: Read, P: Write>(
    alloc: Global,
    folder: &mut F,
    base: Option<&str>,
    words: &DataWords<'_>,
    reader: &mut R,
    progress: &mut Progress<P>,
) -> Result<Keeper, Outcome>
    ensures { BeginsOnce F.step (option_copied base.entry) words.now
        (folder.old, R.remaining reader.old) result (folder.new, R.remaining reader.new) }
{
    let base = base_of(alloc, base)?;
    let started = begun_with_all(alloc, folder, base, words, reader, progress);
    progress.clear();
    started
}

// Answers the query that the words name.
fn query_named<F: Folder, R: Read, W: Write>(
    alloc: Global,
    folder: &mut F,
    words: &QueryWords<'_>,
    keeper: &Keeper,
    reader: &mut R,
    writer: &mut W,
) -> Outcome
    ensures does { QueriesNamed F.step words.now keeper.now (W.contents writer.old)
        (W.contents writer.new) (folder.old, R.remaining reader.old) result
        (folder.new, R.remaining reader.new) }
    ensures told { status_of result ≢ 2 }
{
    match asked_text(alloc, folder, words.query, reader) {
        Ok(text) => write_reply(keeper, words.results, text.as_slice(), writer),
        Err(outcome) => outcome,
    }
}

/// Answers a query.
pub(crate) fn query_words<F: Folder, R: Read, W: Write, P: Write>(
    alloc: Global,
    folder: &mut F,
    words: &QueryWords<'_>,
    reader: &mut R,
    writer: &mut W,
    progress: &mut Progress<P>,
) -> Outcome
    ensures does { (left : Option (List ℕ))
        × Queries F.step words.now (W.contents writer.old) (W.contents writer.new)
        (folder.old, R.remaining reader.old) result (folder.new, left) }
    ensures silent { status_of result ≡ 2 →
        Appends (W.contents writer.old) (W.contents writer.new) [] }
{
    let data = &words.data;
    match session_with(alloc, folder, words.base, data, reader, progress) {
        Ok(keeper) => {
            let outcome = query_named(alloc, folder, words, &keeper, reader, writer);
            drop(keeper);
            outcome
        }
        Err(outcome) => outcome,
    }
}

// Applies the request that the words name.
fn update_named<F: Folder, R: Read, W: Write>(
    alloc: Global,
    folder: &mut F,
    words: &UpdateWords<'_>,
    keeper: &mut Keeper,
    reader: &mut R,
    writer: &mut W,
) -> Outcome
    ensures does { UpdatesNamed F.step words.now keeper.old (W.contents writer.old)
        (W.contents writer.new) (folder.old, R.remaining reader.old) result
        (folder.new, R.remaining reader.new) }
    ensures told { status_of result ≢ 2 }
{
    match asked_text(alloc, folder, words.request, reader) {
        Ok(text) => write_update(alloc, keeper, words.shown, text.as_slice(), writer),
        Err(outcome) => outcome,
    }
}

/// Applies a request.
pub(crate) fn update_words<F: Folder, R: Read, W: Write, P: Write>(
    alloc: Global,
    folder: &mut F,
    words: &UpdateWords<'_>,
    reader: &mut R,
    writer: &mut W,
    progress: &mut Progress<P>,
) -> Outcome
    ensures does { (left : Option (List ℕ))
        × Updates F.step words.now (W.contents writer.old) (W.contents writer.new)
        (folder.old, R.remaining reader.old) result (folder.new, left) }
    ensures silent { status_of result ≡ 2 →
        Appends (W.contents writer.old) (W.contents writer.new) [] }
{
    let data = &words.data;
    match session_with(alloc, folder, words.base, data, reader, progress) {
        Ok(mut keeper) => {
            let outcome = update_named(alloc, folder, words, &mut keeper, reader, writer);
            drop(keeper);
            outcome
        }
        Err(outcome) => outcome,
    }
}
