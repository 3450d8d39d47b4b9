//! The answers to commands.
ghost use Rattle.std.specs.Prelude.{◌≡◌, ◌++◌, ◌+◌, ◌≤◌, ◌∷◌, [], ℕ, List, length, IfOk, Ok, Err, is_err};
ghost use Rattle.std.specs.List.{concat};
ghost use Rattle.rdf_keeper.specs.Script.Answers.{Answers, count_line, is_refused, query_text, reply_line};
ghost use Rattle.rdf_keeper.specs.Inside.Asks.{asked_of};
ghost use Rattle.rdf_keeper.specs.Script.Show.{Shows};
ghost use Rattle.rdf_session.specs.Session.{Reply, reply_of, reply_of_mark, Done as DoneReply};

use crate::script::command::{Command, Topic};
use crate::script::show::{append_change, append_names, append_state};
use crate::short_line::{append, append_place};
use arrayvec::ArrayVec;
use itoa::Buffer;
use rdf_session::{Answer as QueryAnswer, Counts, Keeper, KeeperFault};
use rdf_terms::NoMemory;
use std::alloc::Global;

/// An answer: its payload, and its last line, which takes no memory.
#[derive(Drop)]
pub(crate) struct Answer {
    pub(crate) payload: Vec<u8>,
    pub(crate) line: ArrayVec<u8, 64>,
    pub(crate) refused: bool,
}

fn line_of(reply: Result<Counts, KeeperFault>) -> ArrayVec<u8, 64>
    ensures { result.items ≡ reply_line (reply_of reply) }
{
    let mut line = ArrayVec::new();
    match reply {
        Ok(counts) => {
            let mut buffer = Buffer::new();
            append(&mut line, b"ok +");
            append(&mut line, buffer.format(counts.added).as_bytes());
            append(&mut line, b" -");
            append(&mut line, buffer.format(counts.removed).as_bytes());
        }
        Err(fault) => {
            append(&mut line, b"refused: ");
            append(&mut line, fault.name().as_bytes());
            append_place(&mut line, fault.line());
        }
    }
    append(&mut line, b"\n");
    line
}

fn count_line(count: u64) -> ArrayVec<u8, 64>
    ensures { result.items ≡ count_line count }
{
    let mut line = ArrayVec::new();
    let mut buffer = Buffer::new();
    append(&mut line, b"ok ");
    append(&mut line, buffer.format(count).as_bytes());
    append(&mut line, b"\n");
    line
}

fn done(alloc: Global) -> Answer
    ensures payload { result.payload.items ≡ [] }
    ensures line { result.line.items ≡ reply_line DoneReply }
    ensures refused { result.refused ≡ is_refused DoneReply }
{
    let mut line = ArrayVec::new();
    append(&mut line, b"ok\n");
    Answer {
        payload: Vec::new(alloc),
        line,
        refused: false,
    }
}

fn without_payload(alloc: Global, reply: Result<Counts, KeeperFault>) -> Answer
    ensures payload { result.payload.items ≡ [] }
    ensures line { result.line.items ≡ reply_line (reply_of reply) }
    ensures refused { result.refused ≡ is_refused (reply_of reply) }
{
    Answer {
        payload: Vec::new(alloc),
        refused: reply.is_err(),
        line: line_of(reply),
    }
}

fn marked(alloc: Global, reply: Result<(), NoMemory>) -> Answer
    ensures payload { result.payload.items ≡ [] }
    ensures line { result.line.items ≡ reply_line (reply_of_mark reply) }
    ensures refused { result.refused ≡ is_refused (reply_of_mark reply) }
{
    match reply {
        Ok(()) => done(alloc),
        Err(refused) => without_payload(alloc, Err(KeeperFault::NoMemory(refused))),
    }
}

fn answered(alloc: Global, reply: Result<QueryAnswer, KeeperFault>) -> Answer
    ensures bytes { result.payload.items ++ result.line.items ≡ query_text reply }
    ensures refused { result.refused ≡ is_err reply }
{
    match reply {
        Ok(answer) => Answer {
            payload: answer.payload.into_vec(),
            line: count_line(answer.rows),
            refused: false,
        },
        Err(fault) => without_payload(alloc, Err(fault)),
    }
}

/// Appends the lines of what the session shows, and answers how many there are. A refusal may leave some of the lines.
pub(crate) fn append_topic(
    keeper: &Keeper,
    topic: Topic,
    out: &mut Vec<u8>,
) -> Result<u64, NoMemory>
    ensures { IfOk result (λ count. (lines : List (List ℕ)) × Shows topic keeper.now lines
        × (out.new.items ≡ out.old.items ++ concat lines) × (count ≡ length lines)) }
{
    match topic {
        Topic::Changes => {
            let net = keeper.changes()?;
            let count = append_change(&net, out);
            drop(net);
            count
        }
        Topic::Graphs => {
            let names = keeper.names()?;
            append_names(b"", names.as_slice(), out)?;
            Ok(names.len() as u64)
        }
        Topic::Quads => keeper.write_quads(out),
        Topic::State => append_state(keeper, out),
    }
}

fn show(alloc: Global, keeper: &Keeper, topic: Topic) -> Answer
    ensures { Answers (asked_of (Command.Show topic)) keeper.now
        (result.payload.items ++ result.line.items) result.refused keeper.now }
{
    let mut payload = Vec::new(alloc);
    match append_topic(keeper, topic, &mut payload) {
        Ok(count) => Answer {
            payload,
            line: count_line(count),
            refused: false,
        },
        Err(refused) => without_payload(alloc, Err(KeeperFault::NoMemory(refused))),
    }
}

/// Acts on the keeper, and makes the answer.
pub(crate) fn serve(alloc: Global, keeper: &mut Keeper, command: Command<'_>) -> Answer
    ensures { Answers (asked_of command.entry) keeper.old
        (result.payload.items ++ result.line.items) result.refused keeper.new }
{
    match command {
        Command::Load(format, text) => without_payload(alloc, keeper.load_text(format, text)),
        Command::Update(text) => without_payload(alloc, keeper.update(text)),
        Command::Query(text) => answered(alloc, keeper.query(text)),
        Command::Undo => without_payload(alloc, keeper.undo()),
        Command::Redo => without_payload(alloc, keeper.redo()),
        Command::Mark(name) => marked(alloc, keeper.mark(name)),
        Command::Rollback(name) => without_payload(alloc, keeper.rollback(name)),
        Command::Commit => {
            keeper.commit();
            done(alloc)
        }
        Command::Show(topic) => show(alloc, keeper, topic),
        Command::Bad => without_payload(alloc, Err(KeeperFault::BadCommand)),
        Command::Unended => without_payload(alloc, Err(KeeperFault::NoEnd)),
    }
}
