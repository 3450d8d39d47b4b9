//! What came of a script and asks for nothing yet.
ghost use Rattle.std.specs.Prelude.{◌≡◌, ◌++◌, ◌∷◌, [], ℕ, List, Bool, OnErr, OnOk};
ghost use Rattle.rdf_keeper.specs.Inside.Says.{IsInPlace, IsTextOf, asked_by, grown, body_behind, body_so_far};
ghost use Rattle.rdf_keeper.specs.Script.Commands.{body_asks, commands};
ghost use Rattle.rdf_keeper.specs.Script.Pieces.{nothing_pending};

use crate::script::command::{Body, Command, Line, read_line};
use crate::script::line::{is_end, without_end};
use rdf_session::Format;
use rdf_terms::NoMemory;
use std::alloc::Global;
use std::marker::Model;
use std::mem;

/// What a line says, outside bodies or within one.
#[derive(Drop)]
pub(crate) enum Says<'a> {
    /// It has no words, or is a comment.
    Nothing,
    /// A body begins.
    Opens(Body),
    /// It is a line of the body that is open.
    Inside,
    /// The body that is open ends, and is to be loaded.
    Loads(Format),
    Asks(Command<'a>),
}

/// The bytes of the body that is open, and behind them the line that is being read.
#[derive(Drop)]
pub(crate) struct Gathered {
    alloc: Global,
    body: Option<Body>,
    bytes: Vec<u8>,
    // where the line begins
    start: usize,
}

impl Model for Gathered {
    ghost use Rattle.std.specs.Prelude.{◌≤◌, take, drop, vec_len};
    ghost use Rattle.rdf_keeper.specs.Inside.Says.{body_so_far};
    ghost use Rattle.rdf_keeper.specs.Script.Pieces.{Pending};

    ghost Value = { Pending };

    ghost view = { λ g. record {
      body = body_so_far g.body (take g.start g.bytes.items);
      line = drop g.start g.bytes.items;
    } };

    ghost invariant = { λ g. g.start ≤ vec_len g.bytes };
}

// A large buffer is given back behind its command.
const KEPT_ROOM: usize = 4096;

// What the line says that ends a body with this text.
fn ended(body: Body, text: &[u8]) -> Says<'_>
    ensures asks { asked_by (Some (body, text.now)) result ≡ body_asks body text.now ∷ [] }
    ensures behind { (line : List ℕ) → body_behind (Some (body, text.now)) line result ≡ None }
{
    match body {
        Body::Load(format) => Says::Loads(format),
        Body::Update => Says::Asks(Command::Update(text)),
        Body::Query => Says::Asks(Command::Query(text)),
        Body::Unknown => Says::Asks(Command::Bad),
    }
}

// What a line says behind the body that is open, if any, and its text so far.
fn meaning<'a>(body: Option<Body>, text: &'a [u8], line: &'a [u8]) -> Says<'a>
    ensures place { IsInPlace (body_so_far body text.now) result }
    ensures commands { (ended : Bool) (lines : List (List ℕ)) →
        commands ended (body_so_far body text.now) (line.now ∷ lines)
        ≡ asked_by (body_so_far body text.now) result
        ++ commands ended (body_behind (body_so_far body text.now) line.now result) lines }
{
    match body {
        Some(body) if is_end(line) => ended(body, text),
        Some(_) => Says::Inside,
        None => match read_line(without_end(line)) {
            Line::Skipped => Says::Nothing,
            Line::Opens(body) => Says::Opens(body),
            Line::Asks(command) => Says::Asks(command),
        },
    }
}

impl Gathered {
    /// Nothing.
    pub(crate) fn new(alloc: Global) -> Gathered
        ensures { result ≡ nothing_pending }
    {
        Gathered {
            alloc,
            body: None,
            bytes: Vec::new(alloc),
            start: 0,
        }
    }

    /// The line goes on.
    pub(crate) fn push(&mut self, part: &[u8]) -> Result<(), NoMemory>
        ensures ok { OnOk result (self.new ≡ record self.old { line = self.old.line ++ part.now }) }
        ensures err { OnErr result (self.new ≡ self.old) }
    {
        self.bytes.extend_from_slice(part)?;
        Ok(())
    }

    /// What the line says, where it is whole.
    pub(crate) fn line_says(&self) -> Says<'_>
        ensures place { IsInPlace self.now.body result }
        ensures commands { (ended : Bool) (lines : List (List ℕ)) →
            commands ended self.now.body (self.now.line ∷ lines)
            ≡ asked_by self.now.body result
            ++ commands ended (body_behind self.now.body self.now.line result) lines }
    {
        let (text, line) = self.bytes.as_slice().split_at(self.start);
        meaning(self.body, text, line)
    }

    /// The line was one of the body.
    pub(crate) fn keep_line(&mut self)
        ensures { self.new ≡ record { body = grown self.old.body self.old.line; line = [] } }
    {
        self.start = self.bytes.len();
    }

    /// The line and the body are done with, and a body begins, if any.
    pub(crate) fn begin(&mut self, body: Option<Body>)
        ensures { self.new ≡ record { body = body_so_far body []; line = [] } }
    {
        self.body = body;
        self.start = 0;
        if self.bytes.capacity() > KEPT_ROOM {
            self.bytes = Vec::new(self.alloc);
        } else {
            self.bytes.clear();
        }
    }

    /// The text of the body that is open is given away: the line and the body are done with.
    pub(crate) fn take_body(&mut self) -> Vec<u8>
        ensures text { IsTextOf self.old.body result.items }
        ensures rest { self.new ≡ nothing_pending }
    {
        let mut text = mem::replace(&mut self.bytes, Vec::new(self.alloc));
        text.truncate(self.start);
        self.body = None;
        self.start = 0;
        text
    }
}
