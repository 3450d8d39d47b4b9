//! A session that is fed its script a piece at a time.
ghost use Rattle.std.specs.Prelude.{◌≡◌, ◌++◌, ◌∷◌, [], ℕ, List, Bool, true, MatchResult, ◌&&◌, ◌||◌, ◌<◌, length};
ghost use Rattle.std.specs.List.{concat};
ghost use Rattle.std.specs.Io.KnownBytes.{Appends};
ghost use Rattle.rdf_session.specs.Session.{Session};
ghost use Rattle.rdf_streams.specs.Devices.{Event};
ghost use Rattle.rdf_keeper.specs.Script.Answers.{Answers};
ghost use Rattle.rdf_keeper.specs.Inside.Asks.{asked_of};
ghost use Rattle.rdf_keeper.specs.Inside.Says.{IsWholeLine};
ghost use Rattle.rdf_streams.specs.Streams.{Writes, WritesOn};
ghost use Rattle.rdf_keeper.specs.Inside.WriteFaults.{fails_to_write, is_write_fault};
ghost use Rattle.rdf_keeper.specs.Script.Commands.{commands};
ghost use Rattle.rdf_keeper.specs.Script.Lines.{raw_lines, upto_last_end};
ghost use Rattle.rdf_keeper.specs.Script.Pieces.{EndsWithin, GoesOn, unfed};
ghost use Rattle.rdf_keeper.specs.Script.Runs.{Answered, Serves, to_end, final};

use crate::script::answer::{Answer, serve};
use crate::script::command::Command;
use crate::script::gathered::{Gathered, Says};
use crate::script::line::whole_line;
use crate::script::status::Status;
use rdf_session::Keeper;
use rdf_streams::{Device, LentWriter, WriteFault, write_on};
use rdf_terms::NoMemory;
use std::alloc::Global;
use std::io::Write;
use std::marker::Model;

/// How a session runs.
#[derive(Clone, Copy, Debug, PartialEq, Eq)]
pub struct Settings {
    /// The first refusal ends the session.
    pub stop: bool,
}

/// A session that is fed its script a piece at a time, and holds the line that it is in, and one command's body.
#[derive(Drop)]
pub struct Feed {
    alloc: Global,
    stop: bool,
    refused: bool,
    gathered: Gathered,
}

impl Model for Feed {
    ghost use Rattle.std.specs.Prelude.{◌≡◌, []};
    ghost use Rattle.rdf_keeper.specs.Script.Lines.{upto_last_end};
    ghost use Rattle.rdf_keeper.specs.Script.Pieces.{Fed};

    ghost Value = { Fed };

    ghost view = { λ f. record {
      stop = f.stop;
      refused = f.refused;
      pending = f.gathered;
    } };

    ghost invariant = { λ f. upto_last_end f.gathered.line ≡ [] };
}

fn write_answer<D: Device>(device: &mut D, answer: &Answer) -> Result<(), WriteFault>
    ensures { WritesOn D.step device.old (answer.now.payload.items ++ answer.now.line.items)
        result device.new }
{
    write_on(device, answer.payload.as_slice())?;
    write_on(device, answer.line.as_slice())
}

fn ending(last: Status, refused: bool) -> Status
    ensures { result ≡ final last refused }
{
    if refused && last == Status::Accepted {
        Status::Refused
    } else {
        last
    }
}

// Answers a command, and says whether something was refused so far.
fn answer<D: Device>(
    alloc: Global,
    keeper: &mut Keeper,
    command: Command<'_>,
    device: &mut D,
    stop: bool,
    refused: bool,
) -> Result<bool, Status>
    ensures { (answers : List (List ℕ))
        × Writes D.step device.old (fails_to_write result) (concat answers) device.new
        × Answered stop refused (asked_of command.entry ∷ []) keeper.old answers keeper.new result }
{
    let reply = serve(alloc, keeper, command);
    if write_answer(device, &reply).is_err() {
        return Err(Status::WriteFailed);
    }
    if stop && reply.refused {
        return Err(Status::Refused);
    }
    Ok(refused || reply.refused)
}

// Answers the last command of a script, and says how the session ends.
fn answer_last<D: Device>(
    alloc: Global,
    keeper: &mut Keeper,
    command: Command<'_>,
    device: &mut D,
    stop: bool,
    refused: bool,
) -> Status
    ensures { (answers : List (List ℕ))
        × Writes D.step device.old (is_write_fault result) (concat answers) device.new
        × Serves (to_end Answers stop Status.Accepted) refused (asked_of command.entry ∷ [])
        keeper.old answers keeper.new result }
{
    match answer(alloc, keeper, command, device, stop, refused) {
        Ok(refused) => ending(Status::Accepted, refused),
        Err(status) => status,
    }
}

impl Feed {
    /// A session that was fed nothing yet.
    pub fn new(alloc: Global, settings: Settings) -> Feed
        ensures { result ≡ unfed settings.stop }
    {
        Feed {
            alloc,
            stop: settings.stop,
            refused: false,
            gathered: Gathered::new(alloc),
        }
    }

    // What is pending of a line has no end yet.
    fn line_is_open(&self)
        ensures { upto_last_end self.now.pending.line ≡ [] }
    {
        let _stop = self.stop;
    }

    // Is fed the end of a line, with what was left of it.
    fn take_line<D: Device>(
        mut self,
        keeper: &mut Keeper,
        line: &[u8],
        device: &mut D,
    ) -> Result<Feed, Status>
        requires { IsWholeLine line.now }
        ensures { (answers : List (List ℕ))
            × Writes D.step device.old (fails_to_write result) (concat answers) device.new
            × MatchResult result (GoesOn self line.now keeper.old answers keeper.new)
            (λ status. (text : List ℕ) →
            EndsWithin self (line.now ++ text) keeper.old answers keeper.new status) }
    {
        if let Err(refused) = self.gathered.push(line) {
            return Err(Status::NoMemory(refused));
        }
        match self.gathered.line_says() {
            Says::Nothing => self.gathered.begin(None),
            Says::Opens(body) => self.gathered.begin(Some(body)),
            Says::Inside => self.gathered.keep_line(),
            Says::Asks(command) => {
                match answer(self.alloc, keeper, command, device, self.stop, self.refused) {
                    Ok(refused) => self.refused = refused,
                    Err(status) => return Err(status),
                }
                self.gathered.begin(None);
            }
            Says::Loads(format) => {
                let load = Command::Load(format, self.gathered.take_body());
                match answer(self.alloc, keeper, load, device, self.stop, self.refused) {
                    Ok(refused) => self.refused = refused,
                    Err(status) => return Err(status),
                }
            }
        }
        Ok(self)
    }

    // Is fed the front of a line.
    fn take_front(mut self, front: &[u8]) -> Result<Feed, NoMemory>
        requires { upto_last_end front.now ≡ [] }
        ensures { MatchResult result
            (λ next. (s : Session) → GoesOn self front.now s [] s next)
            (λ refused. (s : Session) →
            EndsWithin self front.now s [] s (Status.NoMemory refused)) }
    {
        match self.gathered.push(front) {
            Ok(()) => Ok(self),
            Err(refused) => Err(refused),
        }
    }

    // Is fed the next piece, runs each command whose last line end comes with it, and writes the answers.
    pub(crate) fn take_on<D: Device>(
        self,
        keeper: &mut Keeper,
        piece: &[u8],
        device: &mut D,
    ) -> Result<Feed, Status>
        ensures { (answers : List (List ℕ))
            × Writes D.step device.old (fails_to_write result) (concat answers) device.new
            × MatchResult result (GoesOn self piece.now keeper.old answers keeper.new)
            (EndsWithin self piece.now keeper.old answers keeper.new) }
    {
        self.line_is_open();
        let mut feed = self;
        let mut rest = piece;
        while let Some((line, after)) = whole_line(rest) {
            match feed.take_line(keeper, line, device) {
                Ok(next) => feed = next,
                Err(status) => return Err(status),
            }
            rest = after;
        }
        match feed.take_front(rest) {
            Ok(next) => Ok(next),
            Err(refused) => Err(Status::NoMemory(refused)),
        }
    }

    // The script has ended: runs what is left of it, and writes the answer.
    pub(crate) fn end_on<D: Device>(mut self, keeper: &mut Keeper, device: &mut D) -> Status
        ensures { (answers : List (List ℕ))
            × Writes D.step device.old (is_write_fault result) (concat answers) device.new
            × Serves (to_end Answers self.stop Status.Accepted) self.refused
            (commands true self.pending.body (raw_lines self.pending.line))
            keeper.old answers keeper.new result }
    {
        match self.gathered.line_says() {
            Says::Nothing => ending(Status::Accepted, self.refused),
            Says::Opens(_) => {
                let begun = Command::Unended;
                answer_last(self.alloc, keeper, begun, device, self.stop, self.refused)
            }
            Says::Inside => {
                let open = Command::Unended;
                answer_last(self.alloc, keeper, open, device, self.stop, self.refused)
            }
            Says::Asks(command) => {
                answer_last(self.alloc, keeper, command, device, self.stop, self.refused)
            }
            Says::Loads(format) => {
                let last = Command::Load(format, self.gathered.take_body());
                answer_last(self.alloc, keeper, last, device, self.stop, self.refused)
            }
        }
    }

    /// Is fed the next piece, runs each command whose last line end comes with it, and writes the answers. What comes
    /// behind them is held.
    ///
    /// # Errors
    /// The status of a session that ends at one of these commands: a refusal where the first one ends it, a write that
    /// failed or took nothing, or want of memory for the line or the body.
    pub fn take<W: Write>(
        self,
        keeper: &mut Keeper,
        piece: &[u8],
        writer: &mut W,
    ) -> Result<Feed, Status>
        ensures { (answers : List (List ℕ))
            × Appends (W.contents writer.old) (W.contents writer.new) (concat answers)
            × MatchResult result (GoesOn self piece.now keeper.old answers keeper.new)
            (EndsWithin self piece.now keeper.old answers keeper.new) }
    {
        let mut device = LentWriter { writer };
        let fed = self.take_on(keeper, piece, &mut device);
        // No effect at run time. The proof reads what the writer holds from this use.
        let _ = &*device.writer;
        fed
    }

    /// The script has ended: runs what is left of it, and writes the answer.
    pub fn end<W: Write>(self, keeper: &mut Keeper, writer: &mut W) -> Status
        ensures { (answers : List (List ℕ))
            × Appends (W.contents writer.old) (W.contents writer.new) (concat answers)
            × Serves (to_end Answers self.stop Status.Accepted) self.refused
            (commands true self.pending.body (raw_lines self.pending.line))
            keeper.old answers keeper.new result }
    {
        let mut device = LentWriter { writer };
        let status = self.end_on(keeper, &mut device);
        // No effect at run time. The proof reads what the writer holds from this use.
        let _ = &*device.writer;
        status
    }
}
