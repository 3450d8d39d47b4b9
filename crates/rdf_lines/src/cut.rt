//! Lines out of pieces.
ghost use Rattle.std.specs.Prelude.{◌≡◌, ◌<◌, ◌≤◌, length, MatchOption};
ghost use Rattle.rdf_lines.specs.Pieces.{ahead, room, feed_len, Fills, TakesPart, TakesLine, FailsEmpty, Spends, HasLine, HasNoLine};

use crate::fault::FaultKind;
use crate::pieces::Pieces;
use rdf_terms::line_stop;
use std::io::Read;

/// How a line was cut.
#[derive(Clone, Copy, Debug, PartialEq, Eq)]
pub enum Cut {
    /// A line with its end.
    Line,
    /// A line that ends with the text.
    Last,
    /// No line: the end of the text.
    End,
}

// Sees to it that a piece is held, and says whether there is one.
fn fill<R: Read>(pieces: &mut Pieces, stream: &mut R) -> Result<bool, FaultKind>
    ensures fills { Fills (ahead pieces.old.held (R.remaining stream.old)) result
        (ahead pieces.new.held (R.remaining stream.new)) pieces.new.held }
    ensures room { room pieces.new ≤ room pieces.old }
{
    if pieces.held().is_empty() {
        pieces.refill(stream)
    } else {
        Ok(true)
    }
}

// How many bytes in front of a piece belong to the line end before it.
pub fn feed_len(piece: &[u8], behind_return: bool) -> usize
    ensures value { result ≡ feed_len behind_return piece.now }
    ensures within { result ≤ length piece.now }
{
    match piece {
        [b'\n', ..] if behind_return => 1,
        _ => 0,
    }
}

/// Where a line lies in a piece, and whether a CR ends it.
#[derive(Clone, Copy, Debug, PartialEq, Eq)]
pub struct Place {
    pub start: usize,
    pub end: usize,
    pub by_return: bool,
}

/// Where the first line lies that the piece has whole, with its end; `None` where it has none.
pub fn whole_line(piece: &[u8], behind_return: bool) -> Option<Place>
    ensures { MatchOption result (HasNoLine behind_return piece.now)
        (HasLine behind_return piece.now) }
{
    let start = feed_len(piece, behind_return);
    let rest = piece.split_at(start).1;
    match line_stop(rest) {
        Some(i) => Some(Place {
            start,
            end: start + i,
            by_return: rest[i] == b'\r',
        }),
        None => None,
    }
}

// Takes the front of a line, up to its end where the piece has it, and says whether it has.
fn take_part(
    pieces: &mut Pieces,
    behind_return: &mut bool,
    line: &mut Vec<u8>,
) -> Result<bool, FaultKind>
    requires { 0 < length pieces.old.held }
    ensures { TakesPart pieces.old behind_return.old line.old.items result
        pieces.new behind_return.new line.new.items }
{
    let held = pieces.held();
    match whole_line(held, *behind_return) {
        Some(place) => {
            line.extend_from_slice(&held[place.start..place.end])?;
            *behind_return = place.by_return;
            pieces.advance(place.end + 1);
            Ok(true)
        }
        None => {
            let len = held.len();
            let feed = feed_len(held, *behind_return);
            line.extend_from_slice(held.split_at(feed).1)?;
            *behind_return = false;
            pieces.advance(len);
            Ok(false)
        }
    }
}

/// Takes the next line.
pub fn next_line<R: Read>(
    pieces: &mut Pieces,
    stream: &mut R,
    behind_return: &mut bool,
    line: &mut Vec<u8>,
) -> Result<Cut, FaultKind>
    ensures line { TakesLine (ahead pieces.old.held (R.remaining stream.old)) behind_return.old
        result line.new.items (ahead pieces.new.held (R.remaining stream.new)) behind_return.new }
    ensures empty { FailsEmpty result pieces.new.held }
    ensures room { Spends result (room pieces.old) (room pieces.new) }
{
    line.clear();
    loop {
        match fill(pieces, stream) {
            Ok(true) => match take_part(pieces, behind_return, line) {
                Ok(true) => return Ok(Cut::Line),
                Ok(false) => {}
                Err(kind) => return Err(kind),
            },
            Ok(false) if line.is_empty() => return Ok(Cut::End),
            Ok(false) => return Ok(Cut::Last),
            Err(kind) => return Err(kind),
        }
    }
}
