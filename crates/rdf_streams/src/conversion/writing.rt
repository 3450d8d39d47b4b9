//! Lines that are held, written as they are.
ghost use Rattle.std.specs.Prelude.{◌≡◌, ◌++◌, ◌≤◌, IfOk, codes, drop, length};
ghost use Rattle.rdf_streams.specs.Inside.Held.{WritesLines};
ghost use Rattle.rdf_streams.specs.Inside.Parts.{HasPredicate, Holds, next_subject, part_text, size, text_of};
ghost use Rattle.rdf_streams.specs.Inside.Pieces.{Puts, done};

use crate::conversion::fault::ConvertFault;
use crate::conversion::held::Held;
use crate::conversion::parts::Part;
use crate::conversion::pieces::{flush, flush_piece, put};
use crate::conversion::predicates::Predicates;
use crate::streams::WriteFault;
use rdf_terms::{Iri, NoMemory};
use std::alloc::Global;
use std::io::Write;

// How many bytes are gathered without a growth: a piece, and a line that is no longer.
const ROOM: usize = 65536;

// Puts a line.
fn put_line<W: Write>(
    writer: &mut W,
    gathered: &mut Vec<u8>,
    subject: &[u8],
    predicate: &Iri,
    rest: &[u8],
) -> Result<(), WriteFault>
    ensures { Puts (W.contents writer.old) gathered.old.items
        (subject.now ++ codes " <" ++ predicate.now ++ codes "> " ++ rest.now)
        result (W.contents writer.new) gathered.new.items }
{
    put(writer, gathered, subject)?;
    put(writer, gathered, b" <")?;
    put(writer, gathered, predicate.as_str().as_bytes())?;
    put(writer, gathered, b"> ")?;
    put(writer, gathered, rest)
}

// Puts the text of a part, and answers the subject and the texts behind it.
fn put_part<'a, W: Write>(
    writer: &mut W,
    gathered: &mut Vec<u8>,
    predicates: &Predicates,
    part: Part,
    subject: &'a [u8],
    texts: &'a [u8],
) -> Result<(&'a [u8], &'a [u8]), WriteFault>
    requires takes { size part ≤ length texts.now }
    requires predicate { HasPredicate predicates.now part }
    ensures puts { Puts (W.contents writer.old) gathered.old.items
        (part_text predicates.now subject.now part texts.now)
        (done result) (W.contents writer.new) gathered.new.items }
    ensures subject { IfOk result (λ r. r.0.now ≡ next_subject subject.now part texts.now) }
    ensures behind { IfOk result (λ r. r.1.now ≡ drop (size part) texts.now) }
{
    match part {
        Part::Subject(count) => Ok(texts.split_at(count as usize)),
        Part::Line(number, count) => {
            let (rest, behind) = texts.split_at(count as usize);
            put_line(writer, gathered, subject, predicates.get(number), rest)?;
            Ok((subject, behind))
        }
        Part::Text(count) => {
            let (text, behind) = texts.split_at(count as usize);
            put(writer, gathered, text)?;
            Ok((subject, behind))
        }
    }
}

// Puts all that is held.
fn put_held<W: Write>(writer: &mut W, gathered: &mut Vec<u8>, held: &Held) -> Result<(), WriteFault>
    requires { Holds held.now }
    ensures { Puts (W.contents writer.old) gathered.old.items (text_of held.now)
        result (W.contents writer.new) gathered.new.items }
{
    let mut subject: &[u8] = b"";
    let mut texts = held.texts.as_slice();
    let mut parts = held.parts.as_slice();
    while let Some((part, others)) = parts.split_first() {
        flush_piece(writer, gathered)?;
        let (next, behind) = put_part(writer, gathered, &held.predicates, *part, subject, texts)?;
        subject = next;
        texts = behind;
        parts = others;
    }
    Ok(())
}

/// Writes all that is held, in pieces.
pub(crate) fn write_held<W: Write>(
    alloc: Global,
    held: &Held,
    writer: &mut W,
) -> Result<(), ConvertFault>
    requires { Holds held.now }
    ensures { WritesLines (W.contents writer.old) (text_of held.now) result (W.contents writer.new) }
{
    let mut gathered = match Vec::with_capacity(alloc, ROOM) {
        Ok(gathered) => gathered,
        Err(refused) => return Err(ConvertFault::NoMemory(NoMemory::from(refused))),
    };
    if put_held(writer, &mut gathered, held).is_err() {
        return Err(ConvertFault::Write);
    }
    match flush(writer, &mut gathered) {
        Ok(()) => Ok(()),
        Err(_) => Err(ConvertFault::Write),
    }
}
