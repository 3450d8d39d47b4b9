//! What lines that are held are made of.
ghost use Rattle.std.specs.Prelude.{◌≡◌, length, take, OnErr, OnOk};
ghost use Rattle.rdf_streams.specs.Inside.Parts.{AreLine, AreTexts};

use rdf_terms::{NoMemory, or_truncate};

/// The most bytes that a part takes.
pub(crate) const MOST: usize = 65535;

/// A part of lines that are held: how the next bytes of their texts are taken.
#[derive(Clone, Copy, Debug, PartialEq, Eq)]
pub(crate) enum Part {
    /// So many bytes are the subject of the lines behind it.
    Subject(u16),
    /// The subject, the predicate of the first number, and so many bytes.
    Line(u16, u16),
    /// So many bytes.
    Text(u16),
}

/// Appends parts that are so many bytes. Where memory is wanting the parts are as they were.
pub(crate) fn push_texts(count: usize, parts: &mut Vec<Part>) -> Result<(), NoMemory>
    ensures ok { OnOk result (AreTexts count parts.old.items parts.new.items) }
    ensures err { OnErr result (parts.new.items ≡ parts.old.items) }
{
    let before = parts.len();
    or_truncate(append_texts(count, parts), parts, before)
}

fn append_texts(count: usize, parts: &mut Vec<Part>) -> Result<(), NoMemory>
    ensures ok { OnOk result (AreTexts count parts.old.items parts.new.items) }
    ensures kept { take (length parts.old.items) parts.new.items ≡ parts.old.items }
{
    let mut left = count;
    while left > 0 {
        let some = left.min(MOST);
        parts.push(Part::Text(some as u16))?;
        left -= some;
    }
    Ok(())
}

/// Appends the parts of a line with the predicate of this number, which takes so many bytes. Where memory is wanting the
/// parts are as they were.
pub(crate) fn push_line(number: u16, count: usize, parts: &mut Vec<Part>) -> Result<(), NoMemory>
    ensures ok { OnOk result (AreLine number count parts.old.items parts.new.items) }
    ensures err { OnErr result (parts.new.items ≡ parts.old.items) }
{
    let before = parts.len();
    or_truncate(append_line(number, count, parts), parts, before)
}

fn append_line(number: u16, count: usize, parts: &mut Vec<Part>) -> Result<(), NoMemory>
    ensures ok { OnOk result (AreLine number count parts.old.items parts.new.items) }
    ensures kept { take (length parts.old.items) parts.new.items ≡ parts.old.items }
{
    let first = count.min(MOST);
    parts.push(Part::Line(number, first as u16))?;
    append_texts(count - first, parts)
}
