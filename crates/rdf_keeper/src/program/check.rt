//! Documents that are checked.
ghost use Rattle.std.specs.Prelude.{◌≡◌, ◌≢◌, ◌++◌, [], false, List, ℕ, Option, IfErr, Err, map};
ghost use Rattle.std.specs.Option.{option_copied};
ghost use Rattle.std.specs.Io.KnownBytes.{Appends};
ghost use Rattle.rdf_keeper.specs.Inside.Once.{Tells, WritesCheck, WritesLine, counted_line, faulty_line};
ghost use Rattle.rdf_keeper.specs.Inside.Outcomes.{status_of};
ghost use Rattle.rdf_keeper.specs.Program.Words.{ChecksAll, ChecksBytes, ChecksFile, ChecksFiles};

use crate::program::base_of;
use crate::program::folder::Folder;
use crate::program::once_words::{CheckWords, INPUT};
use crate::program::outcome::{Outcome, document_fault_name};
use crate::program::watch::{Progress, Watched};
use crate::short_line::{append, append_place};
use arrayvec::ArrayVec;
use itoa::Buffer;
use rdf_session::Format;
use rdf_streams::{ConvertFault, DocumentFault, check, write_whole};
use rdf_terms::Iri;
use std::alloc::Global;
use std::io::{Read, Write};

// What stands behind a file's name: how many statements it has.
fn counted_line(count: u64) -> ArrayVec<u8, 64>
    ensures { result.items ≡ counted_line count }
{
    let mut line = ArrayVec::new();
    let mut buffer = Buffer::new();
    append(&mut line, b": ");
    append(&mut line, buffer.format(count).as_bytes());
    append(&mut line, b" statements\n");
    line
}

// What stands behind a file's name: why it is refused.
fn faulty_line(fault: DocumentFault) -> ArrayVec<u8, 64>
    ensures { result.items ≡ faulty_line fault }
{
    let mut line = ArrayVec::new();
    append(&mut line, b": refused: ");
    append(&mut line, document_fault_name(fault));
    append_place(&mut line, Some(fault.line()));
    append(&mut line, b"\n");
    line
}

// Writes a line, which is in two parts.
fn write_line<W: Write>(name: &str, line: &[u8], writer: &mut W) -> Result<(), Outcome>
    ensures { WritesLine (W.contents writer.old) (name.now ++ line.now) result
        (W.contents writer.new) }
{
    if write_whole(writer, name.as_bytes()).is_err() {
        return Err(Outcome::WriteFailed);
    }
    match write_whole(writer, line) {
        Ok(()) => Ok(()),
        Err(_) => Err(Outcome::WriteFailed),
    }
}

// Writes the line of a file, and answers whether its document is sound.
fn tell<W: Write>(name: &str, line: &[u8], sound: bool, writer: &mut W) -> Result<bool, Outcome>
    ensures told { IfErr result (λ outcome. status_of outcome ≢ 2) }
    ensures written { Tells (W.contents writer.old) (name.now ++ line.now) sound result
        (W.contents writer.new) }
{
    match write_line(name, line, writer) {
        Ok(()) => Ok(sound),
        Err(outcome) => Err(outcome),
    }
}

// Writes the line of a document that isn't sound, or nothing where it was not read.
fn tell_fault<W: Write>(name: &str, fault: ConvertFault, writer: &mut W) -> Result<bool, Outcome>
    ensures told { IfErr result (λ outcome. status_of outcome ≢ 2) }
    ensures written { WritesCheck name.now (W.contents writer.old) (Err fault) result
        (W.contents writer.new) }
{
    match fault {
        ConvertFault::Document(at) => tell(name, faulty_line(at).as_slice(), false, writer),
        ConvertFault::Read => Err(Outcome::ReadFailed),
        ConvertFault::Write => Err(Outcome::WriteFailed),
        ConvertFault::NoMemory(refused) => Err(Outcome::NoMemory(refused)),
    }
}

// Writes what a check answered.
fn tell_answer<W: Write>(
    name: &str,
    answer: Result<u64, ConvertFault>,
    writer: &mut W,
) -> Result<bool, Outcome>
    ensures told { IfErr result (λ outcome. status_of outcome ≢ 2) }
    ensures written { WritesCheck name.now (W.contents writer.old) answer result
        (W.contents writer.new) }
{
    match answer {
        Ok(count) => tell(name, counted_line(count).as_slice(), true, writer),
        Err(fault) => tell_fault(name, fault, writer),
    }
}

// Checks the document of a reader, writes its line, and answers whether it is sound. What was told meanwhile is cleared before.
fn check_one<R: Read, W: Write, P: Write>(
    alloc: Global,
    format: Format,
    base: Option<&Iri>,
    name: &str,
    reader: &mut Watched<'_, R, P>,
    writer: &mut W,
) -> Result<bool, Outcome>
    ensures told { IfErr result (λ outcome. status_of outcome ≢ 2) }
    ensures written { ChecksBytes format (option_copied base.entry) name.now
        (R.remaining reader.old.reader) (W.contents writer.old) (W.contents writer.new) result }
{
    let answer = check(alloc, format, base, reader);
    reader.clear();
    tell_answer(name, answer, writer)
}

// Checks a file, or standard input.
fn check_file<F: Folder, R: Read, W: Write, P: Write>(
    alloc: Global,
    folder: &mut F,
    format: Format,
    base: Option<&Iri>,
    path: &str,
    reader: &mut R,
    writer: &mut W,
    progress: &mut Progress<P>,
) -> Result<bool, Outcome>
    ensures does { ChecksFile F.step format (option_copied base.entry) path.now
        (folder.old, R.remaining reader.old, W.contents writer.old) result
        (folder.new, R.remaining reader.new, W.contents writer.new) }
    ensures told { IfErr result (λ outcome. status_of outcome ≢ 2) }
{
    if path == INPUT {
        progress.begin(None);
        let mut input = progress.watch(reader);
        return check_one(alloc, format, base, path, &mut input, writer);
    }
    match folder.open(path) {
        Ok(file) => {
            progress.begin(F::size_of(&file));
            let mut file = progress.watch(file);
            check_one(alloc, format, base, path, &mut file, writer)
        }
        Err(_) => Err(Outcome::ReadFailed),
    }
}

/// Checks files, one behind another.
pub(crate) fn check_words<F: Folder, R: Read, W: Write, P: Write>(
    alloc: Global,
    folder: &mut F,
    words: &CheckWords<'_>,
    reader: &mut R,
    writer: &mut W,
    progress: &mut Progress<P>,
) -> Outcome
    ensures does { (left : Option (List ℕ)) × ChecksAll F.step words.now
        (folder.old, R.remaining reader.old, W.contents writer.old) result
        (folder.new, left, W.contents writer.new) }
    ensures silent { status_of result ≡ 2 →
        Appends (W.contents writer.old) (W.contents writer.new) [] }
{
    let base = match base_of(alloc, words.base) {
        Ok(base) => base,
        Err(outcome) => return outcome,
    };
    check_files(
        alloc,
        folder,
        words,
        base.as_ref(),
        reader,
        writer,
        progress,
    )
}

// The same, against a base.
fn check_files<F: Folder, R: Read, W: Write, P: Write>(
    alloc: Global,
    folder: &mut F,
    words: &CheckWords<'_>,
    base: Option<&Iri>,
    reader: &mut R,
    writer: &mut W,
    progress: &mut Progress<P>,
) -> Outcome
    ensures does { ChecksFiles F.step words.now.from (option_copied base.entry)
        (map (λ path. path.now) words.now.files.items) false
        (folder.old, R.remaining reader.old, W.contents writer.old) result
        (folder.new, R.remaining reader.new, W.contents writer.new) }
    ensures told { status_of result ≢ 2 }
{
    let mut refused = false;
    for path in words.files.as_slice() {
        match check_file(
            alloc, folder, words.from, base, path, reader, writer, progress,
        ) {
            Ok(sound) => refused |= !sound,
            Err(outcome) => return outcome,
        }
    }
    if refused {
        Outcome::SomeRefused
    } else {
        Outcome::Done
    }
}
