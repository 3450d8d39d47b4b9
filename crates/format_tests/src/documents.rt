//! What a line is told for, what readers of lines answer behind an end or a fault, each read failing once, and quads that are
//! sorted.

use one_byte::{Ending, OnceFailing, OneByteReader};
use rdf_lines::{
    FaultKind, LineFault, LineFormat, LineReader, read_line, read_lines, write_sorted,
};
use std::alloc::Global;
use std::io::Read;
use std::test::Fail;

// What is told of a line: whether it holds a statement, or its fault.
fn told_of(alloc: Global, line: &[u8]) -> Result<bool, FaultKind> {
    Ok(read_line(alloc, LineFormat::NQuads, line)?.is_some())
}

// In a script or a file a line end would cut the line in two.
#[test]
fn lines_with_a_line_end_in_them(rt: HostRuntime) {
    for (line, wanted) in [
        (b"_:a <a:p> _:k.n . # end".as_slice(), Ok(true)),
        (b"_:a <a:p> _:k.n . # e\nd".as_slice(), Ok(true)),
        (b"_:a <a:p> _:k.n . # e\rd".as_slice(), Ok(true)),
        (b"#\n".as_slice(), Ok(false)),
        (b"_:a <a:p>\n_:k .".as_slice(), Err(FaultKind::Syntax)),
        (b"_:a <a:p> _:k .\r#".as_slice(), Err(FaultKind::Syntax)),
        (b"_:a <a:p> \"\n\" .".as_slice(), Err(FaultKind::Syntax)),
        (
            b"_:a <a:p> \"\xC3\n\" .".as_slice(),
            Err(FaultKind::NotUtf8),
        ),
    ] {
        assert!(rt; told_of(rt.alloc(), line) == wanted);
    }
}

// An answer of a reader, with nothing of the statement but that it is one.
fn told<R: Read>(lines: &mut LineReader, stream: &mut R) -> Result<bool, LineFault> {
    Ok(lines.next(stream)?.is_some())
}

// Whether so many statements come.
fn come<R: Read>(lines: &mut LineReader, stream: &mut R, statements: usize) -> bool {
    for _ in 0..statements {
        if told(lines, stream) != Ok(true) {
            return false;
        }
    }
    true
}

// Whether this fault comes, and behind it `Failed`, of the same line.
fn fails<R: Read>(lines: &mut LineReader, stream: &mut R, line: u64, kind: FaultKind) -> bool {
    let failed = FaultKind::Failed;
    told(lines, stream) == Err(LineFault { line, kind })
        && told(lines, stream) == Err(LineFault { line, kind: failed })
}

// A CR LF over a piece's end, an empty line, a comment, LF CR as two line ends, and a faulty seventh line.
const TEXT: &[u8] =
    b"_:a <a:p> _:b .\r\n\r\n#\n\r_:b <a:p> _:a .\r_:c <a:p> _:a _:c .\n<s> <a:p> _:a .";

const ONE_BYTE_READER: OneByteReader = OneByteReader {
    bytes: TEXT,
    ending: Ending::Nothing,
};

#[test]
fn behind_a_faulty_line(rt: HostRuntime) -> Result<(), Fail> {
    let mut reader = ONE_BYTE_READER;
    let mut lines = LineReader::new(rt.alloc(), LineFormat::NQuads)?;
    assert!(rt; come(&mut lines, &mut reader, 3));
    assert!(rt; fails(&mut lines, &mut reader, 7, FaultKind::Relative));
    Ok(())
}

#[test]
fn behind_the_end(rt: HostRuntime) -> Result<(), Fail> {
    let mut text = b"_:a <a:p> _:b .\r\n_:b <a:p> _:a .".as_slice();
    let mut lines = LineReader::new(rt.alloc(), LineFormat::NTriples)?;
    assert!(rt; come(&mut lines, &mut text, 2));
    for _ in 0..2 {
        assert!(rt; told(&mut lines, &mut text) == Ok(false));
    }
    Ok(())
}

// How many statements of TEXT come, and the line of the fault, where the call behind so many bytes fails.
fn due(read: usize) -> Option<(usize, u64)> {
    let bytes = TEXT.get(..read)?;
    // the bytes that end a line: an LF behind a CR ends none
    let ends = [16, 18, 21, 22, 38, 58];
    let lines = ends.iter().filter(|end| **end <= bytes.len()).count();
    let statements = [16, 38, 58]
        .iter()
        .filter(|end| **end <= bytes.len())
        .count();
    Some((statements, (lines as u64).saturating_add(1)))
}

// Whether a reader that fails once, at the call behind so many bytes, is told as a fault at once, and never read again.
fn is_told(alloc: Global, read: usize, failure: Ending) -> Result<bool, Fail> {
    let mut reader = OnceFailing::new(ONE_BYTE_READER, read as u64, failure);
    let (statements, line) = due(read).ok_or("no such byte")?;
    let mut lines = LineReader::new(alloc, LineFormat::NQuads)?;
    let is_told = come(&mut lines, &mut reader, statements)
        && fails(&mut lines, &mut reader, line, FaultKind::Read);
    Ok(is_told && reader.calls == (read as u64).saturating_add(1))
}

#[test]
fn each_read_fails_once(rt: HostRuntime) -> Result<(), Fail> {
    for read in 0..=TEXT.len() {
        assert!(rt; is_told(rt.alloc(), read, Ending::Interrupted)?, "{read}");
        assert!(rt; is_told(rt.alloc(), read, Ending::Failed)?, "{read}");
    }
    Ok(())
}

fn sorted(alloc: Global, bytes: &[u8]) -> Result<Vec<u8>, Fail> {
    let quads = read_lines(alloc, LineFormat::NQuads, bytes)?;
    let mut text = Vec::new(alloc);
    write_sorted(alloc, quads.as_slice(), &mut text)?;
    Ok(text)
}

#[test]
fn sorted_text(rt: HostRuntime) -> Result<(), Fail> {
    let text = sorted(
        rt.alloc(),
        b"_:a <a:p> _:b _:c .\n_:b <a:p> _:a .\n_:a <a:p> _:b .\n",
    )?;
    let wanted = b"_:b0 <a:p> _:b1 .\n_:b1 <a:p> _:b0 .\n_:b0 <a:p> _:b1 _:b2 .\n".as_slice();
    assert!(rt; text.as_slice() == wanted);
    Ok(())
}
