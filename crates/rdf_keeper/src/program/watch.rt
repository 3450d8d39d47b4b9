//! How far a document is read, told on a device meanwhile.
ghost use Rattle.std.specs.Prelude.{◌≡◌, IfOk, OnErr, min};
ghost use Rattle.std.specs.Io.{ReadsAtMost};
ghost use Rattle.std.specs.Io.KnownBytes.{ReadConsumes};
ghost use Rattle.rdf_keeper.specs.Inside.Told.{Adds, IsShown, Tells, cleared, clearing, is_due, progress_line, size_behind};

use crate::short_line::append;
use arrayvec::ArrayVec;
use itoa::Buffer;
use rdf_streams::write_whole;
use std::io;
use std::io::{Read, Sink, Write};

// Behind how many further bytes it is told again.
const STEP: u64 = 1 << 20;

static BLANKS: [u8; 62] = [b' '; 62];

// What is told.
fn progress_line(read: u64, size: Option<u64>) -> ArrayVec<u8, 64>
    ensures { result.items ≡ progress_line read size }
{
    let mut line = ArrayVec::new();
    let mut buffer = Buffer::new();
    append(&mut line, b"\r");
    append(&mut line, buffer.format(read).as_bytes());
    if let Some(size) = size {
        let mut whole = Buffer::new();
        append(&mut line, b" of ");
        append(&mut line, whole.format(size).as_bytes());
    }
    append(&mut line, b" bytes");
    line
}

// What clears a line of that many columns.
fn blank_line(width: usize) -> ArrayVec<u8, 64>
    ensures { result.items ≡ clearing (min width 62) }
{
    let mut line = ArrayVec::new();
    append(&mut line, b"\r");
    append(&mut line, BLANKS.split_at(width.min(62)).0);
    append(&mut line, b"\r");
    line
}

// Whether it is told how many were read, behind a call that read `count`: at the first, behind each step and at the end.
fn is_due(told: u64, read: u64, count: u64) -> bool
    ensures { result ≡ is_due told read count }
{
    (told == 0 || count == 0 || told / STEP < read / STEP) && told != read
}

// The size of a file, as long as no more than that was read of it: one that has grown is no longer of that size.
fn size_behind(read: u64, size: Option<u64>) -> Option<u64>
    ensures { result ≡ size_behind read size }
{
    match size {
        Some(size) if read <= size => Some(size),
        _ => None,
    }
}

/// How far a document is read, and the device on which that is told. What the device doesn't take is passed over.
#[derive(Drop)]
pub(crate) struct Progress<P> {
    device: P,
    // how many bytes were read, and of how many, where that is known
    read: u64,
    size: Option<u64>,
    // how many were told, and how many columns that takes
    told: u64,
    width: usize,
}

/// What is told nowhere.
pub(crate) fn silent() -> Progress<Sink> {
    Progress::new(io::sink())
}

impl<P: Write> Progress<P> {
    /// Nothing is told so far.
    pub(crate) fn new(device: P) -> Progress<P>
        ensures { result ≡ record { device = device; read = 0; size = None; told = 0; width = 0 } }
    {
        Progress {
            device,
            read: 0,
            size: None,
            told: 0,
            width: 0,
        }
    }

    /// A document is read next, of that size where it is known. What was told of one before is cleared.
    pub(crate) fn begin(&mut self, size: Option<u64>)
        ensures read { self.new.read ≡ 0 }
        ensures size { self.new.size ≡ size }
        ensures told { self.new.told ≡ 0 }
        ensures width { self.new.width ≡ 0 }
        ensures shown { IsShown (P.contents self.old.device) (cleared self.old.width)
            (P.contents self.new.device) }
    {
        self.clear();
        self.read = 0;
        self.told = 0;
        self.size = size;
    }

    /// The reader of the document, which is told while it is read.
    pub(crate) fn watch<R: Read>(&mut self, reader: R) -> Watched<'_, R, P>
        ensures reader { result.reader ≡ reader }
        ensures progress { result.progress.now ≡ self.old }
    {
        Watched {
            reader,
            progress: self,
        }
    }

    /// Clears what was told.
    pub(crate) fn clear(&mut self)
        ensures width { self.new.width ≡ 0 }
        ensures shown { IsShown (P.contents self.old.device) (cleared self.old.width)
            (P.contents self.new.device) }
    {
        if self.width > 0 {
            let _ = write_whole(&mut self.device, blank_line(self.width).as_slice());
            self.width = 0;
        }
    }

    // So many more bytes were read, or none since the end is reached.
    fn add(&mut self, count: usize)
        ensures { Adds P.contents self.old count self.new }
    {
        let count = count as u64;
        self.read = self.read.saturating_add(count);
        if is_due(self.told, self.read, count) {
            self.tell();
        }
    }

    fn tell(&mut self)
        ensures read { self.new.read ≡ self.old.read }
        ensures size { self.new.size ≡ self.old.size }
        ensures tells { Tells P.contents self.old self.new }
    {
        let line = progress_line(self.read, size_behind(self.read, self.size));
        let _ = write_whole(&mut self.device, line.as_slice());
        self.told = self.read;
        self.width = line.len().saturating_sub(1);
    }
}

/// A reader of which it is told how far it is read. It gives what the reader gives.
#[derive(Drop)]
pub(crate) struct Watched<'a, R, P> {
    pub(crate) reader: R,
    progress: &'a mut Progress<P>,
}

impl<R, P: Write> Watched<'_, R, P> {
    /// Clears what was told. The reader stays as it is.
    pub(crate) fn clear(&mut self)
        ensures reader { self.new.reader ≡ self.old.reader }
        ensures shown { IsShown (P.contents self.old.progress.now.device)
            (cleared self.old.progress.now.width) (P.contents self.new.progress.now.device) }
    {
        self.progress.clear();
    }
}

impl<R: Read, P: Write> Read for Watched<'_, R, P> {
    ghost remaining = { λ watched. R.remaining watched.reader };

    fn read(&mut self, buffer: &mut [u8]) -> io::Result<usize>
        ensures bound { ReadsAtMost result buffer.new }
        ensures bytes { ReadConsumes (R.remaining self.old.reader) (R.remaining self.new.reader)
            result buffer.new }
        ensures told { IfOk result (λ n. Adds P.contents self.old.progress.now n
            self.new.progress.now) }
        ensures untold { OnErr result (self.new.progress.now ≡ self.old.progress.now) }
    {
        match self.reader.read(buffer) {
            Ok(count) => {
                self.progress.add(count);
                Ok(count)
            }
            Err(fault) => Err(fault),
        }
    }
}
