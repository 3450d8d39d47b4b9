//! Transcripts: what is read, and what is written before more is read.
use case_tables::{Case, Part};
use std::alloc::{AllocError, Global};

/// A place at which a call reads on.
#[derive(Clone, Copy)]
pub(crate) struct Mark {
    /// How many bytes are read there,
    pub(crate) read: usize,
    /// how many are written,
    pub(crate) written: usize,
    /// and how many quads the keeper has.
    pub(crate) quads: u64,
}

const START: Mark = Mark {
    read: 0,
    written: 0,
    quads: 0,
};

// The place behind the input's end.
const END: usize = usize::MAX;

/// What a call reads, what it writes, and the places at which it reads on, in their order.
#[derive(Drop)]
pub(crate) struct Transcript {
    input: Vec<u8>,
    // how many bytes of it are to be read
    wanted: usize,
    output: Vec<u8>,
    marks: Vec<Mark>,
}

impl Transcript {
    /// The transcript of a case, whose parts say by their names what they are.
    pub(crate) fn of(alloc: Global, case: &Case) -> Result<Transcript, AllocError> {
        let mut transcript = Transcript {
            input: Vec::new(alloc),
            wanted: 0,
            output: Vec::new(alloc),
            marks: Vec::new(alloc),
        };
        for part in case.parts() {
            transcript.add(part)?;
        }
        Ok(transcript)
    }

    fn add(&mut self, part: &Part) -> Result<(), AllocError> {
        match part.name() {
            "read" => {
                self.input.extend_from_slice(part.bytes())?;
                self.wanted = self.input.len();
            }
            "unread" => self.input.extend_from_slice(part.bytes())?,
            "written" => self.write(self.wanted, part.bytes())?,
            "end" => self.write(END, part.bytes())?,
            "quads" => self.note_quads(part.number().unwrap_or(u64::MAX)),
            _ => {}
        }
        Ok(())
    }

    // So much is written once so much is read.
    fn write(&mut self, read: usize, bytes: &[u8]) -> Result<(), AllocError> {
        self.output.extend_from_slice(bytes)?;
        let mark = Mark {
            read,
            written: self.output.len(),
            quads: self.last().quads,
        };
        self.marks.push(mark)?;
        Ok(())
    }

    fn note_quads(&mut self, quads: u64) {
        if let Some(mark) = self.marks.last_mut() {
            mark.quads = quads;
        }
    }

    /// What a device has to give.
    pub(crate) fn input(&self) -> &[u8] {
        self.input.as_slice()
    }

    /// How many bytes of it are read.
    pub(crate) fn wanted(&self) -> usize {
        self.wanted
    }

    /// Whether a call ends before it has read all.
    pub(crate) fn stops(&self) -> bool {
        self.wanted < self.input.len()
    }

    pub(crate) fn output(&self) -> &[u8] {
        self.output.as_slice()
    }

    /// The last place, where all is written.
    pub(crate) fn last(&self) -> Mark {
        self.marks.last().copied().unwrap_or(START)
    }

    /// Where a call stands that has read so many bytes, and reads on.
    pub(crate) fn due(&self, read: usize) -> Mark {
        let mut due = START;
        for mark in &self.marks {
            if mark.read <= read {
                due = *mark;
            }
        }
        due
    }

    /// Where a call stands that has written so many bytes and can't write the next: at the place behind these.
    pub(crate) fn broken_off(&self, written: usize) -> Mark {
        for mark in &self.marks {
            if mark.written > written {
                return *mark;
            }
        }
        self.last()
    }
}
