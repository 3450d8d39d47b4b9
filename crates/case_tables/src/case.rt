//! A case: its files, its words, and what is wanted.
use std::alloc::{AllocError, Global};
use std::str;

/// A file of a case, or what it says by that name: its words, its standard input, what is wanted.
#[derive(Drop)]
pub struct Part {
    name: String,
    bytes: Vec<u8>,
}

impl Part {
    /// The name that stands behind `--`.
    pub fn name(&self) -> &str {
        self.name.as_str()
    }

    /// What its lines stand for.
    pub fn bytes(&self) -> &[u8] {
        self.bytes.as_slice()
    }

    /// The number that its only line has.
    pub fn number(&self) -> Option<u64> {
        self.text()?.trim_end().parse().ok()
    }

    /// Its bytes, where they are text.
    pub fn text(&self) -> Option<&str> {
        str::from_utf8(self.bytes()).ok()
    }
}

/// A case by its name, with its parts in their order.
#[derive(Drop)]
pub struct Case {
    name: String,
    parts: Vec<Part>,
    // empty lines that count only where more comes
    blank_lines: u64,
}

impl Case {
    /// A case that has its standard input first, of which nothing is there yet.
    pub(crate) fn new(alloc: Global, name: &str) -> Result<Case, AllocError> {
        let mut case = Case {
            name: String::from_str(alloc, name)?,
            parts: Vec::new(alloc),
            blank_lines: 0,
        };
        case.begin(alloc, "stdin")?;
        Ok(case)
    }

    /// The name that stands behind `==`.
    pub fn name(&self) -> &str {
        self.name.as_str()
    }

    /// Its parts, in their order.
    pub fn parts(&self) -> &[Part] {
        self.parts.as_slice()
    }

    /// The first part of that name.
    pub fn part(&self, name: &str) -> Option<&Part> {
        for part in self.parts() {
            if part.name() == name {
                return Some(part);
            }
        }
        None
    }

    /// The bytes of the first part of that name.
    pub fn find(&self, name: &str) -> Option<&[u8]> {
        Some(self.part(name)?.bytes())
    }

    /// A part begins, by its name, and its only line where there is one: of `args` the words of that line are lines.
    pub(crate) fn begin_part(&mut self, alloc: Global, head: &str) -> Result<(), AllocError> {
        self.add_blank_lines()?;
        let Some((name, text)) = head.split_once(' ') else {
            return self.begin(alloc, head);
        };
        self.begin(alloc, name)?;
        if name != "args" {
            return self.add_line(text);
        }
        for word in text.split(' ') {
            self.add_line(word)?;
        }
        Ok(())
    }

    /// A line comes behind the last part. Empty ones are held back, since those at the end of a case don't count.
    pub(crate) fn add_line(&mut self, line: &str) -> Result<(), AllocError> {
        if line.is_empty() {
            self.blank_lines = self.blank_lines.saturating_add(1);
            return Ok(());
        }
        self.add_blank_lines()?;
        if let Some(part) = self.parts.last_mut() {
            append_line(&mut part.bytes, line)?;
        }
        Ok(())
    }

    fn begin(&mut self, alloc: Global, name: &str) -> Result<(), AllocError> {
        let part = Part {
            name: String::from_str(alloc, name)?,
            bytes: Vec::new(alloc),
        };
        self.parts.push(part)?;
        Ok(())
    }

    fn add_blank_lines(&mut self) -> Result<(), AllocError> {
        if let Some(part) = self.parts.last_mut() {
            for _ in 0..self.blank_lines {
                part.bytes.push(b'\n')?;
            }
        }
        self.blank_lines = 0;
        Ok(())
    }
}

// Appends what a line of a table stands for: numbers between ⟨ and ⟩ are bytes, and ⟨end⟩ at its end takes away the line end.
fn append_line(bytes: &mut Vec<u8>, line: &str) -> Result<(), AllocError> {
    match line.strip_suffix("⟨end⟩") {
        Some(front) => append_pieces(bytes, front),
        None => {
            append_pieces(bytes, line)?;
            bytes.push(b'\n')?;
            Ok(())
        }
    }
}

fn append_pieces(bytes: &mut Vec<u8>, line: &str) -> Result<(), AllocError> {
    let mut pieces = line.split('⟨');
    if let Some(first) = pieces.next() {
        bytes.extend_from_slice(first.as_bytes())?;
    }
    for piece in pieces {
        if let Some((number, rest)) = piece.split_once('⟩') {
            append_byte(bytes, number)?;
            bytes.extend_from_slice(rest.as_bytes())?;
        }
    }
    Ok(())
}

fn append_byte(bytes: &mut Vec<u8>, number: &str) -> Result<(), AllocError> {
    if let Ok(byte) = u8::from_str_radix(number, 16) {
        bytes.push(byte)?;
    }
    Ok(())
}
