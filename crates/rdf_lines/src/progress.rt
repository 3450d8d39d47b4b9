//! What a document has had so far.
ghost use Rattle.std.specs.Prelude.{◌≡◌, ℕ, List, [], ◌<◌, ◌+◌, ◌^◌, Ok, Some};
ghost use Rattle.rdf_lines.specs.Inside.Slices.{AreSlices, WritesLine};
ghost use Rattle.rdf_lines.specs.Line.{LineSays};
ghost use Rattle.rdf_lines.specs.Reader.{ReadsLine};
ghost use Rattle.rdf_lines.specs.declared.format.LineFormat.{LineFormat};
ghost use Rattle.rdf_lines.specs.declared.statement.Statement.{Statement};

use crate::fault::{FaultKind, LineFault};
use crate::format::LineFormat;
use crate::labels::Labels;
use crate::line::{line_slices, read_next_line};
use crate::slices::StatementSlices;
use crate::suffixes::Suffixes;
use crate::write::write_quad;
use rdf_terms::Quad;
use std::alloc::Global;

/// The number of the next line, the labels so far, and what its literals share with those before.
#[derive(Drop)]
pub struct Progress {
    pub number: u64,
    pub labels: Labels,
    pub suffixes: Suffixes,
}

impl Progress {
    /// The first line comes next.
    pub fn new(alloc: Global) -> Progress
        ensures number { result.number ≡ 1 }
        ensures labels { result.labels ≡ [] }
    {
        Progress {
            number: 1,
            labels: Labels::new(alloc),
            suffixes: Suffixes::new(alloc),
        }
    }

    /// Reads the next line, which has come wholly.
    pub fn line(
        &mut self,
        alloc: Global,
        format: LineFormat,
        line: &[u8],
    ) -> Result<Option<Quad>, LineFault>
        requires { self.old.number + 1 < 2 ^ 64 }
        ensures { ReadsLine format line.now self.old.number self.old.labels result
            self.new.number self.new.labels }
    {
        match read_next_line(alloc, &mut self.suffixes, format, line) {
            Ok(None) => {
                self.number += 1;
                Ok(None)
            }
            Ok(Some(statement)) => match self.labels.quad(statement) {
                Ok(quad) => {
                    self.number += 1;
                    Ok(Some(quad))
                }
                Err(refusal) => Err(self.fault(FaultKind::NoMemory(refusal))),
            },
            Err(kind) => Err(self.fault(kind)),
        }
    }

    /// Reads the next line, which has come wholly, and appends the canonical line of what it says. What is written in canonical
    /// form is copied, but for labels.
    pub fn write_line(
        &mut self,
        alloc: Global,
        format: LineFormat,
        line: &[u8],
        lines: &mut Vec<u8>,
    ) -> Result<(), LineFault>
        requires { self.old.number + 1 < 2 ^ 64 }
        ensures { WritesLine format line.now self.old.number self.old.labels lines.old.items result
            self.new.number self.new.labels lines.new.items }
    {
        match line_slices(format, line) {
            Some(slices) => self.copy_line(alloc, &slices, lines),
            None => self.rewrite_line(alloc, format, line, lines),
        }
    }

    // The same, of the slices of a line's statement.
    fn copy_line(
        &mut self,
        alloc: Global,
        slices: &StatementSlices<'_>,
        lines: &mut Vec<u8>,
    ) -> Result<(), LineFault>
        requires { self.old.number + 1 < 2 ^ 64 }
        ensures { (format : LineFormat) (line : List ℕ) (s : Statement) →
            LineSays format line (Ok (Some s)) → AreSlices slices.now s →
            WritesLine format line self.old.number self.old.labels lines.old.items result
            self.new.number self.new.labels lines.new.items }
    {
        match self.labels.write_slices(alloc, slices, lines) {
            Ok(()) => {
                self.number += 1;
                Ok(())
            }
            Err(refused) => Err(self.fault(FaultKind::NoMemory(refused))),
        }
    }

    // The same, of any line, over the terms of its statement.
    fn rewrite_line(
        &mut self,
        alloc: Global,
        format: LineFormat,
        line: &[u8],
        lines: &mut Vec<u8>,
    ) -> Result<(), LineFault>
        requires { self.old.number + 1 < 2 ^ 64 }
        ensures { WritesLine format line.now self.old.number self.old.labels lines.old.items result
            self.new.number self.new.labels lines.new.items }
    {
        let number = self.number;
        match self.line(alloc, format, line) {
            Ok(None) => Ok(()),
            Ok(Some(quad)) => match write_quad(&quad, lines) {
                Ok(()) => Ok(()),
                Err(refused) => Err(LineFault {
                    line: number,
                    kind: FaultKind::NoMemory(refused),
                }),
            },
            Err(fault) => Err(fault),
        }
    }

    pub fn fault(&self, kind: FaultKind) -> LineFault
        ensures { (result.line ≡ self.now.number) × (result.kind ≡ kind) }
    {
        LineFault {
            line: self.number,
            kind,
        }
    }
}
