//! What a case has a call do.
use crate::transcript::Transcript;
use case_tables::Case;
use rdf_keeper::Format;
use std::alloc::Global;
use std::io;

/// A call that reads and writes.
#[derive(Clone, Copy)]
pub(crate) enum Call {
    /// A session over a script.
    Run,
    /// The same, which is fed each piece.
    Feed,
    Convert(Format),
    /// A check, behind which its count is written.
    Check(Format),
}

impl Call {
    fn named(word: &str) -> Option<Call> {
        match word {
            "run" => Some(Call::Run),
            "feed" => Some(Call::Feed),
            "convert nquads" => Some(Call::Convert(Format::NQuads)),
            "convert ntriples" => Some(Call::Convert(Format::NTriples)),
            "convert turtle" => Some(Call::Convert(Format::Turtle)),
            "check nquads" => Some(Call::Check(Format::NQuads)),
            "check turtle" => Some(Call::Check(Format::Turtle)),
            _ => None,
        }
    }

    /// What is written is written by the call itself.
    pub(crate) fn writes(self) -> bool {
        !matches!(self, Call::Check(_))
    }

    /// How often it reads can be bounded.
    pub(crate) fn is_bounded(self) -> bool {
        matches!(self, Call::Run)
    }
}

/// A call, what it is given, and what is wanted.
#[derive(Drop)]
pub(crate) struct Subject<'a> {
    pub(crate) call: Call,
    pub(crate) base: Option<&'a str>,
    /// Something is refused.
    pub(crate) is_refused: bool,
    pub(crate) transcript: Transcript,
    /// How many bytes the first pieces have that are read.
    pub(crate) lengths: Vec<usize>,
}

impl<'a> Subject<'a> {
    /// The subject of a case, if its call is one.
    pub(crate) fn of(alloc: Global, case: &'a Case) -> io::Result<Option<Subject<'a>>> {
        let Some(call) = Call::named(word_of(case, "call").unwrap_or("")) else {
            return Ok(None);
        };
        let mut lengths = Vec::new(alloc);
        for word in word_of(case, "pieces").unwrap_or("").split(' ') {
            if let Ok(length) = word.parse() {
                lengths.push(length)?;
            }
        }
        Ok(Some(Subject {
            call,
            base: word_of(case, "base"),
            is_refused: case.find("refused").is_some(),
            transcript: Transcript::of(alloc, case)?,
            lengths,
        }))
    }

    /// In how many read calls it comes to its end, where the first pieces have so many bytes.
    pub(crate) fn reads(&self, lengths: &[usize]) -> usize {
        let mut rest = self.transcript.wanted();
        for length in lengths {
            rest = rest.saturating_sub(*length);
        }
        let pieces = rest.saturating_add(lengths.len());
        if self.transcript.stops() {
            pieces
        } else {
            pieces.saturating_add(1)
        }
    }
}

/// The line of a part.
pub(crate) fn word_of<'a>(case: &'a Case, name: &str) -> Option<&'a str> {
    Some(case.part(name)?.text()?.trim_end())
}
