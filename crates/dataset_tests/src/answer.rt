//! What calls answer, and whether a case agrees.
use crate::case::Line;
use std::alloc::Global;
use std::fmt;

/// What a call answers, as a table writes it.
#[derive(Drop)]
pub(crate) enum Answer {
    Flag(bool),
    Number(u64),
    NoNumber,
    /// How many there are, and how many were looked at.
    Looked(usize, usize),
    /// How many there are, and whether these are all.
    Some(usize, bool),
    /// How many quads and names a net adds, how many it removes, and the counter before and after.
    Net([usize; 4], u64, u64),
    Text(String),
}

impl fmt::Display for Answer {
    fn fmt<W: fmt::Write>(&self, f: &mut fmt::Formatter<W>) -> fmt::Result {
        match self {
            Answer::Flag(flag) => write!(f, "{flag}"),
            Answer::Number(number) => write!(f, "{number}"),
            Answer::NoNumber => write!(f, "none"),
            Answer::Looked(count, looked) => write!(f, "{count} of {looked}"),
            Answer::Some(count, all) => write!(f, "{count} {all}"),
            Answer::Net(sizes, before, after) => write_net(f, sizes, *before, *after),
            Answer::Text(text) => write!(f, "{text}"),
        }
    }
}

fn write_net<W: fmt::Write>(
    f: &mut fmt::Formatter<W>,
    sizes: &[usize; 4],
    before: u64,
    after: u64,
) -> fmt::Result {
    let [quads, names, gone, names_gone] = sizes;
    write!(
        f,
        "+{quads} +{names} -{gone} -{names_gone}, {before} to {after}"
    )
}

/// The first line of a case that isn't answered as it should be.
#[derive(Drop)]
pub(crate) struct Verdict<'a> {
    differing: Option<&'a str>,
}

impl<'a> Verdict<'a> {
    pub(crate) fn new() -> Verdict<'a> {
        Verdict { differing: None }
    }

    pub(crate) fn differing(self) -> Option<&'a str> {
        self.differing
    }

    /// Memory was wanting, or a call isn't known, here.
    pub(crate) fn fail(&mut self, text: &'a str) {
        if self.differing.is_none() {
            self.differing = Some(text);
        }
    }

    /// Compares the answer to a line with the one that is wanted.
    pub(crate) fn hear(&mut self, alloc: Global, line: Line<'a>, answer: Option<Answer>) {
        if !is_wanted(alloc, line, answer) {
            self.fail(line.text);
        }
    }
}

fn is_wanted(alloc: Global, line: Line<'_>, answer: Option<Answer>) -> bool {
    let Some(answer) = answer else {
        return false;
    };
    match format!(in alloc; "{answer}") {
        Ok(text) => text.as_str() == line.wanted,
        Err(_) => false,
    }
}
