//! A case of a table: `== NAME`, then parts, each `-- WORD` and its lines.
use std::str::Lines;

/// A case, by its text behind `== `.
#[derive(Clone, Copy)]
pub(crate) struct Case<'a> {
    text: &'a str,
}

impl<'a> Case<'a> {
    pub(crate) fn new(text: &'a str) -> Case<'a> {
        Case {
            text: text.trim_end(),
        }
    }

    pub(crate) fn name(self) -> &'a str {
        self.text.lines().next().unwrap_or("")
    }

    pub(crate) fn has(self, word: &str) -> bool {
        self.find(word).is_some()
    }

    /// The lines of the part of that word, of which there may be none.
    pub(crate) fn lines(self, word: &str) -> Lines<'a> {
        self.find(word).unwrap_or("").lines()
    }

    // The text of a part.
    fn find(self, word: &str) -> Option<&'a str> {
        for part in self.text.split("-- ") {
            if let Some((head, lines)) = part.split_once('\n') {
                if head == word {
                    return Some(lines);
                }
            }
        }
        None
    }
}

/// A line `CALL = ANSWER`, whose call is a word and what stands behind it.
#[derive(Clone, Copy)]
pub(crate) struct Line<'a> {
    pub(crate) text: &'a str,
    pub(crate) word: &'a str,
    pub(crate) rest: &'a str,
    pub(crate) wanted: &'a str,
}

impl<'a> Line<'a> {
    pub(crate) fn new(text: &'a str) -> Line<'a> {
        let (call, wanted) = text.split_once(" = ").unwrap_or((text, ""));
        let (word, rest) = call.split_once(' ').unwrap_or((call, ""));
        Line {
            text,
            word,
            rest,
            wanted,
        }
    }
}
