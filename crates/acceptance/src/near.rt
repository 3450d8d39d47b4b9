//! Texts near to a state text: whichever byte is left out, doubled or another, a text is refused, or a session that is
//! restored from it is saved as that very text.
use crate::tally::Tally;
use case_tables::Case;
use rdf_keeper::{Keeper, StateFault};
use std::alloc::Global;
use std::io;
use std::io::Write;

// How many texts were tried, were taken for states, and were answered otherwise than they should be.
#[derive(Clone, Copy)]
struct Texts {
    tried: u64,
    taken: u64,
    wrong: u64,
}

impl Texts {
    const NONE: Texts = Texts {
        tried: 0,
        taken: 0,
        wrong: 0,
    };

    fn count(&mut self, alloc: Global, text: &[u8]) {
        self.tried = self.tried.saturating_add(1);
        match is_taken(alloc, text) {
            Some(true) => self.taken = self.taken.saturating_add(1),
            Some(false) => {}
            None => self.wrong = self.wrong.saturating_add(1),
        }
    }

    fn write(self, kind: &str, out: &mut Vec<u8>) -> io::Result<()> {
        let Texts {
            tried,
            taken,
            wrong,
        } = self;
        writeln!(out, "{kind}: {taken} of {tried} taken, {wrong} wrong")
    }
}

/// Counts a run: whether as many texts near to that of a case are taken as it wants.
pub(crate) fn count_near(alloc: Global, case: &Case) -> io::Result<Tally> {
    let text = case.find("stdin").unwrap_or(b"");
    let mut output = Vec::new(alloc);
    fronts(alloc, text).write("fronts", &mut output)?;
    one_less(alloc, text)?.write("a byte left out", &mut output)?;
    one_more(alloc, text)?.write("a byte doubled", &mut output)?;
    another(alloc, text)?.write("another byte", &mut output)?;
    let mut tally = Tally::NONE;
    tally.count(Some(output.as_slice()) == case.find("stdout"));
    Ok(tally)
}

// Whether the text is taken for a state, which is then saved as this text.
fn is_taken(alloc: Global, text: &[u8]) -> Option<bool> {
    match Keeper::restore(alloc, text, None) {
        Ok(keeper) => is_saved_as(alloc, &keeper, text).then_some(true),
        Err(StateFault::NotState) => Some(false),
        Err(StateFault::NoMemory(_)) => None,
    }
}

fn is_saved_as(alloc: Global, keeper: &Keeper, text: &[u8]) -> bool {
    let mut saved = Vec::new(alloc);
    keeper.dump(&mut saved).is_ok() && saved.as_slice() == text
}

fn fronts(alloc: Global, text: &[u8]) -> Texts {
    let mut texts = Texts::NONE;
    for length in 0..=text.len() {
        if let Some(front) = text.get(..length) {
            texts.count(alloc, front);
        }
    }
    texts
}

fn one_less(alloc: Global, text: &[u8]) -> io::Result<Texts> {
    let mut texts = Texts::NONE;
    for (place, _) in text.iter().enumerate() {
        let behind = place.saturating_add(1);
        let near = spliced(alloc, text, place, b"", behind)?;
        texts.count(alloc, near.as_slice());
    }
    Ok(texts)
}

fn one_more(alloc: Global, text: &[u8]) -> io::Result<Texts> {
    let mut texts = Texts::NONE;
    for (place, byte) in text.iter().enumerate() {
        let near = spliced(alloc, text, place, &[*byte], place)?;
        texts.count(alloc, near.as_slice());
    }
    Ok(texts)
}

fn another(alloc: Global, text: &[u8]) -> io::Result<Texts> {
    let mut texts = Texts::NONE;
    for (place, old) in text.iter().enumerate() {
        for byte in 0..=255u8 {
            if byte != *old {
                let near = spliced(alloc, text, place, &[byte], place.saturating_add(1))?;
                texts.count(alloc, near.as_slice());
            }
        }
    }
    Ok(texts)
}

// The text with another one between two of its places.
fn spliced(
    alloc: Global,
    text: &[u8],
    before: usize,
    between: &[u8],
    after: usize,
) -> io::Result<Vec<u8>> {
    let mut near = Vec::new(alloc);
    near.extend_from_slice(text.get(..before).unwrap_or(b""))?;
    near.extend_from_slice(between)?;
    near.extend_from_slice(text.get(after..).unwrap_or(b""))?;
    Ok(near)
}
