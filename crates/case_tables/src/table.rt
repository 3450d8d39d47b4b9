//! Tables of cases, in the form that `tests/run` reads.
use crate::case::Case;
use std::alloc::{AllocError, Global};

/// The cases of a table, behind what holds for all of them.
pub fn read_table(alloc: Global, text: &str) -> Result<Vec<Case>, AllocError> {
    let mut cases = Vec::new(alloc);
    cases.push(Case::new(alloc, "")?)?;
    for line in text.lines() {
        match line.strip_prefix("== ") {
            Some(name) => cases.push(Case::new(alloc, name)?)?,
            None => read_line(alloc, &mut cases, line)?,
        }
    }
    Ok(cases)
}

// A line of the last case. Above the first one only parts of one line count, beside comments.
fn read_line(alloc: Global, cases: &mut Vec<Case>, line: &str) -> Result<(), AllocError> {
    let is_above = cases.len() == 1;
    let Some(case) = cases.last_mut() else {
        return Ok(());
    };
    match line.strip_prefix("-- ") {
        Some(head) => case.begin_part(alloc, head),
        None if is_above => Ok(()),
        None => case.add_line(line),
    }
}
