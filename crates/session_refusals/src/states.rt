//! A session that is restored from a state text and saved again, by a call and by a script.
use rdf_keeper::{Settings, Status, run};
use rdf_lines::StateFault;
use rdf_session::Keeper;
use std::alloc::Global;
use told_parts::{memory_is_back, requests_count};

const TEXT: &[u8] =
    b"#% rdfkeep state 2\n#% next 3\n#% graph _:b2\n#% graph <a:e>\n#% graph <a:g>\n_:b0 <a:p> \"x\"@en .\n<a:s> <a:p> _:b2 .\n_:b2 <a:p> \"1\"^^<a:d> _:b2 .\n<a:s> <a:p> <a:o> <a:g> .\n";

const COUNT: &[u8] = b"ok 9\n";

const REFUSED: &[u8] = b"refused: NoMemory\n";

// What stands before the text that is saved.
const BEFORE: &[u8] = b"# ";

/// Whether a state that isn't restored or saved is so for want of memory alone, and is restored and saved
/// as it should when it is asked for again.
pub fn outcome(alloc: Global) -> &'static str {
    requests_count(alloc);
    if comes_back(alloc) {
        "states: as without a refusal"
    } else {
        "states: changed by a refusal"
    }
}

fn comes_back(alloc: Global) -> bool {
    match restored(alloc) {
        Some(mut keeper) => is_saved(alloc, &keeper) && is_shown(alloc, &mut keeper),
        None => false,
    }
}

fn restored(alloc: Global) -> Option<Keeper> {
    match Keeper::restore(alloc, TEXT, None) {
        Ok(keeper) => Some(keeper),
        Err(StateFault::NoMemory(_)) => {
            memory_is_back(alloc);
            Keeper::restore(alloc, TEXT, None).ok()
        }
        Err(StateFault::NotState) => None,
    }
}

fn is_saved(alloc: Global, keeper: &Keeper) -> bool {
    let mut text = Vec::new(alloc);
    is_begun(alloc, &mut text)
        && is_appended(alloc, keeper, &mut text)
        && text.as_slice().strip_prefix(BEFORE) == Some(TEXT)
}

fn is_begun(alloc: Global, text: &mut Vec<u8>) -> bool {
    if text.extend_from_slice(BEFORE).is_ok() {
        return true;
    }
    memory_is_back(alloc);
    text.extend_from_slice(BEFORE).is_ok()
}

// Whether the state is appended; a refusal leaves what stands before it.
fn is_appended(alloc: Global, keeper: &Keeper, text: &mut Vec<u8>) -> bool {
    if keeper.dump(text).is_ok() {
        return true;
    }
    memory_is_back(alloc);
    text.as_slice() == BEFORE && keeper.dump(text).is_ok()
}

// Whether a script shows the text; where it is refused, it is run anew.
fn is_shown(alloc: Global, keeper: &mut Keeper) -> bool {
    match shown(alloc, keeper) {
        Some(is_right) => is_right,
        None => {
            memory_is_back(alloc);
            shown(alloc, keeper) == Some(true)
        }
    }
}

// Whether a script shows what it should; nothing where it is refused.
fn shown(alloc: Global, keeper: &mut Keeper) -> Option<bool> {
    let mut reader = b"%state\n".as_slice();
    let mut output = Vec::new(alloc);
    let settings = Settings { stop: false };
    let status = run(alloc, keeper, &mut reader, &mut output, settings);
    judged(status, output.as_slice())
}

fn judged(status: Status, output: &[u8]) -> Option<bool> {
    match status {
        Status::Accepted => Some(output.strip_prefix(TEXT) == Some(COUNT)),
        Status::Refused if output == REFUSED => None,
        Status::NoMemory(_) | Status::WriteFailed => None,
        _ => Some(false),
    }
}
