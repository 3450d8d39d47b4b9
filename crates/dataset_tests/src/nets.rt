//! What is asked of nets.
use crate::answer::{Answer, Verdict};
use crate::case::Line;
use rdf_dataset::Net;
use std::alloc::Global;
use std::str::Lines;

/// Asks each line of a net.
pub(crate) fn ask_net<'a>(alloc: Global, net: &Net, lines: Lines<'a>, verdict: &mut Verdict<'a>) {
    for text in lines {
        let line = Line::new(text);
        verdict.hear(alloc, line, ask(alloc, net, line));
    }
}

// What the net, the way back, both one after the other, or the empty net of a counter have.
fn ask(alloc: Global, net: &Net, line: Line<'_>) -> Option<Answer> {
    match line.word {
        "there" => Some(all_of(net)),
        "back" => Some(all_of(&net.copy().ok()?.reversed())),
        "there_and_back" => there_and_back(net),
        "empty" => Some(all_of(&Net::empty(alloc, line.rest.parse::<u64>().ok()?))),
        _ => None,
    }
}

fn there_and_back(net: &Net) -> Option<Answer> {
    let back = net.copy().ok()?.reversed();
    behind(net, &back)
}

fn behind(net: &Net, next: &Net) -> Option<Answer> {
    match net.then(next) {
        Ok(both) => Some(all_of(&both)),
        Err(_) => None,
    }
}

fn all_of(net: &Net) -> Answer {
    let sizes = [
        net.added().len(),
        net.names_added().len(),
        net.removed().len(),
        net.names_removed().len(),
    ];
    Answer::Net(sizes, net.before(), net.after())
}
