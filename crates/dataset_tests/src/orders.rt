//! The cases of sets of numbers in three orders. Quads are lists `A B C D, A B C D`, and `*` is a free place. What a look-up finds is
//! appended to what those before it found.
use crate::answer::{Answer, Verdict};
use crate::case::{Case, Line};
use rdf_orders::{Key, Order, Orders, QuadSets, Walk, look_up};
use std::alloc::Global;

// The sets, and what look-ups found.
#[derive(Drop)]
struct Sets {
    sets: QuadSets,
    found: Vec<Key>,
}

pub(crate) fn judge<'a>(alloc: Global, case: Case<'a>, verdict: &mut Verdict<'a>) {
    let mut sets = Sets {
        sets: QuadSets::new(alloc),
        found: Vec::new(alloc),
    };
    for text in case.lines("sets") {
        let line = Line::new(text);
        let answer = sets.answer(alloc, line);
        verdict.hear(alloc, line, answer);
    }
}

impl Sets {
    fn answer(&mut self, alloc: Global, line: Line<'_>) -> Option<Answer> {
        match line.word {
            "insert" => self.insert(line.rest),
            "add_name" => self.add_name(line.rest),
            "remove" => Some(Answer::Flag(self.sets.remove(&key(line.rest)?))),
            "has" => Some(Answer::Flag(self.sets.contains(&key(line.rest)?))),
            "list" => self.list(alloc, line.rest),
            "found" => self.is_found(alloc, line.rest),
            _ => self.look(alloc, line),
        }
    }

    fn look(&mut self, alloc: Global, line: Line<'_>) -> Option<Answer> {
        match line.word {
            "matches" => self.matches(alloc, line.rest),
            "some" => self.some(alloc, line.rest),
            "walk" => self.walk(alloc, line.rest),
            "next" => self.next(line.rest),
            "from" => self.from(line.rest),
            _ => None,
        }
    }

    fn insert(&mut self, text: &str) -> Option<Answer> {
        let key = key(text)?;
        Some(Answer::Flag(self.sets.insert(&key).ok()?))
    }

    fn add_name(&mut self, text: &str) -> Option<Answer> {
        let name = text.parse::<u64>().ok()?;
        Some(Answer::Flag(self.sets.add_name(name).ok()?))
    }

    // New sets, of the list.
    fn list(&mut self, alloc: Global, text: &str) -> Option<Answer> {
        self.sets = listed(alloc, keys(alloc, text)?)?;
        Some(Answer::Flag(true))
    }

    fn is_found(&self, alloc: Global, text: &str) -> Option<Answer> {
        let wanted = keys(alloc, text)?;
        Some(Answer::Flag(self.found.as_slice() == wanted.as_slice()))
    }

    fn matches(&mut self, alloc: Global, text: &str) -> Option<Answer> {
        let [graph, subject, predicate, object] = places(text);
        let found = &mut self.found;
        let looked = self
            .sets
            .matches(alloc, graph?, subject, predicate, object, found)
            .ok()?;
        Some(Answer::Number(looked as u64))
    }

    // Whether at most so many are all.
    fn some(&mut self, alloc: Global, text: &str) -> Option<Answer> {
        let (most, text) = text.split_once(' ')?;
        let most = most.parse::<usize>().ok()?;
        let [graph, subject, predicate, object] = places(text);
        let found = &mut self.found;
        let all = self
            .sets
            .some_matches(alloc, graph?, subject, predicate, object, most, found)
            .ok()?;
        Some(Answer::Flag(all))
    }

    // How many keys a walk answers in a look-up.
    fn walk(&mut self, alloc: Global, text: &str) -> Option<Answer> {
        let [graph, subject, predicate, object] = places(text);
        let mut walk = Walk::over(&self.sets);
        let found = &mut self.found;
        look_up(alloc, &mut walk, graph?, subject, predicate, object, found).ok()?;
        Some(Answer::Number(walk.count() as u64))
    }

    // Whether there is a key of a graph in `Spo` behind the other one; if so, it is found.
    fn next(&mut self, text: &str) -> Option<Answer> {
        let (graph, after) = text.split_once(' ')?;
        let graph = graph.parse::<u64>().ok()?;
        let mut walk = Walk::over(&self.sets);
        match walk.next_in(Order::Spo, &[graph], Some(&key(after)?)) {
            Some(next) => {
                self.found.push(next).ok()?;
                Some(Answer::Flag(true))
            }
            None => Some(Answer::Flag(false)),
        }
    }

    // How many keys there are from the graph on; they are found.
    fn from(&mut self, text: &str) -> Option<Answer> {
        let graph = text.parse::<u64>().ok()?;
        let mut count = 0u64;
        for key in self.sets.keys_from(graph) {
            self.found.push(key).ok()?;
            count = count.saturating_add(1);
        }
        Some(Answer::Number(count))
    }
}

fn listed(alloc: Global, keys: Vec<Key>) -> Option<QuadSets> {
    let mut sets = QuadSets::new(alloc);
    sets.insert_list(keys, &[]).ok()?;
    Some(sets)
}

// A word that is no number is a free place, as `*` is.
fn places(text: &str) -> [Option<u64>; 4] {
    let mut words = text.split(' ');
    [
        number(words.next()),
        number(words.next()),
        number(words.next()),
        number(words.next()),
    ]
}

fn number(word: Option<&str>) -> Option<u64> {
    word?.parse::<u64>().ok()
}

fn key(text: &str) -> Option<Key> {
    let [graph, subject, predicate, object] = places(text);
    Some([graph?, subject?, predicate?, object?])
}

fn keys(alloc: Global, text: &str) -> Option<Vec<Key>> {
    let mut keys = Vec::new(alloc);
    for text in text.split(", ") {
        keys.push(key(text)?).ok()?;
    }
    Some(keys)
}
