//! Quads and the forms of look-ups, told by small numbers.

/// The possible quads.
pub const KEYS: u8 = 36;

/// The possible graph names, numbered from 1. No quad lies in the last graph.
pub const NAMES: u8 = 3;

/// A quad: its graph, 0 for the default one, and its terms.
#[derive(Clone, Copy, PartialEq)]
pub struct Key {
    pub graph: u8,
    pub subject: u8,
    pub predicate: u8,
    pub object: u8,
}

/// The possible quads in turn.
pub fn key_at(place: u8) -> Key {
    Key {
        graph: place % 3,
        subject: place / 3 % 2,
        predicate: place / 6 % 2,
        object: place / 12 % 3,
    }
}

/// Which places a look-up binds.
#[derive(Clone, Copy)]
pub struct Form {
    pub subject: bool,
    pub predicate: bool,
    pub object: bool,
}

/// The possible forms in turn.
pub fn form_at(place: u8) -> Form {
    Form {
        subject: place % 2 == 1,
        predicate: place / 2 % 2 == 1,
        object: place / 4 % 2 == 1,
    }
}

impl Form {
    /// Whether a quad has the graph of another and its terms in the bound places.
    pub fn fits(self, like: Key, key: Key) -> bool {
        key.graph == like.graph
            && (!self.subject || key.subject == like.subject)
            && (!self.predicate || key.predicate == like.predicate)
            && (!self.object || key.object == like.object)
    }
}
