//! What a part tells.
use std::fmt;

/// What a part found, and where it has places at which a refusal is told, which of them that was.
#[derive(Clone, Copy)]
pub struct Told {
    name: &'static str,
    text: &'static str,
    refused_at: Option<u64>,
}

impl Told {
    /// What a part found, in words.
    pub fn new(text: &'static str) -> Told {
        Told {
            name: "",
            text,
            refused_at: None,
        }
    }

    /// Whether what a part has of the name was kept from a refusal.
    pub fn kept(name: &'static str, is_kept: bool) -> Told {
        let text = if is_kept {
            ": as without a refusal"
        } else {
            ": changed by a refusal"
        };
        Told {
            name,
            text,
            refused_at: None,
        }
    }

    /// The same, of a part that was refused at the place, if it was.
    pub fn at(self, refused_at: Option<u64>) -> Told {
        Told {
            name: self.name,
            text: self.text,
            refused_at,
        }
    }
}

impl fmt::Display for Told {
    fn fmt<W: fmt::Write>(&self, f: &mut fmt::Formatter<W>) -> fmt::Result {
        match self.refused_at {
            Some(place) => write!(f, "{}{}, refused at {place}", self.name, self.text),
            None => write!(f, "{}{}", self.name, self.text),
        }
    }
}
