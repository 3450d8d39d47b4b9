//! Marks: places in a history by name.
ghost use Rattle.std.specs.Prelude.{◌≡◌, ◌<◌, ◌≤◌, ◌^◌, OnOk, OnErr};
ghost use Rattle.std.specs.FinMap as marks;
ghost use Rattle.rdf_session.specs.History.{marks_behind, marks_upto};

use crate::places::Places;
use std::alloc::{AllocError, Global};
use std::marker::Model;

// So often a first place goes before the places are counted from nought again.
const MOST_GONE: usize = 1 << 62;

/// Places by name, each name once.
#[derive(Drop)]
pub struct Marks {
    // each so many places further on than it is; none lies before that place
    places: Places,
    gone: usize,
}

impl Model for Marks {
    ghost use Rattle.std.specs.Coded.{coded_list, coded_ℕ};
    ghost use Rattle.std.specs.FinMap as map;
    ghost use Rattle.std.specs.Prelude.{◌<◌, ◌^◌};
    ghost use Rattle.rdf_session.specs.History.{Marks as Seen, marks_behind};

    ghost Value = { Seen };

    ghost coded = { map.code (coded_list coded_ℕ) coded_ℕ };

    ghost view = { λ m. marks_behind m.gone m.places };

    ghost invariant = { λ m. m.gone < 2 ^ 62 };
}

impl Marks {
    /// No marks.
    pub fn new(alloc: Global) -> Marks
        ensures { result ≡ marks.empty }
    {
        Marks {
            places: Places::new(alloc),
            gone: 0,
        }
    }

    /// Where the name is.
    pub fn place_of(&self, name: &[u8]) -> Option<usize>
        ensures { result ≡ marks.get self.now name.now }
    {
        self.places.place_of(name)?.checked_sub(self.gone)
    }

    /// Puts the name at the place, and nowhere else.
    ///
    /// # Errors
    /// `AllocError` where memory is wanting: the marks are then as they were.
    pub fn put(&mut self, name: &[u8], place: usize) -> Result<(), AllocError>
        requires { place < 2 ^ 63 }
        ensures ok { OnOk result (self.new ≡ marks.insert self.old name.now place) }
        ensures err { OnErr result (self.new ≡ self.old) }
    {
        self.places.put(name, place + self.gone)
    }

    /// Drops the marks past the place. It looks at no others, and takes no memory.
    pub fn keep_through(&mut self, place: usize)
        requires { place < 2 ^ 63 }
        ensures { self.new ≡ marks_upto place self.old }
    {
        self.places.keep_through(place + self.gone);
    }

    /// Drops the marks at the first place, and lowers all others by one. It takes no memory, and looks only at those that
    /// it drops, but for once in 2^62 calls.
    pub fn fall(&mut self)
        ensures { self.new ≡ marks_behind 1 self.old }
    {
        self.gone += 1;
        self.places.keep_from(self.gone);
        if self.gone == MOST_GONE {
            self.places.lower(self.gone);
            self.gone = 0;
        }
    }

    /// Drops all.
    pub fn clear(&mut self)
        ensures { self.new ≡ marks.empty }
    {
        self.places.clear();
        self.gone = 0;
    }
}
