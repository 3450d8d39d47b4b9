//! Places by name, and names by place.
ghost use Rattle.std.specs.Prelude.{◌≡◌, ◌≢◌, ◌+◌, ◌<◌, ◌≤◌, length, Some, None, IfSome, IfNone, OnOk, OnErr};
ghost use Rattle.std.specs.FinMap as marks;
ghost use Rattle.std.specs.List.{AllByRecursion};
ghost use Rattle.rdf_session.specs.History.{marks_from, marks_lower, marks_upto};
ghost use Rattle.rdf_session.specs.Inside.Marks.{Takes};

use std::alloc::{AllocError, Global};
use std::collections::{BTreeMap, BTreeSet};
use std::marker::Model;

// a name at a place
type Spot = (usize, Vec<u8>);

/// Where each name is, each name once.
#[derive(Drop)]
pub struct Places {
    by_name: BTreeMap<Vec<u8>, usize>,
    // the same, the furthest last
    by_place: BTreeSet<Spot>,
    // whether all are there too: so it is until they are lowered
    listed: bool,
    alloc: Global,
}

impl Model for Places {
    ghost use Rattle.std.specs.Coded.{coded_list, coded_ℕ};
    ghost use Rattle.std.specs.FinMap as map;
    ghost use Rattle.rdf_session.specs.History.{Marks};
    ghost use Rattle.rdf_session.specs.Inside.Marks.{Lists, marks_of};

    ghost Value = { Marks };

    ghost coded = { map.code (coded_list coded_ℕ) coded_ℕ };

    ghost view = { λ p. marks_of p.by_name.entries };

    ghost invariant = { λ p. Lists p.listed p.by_place.keys (marks_of p.by_name.entries) };
}

impl Places {
    /// No names.
    pub fn new(alloc: Global) -> Places
        ensures { result ≡ marks.empty }
    {
        Places {
            by_name: BTreeMap::new(alloc),
            by_place: BTreeSet::new(alloc),
            listed: true,
            alloc,
        }
    }

    /// Where the name is.
    pub fn place_of(&self, name: &[u8]) -> Option<usize>
        ensures { result ≡ marks.get self.now name.now }
    {
        self.by_name.get(name).copied()
    }

    /// Puts the name at the place, and nowhere else. Where it is there already it takes no memory.
    ///
    /// # Errors
    /// `AllocError` where memory is wanting: all is then as it was.
    pub fn put(&mut self, name: &[u8], place: usize) -> Result<(), AllocError>
        ensures ok { OnOk result (self.new ≡ marks.insert self.old name.now place) }
        ensures err { OnErr result (self.new ≡ self.old) }
    {
        let before = self.place_of(name);
        if before == Some(place) {
            return Ok(());
        }
        let spot = (place, Vec::from_slice(self.alloc, name)?);
        let name = Vec::from_slice(self.alloc, name)?;
        match before {
            Some(old) => self.shift((old, name), spot),
            None => self.add(name, spot),
        }
    }

    // Puts a name that is nowhere at its spot.
    fn add(&mut self, name: Vec<u8>, spot: Spot) -> Result<(), AllocError>
        requires nowhere { marks.get self.old name.items ≡ None }
        requires same_name { spot.1.items ≡ name.items }
        ensures ok { OnOk result (self.new ≡ marks.insert self.old name.items spot.0) }
        ensures err { OnErr result (self.new ≡ self.old) }
    {
        self.by_name.insert(name, spot.0)?;
        if let Err(refused) = self.by_place.insert(spot) {
            self.by_name.remove(&refused.value.1);
            return Err(refused.into());
        }
        Ok(())
    }

    // Moves a name from its spot to another.
    fn shift(&mut self, old: Spot, new: Spot) -> Result<(), AllocError>
        requires there { marks.get self.old old.1.items ≡ Some old.0 }
        requires same_name { new.1.items ≡ old.1.items }
        requires elsewhere { new.0 ≢ old.0 }
        ensures ok { OnOk result (self.new ≡ marks.insert self.old new.1.items new.0) }
        ensures err { OnErr result (self.new ≡ self.old) }
    {
        let place = new.0;
        self.by_place.insert(new)?;
        self.by_place.remove(&old);
        if let Some(at) = self.by_name.get_mut(&old.1) {
            *at = place;
        }
        Ok(())
    }

    /// Drops the names past the place. It looks at no others while all are listed by place, and takes no memory.
    pub fn keep_through(&mut self, place: usize)
        ensures { self.new ≡ marks_upto place self.old }
    {
        while let Some((_, name)) = pop_past(&mut self.by_place, place) {
            self.by_name.remove(&name);
        }
        if !self.listed {
            self.by_name.retain(|_, at| *at <= place);
        }
    }

    /// Drops the names before the place. It looks at no others while all are listed by place, and takes no memory.
    pub fn keep_from(&mut self, place: usize)
        ensures { self.new ≡ marks_from place self.old }
    {
        while let Some((_, name)) = pop_before(&mut self.by_place, place) {
            self.by_name.remove(&name);
        }
        if !self.listed {
            self.by_name.retain(|_, at| *at >= place);
        }
    }

    /// Lowers all places by so many. It looks at all and takes no memory, so they are listed by place no longer.
    pub fn lower(&mut self, count: usize)
        ensures { self.new ≡ marks_lower count self.old }
    {
        self.by_place.clear();
        self.listed = false;
        self.by_name.retain(|_, at| {
            *at = at.saturating_sub(count);
            true
        });
    }

    /// Drops all.
    pub fn clear(&mut self)
        ensures { self.new ≡ marks.empty }
    {
        self.by_name.clear();
        self.by_place.clear();
        self.listed = true;
    }
}

// Takes the last spot where it lies past the place.
fn pop_past(spots: &mut BTreeSet<Spot>, place: usize) -> Option<Spot>
    ensures some { IfSome result (λ spot. (place < spot.0) × Takes spot spots.old.keys spots.new.keys) }
    ensures none { IfNone result ((spots.new.keys ≡ spots.old.keys)
        × AllByRecursion (λ spot. spot.0 ≤ place) spots.old.keys) }
{
    if spots.last()?.0 <= place {
        return None;
    }
    spots.pop_last()
}

// Takes the first spot where it lies before the place.
fn pop_before(spots: &mut BTreeSet<Spot>, place: usize) -> Option<Spot>
    ensures some { IfSome result (λ spot. (spot.0 < place) × Takes spot spots.old.keys spots.new.keys) }
    ensures none { IfNone result ((spots.new.keys ≡ spots.old.keys)
        × AllByRecursion (λ spot. place ≤ spot.0) spots.old.keys) }
{
    if spots.first()?.0 >= place {
        return None;
    }
    spots.pop_first()
}
