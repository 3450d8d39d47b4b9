//! Changes over a source that nobody reads before they are a net: nothing that comes is numbered or put in order by place.
ghost use Rattle.std.specs.Prelude.{◌≡◌, ◌≤◌, ◌+◌, ◌<◌, IfOk, OnOk, MatchOption};
ghost use Rattle.rdf_terms.specs.Below.{AreBelow, IsQuadBelow};
ghost use Rattle.rdf_dataset.specs.Insertion.{with_data};
ghost use Rattle.rdf_dataset.specs.State.{IsSound, last_number, net_between, with_blanks, with_quad, without_quad};
ghost use Rattle.rdf_dataset.specs.Staging.{Staging, staged};

use crate::insertion::quad_from;
use crate::loading::name_graph;
use crate::net::Net;
use crate::source::Source;
use crate::staged::LAST_NUMBER;
use rdf_sets::TreeDelta;
use rdf_terms::{NoMemory, Quad, Term};
use std::alloc::Global;
use std::marker::Model;

/// The contents beneath and those now, as a [`Staged`](crate::Staged) view has them, of which no quad and no name is
/// looked up: what is asked of them is the net alone. A call that is refused gives them up.
#[derive(Drop)]
pub struct Unread<'a, D: Source> {
    under: &'a D,
    quads: TreeDelta<Quad>,
    names: TreeDelta<Term>,
    after: u64,
    alloc: Global,
}

impl<'a, D: Source> Model for Unread<'a, D> {
    ghost use Rattle.std.specs.Prelude.{◌≡◌};
    ghost use Rattle.rdf_dataset.specs.Inside.Unread.{change_of};
    ghost use Rattle.rdf_dataset.specs.Staging.{Staging, staging_code};
    ghost use Rattle.rdf_dataset.specs.State.{applied, net_between, IsSound};

    ghost Value = { Staging };

    ghost coded = { staging_code };

    ghost view = { λ u. let s = D.contents u.under.now in record {
      under = s;
      now = applied (change_of u.quads.added u.quads.removed u.names.added u.names.removed s.next u.after) s;
    } };

    ghost invariant = { λ u. let s = D.contents u.under.now in
        let change = change_of u.quads.added u.quads.removed u.names.added u.names.removed s.next u.after in
        (change ≡ net_between s (applied change s)) × IsSound (applied change s) };
}

impl<'a, D: Source> Unread<'a, D> {
    /// Begins with the contents beneath. It takes no memory.
    pub fn over(alloc: Global, under: &'a D) -> Unread<'a, D>
        ensures { result ≡ record { under = D.contents under.now; now = D.contents under.now } }
    {
        Unread {
            under,
            quads: TreeDelta::none(alloc),
            names: TreeDelta::none(alloc),
            after: under.next_blank(),
            alloc,
        }
    }

    /// The net between what lies beneath and the contents now.
    ///
    /// # Errors
    /// [`NoMemory`] where memory is wanting.
    pub fn into_net(self) -> Result<Net, NoMemory>
        ensures net { IfOk result (λ net. net ≡ net_between self.entry.under self.entry.now) }
        ensures sound { IsSound self.entry.now }
    {
        let Unread {
            under,
            quads,
            names,
            after,
            alloc,
        } = self;
        Ok(Net {
            quads: quads.into_delta(alloc)?,
            names: names.into_delta(alloc)?,
            before: under.next_blank(),
            after,
        })
    }

    /// Adds a quad and its graph's name.
    ///
    /// # Errors
    /// [`NoMemory`] where memory is wanting.
    pub fn insert(self, quad: Quad) -> Result<Unread<'a, D>, NoMemory>
        requires below { IsQuadBelow self.now.next quad }
        ensures { IfOk result (λ more. more ≡ staged self.entry (with_quad self.entry.now quad)) }
    {
        let Unread {
            under,
            mut quads,
            mut names,
            after,
            alloc,
        } = self;
        let beneath = under.contains(&quad);
        name_graph(&mut names, under, &quad)?;
        quads.insert(beneath, quad)?;
        Ok(Unread {
            under,
            quads,
            names,
            after,
            alloc,
        })
    }

    /// Takes a quad out. Its graph keeps the name.
    ///
    /// # Errors
    /// [`NoMemory`] where memory is wanting.
    pub fn remove(self, quad: &Quad) -> Result<Unread<'a, D>, NoMemory>
        ensures { IfOk result (λ less. less ≡ staged self.entry (without_quad self.entry.now quad.now)) }
    {
        let Unread {
            under,
            mut quads,
            names,
            after,
            alloc,
        } = self;
        let beneath = under.contains(quad);
        quads.remove(beneath, quad)?;
        Ok(Unread {
            under,
            quads,
            names,
            after,
            alloc,
        })
    }

    /// Takes the next blank numbers, or answers `None` where the counter would pass the last number. It takes no
    /// memory.
    pub fn take_blanks(self, count: u64) -> Option<Unread<'a, D>>
        ensures { MatchOption result (last_number < self.entry.now.next + count)
            (λ more. (self.entry.now.next + count ≤ last_number)
            × (more ≡ staged self.entry (with_blanks self.entry.now count))) }
    {
        let Unread {
            under,
            quads,
            names,
            after,
            alloc,
        } = self;
        if after > LAST_NUMBER || count > LAST_NUMBER - after {
            return None;
        }
        Some(Unread {
            under,
            quads,
            names,
            after: after + count,
            alloc,
        })
    }

    /// Inserts the quads of a document or of INSERT DATA, as [`Staged::insert_data`](crate::Staged::insert_data) does,
    /// or answers `None` where the counter would pass the last number.
    ///
    /// # Errors
    /// [`NoMemory`] where memory is wanting.
    pub fn insert_data(
        self,
        quads: Vec<Quad>,
        blanks: u64,
    ) -> Result<Option<Unread<'a, D>>, NoMemory>
        requires below { AreBelow blanks quads.items }
        ensures { IfOk result (λ answer. MatchOption answer
            (last_number < self.entry.now.next + blanks)
            (λ more. (self.entry.now.next + blanks ≤ last_number)
            × (more ≡ staged self.entry (with_data self.entry.now quads.items blanks)))) }
    {
        let first = self.after;
        let Some(mut more) = self.take_blanks(blanks) else {
            return Ok(None);
        };
        for quad in quads {
            more = more.insert(quad_from(first, quad))?;
        }
        Ok(Some(more))
    }
}
