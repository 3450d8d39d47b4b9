//! The net that quads make which go, and others that come in their place, at once: no view is staged for it.
ghost use Rattle.std.specs.Prelude.{◌≡◌, ◌≤◌, ◌+◌, IfOk, OnOk};
ghost use Rattle.std.specs.FinSet as set;
ghost use Rattle.rdf_terms.specs.Below.{AreBelow};
ghost use Rattle.rdf_terms.specs.Order.{quad_cmp};
ghost use Rattle.rdf_dataset.specs.Exchange.{exchanged};
ghost use Rattle.rdf_dataset.specs.State.{IsSound, last_number, net_between};

use crate::loading::{new_names, new_quads};
use crate::net::Net;
use crate::source::Source;
use rdf_sets::{Delta, Sorted};
use rdf_terms::{NoMemory, Quad};
use std::alloc::Global;

// Those of the quads that the source has and that don't come again, each once, in order.
fn lost_quads<D: Source>(under: &D, gone: Vec<Quad>, come: &Sorted<Quad>) -> Sorted<Quad>
    ensures { let s = (D.contents under.now).quads in set.from_list {R = quad_cmp} result
        ≡ set.difference s (set.union (set.difference s (set.from_list gone.items))
        (set.from_list come.now)) }
{
    let mut there = gone;
    there.retain(|quad| under.contains(quad));
    let mut lost = Sorted::from_list(there);
    lost.subtract(come.as_slice());
    lost
}

impl Net {
    /// The net from what the source holds to what it holds once the first quads have gone, `blanks` blank
    /// numbers are taken, and then the others have come in with the names of their graphs. A quad that goes
    /// and comes again is neither added nor removed.
    ///
    /// # Errors
    /// [`NoMemory`] where memory is wanting.
    pub fn of_exchange<D: Source>(
        alloc: Global,
        under: &D,
        gone: Vec<Quad>,
        blanks: u64,
        come: Vec<Quad>,
    ) -> Result<Net, NoMemory>
        requires room { (D.contents under.now).next + blanks ≤ last_number }
        requires below { AreBelow ((D.contents under.now).next + blanks) come.items }
        ensures net { let s = D.contents under.now in
            IfOk result (λ net. net ≡ net_between s (exchanged s gone.items blanks come.items)) }
        ensures sound { let s = D.contents under.now in
            OnOk result (IsSound (exchanged s gone.items blanks come.items)) }
    {
        let first = under.next_blank();
        let names = new_names(alloc, under, &come)?;
        let come = Sorted::from_list(come);
        let removed = lost_quads(under, gone, &come);
        Ok(Net {
            quads: Delta {
                added: new_quads(under, come.into_vec()),
                removed,
            },
            names,
            before: first,
            after: first + blanks,
        })
    }
}
