//! A dataset that is made of quads as they come, one by one: no list of quads is held.
ghost use Rattle.std.specs.Prelude.{◌≡◌, ◌≤◌, ◌∷◌, ◌++◌, [], IfOk, OnOk, OnErr};
ghost use Rattle.rdf_terms.specs.Below.{AreBelow};
ghost use Rattle.rdf_dataset.specs.Insertion.{with_data};
ghost use Rattle.rdf_dataset.specs.State.{empty_state, last_number};

use crate::dataset::Dataset;
use rdf_store::QuadList;
use rdf_terms::{NoMemory, Quad};
use std::alloc::Global;
use std::marker::Model;

/// Quads in the order in which they came, from which a dataset is made. Each term is kept once, and a
/// quad is four numbers. A contract sees the list of the quads.
#[derive(Drop)]
pub struct Gathering {
    quads: QuadList,
    alloc: Global,
}

impl Model for Gathering {
    ghost use Rattle.std.specs.Prelude.{List};
    ghost use Rattle.rdf_terms.specs.Quad.{QuadParts};

    ghost Value = { List QuadParts };

    ghost view = { λ g. g.quads };
}

impl Gathering {
    /// No quads. It takes no memory.
    pub fn new(alloc: Global) -> Gathering
        ensures { result ≡ [] }
    {
        Gathering {
            quads: QuadList::new(alloc),
            alloc,
        }
    }

    /// Puts the quad behind the others. Of its terms the new ones are kept.
    ///
    /// # Errors
    /// [`NoMemory`] where memory is wanting: the quads are those of before then.
    pub fn push(&mut self, quad: Quad) -> Result<(), NoMemory>
        ensures ok { OnOk result (self.new ≡ self.old ++ quad ∷ []) }
        ensures err { OnErr result (self.new ≡ self.old) }
    {
        self.quads.push(&quad)
    }

    /// The dataset that these quads make of an empty one, with the names of their graphs, whose blank
    /// nodes have the numbers below `blanks`. That is the number of its next one.
    ///
    /// # Errors
    /// [`NoMemory`] where memory is wanting.
    pub fn into_dataset(self, blanks: u64) -> Result<Dataset, NoMemory>
        requires below { AreBelow blanks self }
        requires limit { blanks ≤ last_number }
        ensures { IfOk result (λ dataset. dataset ≡ with_data (empty_state 0) self blanks) }
    {
        let store = self.quads.into_store()?;
        Ok(Dataset {
            store,
            next: blanks,
            alloc: self.alloc,
        })
    }
}
