//! Datasets that go along nets, forwards and back.
ghost use Rattle.std.specs.Prelude.{◌≡◌, OnOk};
ghost use Rattle.rdf_dataset.specs.State.{State, Begins, Ends, net_between};

use plain_dataset::PlainDataset;
use rdf_dataset::{Dataset, Net, Source};
use rdf_terms::NoMemory;

/// A dataset that goes along nets, forwards and back.
pub trait Revertible: Source {
    /// Goes to the state where a net that begins here ends.
    fn commit(&mut self, net: &Net) -> Result<(), NoMemory>
        requires { Begins net.now (Self.contents self.old) }
        ensures { OnOk result ((t : State) → net.now ≡ net_between (Self.contents self.old) t →
            Self.contents self.new ≡ t) };

    /// Goes back to the state where a net that ends here begins.
    fn revert(&mut self, net: &Net) -> Result<(), NoMemory>
        requires { Ends net.now (Self.contents self.old) }
        ensures { OnOk result (Begins net.now (Self.contents self.new)) };
}

impl Revertible for Dataset {
    fn commit(&mut self, net: &Net) -> Result<(), NoMemory> {
        Dataset::commit(self, net)
    }

    fn revert(&mut self, net: &Net) -> Result<(), NoMemory> {
        Dataset::revert(self, net)
    }
}

impl Revertible for PlainDataset {
    fn commit(&mut self, net: &Net) -> Result<(), NoMemory> {
        PlainDataset::commit(self, net)
    }

    fn revert(&mut self, net: &Net) -> Result<(), NoMemory> {
        PlainDataset::revert(self, net)
    }
}
