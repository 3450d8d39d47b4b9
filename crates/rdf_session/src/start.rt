//! The dataset that a document makes, where a session begins with it: no net is made, and its quads are put in one by one.
ghost use Rattle.std.specs.Prelude.{◌≡◌, ◌∷◌, ◌++◌, [], OnOk};
ghost use Rattle.std.specs.Option.{option_copied};
ghost use Rattle.rdf_session.specs.Inside.Starting.{BeginsAt, Starts};
ghost use Rattle.rdf_session.specs.declared.format.Format.TheVariants.{Turtle};

use crate::fault::KeeperFault;
use crate::load::{LAST_NUMBER, quad_limit, read_in_turtle};
use rdf_dataset::{Dataset, Gathering};
use rdf_terms::{Iri, NoMemory, Quad};
use std::alloc::Global;
use std::marker::Model;

/// The quads of a document, from which a session begins. A contract sees the list of the quads.
#[derive(Drop)]
pub(crate) struct StartQuads {
    quads: Gathering,
    // the least number above those of their blank nodes, up to the last number and one more
    blanks: u64,
}

impl Model for StartQuads {
    ghost use Rattle.std.specs.Prelude.{◌≡◌, ◌+◌, List, min};
    ghost use Rattle.rdf_dataset.specs.State.{last_number};
    ghost use Rattle.rdf_session.specs.Request.{blank_limit};
    ghost use Rattle.rdf_terms.specs.Quad.{QuadParts};

    ghost Value = { List QuadParts };

    ghost view = { λ start. start.quads };

    ghost invariant = { λ start. start.blanks ≡ min (blank_limit start.quads) (last_number + 1) };
}

impl StartQuads {
    /// No quads. It takes no memory.
    pub(crate) fn new(alloc: Global) -> StartQuads
        ensures { result ≡ [] }
    {
        StartQuads {
            quads: Gathering::new(alloc),
            blanks: 0,
        }
    }

    /// Puts the quad behind the others.
    pub(crate) fn push(&mut self, quad: Quad) -> Result<(), NoMemory>
        ensures { OnOk result (self.new ≡ self.old ++ quad ∷ []) }
    {
        let limit = quad_limit(&quad);
        self.quads.push(quad)?;
        self.blanks = self.blanks.max(limit);
        Ok(())
    }

    /// The dataset that a load of these quads makes of an empty one.
    pub(crate) fn into_dataset(self) -> Result<Dataset, KeeperFault>
        ensures { Starts self result }
    {
        if self.blanks > LAST_NUMBER {
            return Err(KeeperFault::BlankNumbers);
        }
        Ok(self.quads.into_dataset(self.blanks)?)
    }
}

// The dataset that a load of the quads makes of an empty one.
fn started(alloc: Global, quads: Vec<Quad>) -> Result<Dataset, KeeperFault>
    ensures { Starts quads.items result }
{
    let mut start = StartQuads::new(alloc);
    for quad in quads {
        start.push(quad)?;
    }
    start.into_dataset()
}

/// The dataset that a load of a text of Turtle makes of an empty one. The text is let go as soon as it is read.
pub(crate) fn begin_in_turtle(
    alloc: Global,
    text: Vec<u8>,
    base: Option<&Iri>,
) -> Result<Dataset, KeeperFault>
    ensures { BeginsAt Turtle (option_copied base.entry) text.items result }
{
    match read_in_turtle(alloc, text.as_slice(), base) {
        Ok(quads) => {
            drop(text);
            started(alloc, quads)
        }
        Err(fault) => Err(fault),
    }
}
