//! The data of an update: quads without variables (SPARQL 1.1 Update, sections 3.1.1 and 3.1.2).
ghost use Rattle.std.specs.Prelude.{◌≡◌, IfOk};
ghost use Rattle.rdf_terms.specs.Below.{AreBelow};
ghost use Rattle.sparql_trees.specs.Data.{DataParts};

use rdf_terms::{Items, NoMemory, Quad};
use std::alloc::Global;
use std::marker::Model;

/// What INSERT DATA brings: quads in the order of the text, and how many blank nodes they have,
/// which are numbered from 0 by the place where each stands first.
#[derive(Debug, Drop)]
pub struct Data {
    quads: Items<Quad>,
    blanks: u64,
}

impl Model for Data {
    ghost use Rattle.rdf_terms.specs.Below.{AreBelow};
    ghost use Rattle.sparql_trees.specs.Data.{DataParts, coded_data};

    ghost Value = { DataParts };

    ghost coded = { coded_data };

    ghost view = { λ d. record { quads = d.quads; blanks = d.blanks } };

    ghost invariant = { λ d. AreBelow d.blanks d.quads };
}

impl Data {
    /// These quads, whose blank nodes have the numbers below `blanks`. It takes no memory.
    pub fn new(quads: Items<Quad>, blanks: u64) -> Data
        requires { AreBelow blanks quads }
        ensures { result ≡ record { quads = quads; blanks = blanks } }
    {
        Data { quads, blanks }
    }

    /// The quads in order.
    pub fn quads(&self) -> &[Quad]
        ensures value { result.now ≡ self.now.quads }
        ensures below { AreBelow self.now.blanks self.now.quads }
    {
        self.quads.as_slice()
    }

    /// How many blank nodes the quads have.
    pub fn blanks(&self) -> u64
        ensures { result ≡ self.now.blanks }
    {
        self.blanks
    }
}

/// What DELETE DATA takes away: quads without blank nodes, in the order of the text.
#[derive(Debug, Drop)]
pub struct GroundData {
    deleted: Items<Quad>,
}

impl Model for GroundData {
    ghost use Rattle.std.specs.Prelude.{List};
    ghost use Rattle.std.specs.Coded.{coded_list};
    ghost use Rattle.rdf_terms.specs.Below.{AreBelow};
    ghost use Rattle.rdf_terms.specs.Codes.{coded_quad};
    ghost use Rattle.rdf_terms.specs.Quad.{QuadParts};

    ghost Value = { List QuadParts };

    ghost coded = { coded_list coded_quad };

    ghost view = { λ d. d.deleted };

    ghost invariant = { λ d. AreBelow 0 d.deleted };
}

impl GroundData {
    /// These quads, of which none has a blank node. It takes no memory.
    pub fn new(deleted: Items<Quad>) -> GroundData
        requires { AreBelow 0 deleted }
        ensures { result ≡ deleted }
    {
        GroundData { deleted }
    }

    /// The quads in order.
    pub fn quads(&self) -> &[Quad]
        ensures value { result.now ≡ self.now }
        ensures ground { AreBelow 0 self.now }
    {
        self.deleted.as_slice()
    }
}
