//! What a run goes by: the generator, the table and the count of the steps.
use crate::compare::agree;
use crate::keys::{KEYS, NAMES};
use crate::model::Model;
use crate::table::Table;
use rand::SeedableRng;
use rand::rngs::StdRng;
use rand_core::Rng;
use rdf_dataset::Source;
use std::alloc::Global;

/// A run, with the number of the steps that agreed.
#[derive(Drop)]
pub struct Trial {
    pub alloc: Global,
    pub table: Table,
    pub agreed: u32,
    rng: StdRng,
}

impl Trial {
    pub fn new(alloc: Global, table: Table) -> Trial {
        Trial {
            alloc,
            table,
            agreed: 0,
            rng: StdRng::seed_from_u64(500),
        }
    }

    /// Any number.
    pub fn number(&mut self) -> u32 {
        self.rng.next_u32()
    }

    /// The number of a possible quad.
    pub fn quad_number(&mut self) -> u8 {
        (self.number() % KEYS as u32) as u8
    }

    /// The number of a possible name.
    pub fn name_number(&mut self) -> u8 {
        1 + (self.number() % NAMES as u32) as u8
    }

    /// Counts a step where the source holds what the model does.
    pub fn counts<D: Source>(&mut self, source: &D, model: &Model) -> bool {
        let place = self.quad_number() as usize;
        let same = agree(self.alloc, source, model, &self.table, place);
        if same {
            self.agreed = self.agreed.saturating_add(1);
        }
        same
    }
}
