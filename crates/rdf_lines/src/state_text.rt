//! The state text: a sound state of a dataset as bytes, each state one text.
ghost use Rattle.std.specs.Prelude.{◌≡◌, IfOk, IsErrOf};
ghost use Rattle.rdf_terms.specs.Lists.{ListsSorted};
ghost use Rattle.rdf_lines.specs.StateText.{names_of, quads_of, IsSoundState, IsStateText, IsNoStateText, StateTextIsOne, StateTextsDiffer};
ghost use Rattle.rdf_lines.specs.declared.state_text.fault.StateFault.TheVariants.{NotState};

mod check;
mod fault;
mod lines;
mod number;
mod parts;
mod said;
mod write;

use check::is_sound;
pub use fault::StateFault;
use parts::read_parts;
use rdf_terms::{Quad, Term};
use std::alloc::Global;
pub use write::{write_sorted_state, write_state};

/// What a state text says: the number of the next blank node, the graphs' names, and the quads.
#[derive(Debug, Drop)]
pub struct StateText {
    /// The number of the next blank node.
    pub next: u64,
    /// The graphs' names, each once, in order.
    pub names: Vec<Term>,
    /// The quads, each once, in order.
    pub quads: Vec<Quad>,
}

/// The state whose text the bytes are.
///
/// # Errors
/// [`StateFault::NotState`] where they are the text of no sound state; [`StateFault::NoMemory`] where
/// memory is wanting.
pub fn read_state(alloc: Global, bytes: &[u8]) -> Result<StateText, StateFault>
    ensures sound { IfOk result (λ s. IsSoundState s.next
        (names_of s.names.items) (quads_of s.quads.items)) }
    ensures names { IfOk result (λ s. ListsSorted (names_of s.names.items) s.names.items) }
    ensures quads { IfOk result (λ s. ListsSorted (quads_of s.quads.items) s.quads.items) }
    ensures text { IfOk result (λ s. IsStateText s.next
        (names_of s.names.items) (quads_of s.quads.items) bytes.now) }
    ensures not_state { IsErrOf result NotState → IsNoStateText bytes.now }
{
    let Some(state) = read_parts(alloc, bytes)? else {
        return Err(StateFault::NotState);
    };
    if is_sound(&state) {
        Ok(state)
    } else {
        Err(StateFault::NotState)
    }
}

/// Each state has one text.
pub fn state_text_is_one()
    ensures { StateTextIsOne }
{}

/// No two sound states share a text.
pub fn state_texts_differ()
    ensures { StateTextsDiffer }
{}
