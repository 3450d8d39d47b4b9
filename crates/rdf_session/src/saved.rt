//! The state text of a dataset, and the dataset of a state text.
ghost use Rattle.std.specs.Prelude.{◌≡◌, ◌++◌, ℕ, List, IfOk, MatchResult, OnErr, OnOk};
ghost use Rattle.rdf_dataset.specs.State.{IsSound, listed_state};
ghost use Rattle.rdf_session.specs.Inside.Saving.{TellsStateFault};
ghost use Rattle.rdf_session.specs.Saved.{IsTextOf};

use rdf_dataset::{Dataset, Source};
use rdf_lines::{StateFault, StateText, read_state, write_sorted_state};
use rdf_terms::NoMemory;
use std::alloc::Global;

/// Appends the state text of the dataset; a refusal leaves the vector as it was.
pub(crate) fn save(dataset: &Dataset, out: &mut Vec<u8>) -> Result<(), NoMemory>
    ensures ok { OnOk result ((text : List ℕ)
        × IsTextOf dataset.now text × (out.new.items ≡ out.old.items ++ text)) }
    ensures err { OnErr result (out.new.items ≡ out.old.items) }
{
    let names = dataset.names_sorted()?;
    let quads = dataset.quads()?;
    write_sorted_state(dataset.next_blank(), &names, &quads, out)
}

// The dataset of what a state text says.
fn dataset_of(alloc: Global, state: &StateText) -> Result<Dataset, NoMemory>
    requires { IsSound (listed_state state.now.next
        state.now.names.items state.now.quads.items) }
    ensures { IfOk result (λ dataset. dataset ≡ listed_state state.now.next
        state.now.names.items state.now.quads.items) }
{
    Dataset::from_state(alloc, state.next, &state.names, &state.quads)
}

/// The dataset of the sound state whose text the bytes are.
pub(crate) fn restored(alloc: Global, bytes: &[u8]) -> Result<Dataset, StateFault>
    ensures { MatchResult result
        (λ dataset. IsSound dataset × IsTextOf dataset bytes.now)
        (λ fault. TellsStateFault bytes.now fault) }
{
    let state = read_state(alloc, bytes)?;
    Ok(dataset_of(alloc, &state)?)
}

/// The dataset of the sound state whose text this is, which is let go as soon as it is read.
pub(crate) fn restored_text(alloc: Global, text: Vec<u8>) -> Result<Dataset, StateFault>
    ensures { MatchResult result
        (λ dataset. IsSound dataset × IsTextOf dataset text.items)
        (λ fault. TellsStateFault text.items fault) }
{
    let state = read_state(alloc, text.as_slice())?;
    drop(text);
    Ok(dataset_of(alloc, &state)?)
}
