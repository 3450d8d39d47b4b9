//! Nets one after another, composed.
ghost use Rattle.std.specs.Prelude.{◌≡◌, [], ◌∷◌, ◌++◌, IfOk, IfSome, IfNone};
ghost use Rattle.rdf_dataset.specs.Chains.{Leads};
ghost use Rattle.rdf_dataset.specs.State.{State, net_between};

use crate::net::Net;
use rdf_terms::NoMemory;
use std::alloc::Global;

impl Net {
    /// The net from where the first of a chain of nets begins to where the last ends; of no nets, the one from any
    /// state with this counter to itself. Neighbours are composed once the later has grown to half the size of the
    /// earlier, as the runs of a merge sort are: with k quads and names in all nets it takes k log k steps, and each
    /// net is copied once.
    ///
    /// # Errors
    /// [`NoMemory`] where memory is wanting.
    pub fn of_chain(alloc: Global, nets: &[Net], counter: u64) -> Result<Net, NoMemory>
        ensures { IfOk result (λ net. (s t : State) → Leads s nets.now t →
            counter ≡ t.next → net ≡ net_between s t) }
    {
        let mut runs = Vec::new(alloc);
        for net in nets {
            let run = grown(&mut runs, net.copy()?)?;
            runs.push(run)?;
        }
        let Some(mut whole) = runs.pop() else {
            return Ok(Net::empty(alloc, counter));
        };
        while let Some(earlier) = runs.pop() {
            whole = earlier.joined(whole)?;
        }
        Ok(whole)
    }
}

// The net behind the runs, with those before it that it has grown to half the size of. Those that it outgrows at once
// are composed without it first, so that a large net behind many small ones is merged once.
fn grown(runs: &mut Vec<Net>, net: Net) -> Result<Net, NoMemory>
    ensures { IfOk result (λ run. (s t : State) → Leads s (runs.old.items ++ net ∷ []) t →
        Leads s (runs.new.items ++ run ∷ []) t) }
{
    let mut run = behind_smaller(runs, net)?;
    while let Some(earlier) = pop_up_to(runs, run.size().saturating_mul(2)) {
        run = earlier.joined(run)?;
    }
    Ok(run)
}

// The net behind the runs, with those before it that are no larger: these are composed first.
fn behind_smaller(runs: &mut Vec<Net>, net: Net) -> Result<Net, NoMemory>
    ensures { IfOk result (λ run. (s t : State) → Leads s (runs.old.items ++ net ∷ []) t →
        Leads s (runs.new.items ++ run ∷ []) t) }
{
    let size = net.size();
    let Some(mut smaller) = pop_up_to(runs, size) else {
        return Ok(net);
    };
    while let Some(earlier) = pop_up_to(runs, size) {
        smaller = earlier.joined(smaller)?;
    }
    smaller.joined(net)
}

// Takes the last run where it is no larger than this.
fn pop_up_to(runs: &mut Vec<Net>, size: usize) -> Option<Net>
    ensures some { IfSome result (λ run. runs.old.items ≡ runs.new.items ++ run ∷ []) }
    ensures none { IfNone result (runs.new.items ≡ runs.old.items) }
{
    let last = runs.last()?;
    if last.size() > size {
        return None;
    }
    runs.pop()
}
