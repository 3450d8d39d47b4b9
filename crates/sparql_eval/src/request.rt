//! Requests, one operation after another.
ghost use Rattle.std.specs.Prelude.{◌≡◌, IfErr, OnOk};
ghost use Rattle.rdf_dataset.specs.State.{IsSound};
ghost use Rattle.sparql_eval.specs.Operations.{Tells, step, steps};

use crate::fault::ApplyFault;
use crate::modify::modify;
use crate::operations::{is_silent, obstacle, perform};
use rdf_dataset::{Source, Staged};
use rdf_terms::Vocabulary;
use sparql_trees::{Operation, Request};
use std::alloc::Global;

fn act<S: Source>(
    alloc: Global,
    vocabulary: &Vocabulary,
    operation: &Operation,
    staged: &mut Staged<'_, S>,
) -> Result<(), ApplyFault>
    ensures leads { OnOk result (step staged.old.now operation.now ≡ Ok staged.new.now) }
    ensures refused { IfErr result (λ fault. Tells (step staged.old.now operation.now) fault) }
    ensures beneath { staged.new.under ≡ staged.old.under }
{
    if let Operation::Modify(operation) = operation {
        return modify(alloc, vocabulary, operation, staged);
    }
    if let Some(fault) = obstacle(operation, staged)? {
        return if is_silent(operation) {
            Ok(())
        } else {
            Err(fault)
        };
    }
    Ok(perform(alloc, operation, staged)?)
}

/// Lets operations act on a staged view in their order.
///
/// # Errors
/// Those of [`apply`].
pub(crate) fn apply_each<S: Source>(
    alloc: Global,
    vocabulary: &Vocabulary,
    operations: &[Operation],
    staged: &mut Staged<'_, S>,
) -> Result<(), ApplyFault>
    ensures leads { OnOk result (steps staged.old.now operations.now ≡ Ok staged.new.now) }
    ensures refused { IfErr result (λ fault. Tells (steps staged.old.now operations.now) fault) }
    ensures beneath { staged.new.under ≡ staged.old.under }
{
    for operation in operations {
        staged.settle()?;
        act(alloc, vocabulary, operation, staged)?;
    }
    Ok(())
}

/// Lets the operations of a request act on a staged view in their order.
///
/// # Errors
/// The first refusal of an operation that isn't SILENT: [`ApplyFault::MissingGraph`] where a graph
/// that it names isn't there, [`ApplyFault::GraphExists`] where one that it makes is, and, SILENT
/// or not, [`ApplyFault::BlankNumbers`] where its new blank nodes, those of its data or of all its
/// solutions, would bring the counter past 10^18. [`ApplyFault::NoMemory`] where memory is wanting.
/// The view is to be given up then; what lies beneath is as it was.
pub fn apply<S: Source>(
    alloc: Global,
    request: &Request,
    staged: &mut Staged<'_, S>,
) -> Result<(), ApplyFault>
    ensures leads { OnOk result (steps staged.old.now request.now.operations ≡ Ok staged.new.now) }
    ensures refused { IfErr result
        (λ fault. Tells (steps staged.old.now request.now.operations) fault) }
    ensures beneath { staged.new.under ≡ staged.old.under }
{
    let vocabulary = Vocabulary::new(alloc)?;
    apply_with(alloc, &vocabulary, request, staged)
}

/// What [`apply`] does, with a vocabulary that is lent: whoever applies many requests makes it once.
///
/// # Errors
/// Those of [`apply`].
pub fn apply_with<S: Source>(
    alloc: Global,
    vocabulary: &Vocabulary,
    request: &Request,
    staged: &mut Staged<'_, S>,
) -> Result<(), ApplyFault>
    ensures leads { OnOk result (steps staged.old.now request.now.operations ≡ Ok staged.new.now) }
    ensures refused { IfErr result
        (λ fault. Tells (steps staged.old.now request.now.operations) fault) }
    ensures beneath { staged.new.under ≡ staged.old.under }
{
    apply_each(alloc, vocabulary, request.operations.as_slice(), staged)
}
