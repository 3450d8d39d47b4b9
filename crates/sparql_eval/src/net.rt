//! What a request makes of what a source holds, as a net. A view is staged for operations whose outcome a later one
//! reads, and for no others, such as those of an editor: terms that these bring are numbered by whoever commits the net,
//! and not before.
ghost use Rattle.std.specs.Prelude.{◌≡◌, [], ◌∷◌, ◌++◌, Ok, IfErr, IfNone, IfOk, IfSome, OnOk};
ghost use Rattle.rdf_dataset.specs.State.{State, net_between};
ghost use Rattle.sparql_eval.specs.Inside.Unread.{AreUnread};
ghost use Rattle.sparql_eval.specs.Nets.{IsNetOf};
ghost use Rattle.sparql_eval.specs.Operations.{Tells, steps};
ghost use Rattle.sparql_trees.specs.declared.operation.Operation.TheVariants.{DeleteData, InsertData, Modify as modify};

use crate::fault::ApplyFault;
use crate::modify::{Exchange, exchange_of};
use crate::operations::copies;
use crate::request::apply_each;
use crate::unread::{net_of_unread, unread_from};
use rdf_dataset::{Net, Source, Staged, sources_are_sound};
use rdf_terms::{NoMemory, Vocabulary};
use sparql_trees::{Data, GroundData, Modify, Operation, Request};
use std::alloc::Global;

// INSERT DATA
fn net_of_data<S: Source>(alloc: Global, inserted: &Data, under: &S) -> Result<Net, ApplyFault>
    ensures made { IfOk result
        (IsNetOf (S.contents under.now) (InsertData inserted.now ∷ [])) }
    ensures refused { IfErr result
        (Tells (steps (S.contents under.now) (InsertData inserted.now ∷ []))) }
{
    let quads = copies(alloc, inserted.quads())?;
    match Net::of_data(alloc, under, quads, inserted.blanks())? {
        None => Err(ApplyFault::BlankNumbers),
        Some(net) => Ok(net),
    }
}

// DELETE DATA
fn net_of_deletions<S: Source>(
    alloc: Global,
    deleted: &GroundData,
    under: &S,
) -> Result<Net, ApplyFault>
    ensures made { IfOk result (IsNetOf (S.contents under.now) (DeleteData deleted.now ∷ [])) }
    ensures refused { IfErr result
        (Tells (steps (S.contents under.now) (DeleteData deleted.now ∷ []))) }
{
    sources_are_sound(under);
    let gone = copies(alloc, deleted.quads())?;
    let come = Vec::new(alloc);
    Ok(Net::of_exchange(alloc, under, gone, 0, come)?)
}

// DELETE/INSERT
fn net_of_modify<S: Source>(
    alloc: Global,
    vocabulary: &Vocabulary,
    operation: &Modify,
    under: &S,
) -> Result<Net, ApplyFault>
    ensures made { IfOk result (IsNetOf (S.contents under.now) (modify operation.now ∷ [])) }
    ensures refused { IfErr result
        (Tells (steps (S.contents under.now) (modify operation.now ∷ []))) }
{
    let Exchange { gone, blanks, come } = exchange_of(alloc, vocabulary, operation, under)?;
    Ok(Net::of_exchange(alloc, under, gone, blanks, come)?)
}

// The net of operations of which none reads what one before it leaves. Where there is one, its quads are put in order at
// once.
fn net_of_last<S: Source>(
    alloc: Global,
    vocabulary: &Vocabulary,
    operations: &[Operation],
    under: &S,
) -> Result<Net, ApplyFault>
    requires { AreUnread operations.now }
    ensures made { IfOk result (IsNetOf (S.contents under.now) operations.now) }
    ensures refused { IfErr result (Tells (steps (S.contents under.now) operations.now)) }
{
    match operations {
        [Operation::InsertData(inserted)] => net_of_data(alloc, inserted, under),
        [Operation::DeleteData(deleted)] => net_of_deletions(alloc, deleted, under),
        [Operation::Modify(operation)] => net_of_modify(alloc, vocabulary, operation, under),
        _ => net_of_unread(alloc, vocabulary, operations, under),
    }
}

// Lets the first operations act on the view, and answers the net of the others over it, if there are any.
fn net_behind<S: Source>(
    alloc: Global,
    vocabulary: &Vocabulary,
    read: &[Operation],
    last: &[Operation],
    staged: &mut Staged<'_, S>,
) -> Result<Option<Net>, ApplyFault>
    requires { AreUnread last.now }
    ensures leads { OnOk result (steps staged.old.now read.now ≡ Ok staged.new.now) }
    ensures none { IfOk result (λ after. IfNone after (last.now ≡ [])) }
    ensures made { IfOk result (λ after. IfSome after (IsNetOf staged.new.now last.now)) }
    ensures refused { IfErr result (Tells (steps staged.old.now (read.now ++ last.now))) }
    ensures beneath { staged.new.under ≡ staged.old.under }
{
    apply_each(alloc, vocabulary, read, staged)?;
    if last.is_empty() {
        return Ok(None);
    }
    Ok(Some(net_of_last(alloc, vocabulary, last, &*staged)?))
}

// A net, and behind it one that begins where it ends, if there is one.
fn joined(before: Net, after: Option<Net>) -> Result<Net, NoMemory>
    ensures alone { IfNone after (IfOk result (λ net. net ≡ before)) }
    ensures both { IfSome after (λ last. IfOk result (λ both. (s t u : State) →
        before ≡ net_between s t → last ≡ net_between t u → both ≡ net_between s u)) }
{
    match after {
        Some(after) => before.joined(after),
        None => Ok(before),
    }
}

// The net of operations that act on a staged view, and then of those whose outcome none reads. The view ends before it is
// asked how these went: where a function drops one its proof takes minutes.
fn net_in_parts<S: Source>(
    alloc: Global,
    vocabulary: &Vocabulary,
    read: &[Operation],
    last: &[Operation],
    under: &S,
) -> Result<Net, ApplyFault>
    requires { AreUnread last.now }
    ensures made { IfOk result (IsNetOf (S.contents under.now) (read.now ++ last.now)) }
    ensures refused { IfErr result (Tells (steps (S.contents under.now) (read.now ++ last.now))) }
{
    if read.is_empty() {
        return net_of_last(alloc, vocabulary, last, under);
    }
    let mut staged = Staged::over(alloc, under);
    let after = net_behind(alloc, vocabulary, read, last, &mut staged);
    let before = staged.into_net();
    match after {
        Ok(after) => Ok(joined(before?, after)?),
        Err(fault) => Err(fault),
    }
}

// The net of any operations. Only those are staged whose outcome a later one reads.
fn net_of_each<S: Source>(
    alloc: Global,
    vocabulary: &Vocabulary,
    operations: &[Operation],
    under: &S,
) -> Result<Net, ApplyFault>
    ensures made { IfOk result (IsNetOf (S.contents under.now) operations.now) }
    ensures refused { IfErr result (Tells (steps (S.contents under.now) operations.now)) }
{
    let (read, last) = operations.split_at(unread_from(operations));
    net_in_parts(alloc, vocabulary, read, last, under)
}

/// The net from what the source holds to what the operations of a request make of it. Of several operations only
/// those are staged whose outcome a later one reads: that of data, and of a last DELETE/INSERT before it, is a net at
/// once.
///
/// # Errors
/// Those of [`apply`](crate::apply).
pub fn net_of_request<S: Source>(
    alloc: Global,
    vocabulary: &Vocabulary,
    request: &Request,
    under: &S,
) -> Result<Net, ApplyFault>
    ensures made { IfOk result (IsNetOf (S.contents under.now) request.now.operations) }
    ensures refused { IfErr result
        (Tells (steps (S.contents under.now) request.now.operations)) }
{
    net_of_each(alloc, vocabulary, request.operations.as_slice(), under)
}
