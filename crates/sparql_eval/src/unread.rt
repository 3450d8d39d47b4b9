//! Operations at the end of a request whose outcome no later one reads. They act on no view: what they bring is numbered
//! by whoever commits their net.
ghost use Rattle.std.specs.Prelude.{◌≡◌, ◌≤◌, ◌+◌, length, drop, IsTrue, Ok, IfErr, IfOk};
ghost use Rattle.rdf_terms.specs.Below.{AreBelow};
ghost use Rattle.rdf_dataset.specs.Exchange.{exchanged};
ghost use Rattle.rdf_dataset.specs.Insertion.{with_all};
ghost use Rattle.rdf_dataset.specs.Staging.{staged};
ghost use Rattle.rdf_dataset.specs.State.{last_number};
ghost use Rattle.sparql_eval.specs.Inside.Staging.{has_pattern};
ghost use Rattle.sparql_eval.specs.Inside.Unread.{AreUnread, is_data, may_begin};
ghost use Rattle.sparql_eval.specs.Nets.{IsNetOf};
ghost use Rattle.sparql_eval.specs.Operations.{Tells, step, steps, without_all};
ghost use Rattle.sparql_trees.specs.declared.operation.Operation.TheVariants.{InsertData};

use crate::fault::ApplyFault;
use crate::modify::{Exchange, exchange_of};
use crate::operations::copies;
use rdf_dataset::{Net, Source, Unread};
use rdf_terms::{NoMemory, Quad, Vocabulary};
use sparql_trees::{Data, Operation};
use std::alloc::Global;

fn is_data(operation: &Operation) -> bool
    ensures { result ≡ is_data operation.now }
{
    matches!(
        operation,
        Operation::InsertData(_) | Operation::DeleteData(_)
    )
}

fn has_pattern(operation: &Operation) -> bool
    ensures { result ≡ has_pattern operation.now }
{
    matches!(operation, Operation::Modify(_))
}

/// From which operation on none reads what one before it leaves.
#[tactic(auto, using(crate::proofs::UnreadLemmas::none_behind, crate::proofs::UnreadLemmas::one_sooner, crate::proofs::UnreadLemmas::one_first, crate::proofs::UnreadLemmas::all_data))]
pub(crate) fn unread_from(operations: &[Operation]) -> usize
    ensures bound { result ≤ length operations.now }
    ensures unread { AreUnread (drop result operations.now) }
{
    let mut from = operations.len();
    while from > 0 && is_data(&operations[from - 1]) {
        from -= 1;
    }
    if from > 0 && has_pattern(&operations[from - 1]) {
        from -= 1;
    }
    from
}

// Takes the quads away.
fn remove_all<'a, S: Source>(
    quads: &[Quad],
    unread: Unread<'a, S>,
) -> Result<Unread<'a, S>, NoMemory>
    ensures { IfOk result (λ less. less ≡ staged unread.entry (without_all unread.entry.now quads.now)) }
{
    let mut less = unread;
    for quad in quads {
        less = less.remove(quad)?;
    }
    Ok(less)
}

// Brings the quads in, with the names of their graphs.
fn insert_all<'a, S: Source>(
    quads: Vec<Quad>,
    unread: Unread<'a, S>,
) -> Result<Unread<'a, S>, NoMemory>
    requires { AreBelow unread.now.next quads.items }
    ensures { IfOk result (λ more. more ≡ staged unread.entry (with_all unread.entry.now quads.items)) }
{
    let mut more = unread;
    for quad in quads {
        more = more.insert(quad)?;
    }
    Ok(more)
}

// Quads go, and others come in their place.
fn exchange<'a, S: Source>(
    exchange: Exchange,
    unread: Unread<'a, S>,
) -> Result<Unread<'a, S>, NoMemory>
    requires room { unread.now.next + exchange.blanks ≤ last_number }
    requires below { AreBelow (unread.now.next + exchange.blanks) exchange.come.items }
    ensures { IfOk result (λ other. other ≡ staged unread.entry
        (exchanged unread.entry.now exchange.gone.items exchange.blanks exchange.come.items)) }
{
    let Exchange { gone, blanks, come } = exchange;
    let numbered = unread.take_blanks(blanks).unwrap();
    insert_all(come, remove_all(gone.as_slice(), numbered)?)
}

// INSERT DATA
fn insert_data<'a, S: Source>(
    alloc: Global,
    inserted: &Data,
    unread: Unread<'a, S>,
) -> Result<Unread<'a, S>, ApplyFault>
    ensures leads { IfOk result (λ more. (more.under ≡ unread.entry.under)
        × (step unread.entry.now (InsertData inserted.now) ≡ Ok more.now)) }
    ensures refused { IfErr result (Tells (step unread.entry.now (InsertData inserted.now))) }
{
    let quads = copies(alloc, inserted.quads())?;
    match unread.insert_data(quads, inserted.blanks())? {
        None => Err(ApplyFault::BlankNumbers),
        Some(more) => Ok(more),
    }
}

// An operation on data.
fn change<'a, S: Source>(
    alloc: Global,
    operation: &Operation,
    unread: Unread<'a, S>,
) -> Result<Unread<'a, S>, ApplyFault>
    requires { IsTrue (is_data operation.now) }
    ensures leads { IfOk result (λ other. (other.under ≡ unread.entry.under)
        × (step unread.entry.now operation.now ≡ Ok other.now)) }
    ensures refused { IfErr result (Tells (step unread.entry.now operation.now)) }
{
    match operation {
        Operation::InsertData(inserted) => insert_data(alloc, inserted, unread),
        Operation::DeleteData(deleted) => Ok(remove_all(deleted.quads(), unread)?),
        _ => unreachable!(),
    }
}

// What the first operation leaves.
fn begun<'a, S: Source>(
    alloc: Global,
    vocabulary: &Vocabulary,
    first: &Operation,
    under: &'a S,
) -> Result<Unread<'a, S>, ApplyFault>
    requires { IsTrue (may_begin first.now) }
    ensures leads { IfOk result (λ begun. (begun.under ≡ S.contents under.now)
        × (step (S.contents under.now) first.now ≡ Ok begun.now)) }
    ensures refused { IfErr result (Tells (step (S.contents under.now) first.now)) }
{
    let unread = Unread::over(alloc, under);
    match first {
        Operation::Modify(operation) => {
            let found = exchange_of(alloc, vocabulary, operation, under)?;
            Ok(exchange(found, unread)?)
        }
        _ => change(alloc, first, unread),
    }
}

/// The net of operations of which none reads what one before it leaves.
///
/// # Errors
/// Those of [`apply`](crate::apply).
pub(crate) fn net_of_unread<S: Source>(
    alloc: Global,
    vocabulary: &Vocabulary,
    operations: &[Operation],
    under: &S,
) -> Result<Net, ApplyFault>
    requires { AreUnread operations.now }
    ensures made { IfOk result (IsNetOf (S.contents under.now) operations.now) }
    ensures refused { IfErr result (Tells (steps (S.contents under.now) operations.now)) }
{
    let [first, later @ ..] = operations else {
        return Ok(Unread::over(alloc, under).into_net()?);
    };
    let mut unread = begun(alloc, vocabulary, first, under)?;
    for operation in later {
        unread = change(alloc, operation, unread)?;
    }
    Ok(unread.into_net()?)
}
