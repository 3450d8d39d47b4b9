//! Look-ups: one run of keys in one of the orders.
ghost use Rattle.std.specs.Prelude.{◌≡◌, ◌+◌, ◌-◌, ◌≤◌, false, length, take, IfOk, OnOk, OnErr, ◌↔◌, IsTrue};
ghost use Rattle.std.specs.FinSet as set;
ghost use Rattle.rdf_orders.specs.Quads.{IdQuad, key_in, matches};
ghost use Rattle.rdf_orders.specs.Runs.{BeginsWith, AppendsKeysOnce, AppendsSomeKeys, raised_by};

use crate::order::{Key, Order};
use crate::orders::Orders;
use rdf_terms::{NoMemory, or_truncate};
use std::alloc::Global;

/// The numbers that the keys of a run begin with.
#[derive(Drop)]
pub(crate) struct Prefix {
    pub(crate) order: Order,
    pub(crate) numbers: Key,
    pub(crate) len: usize,
    ghost fits: { len ≤ 4 },
}

/// Where the quads with these numbers stand together.
pub(crate) fn prefix_of(
    graph: u64,
    subject: Option<u64>,
    predicate: Option<u64>,
    object: Option<u64>,
) -> Prefix
    ensures { (q : IdQuad) → BeginsWith (take result.len result.numbers) (key_in result.order q)
        ↔ IsTrue (matches graph subject predicate object q) }
{
    let (order, numbers, len) = match (subject, predicate, object) {
        (None, None, None) => (Order::Spo, [graph, 0, 0, 0], 1),
        (Some(s), None, None) => (Order::Spo, [graph, s, 0, 0], 2),
        (Some(s), Some(p), None) => (Order::Spo, [graph, s, p, 0], 3),
        (Some(s), Some(p), Some(o)) => (Order::Spo, [graph, s, p, o], 4),
        (None, Some(p), None) => (Order::Pos, [graph, p, 0, 0], 2),
        (None, Some(p), Some(o)) => (Order::Pos, [graph, p, o, 0], 3),
        (None, None, Some(o)) => (Order::Osp, [graph, o, 0, 0], 2),
        (Some(s), None, Some(o)) => (Order::Osp, [graph, o, s, 0], 3),
    };
    Prefix {
        order,
        numbers,
        len,
    }
}

/// Appends each quad that lies in the graph and has the numbers of the bound places once, in the
/// arrangement of `Spo`, and raises the count by just their number, up to the greatest `usize`.
///
/// # Errors
/// [`NoMemory`] where memory is wanting: only the count may be higher then.
pub fn look_up<O: Orders>(
    _alloc: Global,
    orders: &mut O,
    graph: u64,
    subject: Option<u64>,
    predicate: Option<u64>,
    object: Option<u64>,
    out: &mut Vec<Key>,
) -> Result<(), NoMemory>
    ensures found { OnOk result (AppendsKeysOnce
        (set.retain (O.quads orders.old) (matches graph subject predicate object))
        out.old.items out.new.items) }
    ensures counted { OnOk result (O.count orders.new
        ≡ raised_by (length out.new.items - length out.old.items) (O.count orders.old)) }
    ensures kept { O.quads orders.new ≡ O.quads orders.old }
    ensures err { OnErr result (out.new.items ≡ out.old.items) }
    ensures raised { OnErr result (O.count orders.old ≤ O.count orders.new) }
{
    let Prefix {
        order,
        numbers,
        len,
    } = prefix_of(graph, subject, predicate, object);
    let prefix = &numbers[..len];
    let before = out.len();
    let mut after: Option<Key> = None;
    while let Some(key) = orders.next_in(order, prefix, after.as_ref()) {
        let pushed = out.push(order.restore(&key)).map_err(NoMemory::from);
        or_truncate(pushed, out, before)?;
        after = Some(key);
    }
    Ok(())
}

/// Appends some of the quads that [`look_up`] appends, each once, and answers whether these are all; where
/// they aren't, they are `most`. The count is raised by just their number, up to the greatest `usize`.
///
/// # Errors
/// [`NoMemory`] where memory is wanting: only the count may be higher then.
pub fn look_up_some<O: Orders>(
    _alloc: Global,
    orders: &mut O,
    graph: u64,
    subject: Option<u64>,
    predicate: Option<u64>,
    object: Option<u64>,
    most: usize,
    out: &mut Vec<Key>,
) -> Result<bool, NoMemory>
    ensures found { IfOk result (λ all. AppendsSomeKeys
        (set.retain (O.quads orders.old) (matches graph subject predicate object))
        all out.old.items out.new.items) }
    ensures stopped { IfOk result (λ all. all ≡ false →
        length out.new.items ≡ length out.old.items + most) }
    ensures few { OnOk result (length out.new.items ≤ length out.old.items + most) }
    ensures counted { OnOk result (O.count orders.new
        ≡ raised_by (length out.new.items - length out.old.items) (O.count orders.old)) }
    ensures kept { O.quads orders.new ≡ O.quads orders.old }
    ensures err { OnErr result (out.new.items ≡ out.old.items) }
    ensures raised { OnErr result (O.count orders.old ≤ O.count orders.new) }
{
    let Prefix {
        order,
        numbers,
        len,
    } = prefix_of(graph, subject, predicate, object);
    let prefix = &numbers[..len];
    let before = out.len();
    let mut after: Option<Key> = None;
    while out.len() - before < most {
        let Some(key) = orders.next_in(order, prefix, after.as_ref()) else {
            return Ok(true);
        };
        let appended = out.push(order.restore(&key)).map_err(NoMemory::from);
        or_truncate(appended, out, before)?;
        after = Some(key);
    }
    Ok(false)
}
