//! What loads into a dataset take, and what takes them back: each step timed, with the count of quads behind it.
ghost use Rattle.std.specs.Prelude.{◌≡◌, IfOk, OnOk};
ghost use Rattle.rdf_terms.specs.Below.{AreBelow};
ghost use Rattle.rdf_dataset.specs.State.{Begins, Ends, net_between};

use crate::catalogue::Catalogue;
use crate::revertible::Revertible;
use rdf_dataset::{Net, Source, sources_are_sound};
use rdf_terms::{NoMemory, Quad};
use std::alloc::Global;
use std::io;
use std::io::ErrorKind;
use std::time::{Clock, Instant};

/// Loads so many quads, undoes and redoes that, loads 100 more, rolls back five such loads, and loads and undoes a
/// fiftieth as many. It writes a line for each step: its name, its seconds, and how many quads there are behind it.
///
/// # Errors
/// Of kind `OutOfMemory` where memory is wanting, and those of the clock and of what is written to.
pub fn measure<R: Print + AllocGlobal + Clock, D: Revertible>(
    rt: &R,
    dataset: &mut D,
    count: usize,
) -> io::Result<()> {
    let mut catalogue = Catalogue::new(rt.alloc()).ok_or_else(wanting)?;
    loads(rt, dataset, &mut catalogue, count)
}

fn loads<R: Print + AllocGlobal + Clock, D: Revertible>(
    rt: &R,
    dataset: &mut D,
    catalogue: &mut Catalogue,
    count: usize,
) -> io::Result<()> {
    let first = large_load(rt, dataset, catalogue, count)?;
    back_and_forth(rt, dataset, &first)?;
    later_loads(rt, dataset, catalogue, count, &first)
}

fn large_load<R: Print + AllocGlobal + Clock, D: Revertible>(
    rt: &R,
    dataset: &mut D,
    catalogue: &mut Catalogue,
    count: usize,
) -> io::Result<Net>
    ensures { IfOk result (λ net. Ends net (D.contents dataset.new)) }
{
    let quads = catalogue.quads(count).ok_or_else(wanting)?;
    let begun = Instant::now(rt)?;
    let net = load(rt.alloc(), dataset, quads)?;
    report(rt, begun, "load", dataset, &[&net])?;
    Ok(net)
}

// The undo of the large load, and its redo.
fn back_and_forth<R: Print + AllocGlobal + Clock, D: Revertible>(
    rt: &R,
    dataset: &mut D,
    net: &Net,
) -> io::Result<()>
    requires { Ends net.now (D.contents dataset.old) }
{
    let begun = Instant::now(rt)?;
    undo(dataset, net)?;
    report(rt, begun, "undo", dataset, &[net])?;
    let begun = Instant::now(rt)?;
    redo(dataset, net)?;
    report(rt, begun, "redo", dataset, &[net])
}

// What comes behind the large load.
fn later_loads<R: Print + AllocGlobal + Clock, D: Revertible>(
    rt: &R,
    dataset: &mut D,
    catalogue: &mut Catalogue,
    count: usize,
    first: &Net,
) -> io::Result<()> {
    let hundred = small_load(rt, dataset, catalogue, first)?;
    rollback(rt, dataset, catalogue, &[first, &hundred])?;
    load_and_undo(rt, dataset, catalogue, count / 50, &[first, &hundred])
}

fn small_load<R: Print + AllocGlobal + Clock, D: Revertible>(
    rt: &R,
    dataset: &mut D,
    catalogue: &mut Catalogue,
    first: &Net,
) -> io::Result<Net> {
    let quads = catalogue.quads(100).ok_or_else(wanting)?;
    let begun = Instant::now(rt)?;
    let net = load(rt.alloc(), dataset, quads)?;
    report(rt, begun, "load of 100", dataset, &[first, &net])?;
    Ok(net)
}

// Five loads of 100, in one net as a session rolls them back; only the way back is timed.
fn rollback<R: Print + AllocGlobal + Clock, D: Revertible>(
    rt: &R,
    dataset: &mut D,
    catalogue: &mut Catalogue,
    before: &[&Net],
) -> io::Result<()> {
    let net = five_loads(rt.alloc(), dataset, catalogue)?;
    let begun = Instant::now(rt)?;
    undo(dataset, &net)?;
    report(rt, begun, "rollback of five", dataset, before)
}

fn load_and_undo<R: Print + AllocGlobal + Clock, D: Revertible>(
    rt: &R,
    dataset: &mut D,
    catalogue: &mut Catalogue,
    count: usize,
    before: &[&Net],
) -> io::Result<()> {
    let quads = catalogue.quads(count).ok_or_else(wanting)?;
    let begun = Instant::now(rt)?;
    let net = load(rt.alloc(), dataset, quads)?;
    report(rt, begun, "load of 2 %", dataset, before)?;
    let begun = Instant::now(rt)?;
    undo(dataset, &net)?;
    report(rt, begun, "undo of 2 %", dataset, before)
}

// The net of five loads of 100 quads.
fn five_loads<D: Revertible>(
    alloc: Global,
    dataset: &mut D,
    catalogue: &mut Catalogue,
) -> io::Result<Net>
    ensures { IfOk result (λ net. Ends net (D.contents dataset.new)) }
{
    let mut all = Net::empty(alloc, dataset.next_blank());
    for _ in 0..5 {
        let quads = catalogue.quads(100).ok_or_else(wanting)?;
        all = load_behind(alloc, dataset, &all, quads)?;
    }
    Ok(all)
}

// Loads the quads behind a net, and answers the net of both.
fn load_behind<D: Revertible>(
    alloc: Global,
    dataset: &mut D,
    before: &Net,
    quads: Vec<Quad>,
) -> io::Result<Net>
    requires below { AreBelow 0 quads.items }
    requires ends { Ends before.now (D.contents dataset.old) }
    ensures { IfOk result (λ net. Ends net (D.contents dataset.new)) }
{
    let net = load(alloc, dataset, quads)?;
    match before.then(&net) {
        Ok(both) => Ok(both),
        Err(fault) => Err(refused(fault)),
    }
}

// The net of a load, as a session makes it, and its commit.
fn load<D: Revertible>(alloc: Global, dataset: &mut D, quads: Vec<Quad>) -> io::Result<Net>
    requires { AreBelow 0 quads.items }
    ensures net { IfOk result (λ net. net ≡ net_between
        (D.contents dataset.old) (D.contents dataset.new)) }
    ensures ends { IfOk result (λ net. Ends net (D.contents dataset.new)) }
{
    sources_are_sound(&*dataset);
    let net = match Net::of_data(alloc, &*dataset, quads, 0) {
        Ok(Some(net)) => net,
        Ok(None) => return Err(io::Error::from(ErrorKind::InvalidData)),
        Err(fault) => return Err(refused(fault)),
    };
    match dataset.commit(&net) {
        Ok(()) => Ok(net),
        Err(fault) => Err(refused(fault)),
    }
}

fn undo<D: Revertible>(dataset: &mut D, net: &Net) -> io::Result<()>
    requires { Ends net.now (D.contents dataset.old) }
    ensures { OnOk result (Begins net.now (D.contents dataset.new)) }
{
    match dataset.revert(net) {
        Ok(()) => Ok(()),
        Err(fault) => Err(refused(fault)),
    }
}

fn redo<D: Revertible>(dataset: &mut D, net: &Net) -> io::Result<()>
    requires { Begins net.now (D.contents dataset.old) }
{
    match dataset.commit(net) {
        Ok(()) => Ok(()),
        Err(fault) => Err(refused(fault)),
    }
}

fn report<R: Print + Clock, D: Source>(
    rt: &R,
    begun: Instant,
    step: &str,
    dataset: &D,
    nets: &[&Net],
) -> io::Result<()> {
    let seconds = begun.elapsed(rt)?.as_secs_f64();
    println!(rt; "{step}: {seconds:.6} s, {} quads", held(dataset, nets))
}

// How many of the quads that came with these nets the dataset has.
fn held<D: Source>(dataset: &D, nets: &[&Net]) -> usize {
    let mut count = 0usize;
    for net in nets {
        for quad in net.added() {
            if dataset.contains(quad) {
                count = count.saturating_add(1);
            }
        }
    }
    count
}

fn wanting() -> io::Error {
    io::Error::from(ErrorKind::OutOfMemory)
}

fn refused(_: NoMemory) -> io::Error {
    wanting()
}
