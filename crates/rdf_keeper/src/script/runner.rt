//! Sessions from bytes to bytes.
ghost use Rattle.std.specs.Prelude.{◌≡◌, ℕ, List};
ghost use Rattle.std.specs.List.{concat};
ghost use Rattle.std.specs.Io.KnownBytes.{Appends};
ghost use Rattle.rdf_streams.specs.Devices.{Event, Leads};
ghost use Rattle.rdf_keeper.specs.Script.Orders.{Ran, RanOver};
ghost use Rattle.rdf_keeper.specs.Script.Runs.{RunsOver};

use crate::script::feed::{Feed, Settings};
use crate::script::status::Status;
use rdf_session::Keeper;
use rdf_streams::{Device, Lent, READ_CALLS};
use std::alloc::Global;
use std::io::{Read, Write};

/// Runs a script on a keeper, and writes the answer of each command as soon as that was read: before the
/// next read call. So a script may be written while its answers are read.
///
/// The session ends where the script does, at a fault of the reader or the writer, for want of memory, or
/// with `settings.stop` at the first refusal, behind which nothing is read. After a read fault the commands
/// that were wholly read, their line ends included, have been answered. No call is made behind one that failed.
///
/// The reader is read at most 2^40 times, as by [`run_within`].
pub fn run<R: Read, W: Write>(
    alloc: Global,
    keeper: &mut Keeper,
    reader: &mut R,
    writer: &mut W,
    settings: Settings,
) -> Status
    ensures { (answers : List (List ℕ))
        × Appends (W.contents writer.old) (W.contents writer.new) (concat answers)
        × RunsOver settings.stop (R.remaining reader.old) (R.remaining reader.new)
        keeper.old answers keeper.new result }
{
    run_within(alloc, READ_CALLS, keeper, reader, writer, settings)
}

/// Runs a script, as [`run`] does, with at most so many read calls. Where none of them found the end, the session ends
/// as at a read fault.
pub fn run_within<R: Read, W: Write>(
    alloc: Global,
    calls: u64,
    keeper: &mut Keeper,
    reader: &mut R,
    writer: &mut W,
    settings: Settings,
) -> Status
    ensures { (log : List Event) × (answers : List (List ℕ))
        × RanOver calls settings.stop (R.remaining reader.old) (R.remaining reader.new)
        (W.contents writer.old) (W.contents writer.new) log keeper.old answers keeper.new result }
{
    let mut device = Lent { reader, writer };
    let status = run_on(alloc, calls, keeper, &mut device, settings);
    // No effect at run time. The proof reads what the two hold from these uses.
    let _ = &*device.reader;
    let _ = &*device.writer;
    status
}

/// Runs a script, as [`run_within`] does, over one device that is read from and written to. Its contract tells the order of
/// all calls.
pub fn run_on<D: Device>(
    alloc: Global,
    calls: u64,
    keeper: &mut Keeper,
    device: &mut D,
    settings: Settings,
) -> Status
    ensures { (log : List Event) × (answers : List (List ℕ))
        × Leads D.step device.old log device.new
        × Ran calls settings.stop log keeper.old answers keeper.new result }
{
    let mut feed = Feed::new(alloc, settings);
    let mut buffer = [0u8; 4096];
    for turn in 0..calls {
        match device.read(&mut buffer) {
            Ok(0) => return feed.end_on(keeper, device),
            Ok(n) => match feed.take_on(keeper, &buffer[..n], device) {
                Ok(next) => feed = next,
                Err(status) => return status,
            },
            Err(_) => return Status::ReadFailed,
        }
    }
    Status::ReadFailed
}
