//! A run of a call over devices, one of which may fail.
use crate::call::{Manner, Reader, Writer, make};
use crate::device::{Giver, Taker};
use crate::subject::Subject;
use one_byte::{Ending, OnceFailing};
use rdf_keeper::{Keeper, Status};
use rdf_terms::Iri;
use std::alloc::Global;
use std::cell::Cell;

/// Which call of a device fails, and how.
#[derive(Clone, Copy)]
pub(crate) struct Failure {
    pub(crate) before: usize,
    pub(crate) ending: Ending,
}

impl Failure {
    /// No call fails.
    pub(crate) const NONE: Failure = Failure {
        before: usize::MAX,
        ending: Ending::Failed,
    };
}

/// How the devices of a run behave.
#[derive(Clone, Copy)]
pub(crate) struct Plan<'a> {
    /// How many bytes the first pieces have that are read; the others have one.
    pub(crate) lengths: &'a [usize],
    /// How many bytes a write call takes at most.
    pub(crate) most: usize,
    /// How many read calls a session has at most, where these are counted.
    pub(crate) calls: Option<u64>,
    pub(crate) read: Failure,
    pub(crate) write: Failure,
}

/// What came of a run.
#[derive(Drop)]
pub(crate) struct Outcome {
    pub(crate) status: Status,
    pub(crate) output: Vec<u8>,
    /// How many bytes were read, in how many calls.
    pub(crate) read: usize,
    pub(crate) reads: u64,
    pub(crate) writes: u64,
    /// Before each read call just what is due was written.
    pub(crate) is_due: bool,
    /// How many quads the keeper has.
    pub(crate) quads: Option<u64>,
}

/// Runs the call of a subject, and says what came of it, if its base is an IRI.
pub(crate) fn run_once(alloc: Global, subject: &Subject<'_>, plan: Plan<'_>) -> Option<Outcome> {
    let written = Cell::new(0);
    let mut reader = reader(subject, plan, &written);
    let mut writer = writer(alloc, plan, &written);
    let mut keeper = Keeper::new(alloc, None);
    let manner = Manner {
        stop: subject.transcript.stops(),
        calls: plan.calls,
        base: base_of(alloc, subject)?,
    };
    let status = make(
        alloc,
        subject.call,
        manner,
        &mut keeper,
        &mut reader,
        &mut writer,
    );
    let quads = count_of(alloc, &keeper);
    Some(gathered(status, quads, reader, writer))
}

fn reader<'a>(subject: &'a Subject<'_>, plan: Plan<'a>, written: &'a Cell<usize>) -> Reader<'a> {
    let device = Giver {
        transcript: &subject.transcript,
        lengths: plan.lengths,
        written,
        read: 0,
        pieces: 0,
        is_due: true,
    };
    let Failure { before, ending } = plan.read;
    OnceFailing::new(device, before as u64, ending)
}

fn writer<'a>(alloc: Global, plan: Plan<'_>, written: &'a Cell<usize>) -> Writer<'a> {
    let device = Taker {
        most: plan.most,
        taken: Vec::new(alloc),
        written,
    };
    let Failure { before, ending } = plan.write;
    OnceFailing::new(device, before as u64, ending)
}

// The base of a subject, where it has one; nothing where that is no IRI.
fn base_of(alloc: Global, subject: &Subject<'_>) -> Option<Option<Iri>> {
    match subject.base {
        None => Some(None),
        Some(text) => Some(Some(Iri::new(alloc, text).ok()?)),
    }
}

fn count_of(alloc: Global, keeper: &Keeper) -> Option<u64> {
    let mut lines = Vec::new(alloc);
    keeper.write_quads(&mut lines).ok()
}

fn gathered(status: Status, quads: Option<u64>, reader: Reader<'_>, writer: Writer<'_>) -> Outcome {
    let Giver { read, is_due, .. } = reader.device;
    let Taker { taken, .. } = writer.device;
    Outcome {
        status,
        output: taken,
        read,
        reads: reader.calls,
        writes: writer.calls,
        is_due,
        quads,
    }
}
