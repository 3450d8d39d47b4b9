//! Whether the runs of a case do what it wants.
use crate::kept::agrees;
use crate::near::count_near;
use crate::run::{Failure, Outcome, Plan, run_once};
use crate::subject::{Subject, word_of};
use crate::tally::Tally;
use crate::transcript::Mark;
use case_tables::Case;
use one_byte::Ending;
use rdf_keeper::Status;
use std::alloc::Global;
use std::io;

// How a read fails, and how a write does.
const READ_FAILURES: [Ending; 2] = [Ending::Interrupted, Ending::Failed];

const WRITE_FAILURES: [Ending; 3] = [Ending::Interrupted, Ending::Failed, Ending::Nothing];

// Bytes come one by one, and as many as there are are taken.
const ALL_WELL: Plan<'static> = Plan {
    lengths: &[],
    most: usize::MAX,
    calls: None,
    read: Failure::NONE,
    write: Failure::NONE,
};

/// Counts the runs of a case that do what it wants.
pub(crate) fn judge(alloc: Global, case: &Case) -> io::Result<Tally> {
    match word_of(case, "call") {
        Some("keeper") => agrees(alloc, case),
        Some("restore") => count_near(alloc, case),
        _ => match Subject::of(alloc, case)? {
            Some(subject) => Ok(count_runs(alloc, &subject)),
            None => Ok(Tally {
                agree: 0,
                differ: 1,
            }),
        },
    }
}

// All runs of a call that reads and writes.
fn count_runs(alloc: Global, subject: &Subject<'_>) -> Tally {
    let mut tally = count_whole(alloc, subject);
    tally = tally.and(count_reads(alloc, subject));
    if subject.call.writes() {
        tally = tally.and(count_writes(alloc, subject));
    }
    if subject.call.is_bounded() {
        tally = tally.and(count_calls(alloc, subject));
    }
    tally
}

// Runs over devices that don't fail: the pieces of the case, single bytes, and all at once.
fn count_whole(alloc: Global, subject: &Subject<'_>) -> Tally {
    let mut tally = Tally::NONE;
    for lengths in [
        subject.lengths.as_slice(),
        &[],
        &[subject.transcript.wanted()],
    ] {
        for most in [1, usize::MAX] {
            let plan = Plan {
                lengths,
                most,
                ..ALL_WELL
            };
            tally.count(is_whole(alloc, subject, plan) == Some(true));
        }
    }
    tally
}

// Runs in which a read call fails, each in turn and in each way.
fn count_reads(alloc: Global, subject: &Subject<'_>) -> Tally {
    let mut tally = Tally::NONE;
    let lengths = subject.lengths.as_slice();
    for before in 0..subject.reads(lengths) {
        for ending in READ_FAILURES {
            let plan = Plan {
                lengths,
                read: Failure { before, ending },
                ..ALL_WELL
            };
            tally.count(is_read(alloc, subject, plan) == Some(true));
        }
    }
    tally
}

// Runs in which a write call fails, each in turn and in each way, where each takes a byte.
fn count_writes(alloc: Global, subject: &Subject<'_>) -> Tally {
    let mut tally = Tally::NONE;
    for before in 0..subject.transcript.output().len() {
        for ending in WRITE_FAILURES {
            let plan = Plan {
                lengths: &[subject.transcript.wanted()],
                most: 1,
                write: Failure { before, ending },
                ..ALL_WELL
            };
            tally.count(is_written(alloc, subject, plan) == Some(true));
        }
    }
    tally
}

// Runs of a session whose read calls run out.
fn count_calls(alloc: Global, subject: &Subject<'_>) -> Tally {
    let mut tally = Tally::NONE;
    let lengths = subject.lengths.as_slice();
    let reads = subject.reads(lengths);
    for calls in 0..=reads {
        let plan = Plan {
            lengths,
            calls: Some(calls as u64),
            ..ALL_WELL
        };
        let agrees = if calls == reads {
            is_whole(alloc, subject, plan)
        } else {
            is_out_of_calls(alloc, subject, plan, calls)
        };
        tally.count(agrees == Some(true));
    }
    tally
}

// Whether a run comes to the transcript's end, and reads no more than that.
fn is_whole(alloc: Global, subject: &Subject<'_>, plan: Plan<'_>) -> Option<bool> {
    let outcome = run_once(alloc, subject, plan)?;
    let wanted = if subject.is_refused {
        Status::Refused
    } else {
        Status::Accepted
    };
    let reads = subject.reads(plan.lengths) as u64;
    let last = subject.transcript.last();
    Some(stands_at(subject, &outcome, wanted, last) && outcome.reads == reads)
}

// Whether a run that fails to read once has answered what is due, and reads no more.
fn is_read(alloc: Global, subject: &Subject<'_>, plan: Plan<'_>) -> Option<bool> {
    let outcome = run_once(alloc, subject, plan)?;
    let due = subject.transcript.due(outcome.read);
    let is_last = outcome.reads == (plan.read.before as u64).saturating_add(1);
    Some(stands_at(subject, &outcome, Status::ReadFailed, due) && is_last)
}

// Whether a run that fails to write once has written what comes before, and writes no more.
fn is_written(alloc: Global, subject: &Subject<'_>, plan: Plan<'_>) -> Option<bool> {
    let outcome = run_once(alloc, subject, plan)?;
    let written = plan.write.before;
    // the command whose answer breaks off has acted
    let place = Mark {
        written,
        ..subject.transcript.broken_off(written)
    };
    let is_last = outcome.writes == (written as u64).saturating_add(1);
    Some(stands_at(subject, &outcome, Status::WriteFailed, place) && is_last)
}

// Whether a run with so many read calls has answered what is due.
fn is_out_of_calls(
    alloc: Global,
    subject: &Subject<'_>,
    plan: Plan<'_>,
    calls: usize,
) -> Option<bool> {
    let outcome = run_once(alloc, subject, plan)?;
    let due = subject.transcript.due(outcome.read);
    let are_all = outcome.reads == calls as u64;
    Some(stands_at(subject, &outcome, Status::ReadFailed, due) && are_all)
}

// Whether a run ended so, at that place of the transcript.
fn stands_at(subject: &Subject<'_>, outcome: &Outcome, status: Status, place: Mark) -> bool {
    let wanted = subject.transcript.output().get(..place.written);
    outcome.is_due
        && outcome.status == status
        && Some(outcome.output.as_slice()) == wanted
        && outcome.quads == Some(place.quads)
}
