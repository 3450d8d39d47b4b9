//! The calls of the library, each in one place. Nothing here says what they do.
use crate::device::{Giver, Taker};
use crate::subject::Call;
use one_byte::OnceFailing;
use rdf_keeper::{
    ConvertFault, Feed, Format, Keeper, Settings, Status, check, convert, run, run_within,
};
use rdf_terms::Iri;
use std::alloc::Global;
use std::io::{Read, Write};

/// What is read from.
pub(crate) type Reader<'a> = OnceFailing<Giver<'a>>;

/// What is written to.
pub(crate) type Writer<'a> = OnceFailing<Taker<'a>>;

/// How a session is run, and a document read.
#[derive(Drop)]
pub(crate) struct Manner {
    pub(crate) stop: bool,
    /// How many read calls a session has at most, where these are counted.
    pub(crate) calls: Option<u64>,
    pub(crate) base: Option<Iri>,
}

/// Makes a call, and says how it ends.
pub(crate) fn make(
    alloc: Global,
    call: Call,
    manner: Manner,
    keeper: &mut Keeper,
    reader: &mut Reader<'_>,
    writer: &mut Writer<'_>,
) -> Status {
    let settings = Settings { stop: manner.stop };
    match (call, manner.calls) {
        (Call::Run, None) => run(alloc, keeper, reader, writer, settings),
        (Call::Run, Some(calls)) => { run_within(alloc, calls, keeper, reader, writer, settings) }
        (Call::Feed, _) => feed(alloc, settings, keeper, reader, writer),
        (Call::Convert(format), _) => {
            status_of(convert(alloc, format, manner.base, reader, writer))
        }
        (Call::Check(format), _) => count(alloc, format, manner.base.as_ref(), reader, writer),
    }
}

// Feeds a session each piece that is read.
fn feed(
    alloc: Global,
    settings: Settings,
    keeper: &mut Keeper,
    reader: &mut Reader<'_>,
    writer: &mut Writer<'_>,
) -> Status {
    let mut feed = Feed::new(alloc, settings);
    let mut buffer = [0u8; 4096];
    for _ in 0..u64::MAX {
        match reader.read(&mut buffer) {
            Ok(0) => return feed.end(keeper, writer),
            Ok(n) => match feed.take(keeper, &buffer[..n], writer) {
                Ok(next) => feed = next,
                Err(status) => return status,
            },
            Err(_) => return Status::ReadFailed,
        }
    }
    Status::ReadFailed
}

// Checks a document, and writes how many statements it has.
fn count(
    alloc: Global,
    format: Format,
    base: Option<&Iri>,
    reader: &mut Reader<'_>,
    writer: &mut Writer<'_>,
) -> Status {
    match check(alloc, format, base, reader) {
        Ok(statements) => match writeln!(writer, "{statements}") {
            Ok(()) => Status::Accepted,
            Err(_) => Status::WriteFailed,
        },
        Err(fault) => status_of(Err(fault)),
    }
}

fn status_of(answer: Result<(), ConvertFault>) -> Status {
    match answer {
        Ok(()) => Status::Accepted,
        Err(ConvertFault::Document(_)) => Status::Refused,
        Err(ConvertFault::Read) => Status::ReadFailed,
        Err(ConvertFault::Write) => Status::WriteFailed,
        Err(ConvertFault::NoMemory(refused)) => Status::NoMemory(refused),
    }
}
