//! How a session ends.
ghost use Rattle.std.specs.Prelude.{◌≡◌};
ghost use Rattle.rdf_keeper.specs.Script.Statuses.{status_code};

use rdf_terms::NoMemory;

/// How a session ended.
#[derive(Clone, Copy, Debug, PartialEq, Eq)]
pub enum Status {
    /// All commands were accepted.
    Accepted,
    /// Some command was refused.
    Refused,
    /// A read call failed, or the input had no end.
    ReadFailed,
    /// A write call failed, or took nothing.
    WriteFailed,
    /// Memory was wanting for the session itself.
    NoMemory(NoMemory),
}

impl Status {
    /// The exit status of a program that ends with the session.
    pub fn code(self) -> u8
        ensures { result ≡ status_code self }
    {
        match self {
            Status::Accepted => 0,
            Status::Refused => 1,
            Status::ReadFailed | Status::WriteFailed => 3,
            Status::NoMemory(_) => 4,
        }
    }
}
