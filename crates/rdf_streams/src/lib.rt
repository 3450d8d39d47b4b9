//! Devices whose calls have an order, reading to the end, writing the whole, and what is made of documents while they are read:
//! their conversion to canonical N-Quads, and their check.
//!
//! `rdf_keeper` calls it and hands it on, so hosts name that crate. It opens no file, and loads nothing into a session.
#![tactic(auto)]

mod checking;
mod conversion;
mod law;
mod streams;

pub use checking::check;
pub use conversion::{ConvertFault, DocumentFault, convert};
pub use law::{a_document_has_one_conversion, documents_are_those_that_a_session_loads};
pub use streams::{
    Device, Ending, Lent, LentWriter, READ_CALLS, WriteFault, read_all, write_on, write_whole,
};
