//! Datasets of quads: their states, a staged view over any source of quads, and the net between two
//! states (RDF 1.1 Concepts, section 4).
//!
//! `sparql_solve` reads a source, `sparql_eval` stages what a request does, `rdf_session` commits
//! and reverts nets; so may a host. It keeps no history, reads no text, and saves nothing.
#![tactic(auto)]

mod chain;
mod clearing;
mod dataset;
mod edits;
mod emptied;
mod exchange;
mod gathering;
mod insertion;
mod law;
mod loading;
mod net;
mod passed;
mod quad_edits;
mod source;
mod staged;
mod unread;

pub use dataset::Dataset;
pub use gathering::Gathering;
pub use law::{changes_are_exact, look_ups_match};
pub use net::Net;
pub use source::{Source, sources_are_sound};
pub use staged::Staged;
pub use unread::Unread;
