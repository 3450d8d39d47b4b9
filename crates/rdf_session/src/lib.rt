//! The session of an RDF dataset: what loads and updates do to it, undo, redo, marks, rollback and
//! commit, its state as text, and the laws of these.
//!
//! `rdf_keeper` calls it and hands it on, so hosts name that crate. It reads and writes no file,
//! reads no script, and is for one thread.
#![tactic(auto)]

mod between;
mod fault;
mod fed_start;
mod format;
mod keeper;
mod law;
mod lines;
mod load;
mod marks;
mod places;
mod query;
mod saved;
mod shared_quads;
mod span;
mod start;
mod update;

pub use fault::{Counts, KeeperFault};
pub use fed_start::FedStart;
pub use format::Format;
pub use keeper::Keeper;
pub use law::{
    a_depth_forgets_the_oldest, a_load_is_insert_data, a_rollback_gives_back_its_mark,
    a_saved_state_comes_back, counts_are_told, one_reply, standing_requests, the_headline,
    the_promise_goes_on, undo_gives_back,
};
pub use query::Answer;
pub use sparql_results::ResultsFormat;
