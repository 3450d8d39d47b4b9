//! The keeper of an RDF dataset: the session with its loads, updates, undo, redo, marks, rollback
//! and commit, scripts of these, and the whole program `rdfkeep` over its words. It hands on sessions and
//! the conversion and the check of documents.
//!
//! The program calls it, and each host that wants a session (`crates/library_example` is one). It
//! saves nothing by itself: a host writes and reads the state text where it wants. It is for one
//! thread, and has no network.
#![tactic(auto)]

mod examples;
mod law;
mod program;
mod script;
mod short_line;

pub use examples::the_worked_examples_hold;
pub use law::{
    a_script_has_one_output, a_script_keeps_the_promise, a_shown_state_comes_back,
    a_word_is_a_session_in_small, commands_are_as_listed, each_call_has_its_place,
    early_runs_agree, files_are_opened_in_order, pieces_are_the_script,
    printed_lines_are_documents, refused_answers_leave, script_lines_are_the_text,
    the_status_tells_the_end,
};
pub use program::{Folder, start, start_over};
pub use rdf_lines::{LineFormat, StateFault};
pub use rdf_session::{
    Answer, Counts, FedStart, Format, Keeper, KeeperFault, a_load_is_insert_data,
    a_rollback_gives_back_its_mark, a_saved_state_comes_back, one_reply, standing_requests,
    the_headline, the_promise_goes_on, undo_gives_back,
};
pub use rdf_streams::{
    ConvertFault, Device, DocumentFault, a_document_has_one_conversion, check, convert,
    documents_are_those_that_a_session_loads,
};
pub use script::{Feed, Settings, Status, run, run_on, run_within};
