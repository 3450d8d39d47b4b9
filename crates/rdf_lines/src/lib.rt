//! RDF documents of lines, N-Triples and N-Quads: read from a stream in whatever pieces it comes,
//! or from held bytes, and written.
//!
//! `rdf_session` calls it for loads and prints, `rdf_streams` for conversions, and a host that reads
//! or writes lines. It resolves no reference, keeps no set of quads, and writes no escape that
//! isn't needed.
#![tactic(auto)]

mod canonical;
mod copied;
mod cut;
mod examples;
mod fault;
mod fed;
mod format;
mod held;
mod labels;
mod line;
mod literal;
mod name;
mod node;
mod pieces;
mod progress;
mod reader;
mod round_trip;
mod shared;
mod slices;
mod state;
mod state_text;
mod statement;
mod suffixes;
mod write;
mod written;

pub use examples::the_standards_lines_are_read;
pub use fault::{FaultKind, LineFault};
pub use fed::{FedLines, what_is_fed_comes_first};
pub use format::LineFormat;
pub use held::{
    blank_numbers_are_below, each_text_is_one_document, labels_are_told_apart, lines_are_the_text,
    read_lines,
};
pub use line::{one_answer, read_line, some_answer, statements_are_sound};
pub use reader::{LineReader, answers_are_the_document, each_answer_is_of_the_document};
pub use round_trip::{
    documents_are_read_back, each_line_is_read_back, lines_differ,
    numbered_documents_are_read_back, numbered_sorted_texts_are_read_back,
    read_documents_are_read_again, sorted_texts_are_read_back,
};
pub use shared::push_shared;
pub use state::ReaderState;
pub use state_text::{
    StateFault, StateText, read_state, state_text_is_one, state_texts_differ, write_sorted_state,
    write_state,
};
pub use statement::{Node, Object, Statement};
pub use write::{sorted_text_is_one, write_quad, write_sorted};
