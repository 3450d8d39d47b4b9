//! The text of a query's results: tab-separated and comma-separated values (SPARQL 1.1 Query Results CSV and TSV Formats, sections 4
//! and 3), and JSON (SPARQL 1.1 Query Results JSON Format).
//!
//! `rdf_session` calls it. It finds no rows, and hasn't the format of XML.
#![tactic(auto)]

mod boolean;
mod csv;
mod csv_field;
mod field;
mod format;
mod header;
mod json;
mod json_string;
mod json_term;
mod law;
mod plain;
mod row;

pub use boolean::boolean_text;
pub use csv::{write_csv_header, write_csv_row};
pub use format::{ResultsFormat, selections_have_parts};
pub use header::write_header;
pub use json::{json_boolean_text, json_end_text, write_json_header, write_json_row};
pub use law::{
    csv_tells_strings, json_tells_rows, json_texts_are_read, rows_differ,
    the_standards_results_are_written,
};
pub use row::write_row;
