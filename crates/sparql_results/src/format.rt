//! The formats of a query's results.
ghost use Rattle.std.specs.Prelude.{◌≡◌, ◌++◌, OnOk, OnErr};
ghost use Rattle.sparql_results.specs.Formats.{end_in, header_in, row_in, truth_in, SelectionsHaveParts};

use crate::boolean::boolean_text;
use crate::csv::{write_csv_header, write_csv_row};
use crate::header::write_header;
use crate::json::{json_boolean_text, json_end_text, write_json_header, write_json_row};
use crate::row::write_row;
use rdf_terms::{NoMemory, Term, Text};
use std::alloc::Global;

/// A format of a query's results. A selection is its header, its rows one after another, and its end.
#[derive(Clone, Copy, PartialEq, Eq, Debug)]
pub enum ResultsFormat {
    /// Tab-separated values: terms in canonical N-Triples.
    Tsv,
    /// Comma-separated values: the strings of terms.
    Csv,
    /// JSON: an object for each row.
    Json,
}

impl ResultsFormat {
    /// Appends what stands before the rows.
    ///
    /// # Errors
    /// [`NoMemory`] where memory is wanting; the vector is then as it was.
    pub fn write_header(
        self,
        alloc: Global,
        columns: &[Text],
        out: &mut Vec<u8>,
    ) -> Result<(), NoMemory>
        ensures ok { OnOk result (out.new.items ≡ out.old.items ++ header_in self columns.now) }
        ensures err { OnErr result (out.new.items ≡ out.old.items) }
    {
        match self {
            ResultsFormat::Tsv => write_header(alloc, columns, out),
            ResultsFormat::Csv => write_csv_header(alloc, columns, out),
            ResultsFormat::Json => write_json_header(alloc, columns, out),
        }
    }

    /// Appends a row, its values in the order of the columns.
    ///
    /// # Errors
    /// [`NoMemory`] where memory is wanting; the vector is then as it was.
    pub fn write_row(
        self,
        alloc: Global,
        is_first: bool,
        columns: &[Text],
        values: &[Option<Term>],
        out: &mut Vec<u8>,
    ) -> Result<(), NoMemory>
        ensures ok { OnOk result (out.new.items
            ≡ out.old.items ++ row_in self is_first columns.now values.now) }
        ensures err { OnErr result (out.new.items ≡ out.old.items) }
    {
        match self {
            ResultsFormat::Tsv => write_row(alloc, values, out),
            ResultsFormat::Csv => write_csv_row(alloc, values, out),
            ResultsFormat::Json => write_json_row(alloc, is_first, columns, values, out),
        }
    }

    /// What stands behind the rows.
    pub fn end_text(self) -> &'static str
        ensures { result.now ≡ end_in self }
    {
        match self {
            ResultsFormat::Tsv | ResultsFormat::Csv => "",
            ResultsFormat::Json => json_end_text(),
        }
    }

    /// What ASK prints. Neither format of values has a text of a truth: its word stands alone there.
    pub fn truth_text(self, answer: bool) -> &'static str
        ensures { result.now ≡ truth_in self answer }
    {
        match self {
            ResultsFormat::Tsv | ResultsFormat::Csv => boolean_text(answer),
            ResultsFormat::Json => json_boolean_text(answer),
        }
    }
}

/// A selection is its header, its rows one after another, and its end.
pub fn selections_have_parts()
    ensures { SelectionsHaveParts }
{}
