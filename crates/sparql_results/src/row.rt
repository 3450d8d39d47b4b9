//! The rows of a selection.
ghost use Rattle.std.specs.Prelude.{◌≡◌, ◌++◌, take, length, OnOk, OnErr};
ghost use Rattle.sparql_results.specs.ResultsText.{row_text};

use crate::field::append_field;
use rdf_terms::{NoMemory, Term, or_truncate};
use std::alloc::Global;

/// Appends the line of a row, its values in the order of the columns: a tab between two, and LF behind the last. A term stands in
/// canonical N-Triples, with `\t` for a tab inside it, and an unbound value is nothing (SPARQL 1.1 Query Results CSV and TSV Formats,
/// section 4.2). Where there are no columns, the line is empty.
///
/// # Errors
/// [`NoMemory`] where memory is wanting; the vector is then as it was.
pub fn write_row(alloc: Global, values: &[Option<Term>], out: &mut Vec<u8>) -> Result<(), NoMemory>
    ensures ok { OnOk result (out.new.items ≡ out.old.items ++ row_text values.now) }
    ensures err { OnErr result (out.new.items ≡ out.old.items) }
{
    let before = out.len();
    or_truncate(append_row(alloc, values, out), out, before)
}

fn append_row(alloc: Global, values: &[Option<Term>], out: &mut Vec<u8>) -> Result<(), NoMemory>
    ensures ok { OnOk result (out.new.items ≡ out.old.items ++ row_text values.now) }
    ensures kept { take (length out.old.items) out.new.items ≡ out.old.items }
{
    if let [first, others @ ..] = values {
        append_field(alloc, first, out)?;
        for value in others {
            out.push(b'\t')?;
            append_field(alloc, value, out)?;
        }
    }
    out.push(b'\n')?;
    Ok(())
}
