//! A selection as comma-separated values.
ghost use Rattle.std.specs.Prelude.{◌≡◌, ◌++◌, take, length, OnOk, OnErr};
ghost use Rattle.sparql_results.specs.CsvText.{csv_header, csv_row};

use crate::csv_field::{append_csv_field, append_csv_value};
use rdf_terms::{NoMemory, Term, Text, or_truncate};
use std::alloc::Global;

/// Appends the header of a selection in CSV: the names of its columns, without `?`, a comma between two, and CR LF
/// (SPARQL 1.1 Query Results CSV and TSV Formats, section 3). Where there are none, the line is empty.
///
/// # Errors
/// [`NoMemory`] where memory is wanting; the vector is then as it was.
pub fn write_csv_header(_alloc: Global, columns: &[Text], out: &mut Vec<u8>) -> Result<(), NoMemory>
    ensures ok { OnOk result (out.new.items ≡ out.old.items ++ csv_header columns.now) }
    ensures err { OnErr result (out.new.items ≡ out.old.items) }
{
    let before = out.len();
    or_truncate(append_csv_header(columns, out), out, before)
}

/// Appends a row in CSV, its values in the order of the columns: a comma between two, and CR LF behind the last. A value is its string
/// alone: an IRI, the lexical form of a literal, without its tag or datatype, `_:b` and the number of a blank node, nothing where the
/// variable is unbound. One with a quote, a comma, CR or LF in it stands between quotes, its quotes doubled, and so does an empty one
/// that is alone in its row (SPARQL 1.1 Query Results CSV and TSV Formats, section 3; RFC 4180, section 2).
///
/// # Errors
/// [`NoMemory`] where memory is wanting; the vector is then as it was.
pub fn write_csv_row(
    alloc: Global,
    values: &[Option<Term>],
    out: &mut Vec<u8>,
) -> Result<(), NoMemory>
    ensures ok { OnOk result (out.new.items ≡ out.old.items ++ csv_row values.now) }
    ensures err { OnErr result (out.new.items ≡ out.old.items) }
{
    let before = out.len();
    or_truncate(append_csv_row(alloc, values, out), out, before)
}

fn append_csv_header(columns: &[Text], out: &mut Vec<u8>) -> Result<(), NoMemory>
    ensures ok { OnOk result (out.new.items ≡ out.old.items ++ csv_header columns.now) }
    ensures kept { take (length out.old.items) out.new.items ≡ out.old.items }
{
    let is_alone = columns.len() == 1;
    if let [first, others @ ..] = columns {
        append_csv_field(is_alone, first.as_str().as_bytes(), out)?;
        for name in others {
            out.push(b',')?;
            append_csv_field(is_alone, name.as_str().as_bytes(), out)?;
        }
    }
    out.extend_from_slice(b"\r\n")?;
    Ok(())
}

fn append_csv_row(alloc: Global, values: &[Option<Term>], out: &mut Vec<u8>) -> Result<(), NoMemory>
    ensures ok { OnOk result (out.new.items ≡ out.old.items ++ csv_row values.now) }
    ensures kept { take (length out.old.items) out.new.items ≡ out.old.items }
{
    let is_alone = values.len() == 1;
    if let [first, others @ ..] = values {
        append_csv_value(alloc, is_alone, first, out)?;
        for value in others {
            out.push(b',')?;
            append_csv_value(alloc, is_alone, value, out)?;
        }
    }
    out.extend_from_slice(b"\r\n")?;
    Ok(())
}
