//! The header of a selection.
ghost use Rattle.std.specs.Prelude.{◌≡◌, ◌++◌, take, length, OnOk, OnErr};
ghost use Rattle.sparql_results.specs.ResultsText.{column_text, header_text};

use rdf_terms::{NoMemory, Text, or_truncate};
use std::alloc::Global;

// Appends the name of a column behind `?`.
fn append_column(name: &Text, out: &mut Vec<u8>) -> Result<(), NoMemory>
    ensures ok { OnOk result (out.new.items ≡ out.old.items ++ column_text name.now) }
    ensures kept { take (length out.old.items) out.new.items ≡ out.old.items }
{
    out.push(b'?')?;
    out.extend_from_slice(name.as_str().as_bytes())?;
    Ok(())
}

/// Appends the header of a selection: the names of its columns, each behind `?`, with a tab between two and LF behind the last.
/// Where there are none, the line is empty (SPARQL 1.1 Query Results CSV and TSV Formats, section 4.1).
///
/// # Errors
/// [`NoMemory`] where memory is wanting; the vector is then as it was.
pub fn write_header(_alloc: Global, columns: &[Text], out: &mut Vec<u8>) -> Result<(), NoMemory>
    ensures ok { OnOk result (out.new.items ≡ out.old.items ++ header_text columns.now) }
    ensures err { OnErr result (out.new.items ≡ out.old.items) }
{
    let before = out.len();
    or_truncate(append_header(columns, out), out, before)
}

fn append_header(columns: &[Text], out: &mut Vec<u8>) -> Result<(), NoMemory>
    ensures ok { OnOk result (out.new.items ≡ out.old.items ++ header_text columns.now) }
    ensures kept { take (length out.old.items) out.new.items ≡ out.old.items }
{
    if let [first, others @ ..] = columns {
        append_column(first, out)?;
        for name in others {
            out.push(b'\t')?;
            append_column(name, out)?;
        }
    }
    out.push(b'\n')?;
    Ok(())
}
