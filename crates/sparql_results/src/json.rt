//! Results in JSON.
ghost use Rattle.std.specs.Prelude.{◌≡◌, ◌++◌, [], if◌then◌else◌, take, length, codes, OnOk, OnErr};
ghost use Rattle.std.specs.List.{join_by};
ghost use Rattle.sparql_results.specs.JsonText.{json_boolean, json_end, json_header, json_member, json_row, json_solution, json_string};

use crate::json_string::append_json_string;
use crate::json_term::append_json_term;
use rdf_terms::{NoMemory, Term, Text, or_truncate};
use std::alloc::Global;

/// Appends what stands before the rows of a selection in JSON: the names of its columns, and what opens the list of rows
/// (SPARQL 1.1 Query Results JSON Format, on `head` and `results`).
///
/// # Errors
/// [`NoMemory`] where memory is wanting; the vector is then as it was.
pub fn write_json_header(
    _alloc: Global,
    columns: &[Text],
    out: &mut Vec<u8>,
) -> Result<(), NoMemory>
    ensures ok { OnOk result (out.new.items ≡ out.old.items ++ json_header columns.now) }
    ensures err { OnErr result (out.new.items ≡ out.old.items) }
{
    let before = out.len();
    or_truncate(append_json_header(columns, out), out, before)
}

/// Appends a row in JSON, on a line of its own: an object with the term of each column that the row binds. Before each row but the
/// first a comma ends the line. A term is an object of its `type`, its `value`, and for a literal its `xml:lang`, or else its
/// `datatype`, of which xsd:string isn't written (SPARQL 1.1 Query Results JSON Format, on encoding terms).
///
/// # Errors
/// [`NoMemory`] where memory is wanting; the vector is then as it was.
pub fn write_json_row(
    alloc: Global,
    is_first: bool,
    columns: &[Text],
    values: &[Option<Term>],
    out: &mut Vec<u8>,
) -> Result<(), NoMemory>
    ensures ok { OnOk result (out.new.items
        ≡ out.old.items ++ json_row is_first columns.now values.now) }
    ensures err { OnErr result (out.new.items ≡ out.old.items) }
{
    let before = out.len();
    or_truncate(
        append_json_row(alloc, is_first, columns, values, out),
        out,
        before,
    )
}

/// What stands behind the rows of a selection in JSON: it closes the list of rows, on a line of its own.
pub fn json_end_text() -> &'static str
    ensures { result.now ≡ json_end }
{
    "\n]}}\n"
}

/// What ASK prints in JSON: an object on one line.
pub fn json_boolean_text(answer: bool) -> &'static str
    ensures { result.now ≡ json_boolean answer }
{
    if answer {
        "{\"head\":{},\"boolean\":true}\n"
    } else {
        "{\"head\":{},\"boolean\":false}\n"
    }
}

fn append_json_header(columns: &[Text], out: &mut Vec<u8>) -> Result<(), NoMemory>
    ensures ok { OnOk result (out.new.items ≡ out.old.items ++ json_header columns.now) }
    ensures kept { take (length out.old.items) out.new.items ≡ out.old.items }
{
    out.extend_from_slice(b"{\"head\":{\"vars\":[")?;
    append_json_names(columns, out)?;
    out.extend_from_slice(b"]},\"results\":{\"bindings\":[")?;
    Ok(())
}

// Appends the names as strings, a comma between two.
fn append_json_names(columns: &[Text], out: &mut Vec<u8>) -> Result<(), NoMemory>
    ensures ok { OnOk result (out.new.items
        ≡ out.old.items ++ join_by json_string (codes ",") columns.now) }
    ensures kept { take (length out.old.items) out.new.items ≡ out.old.items }
{
    let [first, others @ ..] = columns else {
        return Ok(());
    };
    append_json_string(first.as_str().as_bytes(), out)?;
    for name in others {
        out.push(b',')?;
        append_json_string(name.as_str().as_bytes(), out)?;
    }
    Ok(())
}

fn append_json_row(
    alloc: Global,
    is_first: bool,
    columns: &[Text],
    values: &[Option<Term>],
    out: &mut Vec<u8>,
) -> Result<(), NoMemory>
    ensures ok { OnOk result (out.new.items
        ≡ out.old.items ++ json_row is_first columns.now values.now) }
    ensures kept { take (length out.old.items) out.new.items ≡ out.old.items }
{
    out.extend_from_slice(line_break(is_first).as_bytes())?;
    append_json_solution(alloc, columns, values, out)
}

// What stands before a row.
fn line_break(is_first: bool) -> &'static str
    ensures { result.now ≡ (if is_first then codes "\n" else codes ",\n") }
{
    if is_first { "\n" } else { ",\n" }
}

fn append_json_solution(
    alloc: Global,
    columns: &[Text],
    values: &[Option<Term>],
    out: &mut Vec<u8>,
) -> Result<(), NoMemory>
    ensures ok { OnOk result (out.new.items
        ≡ out.old.items ++ json_solution columns.now values.now) }
    ensures kept { take (length out.old.items) out.new.items ≡ out.old.items }
{
    out.push(b'{')?;
    let mut is_first = true;
    for (name, value) in columns.iter().zip(values) {
        let Some(term) = value else {
            continue;
        };
        append_json_member(alloc, is_first, name, term, out)?;
        is_first = false;
    }
    out.push(b'}')?;
    Ok(())
}

// Appends a variable and its term, with a comma before them where they aren't the first.
fn append_json_member(
    alloc: Global,
    is_first: bool,
    name: &Text,
    term: &Term,
    out: &mut Vec<u8>,
) -> Result<(), NoMemory>
    ensures ok { OnOk result (out.new.items
        ≡ out.old.items ++ (if is_first then [] else codes ",") ++ json_member (name.now, term.now)) }
    ensures kept { take (length out.old.items) out.new.items ≡ out.old.items }
{
    out.extend_from_slice(comma(is_first).as_bytes())?;
    append_json_string(name.as_str().as_bytes(), out)?;
    out.push(b':')?;
    append_json_term(alloc, term, out)
}

// What stands before a member.
fn comma(is_first: bool) -> &'static str
    ensures { result.now ≡ (if is_first then [] else codes ",") }
{
    if is_first { "" } else { "," }
}
