//! The fields of comma-separated values.
ghost use Rattle.std.specs.Prelude.{◌≡◌, ◌++◌, take, length, codes, OnOk};
ghost use Rattle.std.specs.List.{flat_map, list_any};
ghost use Rattle.sparql_results.specs.CsvText.{csv_field, doubled, is_special, needs_quotes, plain_text};

use rdf_terms::{NoMemory, Term};
use std::alloc::Global;

/// Appends the field of a text, which may be alone in its record. A refusal may leave a part of it.
pub(crate) fn append_csv_field(
    is_alone: bool,
    text: &[u8],
    out: &mut Vec<u8>,
) -> Result<(), NoMemory>
    ensures ok { OnOk result (out.new.items ≡ out.old.items ++ csv_field is_alone text.now) }
    ensures kept { take (length out.old.items) out.new.items ≡ out.old.items }
{
    if needs_quotes(is_alone, text) {
        append_quoted(text, out)
    } else {
        out.extend_from_slice(text)?;
        Ok(())
    }
}

/// Appends the field of a value, which may be alone in its record. A refusal may leave a part of it.
pub(crate) fn append_csv_value(
    alloc: Global,
    is_alone: bool,
    value: &Option<Term>,
    out: &mut Vec<u8>,
) -> Result<(), NoMemory>
    ensures ok { OnOk result (out.new.items
        ≡ out.old.items ++ csv_field is_alone (plain_text value.now)) }
    ensures kept { take (length out.old.items) out.new.items ≡ out.old.items }
{
    match value {
        None => append_csv_field(is_alone, b"", out),
        Some(Term::Blank(number)) => {
            let label = format!(in alloc; "_:b{number}")?;
            append_csv_field(is_alone, label.as_bytes(), out)
        }
        Some(Term::Iri(iri)) => append_csv_field(is_alone, iri.as_str().as_bytes(), out),
        Some(Term::Literal(literal)) => {
            append_csv_field(is_alone, literal.lexical().as_bytes(), out)
        }
    }
}

fn needs_quotes(is_alone: bool, text: &[u8]) -> bool
    ensures { result ≡ needs_quotes is_alone text.now }
{
    (is_alone && text.is_empty()) || has_special(text)
}

fn has_special(text: &[u8]) -> bool
    ensures { result ≡ list_any is_special text.now }
{
    text.iter()
        .any(|byte| matches!(*byte, b'"' | b',' | b'\r' | b'\n'))
}

// Appends the text between quotes, each quote in it twice.
fn append_quoted(text: &[u8], out: &mut Vec<u8>) -> Result<(), NoMemory>
    ensures ok { OnOk result (out.new.items
        ≡ out.old.items ++ codes "\"" ++ flat_map doubled text.now ++ codes "\"") }
    ensures kept { take (length out.old.items) out.new.items ≡ out.old.items }
{
    out.push(b'"')?;
    for byte in text {
        match *byte {
            b'"' => out.extend_from_slice(b"\"\"")?,
            other => out.push(other)?,
        }
    }
    out.push(b'"')?;
    Ok(())
}
