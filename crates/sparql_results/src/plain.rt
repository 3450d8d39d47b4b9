//! Literals whose lexical form stands in a field as it is.
ghost use Rattle.std.specs.Prelude.{◌≡◌, ◌++◌, false, take, length, codes, nat_eq, IsTrue, OnOk};
ghost use Rattle.std.specs.Cmp.Lexicographic.{pointwise};
ghost use Rattle.std.specs.List.{flat_map, list_any};
ghost use Rattle.rdf_terms.specs.Literal.{xsd_string};
ghost use Rattle.rdf_terms.specs.TermText.{datatype_text, literal_text, suffix_text};
ghost use Rattle.sparql_results.specs.ResultsText.{without_tab};
ghost use Rattle.sparql_results.specs.Plain.{is_special};

use rdf_terms::{Iri, Literal, NoMemory};

// Whether a byte may be written otherwise between the quotes of a field: `"`, `\`, or one of the control characters up to CR.
fn is_special(byte: u8) -> bool
    ensures { result ≡ is_special byte }
{
    byte < 14 || byte == b'"' || byte == b'\\'
}

// Whether one of sixteen bytes may be written otherwise. Each is asked, so that they are asked side by side.
fn has_special_of_many(bytes: &[u8; 16]) -> bool
    ensures { result ≡ list_any is_special bytes.now }
{
    let mut found = false;
    for byte in bytes {
        found |= is_special(*byte);
    }
    found
}

// Whether a byte of a short text may be written otherwise.
fn has_special(text: &[u8]) -> bool
    ensures { result ≡ list_any is_special text.now }
{
    text.iter().any(|byte| is_special(*byte))
}

/// Whether the text is written as it is between the quotes of a field.
pub(crate) fn is_plain(text: &[u8]) -> bool
    ensures { IsTrue result → list_any is_special text.now ≡ false }
{
    let mut rest = text;
    while let Some((bytes, behind)) = rest.split_first_chunk::<16>() {
        if has_special_of_many(bytes) {
            return false;
        }
        rest = behind;
    }
    !has_special(rest)
}

/// Appends the field of a literal whose lexical form is written as it is. A refusal may leave a part of it.
pub(crate) fn append_plain(literal: &Literal, out: &mut Vec<u8>) -> Result<(), NoMemory>
    requires { list_any is_special literal.now.lexical ≡ false }
    ensures ok { OnOk result (out.new.items
        ≡ out.old.items ++ flat_map without_tab (literal_text literal.now)) }
    ensures kept { take (length out.old.items) out.new.items ≡ out.old.items }
{
    append_as_it_is(literal.lexical(), literal, out)
}

// Appends a lexical form between quotes, and what follows these in a literal.
fn append_as_it_is(lexical: &str, literal: &Literal, out: &mut Vec<u8>) -> Result<(), NoMemory>
    ensures ok { OnOk result (out.new.items ≡ out.old.items ++ (codes "\"" ++ lexical.now
        ++ codes "\"" ++ suffix_text literal.now.datatype literal.now.tag)) }
    ensures kept { take (length out.old.items) out.new.items ≡ out.old.items }
{
    out.extend_from_slice(b"\"")?;
    out.extend_from_slice(lexical.as_bytes())?;
    out.extend_from_slice(b"\"")?;
    append_suffix(literal, out)
}

// Appends what follows the quotes: the tag, or else the datatype, of which xsd:string isn't written.
fn append_suffix(literal: &Literal, out: &mut Vec<u8>) -> Result<(), NoMemory>
    ensures ok { OnOk result (out.new.items
        ≡ out.old.items ++ suffix_text literal.now.datatype literal.now.tag) }
    ensures kept { take (length out.old.items) out.new.items ≡ out.old.items }
{
    match literal.tag() {
        Some(tag) => append_tag(tag, out),
        None => append_datatype(literal.datatype(), out),
    }
}

fn append_tag(tag: &str, out: &mut Vec<u8>) -> Result<(), NoMemory>
    ensures ok { OnOk result (out.new.items ≡ out.old.items ++ codes "@" ++ tag.now) }
    ensures kept { take (length out.old.items) out.new.items ≡ out.old.items }
{
    out.extend_from_slice(b"@")?;
    out.extend_from_slice(tag.as_bytes())?;
    Ok(())
}

fn append_datatype(datatype: &Iri, out: &mut Vec<u8>) -> Result<(), NoMemory>
    ensures ok { OnOk result (out.new.items ≡ out.old.items ++ datatype_text datatype.now) }
    ensures kept { take (length out.old.items) out.new.items ≡ out.old.items }
{
    if is_xsd_string(datatype) {
        return Ok(());
    }
    out.extend_from_slice(b"^^<")?;
    out.extend_from_slice(datatype.as_str().as_bytes())?;
    out.extend_from_slice(b">")?;
    Ok(())
}

fn is_xsd_string(datatype: &Iri) -> bool
    ensures { result ≡ pointwise nat_eq datatype.now xsd_string }
{
    datatype.as_str() == "http://www.w3.org/2001/XMLSchema#string"
}
