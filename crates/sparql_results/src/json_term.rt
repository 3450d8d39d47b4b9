//! The terms of results in JSON.
ghost use Rattle.std.specs.Cmp.Lexicographic.{pointwise};
ghost use Rattle.std.specs.Prelude.{◌≡◌, ◌++◌, nat_eq, take, length, codes, decimal, OnOk};
ghost use Rattle.rdf_terms.specs.Literal.{xsd_string};
ghost use Rattle.sparql_results.specs.JsonText.{json_datatype, json_literal, json_string, json_suffix, json_term};

use crate::json_string::append_json_string;
use rdf_terms::{Iri, Literal, NoMemory, Term};
use std::alloc::Global;

/// Appends the object of a term. A refusal may leave a part of it.
pub(crate) fn append_json_term(
    alloc: Global,
    term: &Term,
    out: &mut Vec<u8>,
) -> Result<(), NoMemory>
    ensures ok { OnOk result (out.new.items ≡ out.old.items ++ json_term term.now) }
    ensures kept { take (length out.old.items) out.new.items ≡ out.old.items }
{
    match term {
        Term::Blank(number) => append_json_blank(alloc, *number, out),
        Term::Iri(iri) => append_json_iri(iri, out),
        Term::Literal(literal) => append_json_literal(literal, out),
    }
}

fn append_json_blank(alloc: Global, number: u64, out: &mut Vec<u8>) -> Result<(), NoMemory>
    ensures ok { OnOk result (out.new.items ≡ out.old.items
        ++ codes "{\"type\":\"bnode\",\"value\":" ++ json_string (codes "b" ++ decimal number) ++ codes "}") }
    ensures kept { take (length out.old.items) out.new.items ≡ out.old.items }
{
    let label = format!(in alloc; "b{number}")?;
    append_json_object(b"{\"type\":\"bnode\",\"value\":", label.as_bytes(), out)
}

fn append_json_iri(iri: &Iri, out: &mut Vec<u8>) -> Result<(), NoMemory>
    ensures ok { OnOk result (out.new.items ≡ out.old.items
        ++ codes "{\"type\":\"uri\",\"value\":" ++ json_string iri.now ++ codes "}") }
    ensures kept { take (length out.old.items) out.new.items ≡ out.old.items }
{
    append_json_object(
        b"{\"type\":\"uri\",\"value\":",
        iri.as_str().as_bytes(),
        out,
    )
}

// Appends an object of a type and a value; the type stands in what opens it.
fn append_json_object(opener: &[u8], value: &[u8], out: &mut Vec<u8>) -> Result<(), NoMemory>
    ensures ok { OnOk result (out.new.items
        ≡ out.old.items ++ opener.now ++ json_string value.now ++ codes "}") }
    ensures kept { take (length out.old.items) out.new.items ≡ out.old.items }
{
    append_json_field(opener, value, out)?;
    out.push(b'}')?;
    Ok(())
}

// Appends a name, and the string behind it.
fn append_json_field(name: &[u8], value: &[u8], out: &mut Vec<u8>) -> Result<(), NoMemory>
    ensures ok { OnOk result (out.new.items
        ≡ out.old.items ++ name.now ++ json_string value.now) }
    ensures kept { take (length out.old.items) out.new.items ≡ out.old.items }
{
    out.extend_from_slice(name)?;
    append_json_string(value, out)
}

fn append_json_literal(literal: &Literal, out: &mut Vec<u8>) -> Result<(), NoMemory>
    ensures ok { OnOk result (out.new.items ≡ out.old.items ++ json_literal literal.now) }
    ensures kept { take (length out.old.items) out.new.items ≡ out.old.items }
{
    append_json_field(
        b"{\"type\":\"literal\",\"value\":",
        literal.lexical().as_bytes(),
        out,
    )?;
    append_json_suffix(literal, out)?;
    out.push(b'}')?;
    Ok(())
}

fn append_json_suffix(literal: &Literal, out: &mut Vec<u8>) -> Result<(), NoMemory>
    ensures ok { OnOk result (out.new.items
        ≡ out.old.items ++ json_suffix literal.now.datatype literal.now.tag) }
    ensures kept { take (length out.old.items) out.new.items ≡ out.old.items }
{
    match literal.tag() {
        Some(tag) => append_json_tag(tag, out),
        None => append_json_datatype(literal.datatype(), out),
    }
}

fn append_json_tag(tag: &str, out: &mut Vec<u8>) -> Result<(), NoMemory>
    ensures ok { OnOk result (out.new.items
        ≡ out.old.items ++ codes ",\"xml:lang\":" ++ json_string tag.now) }
    ensures kept { take (length out.old.items) out.new.items ≡ out.old.items }
{
    append_json_field(b",\"xml:lang\":", tag.as_bytes(), out)
}

fn append_json_datatype(datatype: &Iri, out: &mut Vec<u8>) -> Result<(), NoMemory>
    ensures ok { OnOk result (out.new.items ≡ out.old.items ++ json_datatype datatype.now) }
    ensures kept { take (length out.old.items) out.new.items ≡ out.old.items }
{
    if is_xsd_string(datatype) {
        return Ok(());
    }
    append_json_field(b",\"datatype\":", datatype.as_str().as_bytes(), out)
}

fn is_xsd_string(datatype: &Iri) -> bool
    ensures { result ≡ pointwise nat_eq datatype.now xsd_string }
{
    datatype.as_str() == "http://www.w3.org/2001/XMLSchema#string"
}
