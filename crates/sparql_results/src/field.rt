//! The field of a value.
ghost use Rattle.std.specs.Prelude.{◌≡◌, ◌≤◌, ◌==◌, ◌++◌, drop, false, take, length, OnOk};
ghost use Rattle.std.specs.List.{flat_map, list_any};
ghost use Rattle.rdf_terms.specs.TermText.{term_text};
ghost use Rattle.sparql_results.specs.ResultsText.{field_text, without_tab};

use crate::plain::{append_plain, is_plain};
use memchr::memchr;
use rdf_terms::{NoMemory, Term, term_is_one, write_term};
use std::alloc::Global;

/// Appends the field of a value. A refusal may leave a part of it.
pub(crate) fn append_field(
    alloc: Global,
    value: &Option<Term>,
    out: &mut Vec<u8>,
) -> Result<(), NoMemory>
    ensures ok { OnOk result (out.new.items ≡ out.old.items ++ field_text value.now) }
    ensures kept { take (length out.old.items) out.new.items ≡ out.old.items }
{
    let Some(term) = value else {
        return Ok(());
    };
    if let Term::Literal(literal) = term {
        if is_plain(literal.lexical().as_bytes()) {
            return append_plain(literal, out);
        }
    }
    let before = out.len();
    write_term(term, out)?;
    if may_have_tab(term) {
        return escape_tabs(alloc, before, out);
    }
    Ok(())
}

// Whether a tab may stand in the term's text: none stands in an IRI, or in a blank node's label.
fn may_have_tab(term: &Term) -> bool
    ensures { result ≡ false → flat_map without_tab (term_text term.now) ≡ term_text term.now }
{
    term_is_one(term);
    match term {
        Term::Blank(_) => false,
        Term::Iri(_) => false,
        Term::Literal(_) => true,
    }
}

// Writes `\t` for each tab from a place on. Few texts have one.
fn escape_tabs(alloc: Global, from: usize, out: &mut Vec<u8>) -> Result<(), NoMemory>
    requires { from ≤ length out.old.items }
    ensures ok { OnOk result (out.new.items
        ≡ take from out.old.items ++ flat_map without_tab (drop from out.old.items)) }
    ensures kept { take from out.new.items ≡ take from out.old.items }
{
    if !has_tab(&out[from..]) {
        return Ok(());
    }
    let text = Vec::from_slice(alloc, &out[from..])?;
    out.truncate(from);
    append_without_tabs(text.as_slice(), out)
}

fn has_tab(text: &[u8]) -> bool
    ensures { result ≡ list_any (λ c. c == 9) text.now }
{
    memchr(b'\t', text).is_some()
}

// Appends the text, with `\t` for each tab.
fn append_without_tabs(text: &[u8], out: &mut Vec<u8>) -> Result<(), NoMemory>
    ensures ok { OnOk result (out.new.items ≡ out.old.items ++ flat_map without_tab text.now) }
    ensures kept { take (length out.old.items) out.new.items ≡ out.old.items }
{
    for byte in text {
        match *byte {
            b'\t' => out.extend_from_slice(b"\\t")?,
            other => out.push(other)?,
        }
    }
    Ok(())
}
