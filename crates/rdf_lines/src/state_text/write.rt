//! The state text, written.
ghost use Rattle.std.specs.Prelude.{◌≡◌, ◌++◌, ℕ, List, codes, decimal, length, take, OnOk, OnErr, IsSorted, IsPermutation};
ghost use Rattle.std.specs.FinSet as set;
ghost use Rattle.std.specs.List.{flat_map};
ghost use Rattle.std.specs.List.Sorted.{IsStrictlySortedBy};
ghost use Rattle.rdf_terms.specs.Order.{term_cmp, quad_cmp};
ghost use Rattle.rdf_terms.specs.declared.term.Term.{Term};
ghost use Rattle.rdf_lines.specs.StateText.{IsSoundState, IsStateText, name_line, names_of, quads_of};

use super::number::append_number;
use crate::write::{append_lines, references, write_sorted};
use rdf_terms::{NoMemory, Quad, Term, or_truncate, write_term};
use std::alloc::Global;

/// Appends the state text of a sound state, whose names and quads are given each once, in any order.
///
/// # Errors
/// [`NoMemory`] where memory is wanting; the vector is then as it was.
pub fn write_state(
    alloc: Global,
    next: u64,
    names: &[Term],
    quads: &[Quad],
    out: &mut Vec<u8>,
) -> Result<(), NoMemory>
    requires sound { IsSoundState next (names_of names.now) (quads_of quads.now) }
    requires names_once { length names.now ≡ set.len (names_of names.now) }
    requires quads_once { length quads.now ≡ set.len (quads_of quads.now) }
    ensures ok { OnOk result ((text : List ℕ)
        × IsStateText next (names_of names.now) (quads_of quads.now) text
        × (out.new.items ≡ out.old.items ++ text)) }
    ensures err { OnErr result (out.new.items ≡ out.old.items) }
{
    let before = out.len();
    or_truncate(append_state(alloc, next, names, quads, out), out, before)
}

fn append_state(
    alloc: Global,
    next: u64,
    names: &[Term],
    quads: &[Quad],
    out: &mut Vec<u8>,
) -> Result<(), NoMemory>
    requires names_once { length names.now ≡ set.len (names_of names.now) }
    requires quads_once { length quads.now ≡ set.len (quads_of quads.now) }
    ensures ok { OnOk result ((text : List ℕ)
        × IsStateText next (names_of names.now) (quads_of quads.now) text
        × (out.new.items ≡ out.old.items ++ text)) }
    ensures kept { take (length out.old.items) out.new.items ≡ out.old.items }
{
    append_head(next, out)?;
    append_names(alloc, names, out)?;
    write_sorted(alloc, quads, out)
}

/// Appends the state text of a sound state, whose names and quads are given each once and in order, as it
/// stands in the text.
///
/// # Errors
/// [`NoMemory`] where memory is wanting; the vector is then as it was.
pub fn write_sorted_state(
    next: u64,
    names: &[Term],
    quads: &[Quad],
    out: &mut Vec<u8>,
) -> Result<(), NoMemory>
    requires sound { IsSoundState next (names_of names.now) (quads_of quads.now) }
    requires names_rise { IsStrictlySortedBy term_cmp names.now }
    requires quads_rise { IsStrictlySortedBy quad_cmp quads.now }
    ensures ok { OnOk result ((text : List ℕ)
        × IsStateText next (names_of names.now) (quads_of quads.now) text
        × (out.new.items ≡ out.old.items ++ text)) }
    ensures err { OnErr result (out.new.items ≡ out.old.items) }
{
    let before = out.len();
    or_truncate(append_sorted_state(next, names, quads, out), out, before)
}

fn append_sorted_state(
    next: u64,
    names: &[Term],
    quads: &[Quad],
    out: &mut Vec<u8>,
) -> Result<(), NoMemory>
    requires names_rise { IsStrictlySortedBy term_cmp names.now }
    requires quads_rise { IsStrictlySortedBy quad_cmp quads.now }
    ensures ok { OnOk result ((text : List ℕ)
        × IsStateText next (names_of names.now) (quads_of quads.now) text
        × (out.new.items ≡ out.old.items ++ text)) }
    ensures kept { take (length out.old.items) out.new.items ≡ out.old.items }
{
    append_head(next, out)?;
    append_name_lines(names, out)?;
    append_lines(quads, out)
}

// The format, its version and the counter.
fn append_head(next: u64, out: &mut Vec<u8>) -> Result<(), NoMemory>
    ensures ok { OnOk result (out.new.items
        ≡ out.old.items ++ (codes "#% rdfkeep state 2\n#% next " ++ (decimal next ++ codes "\n"))) }
    ensures kept { take (length out.old.items) out.new.items ≡ out.old.items }
{
    out.extend_from_slice(b"#% rdfkeep state 2\n#% next ")?;
    append_number(next, out)?;
    out.push(b'\n')?;
    Ok(())
}

// The lines of the names, in the order that these have.
fn append_name_lines(names: &[Term], out: &mut Vec<u8>) -> Result<(), NoMemory>
    ensures ok { OnOk result (out.new.items ≡ out.old.items ++ flat_map name_line names.now) }
    ensures kept { take (length out.old.items) out.new.items ≡ out.old.items }
{
    for name in names {
        append_name(name, out)?;
    }
    Ok(())
}

fn append_names(alloc: Global, names: &[Term], out: &mut Vec<u8>) -> Result<(), NoMemory>
    ensures ok { OnOk result ((sorted : List Term) × IsPermutation names.now sorted
        × IsSorted term_cmp sorted
        × (out.new.items ≡ out.old.items ++ flat_map name_line sorted)) }
    ensures kept { take (length out.old.items) out.new.items ≡ out.old.items }
{
    let mut sorted = references(alloc, names)?;
    sorted.sort()?;
    for name in &sorted {
        append_name(*name, out)?;
    }
    Ok(())
}

fn append_name(name: &Term, out: &mut Vec<u8>) -> Result<(), NoMemory>
    ensures ok { OnOk result (out.new.items ≡ out.old.items ++ name_line name.now) }
    ensures kept { take (length out.old.items) out.new.items ≡ out.old.items }
{
    out.extend_from_slice(b"#% graph ")?;
    write_term(name, out)?;
    out.push(b'\n')?;
    Ok(())
}
