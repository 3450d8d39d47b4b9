//! The lines of quads.
ghost use Rattle.std.specs.Prelude.{◌≡◌, ℕ, List, codes, ◌++◌, take, length, OnOk, OnErr, IfOk, IsSorted, IsPermutation, map};
ghost use Rattle.std.specs.List.{flat_map};
ghost use Rattle.rdf_terms.specs.Order.{quad_cmp};
ghost use Rattle.rdf_terms.specs.TermText.{term_text};
ghost use Rattle.rdf_lines.specs.QuadText.{graph_text, quad_text, IsSortedText, SortedTextIsOne};

use rdf_terms::{GraphName, NoMemory, Quad, Term, or_truncate, write_term};
use std::alloc::Global;

/// Appends the line of the quad: its terms as canonical N-Triples, then its graph if it has a name, one space after each, then
/// a dot and LF (RDF 1.1 N-Quads, section 2).
///
/// # Errors
/// [`NoMemory`] where memory is wanting; the vector is then as it was.
pub fn write_quad(quad: &Quad, out: &mut Vec<u8>) -> Result<(), NoMemory>
    ensures ok { OnOk result (out.new.items ≡ out.old.items ++ quad_text quad.now) }
    ensures err { OnErr result (out.new.items ≡ out.old.items) }
{
    let before = out.len();
    or_truncate(append_quad(quad, out), out, before)
}

fn append_quad(quad: &Quad, out: &mut Vec<u8>) -> Result<(), NoMemory>
    ensures ok { OnOk result (out.new.items ≡ out.old.items ++ quad_text quad.now) }
    ensures kept { take (length out.old.items) out.new.items ≡ out.old.items }
{
    append_term(quad.subject(), out)?;
    append_term(quad.predicate(), out)?;
    append_term(quad.object(), out)?;
    append_graph(quad.graph(), out)?;
    out.extend_from_slice(b".\n")?;
    Ok(())
}

/// Appends the term, and a space.
pub(crate) fn append_term(term: &Term, out: &mut Vec<u8>) -> Result<(), NoMemory>
    ensures ok { OnOk result (out.new.items ≡ out.old.items ++ (term_text term.now ++ codes " ")) }
    ensures kept { take (length out.old.items) out.new.items ≡ out.old.items }
{
    write_term(term, out)?;
    out.push(b' ')?;
    Ok(())
}

fn append_graph(graph: &GraphName, out: &mut Vec<u8>) -> Result<(), NoMemory>
    ensures ok { OnOk result (out.new.items ≡ out.old.items ++ graph_text graph.now) }
    ensures kept { take (length out.old.items) out.new.items ≡ out.old.items }
{
    match graph {
        GraphName::Default => Ok(()),
        GraphName::Named(name) => append_term(name, out),
    }
}

/// Appends the lines of the quads, repeats included, by graph, subject, predicate and object, the default graph first.
///
/// # Errors
/// [`NoMemory`] where memory is wanting; the vector is then as it was.
pub fn write_sorted(alloc: Global, quads: &[Quad], out: &mut Vec<u8>) -> Result<(), NoMemory>
    ensures ok { OnOk result ((text : List ℕ) × IsSortedText quads.now text
        × (out.new.items ≡ out.old.items ++ text)) }
    ensures err { OnErr result (out.new.items ≡ out.old.items) }
{
    let before = out.len();
    or_truncate(append_sorted(alloc, quads, out), out, before)
}

fn append_sorted(alloc: Global, quads: &[Quad], out: &mut Vec<u8>) -> Result<(), NoMemory>
    ensures ok { OnOk result ((text : List ℕ) × IsSortedText quads.now text
        × (out.new.items ≡ out.old.items ++ text)) }
    ensures kept { take (length out.old.items) out.new.items ≡ out.old.items }
{
    let mut sorted = references(alloc, quads)?;
    sorted.sort()?;
    for quad in &sorted {
        write_quad(*quad, out)?;
    }
    Ok(())
}

/// Appends the lines of the quads, in the order that they have.
pub(crate) fn append_lines(quads: &[Quad], out: &mut Vec<u8>) -> Result<(), NoMemory>
    ensures ok { OnOk result (out.new.items ≡ out.old.items ++ flat_map quad_text quads.now) }
    ensures kept { take (length out.old.items) out.new.items ≡ out.old.items }
{
    for quad in quads {
        write_quad(quad, out)?;
    }
    Ok(())
}

/// The items by reference, in their order.
///
/// # Errors
/// [`NoMemory`] where memory is wanting.
pub fn references<'a, T>(alloc: Global, items: &'a [T]) -> Result<Vec<&'a T>, NoMemory>
    ensures { IfOk result (λ v. map (λ x. x.now) v.items ≡ items.now) }
{
    let mut all = Vec::new(alloc);
    for item in items {
        all.push(item)?;
    }
    Ok(all)
}

/// Quads have one sorted text.
pub fn sorted_text_is_one()
    ensures { SortedTextIsOne }
{}
