//! The lines of names and nets.
ghost use Rattle.std.specs.Prelude.{◌≡◌, ◌++◌, ℕ, List, length, map, IfOk, OnOk};
ghost use Rattle.std.specs.List.{concat};
ghost use Rattle.rdf_lines.specs.QuadText.{quad_text};
ghost use Rattle.rdf_keeper.specs.Script.Show.{ListsChange, Shows, name_line};
ghost use Rattle.rdf_keeper.specs.declared.script.command.Topic.TheVariants.{State};

use crate::script::line::line_ends;
use rdf_dataset::Net;
use rdf_lines::write_quad;
use rdf_session::Keeper;
use rdf_terms::{NoMemory, Quad, Term, write_term};

fn append_name(before: &[u8], name: &Term, out: &mut Vec<u8>) -> Result<(), NoMemory>
    ensures { OnOk result (out.new.items ≡ out.old.items ++ (before.now ++ name_line name.now)) }
{
    out.extend_from_slice(before)?;
    write_term(name, out)?;
    out.push(b'\n')?;
    Ok(())
}

fn append_quad(before: &[u8], quad: &Quad, out: &mut Vec<u8>) -> Result<(), NoMemory>
    ensures { OnOk result (out.new.items ≡ out.old.items ++ (before.now ++ quad_text quad.now)) }
{
    out.extend_from_slice(before)?;
    write_quad(quad, out)?;
    Ok(())
}

/// Appends a line for each name. A refusal may leave some of the lines.
pub(crate) fn append_names(before: &[u8], names: &[Term], out: &mut Vec<u8>) -> Result<(), NoMemory>
    ensures { OnOk result (out.new.items ≡
        out.old.items ++ concat (map (λ n. before.now ++ name_line n) names.now)) }
{
    for name in names {
        append_name(before, name, out)?;
    }
    Ok(())
}

// Appends a line for each quad. A refusal may leave some of the lines.
fn append_quads(before: &[u8], quads: &[Quad], out: &mut Vec<u8>) -> Result<(), NoMemory>
    ensures { OnOk result (out.new.items ≡
        out.old.items ++ concat (map (λ q. before.now ++ quad_text q) quads.now)) }
{
    for quad in quads {
        append_quad(before, quad, out)?;
    }
    Ok(())
}

/// Appends the lines of a net, and answers how many there are. A refusal may leave some of the lines.
pub(crate) fn append_change(net: &Net, out: &mut Vec<u8>) -> Result<u64, NoMemory>
    ensures { IfOk result (λ count. (lines : List (List ℕ)) × ListsChange net.now lines
        × (out.new.items ≡ out.old.items ++ concat lines) × (count ≡ length lines)) }
{
    let names_removed = net.names_removed();
    let removed = net.removed();
    let names_added = net.names_added();
    let added = net.added();
    append_names(b"- graph ", names_removed, out)?;
    append_quads(b"- ", removed, out)?;
    append_names(b"+ graph ", names_added, out)?;
    append_quads(b"+ ", added, out)?;
    let names = names_removed.len() + names_added.len();
    let quads = removed.len() + added.len();
    Ok((names + quads) as u64)
}

/// Appends the lines of the state text of the state now, and answers how many there are.
pub(crate) fn append_state(keeper: &Keeper, out: &mut Vec<u8>) -> Result<u64, NoMemory>
    ensures { IfOk result (λ count. (lines : List (List ℕ)) × Shows State keeper.now lines
        × (out.new.items ≡ out.old.items ++ concat lines) × (count ≡ length lines)) }
{
    let before = out.len();
    keeper.dump(out)?;
    Ok(line_ends(&out[before..]) as u64)
}
