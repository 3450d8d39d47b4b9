//! The lines of quads.
ghost use Rattle.std.specs.Prelude.{◌≡◌, ◌++◌, map, OnErr, OnOk};
ghost use Rattle.std.specs.List.{concat};
ghost use Rattle.rdf_lines.specs.QuadText.{quad_text};

use rdf_lines::write_quad;
use rdf_terms::{NoMemory, Quad, or_truncate};

/// Appends the lines of the quads; a refusal leaves the vector as it was.
pub(crate) fn write_lines(quads: &[Quad], out: &mut Vec<u8>) -> Result<(), NoMemory>
    ensures ok { OnOk result (out.new.items ≡ out.old.items ++ concat (map quad_text quads.now)) }
    ensures err { OnErr result (out.new.items ≡ out.old.items) }
{
    let before = out.len();
    for quad in quads {
        or_truncate(write_quad(quad, out), out, before)?;
    }
    Ok(())
}
