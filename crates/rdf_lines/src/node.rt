//! Blank nodes and IRIs.
ghost use Rattle.std.specs.Prelude.{◌≡◌, IfOk};
ghost use Rattle.rdf_lines.specs.Reading as reading;

use crate::name::{blank_node_label, first_is};
use crate::written::WrittenNode;
use rdf_terms::{Cursor, NoMemory};
use std::alloc::Global;

/// An IRI or a blank node's label, and the place behind it.
#[tactic(auto, unfolding(crate::specs::Reading::node_at))]
pub fn node<'a>(
    alloc: Global,
    at: &Cursor<'a>,
) -> Result<Option<(WrittenNode, Cursor<'a>)>, NoMemory>
    ensures { IfOk result (λ r. r ≡ reading.node_at at.now) }
{
    if first_is(at, '<') {
        let Some((iri, rest)) = at.iri(alloc)? else {
            return Ok(None);
        };
        return Ok(Some((WrittenNode::Iri(iri), rest)));
    }
    let Some((label, rest)) = blank_node_label(alloc, at)? else {
        return Ok(None);
    };
    Ok(Some((WrittenNode::Label(label), rest)))
}
