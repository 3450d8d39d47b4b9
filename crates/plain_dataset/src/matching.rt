//! The quads that have given terms.
ghost use Rattle.std.specs.Prelude.{◌≡◌, ◌++◌, filter, option_copied, OnOk, OnErr};
ghost use Rattle.std.specs.Ordering.{eq_by_cmp};
ghost use Rattle.rdf_terms.specs.Order.{graph_cmp};
ghost use Rattle.rdf_dataset.specs.State.{matches, fits_place};

use rdf_sets::{Item, append_copy};
use rdf_terms::{GraphName, NoMemory, Quad, Term, or_truncate};

fn is_same_graph(graph: &GraphName, other: &GraphName) -> bool
    ensures { result ≡ eq_by_cmp graph_cmp graph.now other.now }
{
    graph.cmp(other).is_eq()
}

fn fits(place: Option<&Term>, term: &Term) -> bool
    ensures { result ≡ fits_place (option_copied place.entry) term.now }
{
    match place {
        None => true,
        Some(bound) => bound.compare(term).is_eq(),
    }
}

fn is_match(
    quad: &Quad,
    graph: &GraphName,
    subject: Option<&Term>,
    predicate: Option<&Term>,
    object: Option<&Term>,
) -> bool
    ensures { result ≡ matches graph.now (option_copied subject.entry)
        (option_copied predicate.entry) (option_copied object.entry) quad.now }
{
    is_same_graph(graph, quad.graph())
        && fits(subject, quad.subject())
        && fits(predicate, quad.predicate())
        && fits(object, quad.object())
}

/// Appends the quads of a list that match, or changes nothing.
pub(crate) fn append_matching(
    out: &mut Vec<Quad>,
    quads: &[Quad],
    graph: &GraphName,
    subject: Option<&Term>,
    predicate: Option<&Term>,
    object: Option<&Term>,
) -> Result<(), NoMemory>
    ensures ok { OnOk result (out.new.items
        ≡ out.old.items ++ filter (matches graph.now (option_copied subject.entry)
        (option_copied predicate.entry) (option_copied object.entry)) quads.now) }
    ensures err { OnErr result (out.new.items ≡ out.old.items) }
{
    let before = out.len();
    for quad in quads {
        if is_match(quad, graph, subject, predicate, object) {
            or_truncate(append_copy(out, quad), out, before)?;
        }
    }
    Ok(())
}
