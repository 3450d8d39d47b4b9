//! Blank node labels that stand in two places where one alone may have them (SPARQL 1.1 Query,
//! sections 4.1.4 and 19.6).
ghost use Rattle.std.specs.Prelude.{◌≡◌, false, IfOk, OnOk};
ghost use Rattle.std.specs.List.{list_any};
ghost use Rattle.sparql_syntax.specs.Labels as spec;

use indexmap::IndexSet;
use rdf_grammar::Key;
use rdf_terms::{Items, NoMemory};
use rdf_tokens::Slice;

/// Whether the label is known.
pub(crate) fn is_among<'a>(known: &IndexSet<Key<'a>>, label: &Slice<'a>) -> bool
    ensures { result ≡ spec.is_among known.now.keys label.now }
{
    known.contains(&Key::of(label))
}

/// Whether one of the labels is known.
pub(crate) fn knows_one<'a>(known: &IndexSet<Key<'a>>, labels: &[Slice<'a>]) -> bool
    ensures { result ≡ list_any (spec.is_among known.now.keys) labels.now }
{
    for label in labels {
        if is_among(known, label) {
            return true;
        }
    }
    false
}

/// From here on the labels are known.
///
/// # Errors
/// [`NoMemory`] where memory is wanting.
pub(crate) fn know<'a>(known: &mut IndexSet<Key<'a>>, labels: &[Slice<'a>]) -> Result<(), NoMemory>
    ensures { OnOk result (known.new.keys ≡ spec.known_behind known.old.keys labels.now) }
{
    for label in labels {
        known.insert(Key::of(label))?;
    }
    Ok(())
}

/// Whether a label stands in one of these lists that is known, or that stood in one before it. If none
/// does, the labels are known from here on.
///
/// # Errors
/// [`NoMemory`] where memory is wanting.
pub(crate) fn repeats_label<'a>(
    known: &mut IndexSet<Key<'a>>,
    lists: &[Items<Slice<'a>>],
) -> Result<bool, NoMemory>
    ensures found { let repeats = spec.repeats_label known.old.keys lists.now in
        IfOk result (λ found. found ≡ repeats) }
    ensures knows { IfOk result (λ found. found ≡ false
        → known.new.keys ≡ spec.all_known_behind known.old.keys lists.now) }
{
    for labels in lists {
        if knows_one(known, labels.as_slice()) {
            return Ok(true);
        }
        know(known, labels.as_slice())?;
    }
    Ok(false)
}
