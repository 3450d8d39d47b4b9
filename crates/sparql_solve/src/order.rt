//! Rows in order, and each once.
ghost use Rattle.std.specs.Prelude.{◌≡◌, IfOk, OnOk, IsPermutation, IsSorted, count_by};
ghost use Rattle.sparql_values.specs.Mapping.{Mapping, same_mapping};
ghost use Rattle.sparql_algebra.specs.Order.{mapping_cmp};
ghost use Rattle.sparql_algebra.specs.Results.{times_selected};

use crate::coded::sort_many;
use crate::mappings::Mapping;
use crate::rows::Row;
use rdf_terms::NoMemory;

/// Sorts mappings by their values from the left, unbound first.
pub(crate) fn sort_mappings(mappings: &mut Vec<Mapping>) -> Result<(), NoMemory>
    ensures permutation { OnOk result (IsPermutation mappings.old.items mappings.new.items) }
    ensures sorted { OnOk result (IsSorted mapping_cmp mappings.new.items) }
{
    mappings.sort_by(|left, right| left.compare(right))?;
    Ok(())
}

// So few rows are sorted as they are.
const FEW: usize = 20;

// Sorts rows by their values from the left, unbound first.
fn sort_rows(rows: &mut Vec<Row>) -> Result<(), NoMemory>
    ensures permutation { OnOk result (IsPermutation rows.old.items rows.new.items) }
    ensures sorted { OnOk result (IsSorted mapping_cmp rows.new.items) }
{
    if FEW < rows.len() {
        let alloc = *rows.allocator();
        return sort_many(alloc, rows);
    }
    rows.sort_by(|left, right| left.compare(right))?;
    Ok(())
}

/// The rows sorted by their values from the left, unbound first; under DISTINCT each once.
pub(crate) fn ordered(mut rows: Vec<Row>, distinct: bool) -> Result<Vec<Row>, NoMemory>
    ensures sorted { IfOk result (λ out. IsSorted mapping_cmp out.items) }
    ensures counted { IfOk result (λ out. (m : Mapping) → count_by (same_mapping m) out.items
        ≡ times_selected distinct (count_by (same_mapping m) rows.items)) }
{
    sort_rows(&mut rows)?;
    if distinct {
        rows.dedup_by(|row, before| row.compare(before).is_eq());
        return Ok(rows);
    }
    Ok(rows)
}
