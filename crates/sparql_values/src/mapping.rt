//! What a row has at a variable (SPARQL 1.1 Query, section 18.1.3).
ghost use Rattle.std.specs.Prelude.{◌≡◌};
ghost use Rattle.std.specs.Option.{option_map};
ghost use Rattle.sparql_values.specs.Mapping.{value_of};

use crate::columns::Columns;
use crate::sorted_names::SortedNames;
use rdf_terms::{Term, Text};

/// What a row has at a variable.
pub(crate) fn value_of<'a>(
    variables: &SortedNames,
    row: &'a Columns,
    name: &Text,
) -> Option<&'a Term>
    ensures { option_map (λ t. t.now) result ≡ value_of variables.now row.now name.now }
{
    match variables.column(name) {
        Some(place) => row.value(place),
        None => None,
    }
}
