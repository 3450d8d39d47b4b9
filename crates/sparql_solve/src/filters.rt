//! Filter of rows (SPARQL 1.1 Query, section 18.5).
ghost use Rattle.std.specs.Prelude.{◌≡◌, IfOk, filter};
ghost use Rattle.sparql_algebra.specs.Results.{is_some_solution};
ghost use Rattle.sparql_algebra.specs.Solutions.{satisfies};

use crate::evaluation::Scope;
use crate::mappings::Mapping;
use rdf_terms::NoMemory;
use sparql_trees::Expression;
use sparql_values::is_satisfied;

// Whether each of the filters is true of the row.
fn satisfies(scope: &Scope, row: &Mapping, filters: &[Expression]) -> Result<bool, NoMemory>
    ensures { IfOk result (λ b. b ≡ satisfies scope.now.variables.now filters.now row.now) }
{
    for filter in filters {
        if !is_satisfied(
            scope.alloc,
            scope.variables,
            row.columns(),
            scope.vocabulary,
            filter,
        )? {
            return Ok(false);
        }
    }
    Ok(true)
}

/// The rows of which each of the filters is true, neither false nor an error.
pub(crate) fn filtered_rows(
    scope: &Scope,
    rows: Vec<Mapping>,
    filters: &[Expression],
) -> Result<Vec<Mapping>, NoMemory>
    ensures { IfOk result
        (λ out. out.items ≡ filter (satisfies scope.now.variables.now filters.now) rows.items) }
{
    if filters.is_empty() {
        return Ok(rows);
    }
    let mut out = Vec::new(scope.alloc);
    for row in rows {
        if satisfies(scope, &row, filters)? {
            out.push(row)?;
        }
    }
    Ok(out)
}

/// Whether each of the filters is true of one of the rows.
pub(crate) fn some_satisfies(
    scope: &Scope,
    rows: &[Mapping],
    filters: &[Expression],
) -> Result<bool, NoMemory>
    ensures { IfOk result (λ answer. answer
        ≡ is_some_solution (filter (satisfies scope.now.variables.now filters.now) rows.now)) }
{
    for row in rows {
        if satisfies(scope, row, filters)? {
            return Ok(true);
        }
    }
    Ok(false)
}
