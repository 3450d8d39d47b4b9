//! The results of queries (SPARQL 1.1 Query, sections 16.1, 16.3 and 18.2.5).
ghost use Rattle.std.specs.Prelude.{◌≡◌, ◌<◌, IfOk, IsTrue, Some, count_by, length, map};
ghost use Rattle.std.specs.List.{range_with_len};
ghost use Rattle.std.specs.List.Sorted.{IsStrictlySortedBy};
ghost use Rattle.rdf_terms.specs.Order.{text_cmp};
ghost use Rattle.sparql_values.specs.Mapping.{Mapping, column, same_mapping, value_in};
ghost use Rattle.sparql_algebra.specs.Results.{HasSolution, IsSelection, Solves, times_selected};
ghost use Rattle.sparql_algebra.specs.Sorted.{sorted_solutions};
ghost use Rattle.sparql_solve.specs.Pairs.{through};
ghost use Rattle.sparql_trees.specs.Visible.{visible};

use crate::asking::has_solution;
use crate::evaluation::Scope;
use crate::evaluator::group_rows;
use crate::mappings::{Mapping, place_of};
use crate::order::{ordered, sort_mappings};
use crate::rows::Row;
use crate::shapes::has_minus;
use crate::shown::{are_apart, moved_rows};
use rdf_dataset::Source;
use rdf_terms::{GraphName, NoMemory, Text, Vocabulary};
use sparql_trees::{
    Pattern, Select, named_variables, one_list_of_visible_variables, visible_variables,
};
use sparql_values::SortedNames;
use std::alloc::Global;

/// The solutions of a pattern.
#[derive(Drop)]
pub struct Solutions {
    /// The visible variables in the order of their names.
    pub variables: SortedNames,
    /// The solutions, each as often as the algebra counts it, in any order; the columns of a row are
    /// the variables.
    pub rows: Vec<Row>,
}

/// The solutions of a pattern as mappings, which take no room for what they don't bind.
#[derive(Drop)]
pub struct SolutionMappings {
    /// The visible variables in the order of their names.
    pub variables: SortedNames,
    /// The solutions, each as often as the algebra counts it, from [`sorted_solutions`] in their order;
    /// their columns are the variables.
    pub rows: Vec<Mapping>,
}

/// The solutions of a pattern in a graph of a dataset, each as often as the algebra counts it.
///
/// # Errors
/// [`NoMemory`] where memory is wanting.
pub fn solve<S: Source>(
    alloc: Global,
    pattern: &Pattern,
    graph: &GraphName,
    source: &S,
) -> Result<Solutions, NoMemory>
    ensures { IfOk result (λ s. Solves pattern.now graph.now (S.contents source.now)
        s.variables s.rows.items) }
{
    let vocabulary = Vocabulary::new(alloc)?;
    let found = solve_with(alloc, &vocabulary, pattern, graph, source)?;
    Ok(Solutions {
        variables: found.variables,
        rows: rows_of(alloc, found.rows)?,
    })
}

// The mappings as rows, which have a place for each column.
fn rows_of(alloc: Global, mappings: Vec<Mapping>) -> Result<Vec<Row>, NoMemory>
    ensures { IfOk result (λ rows. rows.items ≡ mappings.items) }
{
    let mut rows = Vec::with_capacity(alloc, mappings.len())?;
    for mapping in mappings {
        rows.push(mapping.into_row(alloc)?)?;
    }
    Ok(rows)
}

// What `solve` answers, with a vocabulary that is lent. Mappings are found over all variables that the
// pattern names; those that stand in MINUS alone are left out at the end, where there are some.
fn solve_with<S: Source>(
    alloc: Global,
    vocabulary: &Vocabulary,
    pattern: &Pattern,
    graph: &GraphName,
    source: &S,
) -> Result<SolutionMappings, NoMemory>
    ensures { IfOk result (λ s. Solves pattern.now graph.now (S.contents source.now)
        s.variables s.rows.items) }
{
    let listed = visible_variables(alloc, pattern)?;
    one_list_of_visible_variables();
    let variables = SortedNames::from_rising(listed);
    if has_minus(pattern) {
        return solve_minus(alloc, vocabulary, pattern, graph, source, variables);
    }
    let scope = Scope {
        alloc,
        variables: &variables,
        vocabulary,
    };
    let rows = group_rows(scope, graph, source, pattern)?;
    Ok(SolutionMappings { variables, rows })
}

// What `solve` answers, where MINUS stands in the pattern.
fn solve_minus<S: Source>(
    alloc: Global,
    vocabulary: &Vocabulary,
    pattern: &Pattern,
    graph: &GraphName,
    source: &S,
    variables: SortedNames,
) -> Result<SolutionMappings, NoMemory>
    requires { variables ≡ visible pattern.now }
    ensures { IfOk result (λ s. Solves pattern.now graph.now (S.contents source.now)
        s.variables s.rows.items) }
{
    let listed = named_variables(alloc, pattern)?;
    one_list_of_visible_variables();
    let all = SortedNames::from_rising(listed);
    let scope = Scope {
        alloc,
        variables: &all,
        vocabulary,
    };
    let found = group_rows(scope, graph, source, pattern)?;
    if all.as_slice() == variables.as_slice() {
        return Ok(SolutionMappings {
            variables,
            rows: found,
        });
    }
    let rows = shown_rows(alloc, &all, &variables, &found)?;
    Ok(SolutionMappings { variables, rows })
}

// What rows over these names have at the variables. A row costs what it binds.
fn shown_rows(
    alloc: Global,
    names: &SortedNames,
    variables: &SortedNames,
    rows: &[Mapping],
) -> Result<Vec<Mapping>, NoMemory>
    requires names { IsStrictlySortedBy text_cmp names.now }
    requires variables { IsStrictlySortedBy text_cmp variables.now }
    ensures { IfOk result (λ out. out.items
        ≡ map (λ r. map (value_in r) (map (column names.now) variables.now)) rows.now) }
{
    let columns = columns_of(alloc, names, variables.as_slice())?;
    let places = columns_of(alloc, variables, names.as_slice())?;
    let mut out = Vec::with_capacity(alloc, rows.len())?;
    for row in rows {
        out.push(row.shown(alloc, columns.as_slice(), places.as_slice())?)?;
    }
    Ok(out)
}

/// The solutions of a pattern in a graph of a dataset, each as often as the algebra counts it,
/// sorted by the values of the visible variables in the order of their names, unbound first. This
/// order is the project's own, SPARQL 1.1 Update, section 4.3, names none. The vocabulary is lent.
///
/// # Errors
/// [`NoMemory`] where memory is wanting.
pub fn sorted_solutions<S: Source>(
    alloc: Global,
    vocabulary: &Vocabulary,
    pattern: &Pattern,
    graph: &GraphName,
    source: &S,
) -> Result<SolutionMappings, NoMemory>
    ensures variables { IfOk result (λ s. s.variables ≡ visible pattern.now) }
    ensures rows { IfOk result (λ s. s.rows.items
        ≡ sorted_solutions pattern.now graph.now (S.contents source.now)) }
{
    let mut found = solve_with(alloc, vocabulary, pattern, graph, source)?;
    sort_mappings(&mut found.rows)?;
    Ok(found)
}

// The columns of the names; a name that is no variable has none.
fn columns_of(
    alloc: Global,
    variables: &SortedNames,
    names: &[Text],
) -> Result<Vec<Option<usize>>, NoMemory>
    ensures { IfOk result (λ columns. columns.items ≡ map (column variables.now) names.now) }
{
    let mut columns = Vec::new(alloc);
    for name in names {
        columns.push(variables.column(name))?;
    }
    Ok(columns)
}

// Whether the columns of the row are the last of these rows.
fn is_repeat(row: &Mapping, columns: &[Option<usize>], before: &[Row]) -> bool
    ensures { IsTrue result →
        0 < count_by (same_mapping (map (value_in row.now) columns.now)) before.now }
{
    match before.last() {
        Some(last) => row.is_projected(columns, last),
        None => false,
    }
}

// The columns of each row, under DISTINCT without those that are the same as of the row before.
fn projected_rows(
    alloc: Global,
    rows: &[Mapping],
    columns: &[Option<usize>],
    distinct: bool,
) -> Result<Vec<Row>, NoMemory>
    ensures { IfOk result (λ out. (m : Mapping) →
        times_selected distinct (count_by (same_mapping m) out.items)
        ≡ times_selected distinct (count_by (same_mapping m)
        (map (λ r. map (value_in r) columns.now) rows.now))) }
{
    let room = if distinct { 0 } else { rows.len() };
    let mut out = Vec::with_capacity(alloc, room)?;
    for row in rows {
        if distinct && is_repeat(row, columns, out.as_slice()) {
            continue;
        }
        out.push(row.projected(alloc, columns)?)?;
    }
    Ok(out)
}

fn is_column(column: &Option<usize>, place: usize) -> bool
    ensures { IsTrue result → column.now ≡ Some place }
{
    match column {
        Some(column) => *column == place,
        None => false,
    }
}

// Whether these are the first columns in their order.
fn are_in_place(columns: &[Option<usize>]) -> bool
    ensures { IsTrue result → columns.now ≡ map Some (range_with_len 0 (length columns.now)) }
{
    let mut place = 0;
    for column in columns {
        if !is_column(column, place) {
            return false;
        }
        place += 1;
    }
    true
}

fn is_as_long(row: &Mapping, columns: &[Option<usize>]) -> bool
    ensures { IsTrue result → length row.now ≡ length columns.now }
{
    row.len() == columns.len()
}

// Whether the columns are all that each row has, in their order.
fn are_all(columns: &[Option<usize>], rows: &[Mapping]) -> bool
    ensures { IsTrue result → map (λ r. map (value_in r) columns.now) rows.now ≡ rows.now }
{
    if !are_in_place(columns) {
        return false;
    }
    for row in rows {
        if !is_as_long(row, columns) {
            return false;
        }
    }
    true
}

// The columns of each row, under DISTINCT in fewer rows. The rows stay as they are where the columns
// are all of theirs, and their values are moved where no column stands twice.
fn selected_rows(
    alloc: Global,
    rows: Vec<Mapping>,
    columns: &[Option<usize>],
    distinct: bool,
) -> Result<Vec<Row>, NoMemory>
    ensures { IfOk result (λ out. (m : Mapping) →
        times_selected distinct (count_by (same_mapping m) out.items)
        ≡ times_selected distinct (count_by (same_mapping m)
        (map (λ r. map (value_in r) columns.now) rows.items))) }
{
    if !distinct && are_all(columns, &rows) {
        return rows_of(alloc, rows);
    }
    if !distinct && are_apart(columns) {
        return moved_rows(alloc, rows, columns);
    }
    projected_rows(alloc, &rows, columns, distinct)
}

// The column that stands at this one of these.
fn column_through(columns: &[Option<usize>], column: Option<usize>) -> Option<usize>
    ensures { result ≡ through columns.now column }
{
    match column {
        Some(column) => place_of(columns, column),
        None => None,
    }
}

// The columns that stand at these places of others.
fn columns_through(
    alloc: Global,
    columns: &[Option<usize>],
    places: &[Option<usize>],
) -> Result<Vec<Option<usize>>, NoMemory>
    ensures { IfOk result (λ out. out.items ≡ map (through columns.now) places.now) }
{
    let mut out = Vec::new(alloc);
    for place in places {
        out.push(column_through(columns, *place))?;
    }
    Ok(out)
}

// Where the columns of a SELECT stand among all names of its pattern; those that stand in MINUS alone
// are none of its solutions'.
fn selected_columns(
    alloc: Global,
    query: &Select,
    variables: &SortedNames,
    all: &SortedNames,
) -> Result<Vec<Option<usize>>, NoMemory>
    ensures { IfOk result (λ out. out.items ≡ map (through (map (column all.now) variables.now))
        (map (column variables.now) query.now.columns)) }
{
    let columns = columns_of(alloc, all, variables.as_slice())?;
    let places = columns_of(alloc, variables, query.columns.as_slice())?;
    columns_through(alloc, columns.as_slice(), places.as_slice())
}

// What [`select_with`] answers, where MINUS stands in the pattern: the rows over all names that it has
// are shown once.
fn select_minus<S: Source>(
    alloc: Global,
    vocabulary: &Vocabulary,
    query: &Select,
    source: &S,
) -> Result<Vec<Row>, NoMemory>
    ensures { IfOk result (λ rows. IsSelection query.now (S.contents source.now) rows.items) }
{
    let visible = visible_variables(alloc, &query.pattern)?;
    let named = named_variables(alloc, &query.pattern)?;
    one_list_of_visible_variables();
    let variables = SortedNames::from_rising(visible);
    let all = SortedNames::from_rising(named);
    let columns = selected_columns(alloc, query, &variables, &all)?;
    let scope = Scope {
        alloc,
        variables: &all,
        vocabulary,
    };
    let found = group_rows(scope, &GraphName::Default, source, &query.pattern)?;
    let distinct = query.distinct;
    let fewer = selected_rows(alloc, found, columns.as_slice(), distinct)?;
    Ok(ordered(fewer, distinct)?)
}

/// The rows of a SELECT over a dataset, whose default graph is the active one. They stand in their
/// order: by the columns from the left, unbound first.
///
/// # Errors
/// [`NoMemory`] where memory is wanting.
pub fn select<S: Source>(alloc: Global, query: &Select, source: &S) -> Result<Vec<Row>, NoMemory>
    ensures { IfOk result (λ rows. IsSelection query.now (S.contents source.now) rows.items) }
{
    let vocabulary = Vocabulary::new(alloc)?;
    select_with(alloc, &vocabulary, query, source)
}

/// What [`select`] answers, with a vocabulary that is lent: whoever asks many queries makes it once.
///
/// # Errors
/// [`NoMemory`] where memory is wanting.
pub fn select_with<S: Source>(
    alloc: Global,
    vocabulary: &Vocabulary,
    query: &Select,
    source: &S,
) -> Result<Vec<Row>, NoMemory>
    ensures { IfOk result (λ rows. IsSelection query.now (S.contents source.now) rows.items) }
{
    if has_minus(&query.pattern) {
        return select_minus(alloc, vocabulary, query, source);
    }
    let found = solve_with(
        alloc,
        vocabulary,
        &query.pattern,
        &GraphName::Default,
        source,
    )?;
    let columns = columns_of(alloc, &found.variables, query.columns.as_slice())?;
    let fewer = selected_rows(alloc, found.rows, columns.as_slice(), query.distinct)?;
    Ok(ordered(fewer, query.distinct)?)
}

/// Whether a pattern has a solution in a dataset, whose default graph is the active one (ASK).
///
/// # Errors
/// [`NoMemory`] where memory is wanting.
pub fn ask<S: Source>(alloc: Global, pattern: &Pattern, source: &S) -> Result<bool, NoMemory>
    ensures { IfOk result (λ answer. HasSolution pattern.now (S.contents source.now) answer) }
{
    let vocabulary = Vocabulary::new(alloc)?;
    ask_with(alloc, &vocabulary, pattern, source)
}

/// What [`ask`] answers, with a vocabulary that is lent: whoever asks many queries makes it once.
///
/// # Errors
/// [`NoMemory`] where memory is wanting.
pub fn ask_with<S: Source>(
    alloc: Global,
    vocabulary: &Vocabulary,
    pattern: &Pattern,
    source: &S,
) -> Result<bool, NoMemory>
    ensures { IfOk result (λ answer. HasSolution pattern.now (S.contents source.now) answer) }
{
    let listed = named_variables(alloc, pattern)?;
    one_list_of_visible_variables();
    let names = SortedNames::from_rising(listed);
    let graph = GraphName::Default;
    let scope = Scope {
        alloc,
        variables: &names,
        vocabulary,
    };
    has_solution(scope, &graph, source, pattern)
}
