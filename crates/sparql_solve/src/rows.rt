//! Rows: what is handed out of solutions.
ghost use Rattle.std.specs.Prelude.{◌≡◌, true, IfOk, map};
ghost use Rattle.std.specs.Option.{option_map};
ghost use Rattle.sparql_values.specs.Mapping.{value_at, value_in};
ghost use Rattle.sparql_algebra.specs.Order.{mapping_cmp};
ghost use Rattle.sparql_solve.specs.Shown.{apart, left_of};

use rdf_terms::{NoMemory, Term};
use std::alloc::Global;
use std::cmp::Ordering;
use std::marker::Model;

/// A mapping that is handed out: at each column its term, or nothing.
#[derive(Drop)]
pub struct Row {
    values: Vec<Option<Term>>,
}

impl Model for Row {
    ghost use Rattle.std.specs.Prelude.{List, Option};
    ghost use Rattle.rdf_terms.specs.declared.term.Term.{Term};

    ghost Value = { List (Option Term) };

    ghost view = { λ r. r.values.items };
}

// Takes what stands at the column, if there is one.
fn take_in(values: &mut Vec<Option<Term>>, column: Option<usize>) -> Option<Term>
    ensures value { result ≡ value_in values.old.items column }
    ensures left { values.new.items ≡ left_of values.old.items column }
{
    match values.get_mut(column?) {
        Some(value) => value.take(),
        None => None,
    }
}

impl Row {
    /// The row of these values.
    pub(crate) fn of(values: Vec<Option<Term>>) -> Row
        ensures { result ≡ values.items }
    {
        Row { values }
    }

    /// Its values in the order of the columns.
    pub fn values(&self) -> &[Option<Term>]
        ensures { result.now ≡ self.now }
    {
        self.values.as_slice()
    }

    /// What stands at the column; past the last one nothing does.
    pub fn value(&self, column: usize) -> Option<&Term>
        ensures { option_map (λ t. t.now) result ≡ value_at self.now column }
    {
        if column < self.values.len() {
            self.values[column].as_ref()
        } else {
            None
        }
    }

    /// The row of these columns of it, none of which stands twice; one that isn't there is unbound.
    pub(crate) fn moved(self, alloc: Global, columns: &[Option<usize>]) -> Result<Row, NoMemory>
        requires { apart columns.now ≡ true }
        ensures { IfOk result (λ row. row ≡ map (value_in self) columns.now) }
    {
        let Row { values: mut own } = self;
        let mut values = Vec::with_capacity(alloc, columns.len())?;
        for column in columns {
            values.push(take_in(&mut own, *column))?;
        }
        Ok(Row { values })
    }

    /// By the values from the left, unbound first.
    pub(crate) fn compare(&self, other: &Row) -> Ordering
        ensures { result ≡ mapping_cmp self.now other.now }
    {
        self.values.cmp(&other.values)
    }
}
