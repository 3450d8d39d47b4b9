//! Mappings: a term or nothing at each column of a pattern (SPARQL 1.1 Query, section 18.1.4).
ghost use Rattle.std.specs.Prelude.{◌≡◌, ◌+◌, ◌<◌, length, is_none, is_some, slice_index_or, slice_set, Some, IfOk, IfSome, IsTrue, OnOk, cond, replicate, None, take, if◌then◌else◌, nat_lt, map};
ghost use Rattle.std.specs.List.{list_all, zip};
ghost use Rattle.std.specs.Option.{option_copied, option_map};
ghost use Rattle.sparql_values.specs.Mapping.{agrees, compatible, empty_mapping, first_of, merge, same_mapping, same_value, set_in, single, value_at, value_in};
ghost use Rattle.sparql_values.specs.NextBound.{IsNextBound};
ghost use Rattle.sparql_algebra.specs.Order.{mapping_cmp};
ghost use Rattle.sparql_algebra.specs.Solutions.{shares};
ghost use Rattle.sparql_solve.specs.LookUps.{widened};
ghost use Rattle.sparql_solve.specs.Matching.{assigned, held, vacant};
ghost use Rattle.sparql_solve.specs.Pairs.{AreTurned, PutsAt, holds, with_value, with_value_in};
ghost use Rattle.sparql_solve.specs.Under.{below, binds_none, masked};

use crate::flags::Flags;
use crate::place::Place;
use crate::rows::Row;
use crate::values::{
    Pair, agree, agree_with, both_have, copy_value, holds, is_same, is_same_value, lies,
};
use rdf_terms::{NoMemory, Term, Text};
use sparql_values::{Columns, SortedNames};
use std::alloc::Global;
use std::cmp::Ordering;
use std::marker::Model;

/// A mapping: at each variable's column its term, or nothing. Over many columns it takes no more
/// room and time than what it binds, but for a logarithm.
#[derive(Drop)]
pub struct Mapping {
    columns: Columns,
}

impl Model for Mapping {
    ghost use Rattle.std.specs.Prelude.{List, Option};
    ghost use Rattle.rdf_terms.specs.declared.term.Term.{Term};

    ghost Value = { List (Option Term) };

    ghost view = { λ m. m.columns };
}

/// The place of a column, where it has one.
pub(crate) fn place_of(places: &[Option<usize>], column: usize) -> Option<usize>
    ensures { result ≡ slice_index_or places.now column None }
{
    if column < places.len() {
        places[column]
    } else {
        None
    }
}

impl Mapping {
    /// The mapping of these values.
    #[inline(always)]
    pub(crate) fn plain(values: Vec<Option<Term>>) -> Mapping
        ensures { result ≡ values.items }
    {
        Mapping {
            columns: Columns::plain(values),
        }
    }

    /// What stands at the column; past the last one nothing does.
    #[inline(always)]
    pub fn value(&self, column: usize) -> Option<&Term>
        ensures { option_map (λ t. t.now) result ≡ value_at self.now column }
    {
        self.columns.value(column)
    }

    /// How many columns it has.
    #[inline(always)]
    pub(crate) fn len(&self) -> usize
        ensures { result ≡ length self.now }
    {
        self.columns.len()
    }

    /// The columns, as filters ask them.
    #[inline(always)]
    pub(crate) fn columns(&self) -> &Columns
        ensures { result.now ≡ self.now }
    {
        &self.columns
    }

    /// The first column from this one on that has a term.
    pub(crate) fn next_bound(&self, from: usize) -> Option<usize>
        ensures next { IsNextBound self.now from result }
        ensures within { IfSome result (λ column. column < length self.now) }
    {
        self.columns.next_bound(from)
    }

    // Whether this holds of what both have at the column.
    fn holds_at(&self, other: &Mapping, pair: Pair, column: usize) -> bool
        ensures { result ≡ holds pair (value_at self.now column, value_at other.now column) }
    {
        match self.value(column) {
            Some(term) => holds(pair, term, other.value(column)),
            None => true,
        }
    }

    // Whether this holds of what both have at each column.
    fn all_hold(&self, other: &Mapping, pair: Pair) -> bool
        ensures { result ≡ list_all (holds pair) (zip self.now other.now) }
    {
        let len = self.len().min(other.len());
        let mut from = 0;
        while let Some(column) = self.next_bound(from) {
            if len <= column {
                return true;
            }
            if !self.holds_at(other, pair, column) {
                return false;
            }
            from = column + 1;
        }
        true
    }

    /// Whether no column has two different terms in them.
    pub(crate) fn is_compatible(&self, other: &Mapping) -> bool
        ensures { result ≡ compatible self.now other.now }
    {
        if let Some(own) = self.columns.as_plain() {
            if let Some(others) = other.columns.as_plain() {
                return own.iter().zip(others).all(|(x, y)| agree(x, y));
            }
        }
        self.all_hold(other, Pair::Agree)
    }

    /// Whether it has a variable in common with another mapping: one that both bind.
    pub(crate) fn shares(&self, other: &Mapping) -> bool
        ensures { result ≡ shares self.now other.now }
    {
        if let Some(own) = self.columns.as_plain() {
            if let Some(others) = other.columns.as_plain() {
                return own.iter().zip(others).any(|(x, y)| both_have(x, y));
            }
        }
        !self.all_hold(other, Pair::Apart)
    }

    /// Whether each column is unbound or has what the other mapping has there.
    pub(crate) fn is_below(&self, other: &Mapping) -> bool
        ensures { result ≡ below self.now other.now }
    {
        if let Some(own) = self.columns.as_plain() {
            if let Some(others) = other.columns.as_plain() {
                return own.iter().zip(others).all(|(x, y)| lies(x, y));
            }
        }
        self.all_hold(other, Pair::Lie)
    }

    // The merge of two mappings, column by column.
    fn merged_plainly(
        alloc: Global,
        own: &[Option<Term>],
        others: &[Option<Term>],
    ) -> Result<Mapping, NoMemory>
        ensures { IfOk result (λ mapping. mapping ≡ merge own.now others.now) }
    {
        let mut values = Vec::with_capacity(alloc, own.len())?;
        for (x, y) in own.iter().zip(others) {
            values.push(copy_value(x.as_ref().or(y.as_ref()))?)?;
        }
        Ok(Mapping {
            columns: Columns::plain(values),
        })
    }

    // Puts at the column what the other mapping has there, where this one has nothing.
    fn put_missing(&mut self, alloc: Global, column: usize, other: &Mapping) -> Result<(), NoMemory>
        ensures { OnOk result (PutsAt self.old self.new column
            (first_of (value_at self.old column, value_at other.now column))) }
    {
        if self.value(column).is_some() {
            return Ok(());
        }
        match other.value(column) {
            Some(term) => self.set(alloc, column, term.copy()?),
            None => Ok(()),
        }
    }

    /// The mapping with what the other one has where this one has nothing.
    pub(crate) fn filled(self, alloc: Global, other: &Mapping) -> Result<Mapping, NoMemory>
        ensures { IfOk result (λ mapping. mapping ≡ merge self other.now) }
    {
        let mut out = self.cut(alloc, other.len())?;
        let mut from = 0;
        while let Some(column) = other.next_bound(from) {
            out.put_missing(alloc, column, other)?;
            from = column + 1;
        }
        Ok(out)
    }

    /// The merge of the two, column by column.
    pub(crate) fn merged(&self, alloc: Global, other: &Mapping) -> Result<Mapping, NoMemory>
        ensures { IfOk result (λ mapping. mapping ≡ merge self.now other.now) }
    {
        if let Some(own) = self.columns.as_plain() {
            if let Some(others) = other.columns.as_plain() {
                return Mapping::merged_plainly(alloc, own, others);
            }
        }
        self.copy(alloc)?.filled(alloc, other)
    }

    /// Whether it binds nothing.
    pub(crate) fn is_unbound(&self) -> bool
        ensures { result ≡ binds_none self.now }
    {
        self.next_bound(0).is_none()
    }

    // Puts at the column, which has nothing or the same, what the other mapping has there.
    fn put_copy(&mut self, alloc: Global, column: usize, other: &Mapping) -> Result<(), NoMemory>
        ensures { OnOk result (self.new ≡ with_value self.old column (value_at other.now column)) }
    {
        match other.value(column) {
            Some(term) => self.set(alloc, column, term.copy()?),
            None => Ok(()),
        }
    }

    /// The columns whose flag is up; the others are unbound.
    pub(crate) fn masked(&self, alloc: Global, flags: &Flags) -> Result<Mapping, NoMemory>
        ensures { IfOk result (λ mapping. mapping ≡ masked flags.now self.now) }
    {
        let Some(columns) = flags.columns() else {
            return self.copy(alloc)?.cut(alloc, flags.len());
        };
        let mut out = Mapping::unbound_over(alloc, self.len().min(flags.len()))?;
        for column in columns {
            out.put_copy(alloc, *column, self)?;
        }
        Ok(out)
    }

    /// A copy of the mapping.
    pub(crate) fn copy(&self, alloc: Global) -> Result<Mapping, NoMemory>
        ensures { IfOk result (λ mapping. mapping ≡ self.now) }
    {
        Ok(Mapping {
            columns: self.columns.copy(alloc)?,
        })
    }

    /// A copy with so many columns more, which have nothing.
    pub(crate) fn widened(&self, alloc: Global, hidden: u64) -> Result<Mapping, NoMemory>
        ensures { IfOk result (λ mapping. mapping ≡ widened hidden self.now) }
    {
        Ok(self.copy(alloc)?.widen(alloc, hidden)?)
    }

    /// The mapping with so many columns more, which have nothing.
    pub(crate) fn widen(self, alloc: Global, hidden: u64) -> Result<Mapping, NoMemory>
        ensures { IfOk result (λ mapping. mapping ≡ widened hidden self) }
    {
        let Mapping { columns } = self;
        Ok(Mapping {
            columns: columns.widen(alloc, hidden)?,
        })
    }

    // The mapping of so many columns, with nothing in each.
    fn unbound_over(alloc: Global, columns: usize) -> Result<Mapping, NoMemory>
        ensures { IfOk result (λ mapping. mapping ≡ replicate columns None) }
    {
        Ok(Mapping {
            columns: Columns::unbound(alloc, columns)?,
        })
    }

    /// The mapping of the variables, with nothing in each column.
    pub(crate) fn unbound(alloc: Global, variables: &SortedNames) -> Result<Mapping, NoMemory>
        ensures { IfOk result (λ mapping. mapping ≡ empty_mapping variables.now) }
    {
        Mapping::unbound_over(alloc, variables.len())
    }

    /// The mapping that binds one variable alone to a term; nothing where it has no column.
    pub(crate) fn single(
        alloc: Global,
        variables: &SortedNames,
        name: &Text,
        term: &Term,
    ) -> Result<Mapping, NoMemory>
        ensures { IfOk result (λ mapping. mapping ≡ single variables.now name.now term.now) }
    {
        let mut mapping = Mapping::unbound(alloc, variables)?;
        if let Some(column) = variables.column(name) {
            mapping.set(alloc, column, term.copy()?)?;
        }
        Ok(mapping)
    }

    /// Puts the term at the column, if there is one.
    #[inline(always)]
    pub(crate) fn set(&mut self, alloc: Global, column: usize, term: Term) -> Result<(), NoMemory>
        ensures { OnOk result (self.new ≡ slice_set self.old column (Some term)) }
    {
        self.columns.set(alloc, column, term)
    }

    // The place of a column in the mapping.
    #[inline(always)]
    fn index(&self, column: u128) -> Option<usize>
        ensures { result ≡ (if nat_lt column (length self.now) then Some column else None) }
    {
        if column < self.len() as u128 {
            Some(column as usize)
        } else {
            None
        }
    }

    /// The column of the place, where it has nothing.
    #[inline(always)]
    pub(crate) fn vacant(&self, place: &Place) -> Option<usize>
        ensures { result ≡ vacant self.now place.now }
    {
        let Place::Column(column) = place else {
            return None;
        };
        let index = self.index(*column)?;
        if self.value(index).is_none() {
            Some(index)
        } else {
            None
        }
    }

    /// The term that the place has in the mapping.
    #[inline(always)]
    pub(crate) fn held<'r>(&'r self, place: &'r Place) -> Option<&'r Term>
        ensures { option_copied result ≡ held self.now place.now }
    {
        match place {
            Place::Fixed(term) => Some(term),
            Place::Column(column) => match self.index(*column) {
                Some(index) => self.value(index),
                None => None,
            },
            Place::Nowhere => None,
        }
    }

    /// Whether the place has a term in the mapping.
    #[inline(always)]
    pub(crate) fn has(&self, place: &Place) -> bool
        ensures { result ≡ is_some (held self.now place.now) }
    {
        self.held(place).is_some()
    }

    /// Whether the place has the same in both mappings: one term, or nothing.
    pub(crate) fn holds_same(&self, other: &Mapping, place: &Place) -> bool
        ensures { IsTrue result → held self.now place.now ≡ held other.now place.now }
    {
        match place {
            Place::Fixed(_) | Place::Nowhere => true,
            Place::Column(_) => is_same_value(self.held(place), other.held(place)),
        }
    }

    // Whether the place may have the term: it has it, or nothing.
    fn admits(&self, place: &Place, term: &Term) -> bool
        ensures { result ≡ is_some (assigned self.now place.now term.now) }
    {
        match place {
            Place::Fixed(fixed) => is_same(fixed, term),
            Place::Column(column) => match self.index(*column) {
                Some(index) => match self.value(index) {
                    Some(held) => is_same(held, term),
                    None => true,
                },
                None => false,
            },
            Place::Nowhere => false,
        }
    }

    /// Puts the term at the place, and answers whether it may stand there: nothing else does. Where
    /// the place is known to have it, no term is compared.
    pub(crate) fn take(
        &mut self,
        alloc: Global,
        place: &Place,
        term: &Term,
        is_known: bool,
    ) -> Result<bool, NoMemory>
        requires { IsTrue is_known → assigned self.old place.now term.now ≡ Some self.old }
        ensures { IfOk result (λ fits.
            assigned self.old place.now term.now ≡ cond fits (Some self.new) None) }
    {
        if is_known {
            return Ok(true);
        }
        let Some(column) = self.vacant(place) else {
            return Ok(self.admits(place, term));
        };
        self.set(alloc, column, term.copy()?)?;
        Ok(true)
    }

    /// Moves the term to the place, and answers whether it may stand there: nothing else does.
    pub(crate) fn put(&mut self, alloc: Global, place: &Place, term: Term) -> Result<bool, NoMemory>
        ensures { IfOk result (λ fits.
            assigned self.old place.now term ≡ cond fits (Some self.new) None) }
    {
        let Some(column) = self.vacant(place) else {
            return Ok(self.admits(place, &term));
        };
        self.set(alloc, column, term)?;
        Ok(true)
    }

    /// Puts the term at the column, if there is one, and answers whether it may stand there: nothing
    /// else does.
    pub(crate) fn bind(
        &mut self,
        alloc: Global,
        column: Option<usize>,
        term: &Term,
    ) -> Result<bool, NoMemory>
        ensures fits { IfOk result (λ fits.
            fits ≡ agrees (value_in self.old column, Some term.now)) }
        ensures bound { IfOk result (λ fits.
            IsTrue fits → self.new ≡ set_in self.old column term.now) }
    {
        if !agree_with(self.value_in(column), term) {
            return Ok(false);
        }
        let copy = term.copy()?;
        if let Some(column) = column {
            self.set(alloc, column, copy)?;
        }
        Ok(true)
    }

    /// The first columns alone.
    pub(crate) fn cut(self, alloc: Global, many: usize) -> Result<Mapping, NoMemory>
        ensures { IfOk result (λ mapping. mapping ≡ take many self) }
    {
        let Mapping { columns } = self;
        Ok(Mapping {
            columns: columns.cut(alloc, many)?,
        })
    }

    /// What stands at the column, if there is one.
    pub(crate) fn value_in(&self, column: Option<usize>) -> Option<&Term>
        ensures { option_copied result ≡ value_in self.now column }
    {
        match column {
            Some(column) => self.value(column),
            None => None,
        }
    }

    /// The row of these columns; one that isn't there is unbound.
    pub(crate) fn projected(
        &self,
        alloc: Global,
        columns: &[Option<usize>],
    ) -> Result<Row, NoMemory>
        ensures { IfOk result (λ row. row ≡ map (value_in self.now) columns.now) }
    {
        let mut values = Vec::with_capacity(alloc, columns.len())?;
        for column in columns {
            values.push(copy_value(self.value_in(*column))?)?;
        }
        Ok(Row::of(values))
    }

    // Whether what stands at the column, if there is one, is this value.
    fn has_value(&self, column: Option<usize>, value: &Option<Term>) -> bool
        ensures { result ≡ same_value (value_in self.now column) value.now }
    {
        is_same_value(self.value_in(column), value.as_ref())
    }

    /// Whether these columns of it are a row.
    pub(crate) fn is_projected(&self, columns: &[Option<usize>], row: &Row) -> bool
        ensures { result ≡ same_mapping (map (value_in self.now) columns.now) row.now }
    {
        let values = row.values();
        columns.len() == values.len()
            && columns
                .iter()
                .zip(values)
                .all(|(column, value)| self.has_value(*column, value))
    }

    // Puts the term, if there is one, at the place, if there is one.
    fn put_at(
        &mut self,
        alloc: Global,
        place: Option<usize>,
        term: Option<&Term>,
    ) -> Result<(), NoMemory>
        ensures { OnOk result (self.new ≡ with_value_in self.old place (option_copied term.entry)) }
    {
        match (place, term) {
            (Some(place), Some(term)) => self.set(alloc, place, term.copy()?),
            _ => Ok(()),
        }
    }

    /// The mapping of these columns, each of which has its own place among them; one that isn't there
    /// is unbound.
    pub(crate) fn shown(
        &self,
        alloc: Global,
        columns: &[Option<usize>],
        places: &[Option<usize>],
    ) -> Result<Mapping, NoMemory>
        requires { AreTurned columns.now places.now }
        ensures { IfOk result (λ mapping. mapping ≡ map (value_in self.now) columns.now) }
    {
        let mut out = Mapping::unbound_over(alloc, columns.len())?;
        let len = self.len();
        let mut from = 0;
        while from < len {
            let Some(column) = self.next_bound(from) else {
                return Ok(out);
            };
            out.put_at(alloc, place_of(places, column), self.value(column))?;
            from = column + 1;
        }
        Ok(out)
    }

    /// As a row, which has a place for each column.
    pub(crate) fn into_row(self, alloc: Global) -> Result<Row, NoMemory>
        ensures { IfOk result (λ row. row ≡ self) }
    {
        let Mapping { columns } = self;
        Ok(Row::of(columns.into_values(alloc)?))
    }

    // By what is bound from the left, unbound first.
    fn compare_bound(&self, other: &Mapping) -> Ordering
        ensures { result ≡ mapping_cmp self.now other.now }
    {
        let len = self.len();
        let mut from = 0;
        while let Some(column) = self.next_bound(from) {
            let Some(next) = other.next_bound(from) else {
                return Ordering::Greater;
            };
            if column != next {
                return next.cmp(&column);
            }
            let by_value = self.value(column).cmp(&other.value(column));
            if by_value.is_ne() {
                return by_value;
            }
            from = column + 1;
        }
        match other.next_bound(from) {
            Some(_) => Ordering::Less,
            None => len.cmp(&other.len()),
        }
    }

    /// By the values from the left, unbound first.
    pub(crate) fn compare(&self, other: &Mapping) -> Ordering
        ensures { result ≡ mapping_cmp self.now other.now }
    {
        if let Some(own) = self.columns.as_plain() {
            if let Some(others) = other.columns.as_plain() {
                return own.cmp(others);
            }
        }
        self.compare_bound(other)
    }
}
