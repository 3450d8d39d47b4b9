//! What stands at the columns of a mapping, where most of many have nothing.
ghost use Rattle.std.specs.Prelude.{◌≡◌, ◌+◌, ◌^◌, ◌<◌, ◌++◌, IfOk, IfSome, None, OnOk, Some, length, if◌then◌else◌, is_ok, replicate, slice_set, take};
ghost use Rattle.std.specs.Option.{option_map};
ghost use Rattle.sparql_values.specs.NextBound.{IsNextBound};
ghost use Rattle.sparql_values.specs.Mapping.{value_at};

use rdf_terms::{NoMemory, Term};
use std::alloc::Global;
use std::marker::Model;

// So many columns are kept side by side, and more in a tree.
const FEW: usize = 16;

/// A term or nothing at each of some columns. Few columns are a vector; many are a tree, in which
/// parts that have nothing take no room, so that a term is found or put in log n steps.
#[cycle(columns)]
#[derive(Drop)]
pub struct Columns {
    form: Form,
}

#[cycle(columns)]
#[derive(Drop)]
enum Form {
    /// What stands at each column.
    Plain(Vec<Option<Term>>),
    /// So many columns, with nothing in each.
    Nothing(usize),
    /// The first columns, how many these are, and the others.
    Fork(Box<Columns>, usize, Box<Columns>),
}

impl Model for Columns {
    ghost use Rattle.std.specs.Prelude.{List, Option, length};
    ghost use Rattle.rdf_terms.specs.declared.term.Term.{Term};

    ghost Value = { List (Option Term) };

    ghost use Rattle.sparql_values.specs.Columns.{values, IsRight};

    ghost view = { λ c. values c.form };

    ghost invariant = { λ c. IsRight c.form };

    ghost size = { length };

    ghost use Rattle.sparql_values.specs.ColumnsFall.{sides_are_shorter};

    ghost size_decreases = { λ c h. sides_are_shorter c.form h };
}

// A copy of the value.
fn copied(value: &Option<Term>) -> Result<Option<Term>, NoMemory>
    ensures { IfOk result (λ copy. copy ≡ value.now) }
{
    Ok(match value {
        Some(term) => Some(term.copy()?),
        None => None,
    })
}

// So many columns side by side, with nothing in each.
fn nones(alloc: Global, columns: u64) -> Result<Vec<Option<Term>>, NoMemory>
    ensures { IfOk result (λ values. values.items ≡ replicate columns None) }
{
    let mut values = Vec::new(alloc);
    for _column in 0..columns {
        values.push(None)?;
    }
    Ok(values)
}

// What stands at the column of these; past the last one nothing does.
#[inline(always)]
fn plain_value(values: &[Option<Term>], column: usize) -> Option<&Term>
    ensures { option_map (λ t. t.now) result ≡ value_at values.now column }
{
    if column < values.len() {
        values[column].as_ref()
    } else {
        None
    }
}

// Puts the term at the column of these, if there is one.
#[inline(always)]
fn plain_set(values: &mut Vec<Option<Term>>, column: usize, term: Term)
    ensures { values.new.items ≡ slice_set values.old.items column (Some term) }
{
    if let Some(value) = values.get_mut(column) {
        let _ = value.replace(term);
    }
}

// The first column from this one on that has a term.
#[inline(always)]
fn next_of(values: &[Option<Term>], from: usize) -> Option<usize>
    ensures { IsNextBound values.now from result }
{
    let mut column = from;
    while column < values.len() {
        if values[column].is_some() {
            return Some(column);
        }
        column += 1;
    }
    None
}

// A copy of each value.
fn copied_all(alloc: Global, values: &[Option<Term>]) -> Result<Vec<Option<Term>>, NoMemory>
    ensures { IfOk result (λ copy. copy.items ≡ values.now) }
{
    let mut copy = Vec::with_capacity(alloc, values.len())?;
    for value in values {
        copy.push(copied(value)?)?;
    }
    Ok(copy)
}

// So many columns, in a tree, with nothing in each but one.
#[cycle(sprouted)]
fn sprouted(alloc: Global, columns: usize, column: usize, term: Term) -> Result<Columns, NoMemory>
    ensures { IfOk result (λ c. c ≡ slice_set (replicate columns None) column (Some term)) }
{
    if columns <= FEW {
        let mut values = nones(alloc, columns as u64)?;
        if let Some(value) = values.get_mut(column) {
            let _ = value.replace(term);
        }
        return Ok(Columns::plain(values));
    }
    let half = columns / 2;
    let rest = columns - half;
    if column < half {
        let first = sprouted(alloc, half, column, term)?;
        return forked(alloc, first, half, Columns::nothing(rest));
    }
    let others = sprouted(alloc, rest, column - half, term)?;
    forked(alloc, Columns::nothing(half), half, others)
}

// The first columns, so many, and the others.
fn forked(alloc: Global, first: Columns, many: usize, others: Columns) -> Result<Columns, NoMemory>
    requires many { many ≡ length first }
    requires some { 0 < length first }
    requires others { 0 < length others }
    requires fits { length first + length others < 2 ^ 64 }
    ensures { IfOk result (λ c. c ≡ first ++ others) }
{
    let first = Box::new(alloc, first)?;
    let others = Box::new(alloc, others)?;
    Ok(Columns {
        form: Form::Fork(first, many, others),
    })
}

impl Columns {
    /// What stands at each column.
    #[inline(always)]
    pub fn plain(values: Vec<Option<Term>>) -> Columns
        ensures { result ≡ values.items }
    {
        Columns {
            form: Form::Plain(values),
        }
    }

    // So many columns in a tree, with nothing in each.
    fn nothing(columns: usize) -> Columns
        ensures { result ≡ replicate columns None }
    {
        Columns {
            form: Form::Nothing(columns),
        }
    }

    /// So many columns, with nothing in each.
    pub fn unbound(alloc: Global, columns: usize) -> Result<Columns, NoMemory>
        ensures { IfOk result (λ c. c ≡ replicate columns None) }
    {
        if FEW < columns {
            return Ok(Columns::nothing(columns));
        }
        Ok(Columns::plain(nones(alloc, columns as u64)?))
    }

    /// What stands at each column, where they are kept side by side.
    #[inline(always)]
    pub fn as_plain(&self) -> Option<&[Option<Term>]>
        ensures { IfSome result (λ values. values.now ≡ self.now) }
    {
        match &self.form {
            Form::Plain(values) => Some(values.as_slice()),
            _ => None,
        }
    }

    /// How many columns there are.
    #[inline(always)]
    pub fn len(&self) -> usize
        ensures { result ≡ length self.now }
    {
        match &self.form {
            Form::Plain(values) => values.len(),
            Form::Nothing(columns) => *columns,
            Form::Fork(_, many, others) => *many + others.len(),
        }
    }

    // What stands at the column, side by side or in a part of the tree.
    #[cycle(value_in_parts)]
    fn value_in_parts(&self, column: usize) -> Option<&Term>
        ensures { option_map (λ t. t.now) result ≡ value_at self.now column }
    {
        match &self.form {
            Form::Plain(values) => plain_value(values, column),
            Form::Nothing(_) => None,
            Form::Fork(first, many, others) => {
                if column < *many {
                    first.value_in_parts(column)
                } else {
                    others.value_in_parts(column - *many)
                }
            }
        }
    }

    /// What stands at the column; past the last one nothing does.
    #[inline(always)]
    pub fn value(&self, column: usize) -> Option<&Term>
        ensures { option_map (λ t. t.now) result ≡ value_at self.now column }
    {
        match self.as_plain() {
            Some(values) => plain_value(values, column),
            None => self.value_in_parts(column),
        }
    }

    // The first column from this one on that has a term, side by side or in a part of the tree.
    #[cycle(next_in_parts)]
    fn next_in_parts(&self, from: usize) -> Option<usize>
        ensures { IsNextBound self.now from result }
    {
        match &self.form {
            Form::Plain(values) => next_of(values, from),
            Form::Nothing(_) => None,
            Form::Fork(first, many, others) => {
                if *many <= from {
                    return Some(*many + others.next_in_parts(from - *many)?);
                }
                match first.next_in_parts(from) {
                    Some(column) => Some(column),
                    None => Some(*many + others.next_in_parts(0)?),
                }
            }
        }
    }

    /// The first column from this one on that has a term.
    pub fn next_bound(&self, from: usize) -> Option<usize>
        ensures { IsNextBound self.now from result }
    {
        match self.as_plain() {
            Some(values) => next_of(values, from),
            None => self.next_in_parts(from),
        }
    }

    // Puts the term at the column, if there is one, side by side or in a part of the tree.
    #[cycle(set_in_parts)]
    fn set_in_parts(&mut self, alloc: Global, column: usize, term: Term) -> Result<(), NoMemory>
        ensures { self.new
            ≡ (if is_ok result then slice_set self.old column (Some term) else self.old) }
    {
        match &mut self.form {
            Form::Plain(values) => {
                plain_set(values, column, term);
                Ok(())
            }
            Form::Nothing(columns) => {
                *self = sprouted(alloc, *columns, column, term)?;
                Ok(())
            }
            Form::Fork(first, many, others) => {
                if column < *many {
                    first.set_in_parts(alloc, column, term)
                } else {
                    others.set_in_parts(alloc, column - *many, term)
                }
            }
        }
    }

    /// Puts the term at the column, if there is one.
    ///
    /// # Errors
    /// [`NoMemory`] where memory is wanting; nothing has changed then.
    #[inline(always)]
    pub fn set(&mut self, alloc: Global, column: usize, term: Term) -> Result<(), NoMemory>
        ensures { self.new
            ≡ (if is_ok result then slice_set self.old column (Some term) else self.old) }
    {
        if let Form::Plain(values) = &mut self.form {
            plain_set(values, column, term);
            return Ok(());
        }
        self.set_in_parts(alloc, column, term)
    }

    /// A copy of the columns.
    #[cycle(copy)]
    pub fn copy(&self, alloc: Global) -> Result<Columns, NoMemory>
        ensures { IfOk result (λ copy. copy ≡ self.now) }
    {
        match &self.form {
            Form::Plain(values) => Ok(Columns::plain(copied_all(alloc, values)?)),
            Form::Nothing(columns) => Ok(Columns::nothing(*columns)),
            Form::Fork(first, many, others) => {
                let first = first.copy(alloc)?;
                let others = others.copy(alloc)?;
                forked(alloc, first, *many, others)
            }
        }
    }

    // Appends what stands at each column.
    #[cycle(append_to)]
    fn append_to(self, out: &mut Vec<Option<Term>>) -> Result<(), NoMemory>
        ensures { OnOk result (out.new.items ≡ out.old.items ++ self) }
    {
        match self.form {
            Form::Plain(mut values) => {
                out.append(&mut values)?;
                Ok(())
            }
            Form::Nothing(columns) => {
                for _column in 0..columns {
                    out.push(None)?;
                }
                Ok(())
            }
            Form::Fork(first, _, others) => {
                Box::into_inner(first).append_to(out)?;
                Box::into_inner(others).append_to(out)
            }
        }
    }

    /// What stands at each column, side by side.
    pub fn into_values(self, alloc: Global) -> Result<Vec<Option<Term>>, NoMemory>
        ensures { IfOk result (λ values. values.items ≡ self) }
    {
        match self.form {
            Form::Plain(values) => Ok(values),
            form => {
                let mut values = Vec::new(alloc);
                Columns { form }.append_to(&mut values)?;
                Ok(values)
            }
        }
    }

    // The columns and some more behind them.
    fn followed_by(self, alloc: Global, mut more: Vec<Option<Term>>) -> Result<Columns, NoMemory>
        ensures { IfOk result (λ c. c ≡ self ++ more.items) }
    {
        if more.is_empty() {
            return Ok(self);
        }
        let many = self.len();
        let is_tree = self.as_plain().is_none() && 0 < many;
        if is_tree && many.checked_add(more.len()).is_some() {
            return forked(alloc, self, many, Columns::plain(more));
        }
        let mut values = self.into_values(alloc)?;
        values.append(&mut more)?;
        Ok(Columns::plain(values))
    }

    /// The columns and so many more behind them, which have nothing.
    pub fn widen(self, alloc: Global, hidden: u64) -> Result<Columns, NoMemory>
        ensures { IfOk result (λ c. c ≡ self ++ replicate hidden None) }
    {
        let more = nones(alloc, hidden)?;
        self.followed_by(alloc, more)
    }

    /// The first columns alone.
    #[cycle(cut)]
    pub fn cut(self, alloc: Global, columns: usize) -> Result<Columns, NoMemory>
        ensures { IfOk result (λ c. c ≡ take columns self) }
    {
        if self.len() <= columns {
            return Ok(self);
        }
        match self.form {
            Form::Plain(mut values) => {
                values.truncate(columns);
                Ok(Columns::plain(values))
            }
            Form::Nothing(_) => Ok(Columns::nothing(columns)),
            Form::Fork(first, many, others) => {
                let first = Box::into_inner(first);
                if columns <= many {
                    return first.cut(alloc, columns);
                }
                let others = Box::into_inner(others).cut(alloc, columns - many)?;
                forked(alloc, first, many, others)
            }
        }
    }
}
