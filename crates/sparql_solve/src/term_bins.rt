//! Items in bins by a term. A bin is found by a look-up of the term, and no term is compared to put items
//! in order.
ghost use Rattle.std.specs.Prelude.{◌≡◌, ◌++◌, ◌∷◌, [], OnOk, cond, length, map};
ghost use Rattle.rdf_terms.specs.declared.term.Term.{Term};
ghost use Rattle.sparql_values.specs.Mapping.{same_term};
ghost use Rattle.sparql_solve.specs.Bins.{bin_items, binned, with_at};

use rdf_terms::{NoMemory, Term, TermTable, terms_are_held_once};
use std::alloc::Global;
use std::slice;

/// The items of a bin: most often one, which takes no memory of its own.
#[derive(Drop)]
pub(crate) enum Bin<'r, T> {
    One(&'r T),
    Many(Vec<&'r T>),
}

impl<'r, T> Bin<'r, T> {
    /// The items.
    pub(crate) fn as_slice(&self) -> &[&'r T]
        ensures { map (λ x. x.now) result.now ≡ bin_items self.now }
    {
        match self {
            Bin::One(item) => slice::from_ref(item),
            Bin::Many(items) => items.as_slice(),
        }
    }

    // Puts an item behind those of the bin.
    fn push(&mut self, alloc: Global, item: &'r T) -> Result<(), NoMemory>
        ensures { OnOk result (bin_items self.new ≡ bin_items self.old ++ item.now ∷ []) }
    {
        match self {
            Bin::One(first) => {
                let mut items = Vec::with_capacity(alloc, 2)?;
                items.push(*first)?;
                items.push(item)?;
                *self = Bin::Many(items);
            }
            Bin::Many(items) => items.push(item)?,
        }
        Ok(())
    }
}

/// Items by a term that each of them was put in with.
#[derive(Drop)]
pub(crate) struct TermBins<'r, T> {
    /// The terms, each of which has the bin at its own place.
    pub(crate) terms: TermTable,
    pub(crate) bins: Vec<Bin<'r, T>>,
    /// The bin of a term with which none was put in.
    none: Vec<&'r T>,
    ghost empty: { none.items ≡ [] },
    ghost paired: { length bins.items ≡ length terms },
}

// Puts the item into the bin at the place, if there is one.
fn put_at<'r, T>(
    alloc: Global,
    bins: &mut Vec<Bin<'r, T>>,
    place: usize,
    item: &'r T,
) -> Result<(), NoMemory>
    ensures { OnOk result (map bin_items bins.new.items
        ≡ with_at place item.now (map bin_items bins.old.items)) }
{
    if let Some(bin) = bins.get_mut(place) {
        bin.push(alloc, item)?;
    }
    Ok(())
}

/// Puts the item into the bin of the term, which gets one where it is new.
pub(crate) fn put<'r, T>(
    alloc: Global,
    terms: &mut TermTable,
    bins: &mut Vec<Bin<'r, T>>,
    term: &Term,
    item: &'r T,
) -> Result<(), NoMemory>
    requires { length bins.old.items ≡ length terms.old }
    ensures paired { OnOk result (length bins.new.items ≡ length terms.new) }
    ensures put { OnOk result ((t : Term) → binned terms.new (map bin_items bins.new.items) t
        ≡ binned terms.old (map bin_items bins.old.items) t
        ++ cond (same_term t term.now) (item.now ∷ []) []) }
{
    let place = terms.intern(term.copy()?)?.0 as usize;
    terms_are_held_once(terms);
    if place == bins.len() {
        bins.push(Bin::One(item))?;
        return Ok(());
    }
    put_at(alloc, bins, place, item)
}

impl<'r, T> TermBins<'r, T> {
    /// The bins of these terms, each at the place of its term.
    pub(crate) fn over(alloc: Global, terms: TermTable, bins: Vec<Bin<'r, T>>) -> TermBins<'r, T>
        requires { length bins.items ≡ length terms }
        ensures { (t : Term) → binned result.terms (map bin_items result.bins.items) t
            ≡ binned terms (map bin_items bins.entry.items) t }
    {
        TermBins {
            terms,
            bins,
            none: Vec::new(alloc),
        }
    }

    /// No items.
    pub(crate) fn none(&self) -> &[&'r T]
        ensures { map (λ x. x.now) result.now ≡ [] }
    {
        self.none.as_slice()
    }

    /// The bin of a term; none where no item was put in with it.
    pub(crate) fn bin(&self, term: &Term) -> &[&'r T]
        ensures { map (λ x. x.now) result.now
            ≡ binned self.now.terms (map bin_items self.now.bins.items) term.now }
    {
        terms_are_held_once(&self.terms);
        let Some(id) = self.terms.find(term) else {
            return self.none.as_slice();
        };
        match self.bins.get(id.0 as usize) {
            Some(bin) => bin.as_slice(),
            None => self.none.as_slice(),
        }
    }
}
