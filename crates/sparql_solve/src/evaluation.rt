//! What evaluating a pattern is lent: it is handed from function to function as one.

use rdf_dataset::Source;
use rdf_terms::Vocabulary;
use sparql_values::SortedNames;
use std::alloc::Global;
use std::cell::Cell;

/// What rows are made and filtered with.
#[derive(Drop)]
pub(crate) struct Scope<'a> {
    pub(crate) alloc: Global,
    /// The variables in scope, which are the columns of rows.
    pub(crate) variables: &'a SortedNames,
    pub(crate) vocabulary: &'a Vocabulary,
}

/// The evaluation of a pattern over a source.
#[derive(Drop)]
pub(crate) struct Evaluation<'a, S: Source> {
    pub(crate) scope: Scope<'a>,
    pub(crate) source: &'a S,
    /// How much its look-ups looked at so far.
    pub(crate) looked: &'a Cell<u64>,
}
