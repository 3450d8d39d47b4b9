//! DELETE/INSERT: what comes of the solutions of a pattern (SPARQL 1.1 Update, section 3.1.3).
ghost use Rattle.std.specs.Prelude.{◌≡◌, ◌+◌, ◌*◌, ◌≤◌, ◌<◌, IfErr, IfOk, OnOk, MatchOption};
ghost use Rattle.rdf_dataset.specs.State.{last_number};
ghost use Rattle.sparql_eval.specs.Inside.Exchanges.{Exchanges};
ghost use Rattle.sparql_eval.specs.Operations.{Tells, home_of, solutions_of, step};
ghost use Rattle.sparql_trees.specs.Visible.{visible};
ghost use Rattle.sparql_trees.specs.declared.operation.Operation.TheVariants.{Modify as modify};

use crate::fault::ApplyFault;
use crate::operations::LAST_NUMBER;
use crate::quads::{insert_all, remove_all};
use crate::template::all_instances;
use rdf_dataset::{Source, Staged};
use rdf_terms::{GraphName, Iri, NoMemory, Quad, Term, Vocabulary};
use sparql_solve::{SolutionMappings, sorted_solutions};
use sparql_trees::Modify;
use std::alloc::Global;

// The default graph of the operation: that of WITH.
fn home_of(graph: &Option<Iri>) -> Result<GraphName, NoMemory>
    ensures { IfOk result (λ home. home ≡ home_of graph.now) }
{
    Ok(match graph {
        Some(iri) => GraphName::Named(Term::Iri(iri.copy()?)),
        None => GraphName::Default,
    })
}

// How many new blank nodes all solutions have, or `None` where the counter would pass the last number.
fn blanks_of(solutions: usize, blanks: u64, next: u64) -> Option<u64>
    ensures { let count = solutions * blanks in MatchOption result
        (last_number < next + count)
        (λ taken. (next + count ≤ last_number) × (taken ≡ count)) }
{
    let count = (solutions as u64).checked_mul(blanks)?;
    if next > LAST_NUMBER || count > LAST_NUMBER - next {
        return None;
    }
    Some(count)
}

/// What DELETE/INSERT takes away and brings in, and how many blank numbers it takes.
#[derive(Drop)]
pub(crate) struct Exchange {
    pub(crate) gone: Vec<Quad>,
    pub(crate) blanks: u64,
    pub(crate) come: Vec<Quad>,
}

// The instances of both templates under the solutions.
fn instances<S: Source>(
    alloc: Global,
    operation: &Modify,
    found: &SolutionMappings,
    home: &GraphName,
    source: &S,
) -> Result<Exchange, ApplyFault>
    requires variables { found.now.variables ≡ visible operation.now.pattern }
    requires rows { found.now.rows.items ≡ solutions_of (S.contents source.now) operation.now }
    requires home { home.now ≡ home_of operation.now.with }
    ensures made { IfOk result (λ made. Exchanges (S.contents source.now) operation.now
        made.gone.items made.blanks made.come.items) }
    ensures refused { IfErr result
        (λ fault. Tells (step (S.contents source.now) (modify operation.now)) fault) }
{
    let first = source.next_blank();
    let each = operation.insert.blanks;
    let Some(blanks) = blanks_of(found.rows.len(), each, first) else {
        return Err(ApplyFault::BlankNumbers);
    };
    let deleted = operation.delete.quads.as_slice();
    let inserted = operation.insert.quads.as_slice();
    let gone = all_instances(alloc, found, home, 0, first, deleted)?;
    let come = all_instances(alloc, found, home, each, first, inserted)?;
    Ok(Exchange { gone, blanks, come })
}

/// What DELETE/INSERT takes away and brings in where it acts on what the source holds.
///
/// # Errors
/// Those of [`modify`].
pub(crate) fn exchange_of<S: Source>(
    alloc: Global,
    vocabulary: &Vocabulary,
    operation: &Modify,
    source: &S,
) -> Result<Exchange, ApplyFault>
    ensures made { IfOk result (λ made. Exchanges (S.contents source.now) operation.now
        made.gone.items made.blanks made.come.items) }
    ensures refused { IfErr result
        (λ fault. Tells (step (S.contents source.now) (modify operation.now)) fault) }
{
    let home = home_of(&operation.with)?;
    let found = sorted_solutions(alloc, vocabulary, &operation.pattern, &home, source)?;
    instances(alloc, operation, &found, &home, source)
}

/// DELETE/INSERT. The pattern is evaluated once, before anything changes; then all instances of the
/// DELETE template go, and all of the INSERT template come.
///
/// # Errors
/// [`ApplyFault::BlankNumbers`] where the blank nodes of all solutions would bring the counter past
/// 10^18; [`ApplyFault::NoMemory`] where memory is wanting.
pub(crate) fn modify<D: Source>(
    alloc: Global,
    vocabulary: &Vocabulary,
    operation: &Modify,
    view: &mut Staged<'_, D>,
) -> Result<(), ApplyFault>
    ensures leads { OnOk result (step view.old.now (modify operation.now) ≡ Ok view.new.now) }
    ensures refused { IfErr result
        (λ fault. Tells (step view.old.now (modify operation.now)) fault) }
    ensures beneath { view.new.under ≡ view.old.under }
{
    let Exchange { gone, blanks, come } = exchange_of(alloc, vocabulary, operation, view)?;
    let first = view.take_blanks(blanks);
    prove!(first.is_some());
    remove_all(gone.as_slice(), view)?;
    Ok(insert_all(come, view)?)
}
