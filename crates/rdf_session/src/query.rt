//! Queries: what is answered of the dataset.
ghost use Rattle.std.specs.Prelude.{◌≡◌, ◌++◌, IfOk, MatchResult, OnOk};
ghost use Rattle.std.specs.Option.{option_copied};
ghost use Rattle.sparql_results.specs.Formats.{rows_in, selection_in};
ghost use Rattle.sparql_syntax.specs.Query.{IsQuery};
ghost use Rattle.rdf_session.specs.Inside.Staging.{TellsQueryFault};
ghost use Rattle.rdf_session.specs.Query.{AnswersQuery, IsOfRows, IsOfTruth};

use crate::fault::KeeperFault;
use crate::update::syntax_refusal;
use rdf_dataset::Dataset;
use rdf_terms::{Iri, Items, NoMemory, Text, Vocabulary};
use sparql_eval::{Row, ask_with, select_with};
use sparql_results::{ResultsFormat, selections_have_parts};
use sparql_syntax::read_query_with;
use sparql_trees::{Pattern, Query, Select};
use std::alloc::Global;

/// What a query answers.
#[derive(Debug, Drop)]
pub struct Answer {
    /// The text of its results in the format that was asked for, or of its truth.
    pub payload: Items<u8>,
    /// How many rows there are; one for ASK.
    pub rows: u64,
}

/// The query of a text, its references against the base.
pub(crate) fn read_text(
    alloc: Global,
    vocabulary: &Vocabulary,
    text: &[u8],
    base: Option<&Iri>,
) -> Result<Query, KeeperFault>
    ensures { MatchResult result
        (λ query. IsQuery (option_copied base.entry) text.now query)
        (λ fault. TellsQueryFault (option_copied base.entry) text.now fault) }
{
    match read_query_with(alloc, vocabulary, text, base) {
        Ok(query) => Ok(query),
        Err(fault) => Err(syntax_refusal(fault)),
    }
}

// Appends the rows. A refusal may leave some of them.
fn append_rows(
    alloc: Global,
    format: ResultsFormat,
    columns: &[Text],
    rows: &[Row],
    out: &mut Vec<u8>,
) -> Result<(), NoMemory>
    ensures { OnOk result (out.new.items ≡ out.old.items ++ rows_in format columns.now rows.now) }
{
    let Some((first, others)) = rows.split_first() else {
        return Ok(());
    };
    format.write_row(alloc, true, columns, first.values(), out)?;
    for row in others {
        format.write_row(alloc, false, columns, row.values(), out)?;
    }
    Ok(())
}

// Appends a selection. A refusal may leave a part of it.
fn append_selection(
    alloc: Global,
    format: ResultsFormat,
    columns: &[Text],
    rows: &[Row],
    out: &mut Vec<u8>,
) -> Result<(), NoMemory>
    ensures { OnOk result (out.new.items
        ≡ out.old.items ++ selection_in format columns.now rows.now) }
{
    selections_have_parts();
    format.write_header(alloc, columns, out)?;
    append_rows(alloc, format, columns, rows, out)?;
    out.extend_from_slice(format.end_text().as_bytes())?;
    Ok(())
}

fn selection(
    alloc: Global,
    vocabulary: &Vocabulary,
    format: ResultsFormat,
    query: &Select,
    dataset: &Dataset,
) -> Result<Answer, NoMemory>
    ensures { IfOk result (λ answer. IsOfRows format query.now dataset.now answer) }
{
    let rows = select_with(alloc, vocabulary, query, dataset)?;
    let mut payload = Vec::new(alloc);
    append_selection(
        alloc,
        format,
        query.columns.as_slice(),
        rows.as_slice(),
        &mut payload,
    )?;
    Ok(Answer {
        payload: Items::from_vec(payload),
        rows: rows.len() as u64,
    })
}

fn truth(
    alloc: Global,
    vocabulary: &Vocabulary,
    format: ResultsFormat,
    pattern: &Pattern,
    dataset: &Dataset,
) -> Result<Answer, NoMemory>
    ensures { IfOk result (λ answer. IsOfTruth format pattern.now dataset.now answer) }
{
    let text = format.truth_text(ask_with(alloc, vocabulary, pattern, dataset)?);
    let payload = Vec::from_slice(alloc, text.as_bytes())?;
    Ok(Answer {
        payload: Items::from_vec(payload),
        rows: 1,
    })
}

/// The answer of the dataset in a format.
pub(crate) fn evaluate(
    alloc: Global,
    vocabulary: &Vocabulary,
    format: ResultsFormat,
    query: &Query,
    dataset: &Dataset,
) -> Result<Answer, NoMemory>
    ensures { IfOk result (λ answer. AnswersQuery format query.now dataset.now answer) }
{
    match query {
        Query::Select(query) => selection(alloc, vocabulary, format, query, dataset),
        Query::Ask(pattern) => truth(alloc, vocabulary, format, pattern, dataset),
    }
}
