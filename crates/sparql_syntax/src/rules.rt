//! The static rules of data, templates and labels, asked of a whole request (SPARQL 1.1 Update,
//! section 3.1; SPARQL 1.1 Query, sections 4.1.4, 19.6 and 19.8).
ghost use Rattle.std.specs.Prelude.{◌≡◌, [], ◌==◌, false, map, not, Ok, Err, IfOk, MatchOption};
ghost use Rattle.std.specs.List.{flat_map, list_any};
ghost use Rattle.sparql_syntax.specs.Labels.{all_known_behind, repeats_label};
ghost use Rattle.sparql_syntax.specs.Rules as spec;

use crate::drafts::Draft;
use crate::fault::SyntaxFaultKind;
use crate::labels::{know, knows_one, repeats_label as repeats};
use indexmap::IndexSet;
use rdf_grammar::Key;
use rdf_terms::{NoMemory, Term};
use sparql_drafts::{QuadPattern, Quads, VarOrIri, VarOrTerm};
use std::alloc::Global;

// ---- one operation

fn has_blank(quads: &Quads<'_>) -> bool
    ensures { result ≡ not (quads.now.blanks == 0) }
{
    quads.blanks != 0
}

// Whether a blank node stands in DELETE DATA, DELETE or DELETE WHERE.
fn has_blank_in_delete(draft: &Draft<'_>) -> bool
    ensures { result ≡ spec.has_blank_in_delete draft.now }
{
    match draft {
        Draft::DeleteData(quads) => has_blank(quads),
        Draft::Modify(modification) => has_blank(&modification.delete),
        Draft::InsertData(_) | Draft::Other(_) => false,
    }
}

fn is_variable(name: &VarOrIri<'_>) -> bool
    ensures { result ≡ spec.is_variable name.now }
{
    match name {
        VarOrIri::Variable(_) => true,
        VarOrIri::Iri(_) => false,
    }
}

fn is_variable_place(place: &VarOrTerm<'_>) -> bool
    ensures { result ≡ spec.is_variable_place place.now }
{
    match place {
        VarOrTerm::Variable(_) => true,
        VarOrTerm::Term(_) => false,
    }
}

fn is_variable_graph(graph: &Option<VarOrIri<'_>>) -> bool
    ensures { result ≡ spec.is_variable_graph graph.now }
{
    match graph {
        Some(name) => is_variable(name),
        None => false,
    }
}

fn has_variable(pattern: &QuadPattern<'_>) -> bool
    ensures { result ≡ spec.has_variable pattern.now }
{
    is_variable_graph(&pattern.graph)
        || is_variable_place(&pattern.subject)
        || is_variable(&pattern.predicate)
        || is_variable_place(&pattern.object)
}

fn some_is_variable(names: &[VarOrIri<'_>]) -> bool
    ensures { result ≡ list_any spec.is_variable names.now }
{
    for name in names {
        if is_variable(name) {
            return true;
        }
    }
    false
}

fn some_has_variable(patterns: &[QuadPattern<'_>]) -> bool
    ensures { result ≡ list_any spec.has_variable patterns.now }
{
    for pattern in patterns {
        if has_variable(pattern) {
            return true;
        }
    }
    false
}

// Whether a variable stands in an operation's data.
fn has_variable_in_data(draft: &Draft<'_>) -> bool
    ensures { result ≡ spec.has_variable_in_data draft.now }
{
    match draft {
        Draft::InsertData(quads) | Draft::DeleteData(quads) => {
            some_is_variable(quads.graphs.as_slice())
                || some_has_variable(quads.patterns.as_slice())
        }
        Draft::Modify(_) | Draft::Other(_) => false,
    }
}

fn is_literal_subject(pattern: &QuadPattern<'_>) -> bool
    ensures { result ≡ spec.is_literal pattern.now.subject }
{
    match &pattern.subject {
        VarOrTerm::Term(Term::Literal(_)) => true,
        VarOrTerm::Term(Term::Blank(_) | Term::Iri(_)) | VarOrTerm::Variable(_) => false,
    }
}

fn some_is_literal_subject(patterns: &[QuadPattern<'_>]) -> bool
    ensures { result ≡ list_any (λ p. spec.is_literal p.subject) patterns.now }
{
    for pattern in patterns {
        if is_literal_subject(pattern) {
            return true;
        }
    }
    false
}

// Whether a literal is a subject in an operation's data.
fn has_literal_subject(draft: &Draft<'_>) -> bool
    ensures { result ≡ spec.has_literal_subject draft.now }
{
    match draft {
        Draft::InsertData(quads) | Draft::DeleteData(quads) => {
            some_is_literal_subject(quads.patterns.as_slice())
        }
        Draft::Modify(_) | Draft::Other(_) => false,
    }
}

// ---- the request

fn deletes_blank(drafts: &[Draft<'_>]) -> bool
    ensures { result ≡ list_any spec.has_blank_in_delete drafts.now }
{
    for draft in drafts {
        if has_blank_in_delete(draft) {
            return true;
        }
    }
    false
}

fn has_variable_data(drafts: &[Draft<'_>]) -> bool
    ensures { result ≡ list_any spec.has_variable_in_data drafts.now }
{
    for draft in drafts {
        if has_variable_in_data(draft) {
            return true;
        }
    }
    false
}

fn has_literal_data(drafts: &[Draft<'_>]) -> bool
    ensures { result ≡ list_any spec.has_literal_subject drafts.now }
{
    for draft in drafts {
        if has_literal_subject(draft) {
            return true;
        }
    }
    false
}

// Whether a label stands in INSERT DATA that stood in an INSERT DATA before.
fn reuses_in_data(alloc: Global, drafts: &[Draft<'_>]) -> Result<bool, NoMemory>
    ensures { IfOk result (λ reuses.
        reuses ≡ repeats_label [] (flat_map spec.inserted_labels drafts.now)) }
{
    let mut known = IndexSet::new(alloc);
    for draft in drafts {
        match draft {
            Draft::InsertData(quads) => {
                if knows_one(&known, quads.labels.as_slice()) {
                    return Ok(true);
                }
                know(&mut known, quads.labels.as_slice())?;
            }
            Draft::DeleteData(_) | Draft::Modify(_) | Draft::Other(_) => {}
        }
    }
    Ok(false)
}

// Whether a label stands in a basic graph pattern of an operation that is known, or that stood in one
// before. If none does, its labels are known from here on.
fn repeats_in<'a>(known: &mut IndexSet<Key<'a>>, draft: &Draft<'a>) -> Result<bool, NoMemory>
    ensures found { let repeats = repeats_label known.old.keys (spec.pattern_labels draft.now) in
        IfOk result (λ found. found ≡ repeats) }
    ensures knows { IfOk result (λ found. found ≡ false
        → known.new.keys ≡ all_known_behind known.old.keys (spec.pattern_labels draft.now)) }
{
    match draft {
        Draft::Modify(modification) => repeats(known, modification.labels.as_slice()),
        Draft::InsertData(_) | Draft::DeleteData(_) | Draft::Other(_) => Ok(false),
    }
}

// Whether a label stands in a basic graph pattern that stood in one before.
fn reuses_in_patterns(alloc: Global, drafts: &[Draft<'_>]) -> Result<bool, NoMemory>
    ensures { IfOk result (λ reuses.
        reuses ≡ repeats_label [] (flat_map spec.pattern_labels drafts.now)) }
{
    let mut known = IndexSet::new(alloc);
    for draft in drafts {
        if repeats_in(&mut known, draft)? {
            return Ok(true);
        }
    }
    Ok(false)
}

// Whether a label stands where it may not stand again.
fn reuses_label(alloc: Global, drafts: &[Draft<'_>]) -> Result<bool, NoMemory>
    ensures { IfOk result (λ reuses. reuses ≡ spec.reuses_label drafts.now) }
{
    Ok(reuses_in_data(alloc, drafts)? || reuses_in_patterns(alloc, drafts)?)
}

/// The first rule that is broken somewhere in the request.
///
/// # Errors
/// [`NoMemory`] where memory is wanting.
pub(crate) fn first_broken(
    alloc: Global,
    drafts: &[Draft<'_>],
) -> Result<Option<SyntaxFaultKind>, NoMemory>
    ensures { IfOk result (λ broken. MatchOption broken
        (spec.judged drafts.now ≡ Ok (map spec.operation_of drafts.now))
        (λ rule. spec.judged drafts.now ≡ Err rule)) }
{
    if deletes_blank(drafts) {
        return Ok(Some(SyntaxFaultKind::BlankInDelete));
    }
    if has_variable_data(drafts) {
        return Ok(Some(SyntaxFaultKind::VariableInData));
    }
    if has_literal_data(drafts) {
        return Ok(Some(SyntaxFaultKind::LiteralSubject));
    }
    if reuses_label(alloc, drafts)? {
        return Ok(Some(SyntaxFaultKind::BlankReused));
    }
    Ok(None)
}
