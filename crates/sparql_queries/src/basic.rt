//! Basic graph patterns (SPARQL 1.1 Query, section 5.1).
ghost use Rattle.std.specs.Prelude.{◌≡◌, IfOk, map};
ghost use Rattle.sparql_queries.specs.Groups as spec;
ghost use Rattle.sparql_queries.specs.Variables as variables;

use rdf_terms::{Items, NoMemory, Term, Text};
use rdf_tokens::Slice;
use sparql_drafts::{QuadPattern, VarOrIri as ReadName, VarOrTerm as ReadPlace};
use sparql_trees::{TriplePattern, VarOrIri, VarOrTerm};
use std::alloc::Global;

/// A variable's name, without its `?` or `$`.
pub(crate) fn variable_name(alloc: Global, variable: &Slice<'_>) -> Result<Text, NoMemory>
    ensures { IfOk result (λ name. name ≡ variables.variable_name variable.now) }
{
    let mut characters = variable.as_str().chars();
    let _mark = characters.next();
    Text::new(alloc, characters.as_str())
}

pub(crate) fn var_or_iri(alloc: Global, name: &ReadName<'_>) -> Result<VarOrIri, NoMemory>
    ensures { IfOk result (λ made. made ≡ spec.var_or_iri name.now) }
{
    Ok(match name {
        ReadName::Variable(variable) => VarOrIri::Variable(variable_name(alloc, variable)?),
        ReadName::Iri(iri) => VarOrIri::Iri(iri.copy()?),
    })
}

fn var_or_term(alloc: Global, place: &ReadPlace<'_>) -> Result<VarOrTerm, NoMemory>
    ensures { IfOk result (λ made. made ≡ spec.var_or_term place.now) }
{
    Ok(match place {
        ReadPlace::Variable(variable) => VarOrTerm::Variable(variable_name(alloc, variable)?),
        ReadPlace::Term(Term::Blank(number)) => VarOrTerm::Hidden(*number),
        ReadPlace::Term(Term::Iri(iri)) => VarOrTerm::Term(Term::Iri(iri.copy()?)),
        ReadPlace::Term(Term::Literal(literal)) => VarOrTerm::Term(Term::Literal(literal.copy()?)),
    })
}

pub(crate) fn triple_pattern(
    alloc: Global,
    pattern: &QuadPattern<'_>,
) -> Result<TriplePattern, NoMemory>
    ensures { IfOk result (λ made. made ≡ spec.triple_pattern pattern.now) }
{
    Ok(TriplePattern {
        subject: var_or_term(alloc, &pattern.subject)?,
        predicate: var_or_iri(alloc, &pattern.predicate)?,
        object: var_or_term(alloc, &pattern.object)?,
    })
}

/// The triple patterns of a basic graph pattern.
pub(crate) fn triple_patterns(
    alloc: Global,
    patterns: &[QuadPattern<'_>],
) -> Result<Items<TriplePattern>, NoMemory>
    ensures { IfOk result (λ made. made ≡ map spec.triple_pattern patterns.now) }
{
    let mut made = Items::new(alloc);
    for pattern in patterns {
        made.push(triple_pattern(alloc, pattern)?)?;
    }
    Ok(made)
}
