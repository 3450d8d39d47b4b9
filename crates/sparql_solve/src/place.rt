//! Where the places of a triple pattern get their terms.
ghost use Rattle.std.specs.Prelude.{◌≡◌, ◌+◌, length, IfOk, map};
ghost use Rattle.sparql_algebra.specs.Solutions.{var_or_term};
ghost use Rattle.sparql_solve.specs.Matching.{place_of, places_of};
ghost use Rattle.sparql_trees.specs.declared.pattern.VarOrTerm.TheVariants.{Variable};

use rdf_terms::{NoMemory, Term, Text};
use sparql_trees::{TriplePattern, VarOrIri, VarOrTerm};
use sparql_values::SortedNames;
use std::alloc::Global;

/// Where a place of a triple pattern gets its term.
#[derive(Drop)]
pub enum Place {
    /// It has this term.
    Fixed(Term),
    /// From this column.
    Column(u128),
    /// From a variable that has no column, which is never bound.
    Nowhere,
}

/// The places of a triple pattern.
#[derive(Drop)]
pub struct Places {
    pub subject: Place,
    pub predicate: Place,
    pub object: Place,
}

fn place_of_variable(variables: &SortedNames, name: &Text) -> Place
    ensures { result ≡ place_of variables.now (Variable name.now) }
{
    match variables.column(name) {
        Some(column) => Place::Column(column as u128),
        None => Place::Nowhere,
    }
}

fn place_of(variables: &SortedNames, term: &VarOrTerm) -> Result<Place, NoMemory>
    ensures { IfOk result (λ place. place ≡ place_of variables.now term.now) }
{
    Ok(match term {
        VarOrTerm::Variable(name) => place_of_variable(variables, name),
        VarOrTerm::Hidden(number) => {
            Place::Column(variables.len() as u128 + u128::from(*number))
        }
        VarOrTerm::Term(term) => Place::Fixed(term.copy()?),
    })
}

fn place_of_predicate(variables: &SortedNames, predicate: &VarOrIri) -> Result<Place, NoMemory>
    ensures { IfOk result (λ place. place ≡ place_of variables.now (var_or_term predicate.now)) }
{
    Ok(match predicate {
        VarOrIri::Variable(name) => place_of_variable(variables, name),
        VarOrIri::Iri(iri) => Place::Fixed(Term::Iri(iri.copy()?)),
    })
}

// The places of a triple pattern, whose variables have the first columns.
pub(crate) fn places_of(
    variables: &SortedNames,
    pattern: &TriplePattern,
) -> Result<Places, NoMemory>
    ensures { IfOk result (λ places. places ≡ places_of variables.now pattern.now) }
{
    Ok(Places {
        subject: place_of(variables, &pattern.subject)?,
        predicate: place_of_predicate(variables, &pattern.predicate)?,
        object: place_of(variables, &pattern.object)?,
    })
}

/// The places of each triple pattern.
pub(crate) fn all_places(
    alloc: Global,
    variables: &SortedNames,
    patterns: &[TriplePattern],
) -> Result<Vec<Places>, NoMemory>
    ensures { IfOk result (λ out. out.items ≡ map (places_of variables.now) patterns.now) }
{
    let mut out = Vec::new(alloc);
    for pattern in patterns {
        out.push(places_of(variables, pattern)?)?;
    }
    Ok(out)
}
