//! The names of graphs that GRAPH's variable may have under a row (SPARQL 1.1 Query, section 18.6).
ghost use Rattle.std.specs.Prelude.{◌≡◌, IfOk, map};
ghost use Rattle.rdf_terms.specs.declared.quad.GraphName.TheVariants.{Named};
ghost use Rattle.sparql_algebra.specs.Bags.{SameBag};
ghost use Rattle.sparql_algebra.specs.Listing.{Listing, Lists};
ghost use Rattle.sparql_algebra.specs.Solutions.{joins};
ghost use Rattle.sparql_algebra.specs.Under.{agreeing, names_left};
ghost use Rattle.sparql_values.specs.Mapping.{merge, single, value_of};

use crate::above::Above;
use crate::evaluation::{Evaluation, Scope};
use crate::joins::join;
use crate::look_ups::tried_names;
use crate::mappings::Mapping;
use crate::sides::compatible_rows;
use crate::values::copy_value;
use rdf_dataset::Source;
use rdf_terms::{GraphName, NoMemory, Term, Text};
use sparql_values::SortedNames;
use std::alloc::Global;

/// A graph that GRAPH's variable may name.
#[derive(Drop)]
pub(crate) struct NamedGraph {
    pub(crate) graph: GraphName,
    /// The row that binds the variable alone: to its name.
    pub(crate) bound: Mapping,
    /// The row above, with that.
    pub(crate) above: Above,
}

/// The graph of the name, to which the variable is bound.
pub(crate) fn named_graph(
    scope: &Scope,
    variable: &Text,
    name: &Term,
    under: &Above,
) -> Result<NamedGraph, NoMemory>
    ensures graph { IfOk result (λ named. named.graph ≡ Named name.now) }
    ensures bound { IfOk result (λ named.
        named.bound ≡ single scope.now.variables.now variable.now name.now) }
    ensures above { IfOk result (λ named. named.above ≡ merge under.now named.bound) }
{
    let bound = Mapping::single(scope.alloc, scope.variables, variable, name)?;
    let above = under.merged(scope.alloc, &bound)?;
    let graph = GraphName::Named(name.copy()?);
    Ok(NamedGraph {
        graph,
        bound,
        above,
    })
}

/// The names that the variable may have beside what the row has there.
pub(crate) fn names_under<S: Source>(
    evaluation: &Evaluation<S>,
    variable: &Text,
    under: &Above,
) -> Result<Vec<Term>, NoMemory>
    ensures { IfOk result (λ names. (d : Listing) → Lists (S.contents evaluation.now.source.now) d →
        SameBag names.items (names_left d.names (value_of evaluation.now.scope.variables.now
        under.now variable.now))) }
{
    let value = copy_value(under.value_in(evaluation.scope.variables.column(variable)))?;
    tried_names(evaluation.scope.alloc, evaluation.source, value)
}

// The rows that bind one variable alone to these names.
fn single_rows(
    alloc: Global,
    variables: &SortedNames,
    variable: &Text,
    names: &[Term],
) -> Result<Vec<Mapping>, NoMemory>
    ensures { IfOk result (λ out. out.items
        ≡ map (single variables.now variable.now) names.now) }
{
    let mut out = Vec::with_capacity(alloc, names.len())?;
    for name in names {
        out.push(Mapping::single(alloc, variables, variable, name)?)?;
    }
    Ok(out)
}

/// The rows joined with those that bind the variable to these names; of them what is compatible
/// with the row above.
pub(crate) fn rows_of_names(
    scope: &Scope,
    variable: &Text,
    names: &[Term],
    rows: &[Mapping],
    under: &Above,
) -> Result<Vec<Mapping>, NoMemory>
    ensures { IfOk result (λ out. SameBag out.items
        (agreeing (joins rows.now (map (single scope.now.variables.now variable.now) names.now))
        under.now)) }
{
    let bound = single_rows(scope.alloc, scope.variables, variable, names)?;
    let joined = join(scope.alloc, rows, &bound)?;
    compatible_rows(scope.alloc, under, joined)
}
