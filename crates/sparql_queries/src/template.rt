//! Templates (SPARQL 1.1 Update, section 3.1.3).
ghost use Rattle.std.specs.Prelude.{◌≡◌, IfOk, map};
ghost use Rattle.std.specs.Option.{option_map};
ghost use Rattle.sparql_queries.specs.Groups.{var_or_iri as name_of};
ghost use Rattle.sparql_queries.specs.Templates as spec;

use crate::basic::{triple_pattern, var_or_iri};
use rdf_terms::{Items, NoMemory};
use sparql_drafts::{QuadPattern as ReadQuad, VarOrIri as ReadName};
use sparql_trees::{QuadPattern, VarOrIri};
use std::alloc::Global;

// What GRAPH names around a quad pattern.
fn graph(alloc: Global, graph: &Option<ReadName<'_>>) -> Result<Option<VarOrIri>, NoMemory>
    ensures { IfOk result (λ made. made ≡ option_map name_of graph.now) }
{
    match graph {
        Some(name) => Ok(Some(var_or_iri(alloc, name)?)),
        None => Ok(None),
    }
}

fn quad_pattern(alloc: Global, pattern: &ReadQuad<'_>) -> Result<QuadPattern, NoMemory>
    ensures { IfOk result (λ made. made ≡ spec.quad_pattern pattern.now) }
{
    Ok(QuadPattern {
        graph: graph(alloc, &pattern.graph)?,
        triple: triple_pattern(alloc, pattern)?,
    })
}

/// The quad patterns of a template: variables have their names, without `?` or `$`, and blank nodes
/// are the template's own, by their numbers.
///
/// # Errors
/// [`NoMemory`] where memory is wanting.
pub fn quad_patterns<'a>(
    alloc: Global,
    patterns: &[ReadQuad<'a>],
) -> Result<Items<QuadPattern>, NoMemory>
    ensures { IfOk result (λ made. made ≡ map spec.quad_pattern patterns.now) }
{
    let mut made = Items::new(alloc);
    for pattern in patterns {
        made.push(quad_pattern(alloc, pattern)?)?;
    }
    Ok(made)
}
