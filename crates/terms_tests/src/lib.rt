//! Tests that call `rdf_terms` and `sparql_results` as a host does. It has no code of its own.
#![tactic(auto)]

#[cfg(test)]
mod characters;
#[cfg(test)]
mod resolution;
#[cfg(test)]
mod results;
#[cfg(test)]
mod terms;
