//! What is made of the texts of a case.
use rdf_dataset::{Dataset, Staged};
use sparql_eval::apply;
use sparql_syntax::{read_query, read_update};
use sparql_trees::{Pattern, Query, Request};
use std::alloc::Global;

/// The pattern of a group.
pub(crate) fn pattern(alloc: Global, group: &str) -> Option<Pattern> {
    let text = format!(in alloc; "PREFIX e: <http://e/> ASK {group}").ok()?;
    match read_query(alloc, text.as_str().as_bytes(), None).ok()? {
        Query::Ask(pattern) => Some(pattern),
        Query::Select(_) => None,
    }
}

/// The request of a text.
pub(crate) fn request(alloc: Global, text: &str) -> Option<Request> {
    read_update(alloc, text.as_bytes(), None).ok()
}

/// The name of what an update answers.
pub(crate) fn answer(
    alloc: Global,
    view: &mut Staged<'_, Dataset>,
    request: &Request,
) -> &'static str {
    match apply(alloc, request, view) {
        Ok(()) => "ok",
        Err(fault) => fault.name(),
    }
}
