//! Calls that take no memory: what they answer where each request for memory is refused.

pub mod datasets;
pub mod terms;
