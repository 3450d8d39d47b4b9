//! Calls of sessions and of faults that take no memory: what they answer where each request for memory is
//! refused.

pub mod names;
pub mod sessions;
