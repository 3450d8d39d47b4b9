//! What programs share whose parts have their requests for memory refused: what a part tells, its line
//! where it is asked for, and the signs between which requests count.
//!
//! `refusals` and `session_refusals` call it; `rdfkeep` doesn't.
#![tactic(auto)]

mod parts;
mod signs;
mod told;

pub use parts::run_parts;
pub use signs::{memory_is_back, requests_count};
pub use told::Told;
