//! Scripts of commands, and their answers.

pub(crate) mod answer;
pub(crate) mod command;
mod feed;
mod gathered;
mod line;
mod runner;
mod show;
mod status;

pub use feed::{Feed, Settings};
pub use runner::{run, run_on, run_within};
pub use status::Status;
