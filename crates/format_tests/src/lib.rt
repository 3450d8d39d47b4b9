//! Tests that call the readers of lines and of tokens as a host does. What a document shows stands in `tests/`. It has no
//! code of its own.
#![tactic(auto)]

#[cfg(test)]
mod documents;
#[cfg(test)]
mod faults;
#[cfg(test)]
mod states;
#[cfg(test)]
mod tokens;
