//! Tests of small parts, each once with memory enough: values, input and output, links, the tables
//! of which structures are made, the engines, the shell of a structure and its machine, over engines
//! that are counted, scripts and their reports.
#![tactic(auto)]

mod counted;
#[cfg(test)]
mod tests;
mod tokens;

pub use counted::{Counted, Numbers};
pub use tokens::{Share, Token};
