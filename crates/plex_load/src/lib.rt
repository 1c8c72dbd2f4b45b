//! Loads: scripts that are made from a number, and what is told of their runs. Four connectors
//! read, write and test the same 64 pages of a cache structure, each in 1,000 lines.
#![tactic(auto)]

mod counts;
mod making;
mod numbers;
mod policy;
mod summing;
mod texts;
mod work;

pub use making::make;
pub use plex_script as scripts;
pub use plex_script::{spell as spell, types as types};
pub use summing::summary;
