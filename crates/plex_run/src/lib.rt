//! The program's one call: a script comes in from a source, or a number makes one, and the report
//! or the summary of its run, or what became of its locks, goes out to a sink; or a script comes in
//! with a report, and what a check says of it goes out.
#![tactic(auto)]

mod checking;
mod cutting;
mod full;
mod loading;
mod locks;
mod pieces;
mod program;
mod running;
mod status_lines;
mod verdict_lines;
mod way;
mod writing;

pub use plex_agent as agents;
pub use plex_agent::{links as links, sources as sources};
pub use plex_load::types as types;
pub use program::run;
