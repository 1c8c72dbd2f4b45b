//! The monitors of a list structure: which connector watches whether which header has records, and
//! at which bit of its vector it is told.
#![tactic(auto)]

mod ends;
mod monitors;
mod watch;

pub use monitors::{Monitor, Watched};
pub use watch::Watch;
