//! Locks by words alone: the lines of a script that obtain and release locks, done in lock words
//! with no request to a structure, and what is told of them.
#![tactic(auto)]

mod hands;
mod locking;
mod others;
mod outcomes;
mod requests;
mod told;
mod worker;

pub use locking::locked;
pub use others::first_other;
pub use outcomes::{Done, Outcome};
pub use requests::Request;
pub use told::{HandTold, Locked, locks_text};
