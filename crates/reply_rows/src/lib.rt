//! Replies, refusals and events as rows of words: printed and read by one definition, with the
//! laws that either undoes the other. The definitions stand in `specs/`.
#![tactic(auto)]

mod laws;
mod sides;

pub use laws::{are_read_back, print_alike, print_reports};
pub use sides::{Side, asked_side};
