//! A caller's works, walked along its calls in the histories and the items of its transcript: whether
//! the calls are those that the works ask, and how many items are what is due.
#![tactic(auto)]

mod counts;
mod heard;
mod running;
mod spots;
mod works;

pub use caller_slots as slots;
pub use counts::{Count, Due};
pub use heard::Heard;
pub use works::walk;
