//! Tests of vector bits that a printed history is to answer: each waits until the history comes to
//! the number that it shows, and is then compared with what stands before and behind that call.
#![tactic(auto)]

mod asking;
mod queue;
mod wait;

pub use queue::Queue;
pub use wait::Wait;
