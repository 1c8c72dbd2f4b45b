//! The numbers that a caller's items show: none is before one that the caller has seen, and no POST or
//! TAKE is past the end of a history.
#![tactic(auto)]

mod orders;

pub use caller_slots as slots;
pub use orders::{Seen, in_order};
