//! What is wrong first in a caller's transcript, where all histories are legal and have answered its
//! tests: its calls as a whole, an item that isn't what is due, one that is out of order, or a test
//! that tells what never stood.
#![tactic(auto)]

mod first;
mod untold;

pub use caller_slots as slots;
pub use first::first_bad_item;
