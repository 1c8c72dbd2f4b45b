//! What a list structure of a coupling facility is: its records, limits, locks and monitors, what
//! each command means, and the laws of it. There is no code but types: contracts
//! cite `specs/`, and the engine's laws stand in `proofs/`.
#![tactic(auto)]

mod items;
mod sublists;

pub use items::ListItem;
pub use list_store as stores;
pub use list_watch as watches;
pub use sublists::{Sublist, Turning};
