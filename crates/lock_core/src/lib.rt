//! The lock structure of a coupling facility: who owns which resource, who waits for it, and what
//! owners left with their interests.
#![tactic(auto)]

mod commands;
mod departures;
mod engine;
mod grants;
mod letters;
mod locks;
mod plans;
mod refusals;

pub use engine::{LockContent, LockEngine};
pub use lock_interests::recorded as recorded;
pub use lock_model::LockItem;
pub use lock_model::tables::Held;
pub use lock_queue::Waiter;
pub use locks::ItemOrder;
