//! The tests that a caller's items show, as waits for the numbers that they show: a queue for each
//! structure. Where a history tells what all of these show, the items' tests tell what stood.
#![tactic(auto)]

mod queues;

pub use caller_items as items;
pub use queues::{queue_of, waits};
