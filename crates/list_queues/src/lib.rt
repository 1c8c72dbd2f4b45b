//! A list structure with event queues for sublists (IXLLIST MONITOR_SUBLIST, DEQ_EVENTQ): whoever
//! monitors a sublist, the records of a header that have a key, gets an event in its queue when
//! the sublist has records and had none.
#![tactic(auto)]

mod commands;
mod engine;
mod queues;

pub use engine::QueueEngine;
pub use queue_model::{Beside, FirstItem, Queued, Sub};
pub use queues::Queues;
