//! Event queues for sublists of a list structure: what the commands on them mean, whatever those on
//! its records mean, how they are copied, and what holds of them after every history. There is no
//! code but types and the functions that have the laws.
#![tactic(auto)]

mod items;
mod laws;
mod subs;

pub use items::{Beside, FirstItem};
pub use laws::{delivered_anew, kept_in_order, queues_hold, takes_first};
pub use subs::{Queued, Sub};
