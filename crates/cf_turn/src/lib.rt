#![tactic(auto)]
//! A lock that knows its key.
mod keeps;
mod key_lock;
mod turns;

pub use keeps::{Boxed, Keeps};
pub use key_lock::{KeyLock, Ticket};
