//! Copies of replies. A journal keeps the reply of each call, and a caller that asks for its own is
//! given a second one.
mod alter;
mod cache;
mod journal;
mod list;
mod lock;
mod queue;
mod replies;

pub use journal::own_reply;
pub use replies::{TryClone, copy_reply};
