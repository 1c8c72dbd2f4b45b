//! Locks of one word each.
//!
//! A lock manager keeps the locks that nobody contends for in words of its own: a word is 0 where
//! the lock is free, the number of its holders where they share it (SHR), and [`EXCL`] where one
//! holds it alone. [`LockWords`] has the words, and threads share it by `&`. Each thread has a
//! [`Hand`], with which it obtains and releases locks, by one or two atomic steps and with no
//! request to anybody. [`LockWords::close`] ends the locks with all their hands.
//!
//! Between any two steps of any threads each word has the value of those that hold it, so holders
//! of one word are compatible: they all share it, or there is one alone.
#![tactic(auto)]

mod got;
mod hand;
mod locks;
mod plays;
mod value;
mod view;

pub use got::Got;
pub use hand::Hand;
pub use locks::LockWords;
pub use no_memory::NoMemory;
pub use value::{EXCL, MOST_SHARED};
pub use view::{Grant, Hold, Reading};
