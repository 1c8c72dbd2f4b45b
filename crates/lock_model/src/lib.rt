//! What a lock structure of a coupling facility is: its interests and waiters, what each command
//! means, and the laws of it. There is no code but the types: contracts cite `specs/`, and the
//! engine's laws stand in `proofs/`.
#![tactic(auto)]

mod items;

pub use items::LockItem;
pub use lock_queue as queues;
pub use lock_table as tables;
