//! What a cache structure of a coupling facility is: its entries, what each command means, and the
//! laws of it. There is no code but the types: contracts cite `specs/`, and the engine's laws stand
//! in `proofs/`.
#![tactic(auto)]

mod items;
mod requests;

pub use cache_dir as dirs;
pub use cache_dir::{Holder, pools as pools};
pub use cache_regs as registrations;
pub use items::CacheItem;
pub use requests::Request;
