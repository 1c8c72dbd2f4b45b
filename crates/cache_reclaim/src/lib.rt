//! The order in which the names of unchanged rows were last used, from which rows are reclaimed.
#![tactic(auto)]

mod order;
mod slots;
mod used;

pub use order::Order;
pub use used::Used;
