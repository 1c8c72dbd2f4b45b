//! A region of elements of 256 bytes, in which data of any length up to 4,096 bytes lie in chains.
//!
//! The region is taken once, by [`Pool::new`]. [`Pool::put`], [`Pool::replace`] and
//! [`Pool::give_back`] take no memory: a chain is made of free elements, which follow each other by
//! the same links, and its elements are free again once it is given back.
#![tactic(auto)]

mod chain;
mod chains;
mod elements;
mod no_elements;
mod pool;

pub use chain::Chain;
pub use elements::SIZE;
pub use no_elements::NoElements;
pub use no_memory::NoMemory;
pub use pool::Pool;
