//! The rows of a cache's directory, found by name, with the two indexes that stand beside them: the
//! castout classes of the changed rows, and the order in which the unchanged ones were last used.
//! Their data lie in a pool of elements, which is taken once.
//!
//! Nothing above this crate has rows in its hands: [`Rows`] does to them what commands do, and a
//! [`Row`] tells of one. So only this crate knows where rows and their data lie.
#![tactic(auto)]

mod changes;
mod counts;
mod data;
mod directory;
mod label;
mod row;
mod rows;
mod store;
mod tally;

pub use cache_classes as classes;
pub use cache_reclaim as reclaims;
pub use row::Row;
pub use rows::Rows;
