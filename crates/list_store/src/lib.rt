//! The records of a list structure: in a slab, with an order of slab keys for each header and a map
//! from ids, and their data in chains of a pool. Contracts see a list of records for each header.
#![tactic(auto)]

mod orders;
mod records;
mod store;
mod table;
mod ties;

pub use cf_pool::{Chain, NoElements};
pub use records::{Rec, Spot};
pub use store::Store;
