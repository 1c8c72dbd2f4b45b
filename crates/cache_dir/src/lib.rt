//! The directory of a cache: its rows by name, in a map, so that a row is found as fast among many
//! as among few. What data a row has lie in a pool of elements, and the row has their chain.
#![tactic(auto)]

mod dir;
mod row;

pub use cf_pool as pools;
pub use cf_pool::{Chain, NoElements, Pool};
pub use dir::Dir;
pub use row::{DirRow, Holder};
