//! The content of a list structure as it is kept: records, limits, list locks, monitors and the
//! next id; which record a command names, and how many records and elements there are.
#![tactic(auto)]

mod bare;
mod copies;
mod data;
mod keeping;
mod placing;
mod reading;
mod telling;

pub use bare::Bare;
pub use keeping::{Kept, headers_of, locks_of};
pub use list_keys as keyed;
pub use reading::{count, elements_of_others, id_at, record_at, sublist, sublist_of};
