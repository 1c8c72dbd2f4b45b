//! Structures whose capacity is altered while they are in use (IXLALTER), and what holds of them
//! after every history.
#![tactic(auto)]

mod altered;
mod laws;
mod limits;

pub use altered::Altered;
pub use laws::{alters_nothing_else, fits_its_limits};
