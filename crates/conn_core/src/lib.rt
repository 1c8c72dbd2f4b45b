//! The connections of a structure: who is active, leaving or failed, and how a departure finishes.
#![tactic(auto)]

mod conns;
mod departures;

pub use cf_types::{ConnSet, ConnState};
pub use conns::Conns;
