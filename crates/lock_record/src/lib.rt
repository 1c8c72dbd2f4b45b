//! The record data of a lock structure: what a connector left with its interest in a resource.
#![tactic(auto)]

mod recorded;
mod records;

pub use recorded::Record;
pub use records::Records;
