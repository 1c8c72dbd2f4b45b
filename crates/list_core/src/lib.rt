//! The list structure of a coupling facility: lists of records with names or keys, list locks, and
//! monitors that tell connectors which lists have records.
#![tactic(auto)]

mod commands;
mod engine;
mod items;
mod plans;
mod refusals;
mod turning;

pub use engine::{ListContent, ListEngine};
pub use list_kept::keyed as keyed;
pub use list_model::watches::Monitor;
pub use list_model::{ListItem, Sublist, Turning, watches as watches};
