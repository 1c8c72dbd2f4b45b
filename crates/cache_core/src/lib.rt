//! The cache structure of a coupling facility: a directory of named entries with their data, and
//! the registrations that say whose copy of an entry is valid.
#![tactic(auto)]

mod commands;
mod engine;
mod plans;
mod refusals;
mod room;

pub use cache_model::registrations::Registration;
pub use cache_model::{
    CacheItem, Holder, dirs as dirs, pools as pools, registrations as registrations,
};
pub use cache_rows::{classes as classes, reclaims as reclaims};
pub use engine::{CacheContent, CacheEngine, RowOrder};
