//! The names of a list structure's records, by hash, and the places of keys.
#![tactic(auto)]

mod keys;

pub use keys::Keys;
