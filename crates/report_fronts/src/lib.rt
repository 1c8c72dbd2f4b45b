//! Which lines a report of a script can have next, and which texts begin one: laws alone. Contracts
//! cite `specs/`, and proofs cite `proofs/`.
#![tactic(auto)]

mod laws;

pub use laws::first_unread;
