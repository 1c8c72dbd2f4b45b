//! What a caller's transcript must be, but for what its tests, POSTs and TAKEs answer: slots, which
//! its own calls in the histories give. There is no code but the laws: contracts cite `specs/`, and
//! proofs cite `proofs/`.
#![tactic(auto)]

mod laws;

pub use laws::{follows_by_slots, goes_on};
pub use run_shown as shown;
