//! A rebuild of a structure under way: its stage, its members, and who owes what the stage waits
//! for.
#![tactic(auto)]

mod passed;
mod rebuild;

pub use cf_types::Stage;
pub use passed::Passed;
pub use rebuild::Rebuild;
