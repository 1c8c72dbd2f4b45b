//! The registrations of a cache structure: which connector has a copy of which name, and at which
//! bit of its vector it is told whether that copy is valid.
#![tactic(auto)]

mod ends;
mod maps;
mod registrations;
mod regs;

pub use registrations::Registration;
pub use regs::Regs;
