//! What it means to alter the capacity of a structure in use (IXLALTER), over whatever its commands
//! mean; no code but a type.
#![tactic(auto)]

mod contents;

pub use contents::AlterContent;
