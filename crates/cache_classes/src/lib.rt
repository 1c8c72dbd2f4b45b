//! The castout classes of changed names.
#![tactic(auto)]

mod changed;
mod classes;

pub use changed::Changed;
pub use classes::Classes;
