//! A structure that connectors on threads of their own share: its machine and its journal behind
//! one lock, and vectors that they test without it.
#![tactic(auto)]

mod cell;
mod closed;
mod copies;
mod inside;
mod mirror;
mod place_set;
mod refused;
mod touched;
mod words;

pub use cell::Cell;
pub use cf_turn as turns;
pub use closed::Closed;
pub use inside::{CellFact, CellKey, Inside};
pub use refused::CallRefused;
pub use struct_machine::{links as links, shells as shells, sources as sources};
pub use vec_words as vectors;
pub use vec_words::worlds as worlds;
