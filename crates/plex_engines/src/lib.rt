//! The engines of the program: which of them its boards run for each type of structure. A board
//! knows what engines mean, by the trait `Kinds`, and not which they are; whoever starts a board
//! names them.
#![tactic(auto)]

mod engines;

pub use cache_core as caches;
pub use engines::{Board, Engines};
