//! Vector words as a pure machine: what connectors that test vector bits without a lock may learn
//! while another connector's change is half stored.
//!
//! A vector is kept in words of 64 bits. The lower half of a word holds 32 bits of the vector, and
//! the upper half a stamp: the number of the change that last stored into the word. [`run`] runs
//! any list of steps on such words, and its contract says of each load in it at which numbered
//! point the bits that it found stood. There are no threads here. The words that threads share are
//! proved elsewhere, with the same definitions of a log.
#![tactic(auto)]

mod items;
mod machine;
mod step;
mod word;
mod world;

pub use items::Items;
pub use machine::run;
pub use no_memory::NoMemory;
pub use step::Step;
pub use word::{bits_of, stamp_of, word_of};
pub use world::World;
