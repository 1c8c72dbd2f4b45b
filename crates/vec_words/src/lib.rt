//! Vector words that connectors race on.
//!
//! A word holds 32 bits of one connector's vector, and the number of the change that stored it
//! last. The engine stores words and commits numbers while connectors test bits with one atomic
//! load, no lock and no waiting. A test answers a bit and a number, and the contract of
//! [`Vectors::learn`] says at which numbered point of the history the bit stood.
#![tactic(auto)]

mod count;
mod logged;
mod look;
mod note;
mod pass;
mod plays;
mod seat;
mod stores;
mod tell;
mod vectors;
mod view;

pub use logged::{Logged, Sight, Tested, TestedWord};
pub use note::Note;
pub use pass::Pass;
pub use seat::EngineSeat;
pub use stores::{Changes, Place};
pub use vec_world as worlds;
pub use vectors::Vectors;
