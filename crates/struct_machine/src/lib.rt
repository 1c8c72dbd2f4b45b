//! The one-thread machine of a structure: its shell and its instances, without a journal.
#![tactic(auto)]

mod asking;
mod asks;
mod changed;
mod content;
mod deeds;
mod departing;
mod doing;
mod losing;
mod machine;
mod marks;

pub use asking::Asked;
pub use cf_types as types;
pub use changed::Changed;
pub use duplex_pair as pairs;
pub use duplex_pair::{links as links, sources as sources};
pub use engine_api as api;
pub use machine::{Machine, Parts};
pub use marks::{MARKS, Mark};
pub use plex_shell as shells;
pub use plex_shell::{connections as connections, mail as mail};
