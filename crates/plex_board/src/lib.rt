//! The structures of a script that threads share, of whatever type, and the desks from which their
//! callers use them. Beside them, with no code, what a caller's next call makes of a history, what a
//! history leads to, and what the run of a script on one thread is.
#![tactic(auto)]

mod any_cell;
mod any_note;
mod any_pass;
mod any_reply;
mod board;
mod desk;
mod ending;
mod kinds;
mod note_box;
mod opening;
mod place;
mod rest;
mod station;
mod tray;

pub use any_reply::AnyReply;
pub use board::Board;
pub use desk::Desk;
pub use kinds::Kinds;
pub use plex_script as scripts;
pub use plex_script::{api as api, types as types};
pub use run_shown as shown;
pub use struct_cell as cells;
pub use struct_cell::{
    links as links, sources as sources, turns as turns, vectors as vectors, worlds as worlds,
};
pub use tray::Tray;
