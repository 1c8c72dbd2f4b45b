//! Callers at work at a board. One caller: the lines of a script that are its own, one after another,
//! and then its departures. All of them: a script's lines one after another on one thread, or each
//! caller's on a thread of its own. And the law of callers at work, whatever the schedule: the
//! histories of the closed structures are legal and hold each caller's calls once and in its order,
//! each transcript follows the script, and each test that it shows tells what stood. A caller may
//! hear of others before each of its turns, as on one thread; where all work is done there, what is
//! left is the script's run.
#![tactic(auto)]

mod agent;
mod at_once;
mod calls;
mod crew;
mod floor;
mod in_turn;
mod items;
mod laws;
mod vectors;
mod worker;

pub use agent::{closing, serve, turn};
pub use at_once::threads;
pub use in_turn::{Finished, serial};
pub use laws::serve_right;
pub use plex_board::scripts::{AgentEnd, AnyAsk, AnyHistory, Gate, OpenGate, Shown, Transcript};
pub use plex_board::{links as links, sources as sources};
