//! The shell of a structure: what structures of every kind share. It judges the calls, keeps the
//! connections and their events, and says what is to be done to the instances.
#![tactic(auto)]

mod commands;
mod connectivity;
mod duplex_causes;
mod judging;
mod lost_as;
mod places;
mod rebuild_causes;
mod shell;
mod varied;
mod verdicts;

pub use conn_core as connections;
pub use engine_api::{Deeds, Room};
pub use event_mail as mail;
pub use lost_as::LostAs;
pub use shell::{ACT_LETTERS, Shell, copy_form};
pub use verdicts::Verdict;
