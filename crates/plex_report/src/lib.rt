//! The report of a run, line by line.
#![tactic(auto)]

mod cache_text;
mod events;
mod items;
mod line_text;
mod lines;
mod list_text;
mod lock_text;
mod refusals;
mod replies;
mod report;
mod shell_text;
mod spelled;
mod spots;

pub use plex_script::spell as spell;
pub use replies::{put_cache_reply, put_list_reply, put_lock_reply};
pub use report::{Report, history_line, line, render, transcript_line};
