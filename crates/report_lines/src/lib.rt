//! The lines of a report that histories and transcripts give: each read into what prints as exactly
//! this line, or told to be the line of nothing.
#![tactic(auto)]

mod entries;
mod headings;
mod items;
mod kinds;
mod names;
mod replies;
mod spaced;

pub use entries::{read_cache_entry, read_list_entry, read_lock_entry};
pub use headings::{history_heading, transcript_heading};
pub use items::read_item;
pub use replies::reply_in;
