//! Readers of replies, refusals and events, as a report prints them. Each gives just what the rows
//! of `reply_rows` read.
#![tactic(auto)]

mod alter_reader;
mod cache_reader;
mod list_reader;
mod lock_reader;
mod numerals;
mod one_word;
mod queue_reader;
mod refusal_reader;
mod reply_reader;
mod rows;
mod shell_reader;
mod spelling;

pub use numerals::wide_number;
pub use one_word::OneWord;
pub use reply_reader::{Answer, reply};
pub use rows::{one, plain, with_one, with_two};
