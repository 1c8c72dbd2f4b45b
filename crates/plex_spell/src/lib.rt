//! The words of a script: what they stand for, how they are read, and how commands are spelled.
#![tactic(auto)]

mod alter_reader;
mod cache_reader;
mod cuts;
pub mod fields;
mod judge;
mod labels;
mod list_reader;
mod lock_reader;
mod misses;
mod numerals;
mod queue_reader;
mod rigour;
mod shell_reader;
pub mod singles;
pub mod texts;
mod words;

pub use alter_reader::alter;
pub use cache_reader::cache;
pub use judge::Judge;
pub use list_reader::list;
pub use lock_reader::lock;
pub use misses::Miss;
pub use numerals::{is_numeral, number};
pub use queue_reader::queue;
pub use rigour::Rigour;
pub use shell_reader::shell;
pub use singles::{connector_number, is_about, structure_number};
pub use texts::{is_name, is_term, key_text, name_text};
pub use words::{Words, is};
