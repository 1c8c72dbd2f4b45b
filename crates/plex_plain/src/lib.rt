//! Commands, and the lines of a policy, in plain form: words with one blank between them. Where
//! there is no memory for a word, the line is left in the middle of it.
#![tactic(auto)]

mod alter_plain;
mod cache_plain;
mod line_text;
mod list_plain;
mod lock_plain;
mod policy_plain;
mod queue_plain;
mod shell_plain;
mod values;

pub use alter_plain::put_alter;
pub use cache_plain::put_cache;
pub use line_text::{
    put_caller, put_caller_name, put_digits, put_facility, put_name, put_number, put_numbers,
    put_of, put_record, put_resource, put_structure_name, put_text, put_word, refs_text,
    state_text,
};
pub use list_plain::{put_content, put_label, put_list};
pub use lock_plain::put_lock;
pub use plex_spell as spell;
pub use policy_plain::{put_connector_line, put_facility_line, put_form_line, put_pref_line};
pub use queue_plain::put_queue;
pub use shell_plain::{put_at, put_shell};
pub use values::{Worded, put_flag, put_option};
