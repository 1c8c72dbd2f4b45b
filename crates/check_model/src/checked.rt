use caller_slots::shown::scripts::types::{ConnId, StrNo};

/// What a check of a report answers.
#[derive(Clone, Copy, PartialEq, Eq)]
pub enum Checked {
    /// Each history is legal, each transcript follows the script, and each test tells what stood. All
    /// histories together have so many entries.
    Yes { entries: u64 },
    /// This structure's history isn't legal, and those of the structures before it are. Its first
    /// block that breaks off begins at this entry, from 1.
    BadEntry { on: StrNo, no: u32 },
    /// All histories are legal, and the transcripts of the callers before this one are right. No
    /// right transcript begins with this caller's items up to this one, from 1; or the items end, and
    /// it is the number behind the last.
    BadItem { by: ConnId, item: u32 },
}
