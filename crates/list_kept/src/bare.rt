use cf_types::{Adjunct, EntryId, Key16, Name16};

/// A record but for its data.
#[derive(Clone, Copy)]
pub struct Bare {
    pub id: EntryId,
    pub version: u32,
    pub name: Option<Name16>,
    pub key: Option<Key16>,
    pub adj: Option<Adjunct>,
}
