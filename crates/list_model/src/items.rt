use cf_types::{Adjunct, Body, ConnId, EntryId, Key16, Listing, Name16};

/// What a copy of a list structure is made of: its controls, where they differ from those of an
/// empty structure, and then its records.
#[derive(Drop)]
pub enum ListItem {
    /// The id that the next record gets (from 1), the limit of each header in records, who holds
    /// each list lock, and the monitors: the connector, the index of its vector and the header
    /// (both from 0).
    Controls {
        next: u64,
        limits: Listing<u32>,
        locks: Listing<Option<ConnId>>,
        watches: Listing<(ConnId, u32, u32)>,
    },
    /// A record, and the header (from 0) that it is the last of.
    Row {
        header: u32,
        id: EntryId,
        version: u32,
        name: Option<Name16>,
        key: Option<Key16>,
        body: Option<Body>,
        adj: Option<Adjunct>,
    },
}
