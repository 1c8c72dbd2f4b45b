use cf_pool::Chain;
use cf_types::{Adjunct, EntryId, Key16, Name16};

/// A record of a list structure: its id, its version (1 at first, one greater with each update),
/// its name or key where the structure's records have one, and, where it has them, the chain of the
/// pool in which its data lie and its adjunct.
#[derive(Drop)]
pub struct Rec {
    pub id: EntryId,
    pub version: u32,
    pub name: Option<Name16>,
    pub key: Option<Key16>,
    pub body: Option<Chain>,
    pub adj: Option<Adjunct>,
}

/// Where a record is: its header and its place in the header, both from 0.
#[derive(Clone, Copy, PartialEq, Eq)]
pub struct Spot {
    pub header: u32,
    pub place: u32,
}
