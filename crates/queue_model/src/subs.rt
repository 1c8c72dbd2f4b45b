use cf_types::{ConnId, Key16, Listing};

/// A connector's sublist: the records of a header (from 0) that have a key.
#[derive(Clone, Copy)]
pub struct Sub {
    pub conn: ConnId,
    pub header: u32,
    pub key: Key16,
}

/// The monitors of sublists in the order in which they were made; and the events that wait, by
/// connector, each connector's in the order of its queue.
#[derive(Drop)]
pub struct Queued {
    pub monitors: Listing<Sub>,
    pub events: Listing<Sub>,
}
