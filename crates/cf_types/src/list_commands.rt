use crate::adjuncts::Adjunct;
use crate::bodies::Body;
use crate::listings::Listing;
use crate::names::{Key16, Name16};
use crate::numbers::{ConnId, EntryId};

/// How a command names a record of a list structure: by its id, its name, as the first or the last
/// of a header (from 0), or as the first of a header with a key.
#[derive(Clone, Copy, PartialEq, Eq)]
pub enum At {
    Id(EntryId),
    Name(Name16),
    Head(u32),
    Tail(u32),
    Key(u32, Key16),
}

/// A condition on a list lock (from 0): nobody holds it, or the caller does.
#[derive(Clone, Copy, PartialEq, Eq)]
pub enum Cond {
    NotHeld(u32),
    HeldBy(u32),
}

/// A command of a list structure (IXLLIST).
#[derive(Drop)]
pub enum ListCmd {
    /// WRITE, creating: a new record at the head or the tail of a header.
    Write {
        header: u32,
        head: bool,
        name: Option<Name16>,
        key: Option<Key16>,
        body: Option<Body>,
        adj: Option<Adjunct>,
        cond: Option<Cond>,
    },
    /// WRITE, updating: replaces what is given of a record, and its version rises. With a version
    /// (from 1) only where it is the record's.
    Update {
        at: At,
        body: Option<Body>,
        adj: Option<Adjunct>,
        version: Option<u32>,
        cond: Option<Cond>,
    },
    /// READ.
    Read {
        at: At,
        cond: Option<Cond>,
    },
    /// MOVE: to the head or the tail of a header, with a new key if one is given. With a version
    /// (from 1) only where it is the record's.
    Move {
        at: At,
        header: u32,
        head: bool,
        key: Option<Key16>,
        version: Option<u32>,
        cond: Option<Cond>,
    },
    /// DELETE. With a version (from 1) only where it is the record's.
    Delete {
        at: At,
        version: Option<u32>,
        cond: Option<Cond>,
    },
    /// READ_LIST: the ids of a header's records, in order.
    ReadList {
        header: u32,
    },
    /// LOCK, set: the caller takes the list lock.
    LockSet {
        lock: u32,
    },
    /// LOCK, reset: the caller gives the list lock back.
    LockReset {
        lock: u32,
    },
    /// LOCK, test: who holds the list lock.
    LockTest {
        lock: u32,
    },
    /// READ_LCONTROLS: a header's count and limit.
    LControls {
        header: u32,
    },
    /// WRITE_LCONTROLS: a header's limit, in records.
    SetLimit {
        header: u32,
        n: u32,
    },
    /// MONITOR_LIST, start: the bit at the index of the caller's vector (from 0) tells whether the
    /// header has records.
    Monitor {
        header: u32,
        index: u32,
    },
    /// MONITOR_LIST, stop.
    Unmonitor {
        header: u32,
    },
}

/// The answer to a command of a list structure that was not refused.
#[derive(Drop)]
pub enum ListReply {
    /// WRITE, DELETE: the record's id.
    Id {
        id: EntryId,
    },
    /// READ: the record, and the header that it is in. Its version is 1 from its WRITE on, and one
    /// greater with each UPDATE.
    Entry {
        id: EntryId,
        header: u32,
        version: u32,
        name: Option<Name16>,
        key: Option<Key16>,
        body: Option<Body>,
        adj: Option<Adjunct>,
    },
    Ok,
    /// READ_LIST: ids in order.
    Ids(Listing<EntryId>),
    /// LOCK, test: who holds the list lock.
    Holder {
        holder: Option<ConnId>,
    },
    /// READ_LCONTROLS: records in the header, and its limit.
    Controls {
        count: u32,
        limit: u32,
    },
    /// MONITOR_LIST of a header without records.
    Empty,
    /// MONITOR_LIST of a header with records.
    NotEmpty,
    /// MONITOR_LIST, stop: how many monitors ended, 0 or 1.
    OkCount {
        n: u32,
    },
}

/// A command of a list structure with event queues. Whoever monitors a sublist, the records of a
/// header that have a key, gets an event in its queue when the sublist has records and had none.
#[derive(Drop)]
pub enum QueueCmd {
    /// A command on records.
    List(ListCmd),
    /// IXLLIST MONITOR_SUBLIST, start: the caller monitors the sublist.
    MonSub { header: u32, key: Key16 },
    /// IXLLIST MONITOR_SUBLIST, stop: the monitor goes, and its event.
    UnmonSub { header: u32, key: Key16 },
    /// IXLLIST DEQ_EVENTQ: the first event of the caller's queue is taken.
    Deq,
}

/// The answer to a command of a list structure with event queues that was not refused.
#[derive(Drop)]
pub enum QueueReply {
    /// That of a command on records.
    List(ListReply),
    /// MONITOR_SUBLIST of a sublist without records.
    Empty,
    /// MONITOR_SUBLIST of a sublist with records.
    NotEmpty,
    /// MONITOR_SUBLIST, stop: how many monitors ended, 0 or 1.
    Ok { n: u32 },
    /// DEQ_EVENTQ: the sublist of the event.
    Sublist { header: u32, key: Key16 },
}
