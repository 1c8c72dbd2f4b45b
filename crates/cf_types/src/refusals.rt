use crate::events::Stage;
use crate::forms::Refs;
use crate::names::Name16;
use crate::numbers::{CfId, ConnId, EntryId};

/// Why a command was refused. A refused command stands in the journal and changes nothing else.
#[derive(Clone, Copy, PartialEq, Eq)]
pub enum Refusal {
    /// 1: WHENREG was asked, and the caller isn't registered for the name.
    NotRegistered,
    /// 2: the caller's registration at the index is for this other name, which it didn't give up.
    IndexInUse { name: Name16 },
    /// 3: the index isn't below the length of the vector.
    BadIndex { index: u32, len: u32 },
    /// 4: a changed entry was written as unchanged.
    IsChanged,
    /// 5: the entry to be cast out is unchanged.
    NotChanged,
    /// 6: this connector holds the castout lock.
    CastoutHeld { by: ConnId },
    /// 7: the caller doesn't hold the castout lock.
    NotHeld,
    /// 8: no entry has the name.
    NoEntry,
    /// 9: a new entry finds no place, even where every unchanged one is reclaimed.
    DirectoryFull { entries: u32 },
    /// 10: the data need more elements than are free where every unchanged entry is reclaimed.
    NoElements { need: u32, free: u32 },
    /// 11: a castout class is not 1 to 16, or a storage class not 1 to 8.
    BadClass { class: u32 },
    /// 12: the target has so many entries and elements together, above the units of the structure.
    BeyondUnits { asked: u32, units: u32 },
    /// 13: no target is set.
    NoAlter,
    /// 20: no list record is there; prints NOENTRY.
    NoRecordThere,
    /// 21: the list record with this id has the name.
    NameTaken { id: EntryId },
    /// 22: the header isn't below the number of headers.
    BadHeader { header: u32, headers: u32 },
    /// 23: the header has as many records as its limit admits, or more.
    ListFull { limit: u32 },
    /// 24: the structure has as many records as entries.
    EntriesFull { entries: u32 },
    /// 25: the data need more elements than are free; prints NOELEMENTS.
    NoListElements { need: u32, free: u32 },
    /// 26: this connector holds the list lock.
    LockHeld { by: ConnId },
    /// 27: the caller doesn't hold the list lock; who does.
    LockNotHeldBy { holder: Option<ConnId> },
    /// 28: the structure's records aren't known in that way.
    WrongReference { refs: Refs },
    /// 29: the index monitors this other header; prints INDEXINUSE.
    HeaderInUse { header: u32 },
    /// 30: the lock isn't below the number of list locks.
    BadLock { lock: u32, locks: u32 },
    /// 31: the list record's version is this one, and another was given.
    VersionDiffers { found: u32 },
    /// 32: the caller's event queue is empty.
    NoQueued,
    /// 40: the caller owns the resource already, in the exclusive or the shared state.
    AlreadyInterested { excl: bool },
    /// 41: the caller doesn't own the resource.
    NotInterested,
    /// 42: there would be more record data than the structure has records.
    RecordsFull { limit: u32 },
    /// 43: the caller isn't the resource's manager; who is.
    NotManager { manager: Option<ConnId> },
    /// 44: that connector doesn't wait for the resource.
    NoWaiter,
    /// 45: no such record data is there.
    NoRecord,
    /// 46: the caller waits for the resource.
    StillPending,
    /// 60: the caller isn't active; for REBUILD START by the operator, nobody is.
    NotConnected,
    /// 61: the caller is active, or leaving, already.
    NameActive { state: StateWord },
    /// 62: the structure has as many connections as it admits.
    TooManyConns { limit: u8 },
    /// 63: the connection isn't failed; it is in this state.
    NotFailed { state: StateWord },
    /// 64: so many connections are defined.
    HasConnections { n: u32 },
    /// 65: no facility has the units asked; the greatest number that one has.
    NoSpace { asked: u32, free: u32 },
    /// 66: the caller owes no response.
    NothingOwed,
    /// 67: this rebuild is going on.
    RebuildInProgress { number: u32 },
    /// 68: no rebuild is going on.
    NoRebuild,
    /// 69: the rebuild is in this stage, or the caller has done its part in it.
    WrongStage { stage: Stage },
    /// 70: so many items are not copied yet.
    ItemsLeft { left: u32 },
    /// 71: the content needs more than the new instance has, or than a capacity to be altered to.
    TooSmall { need: u32, have: u32 },
    /// 72: the caller is quiesced for this rebuild.
    Quiesced { number: u32 },
    /// 73: the caller can't reach this facility.
    LostConn { cf: CfId },
    /// 74: the loss of this facility, which the command met, failed the structure.
    LostFacility { cf: CfId },
    /// 75: the structure has failed.
    StructureFailed,
    /// 76: no facility can hold an instance.
    NoFacility,
    /// 77: there are two instances already.
    AlreadyDuplexed,
    /// 78: no event waits.
    NoEvent,
    /// 79: there is no instance.
    NotAllocated,
}

/// The state of a connection, as a refusal tells it.
#[derive(Clone, Copy, Debug, PartialEq, Eq)]
pub enum StateWord {
    Active,
    Leaving,
    Gone,
}
