use crate::adjuncts::Adjunct;
use crate::bodies::Body;
use crate::listings::Listing;
use crate::names::Name16;
use crate::numbers::ConnId;

/// A command of a cache structure (IXLCACHE).
#[derive(Drop)]
pub enum CacheCmd {
    /// READ_DATA: registers the caller for the name at the index of its vector (bits from 0), and
    /// answers the data of the entry. `old` is the name that the caller gives up at that index.
    /// `stg` is the storage class, 1 to 8, of an entry that this command makes.
    Read {
        name: Name16,
        index: u32,
        old: Option<Name16>,
        stg: u32,
    },
    /// WRITE_DATA: replaces data and adjunct of the entry, registers the caller as READ_DATA does,
    /// and ends the registrations of all others for the name. `class` is the castout class, 1 to
    /// 16, of an entry written as changed, and `None` for one written as unchanged. With
    /// `when_reg` only a caller that is registered for the name may write.
    Write {
        name: Name16,
        index: u32,
        body: Body,
        class: Option<u32>,
        adj: Option<Adjunct>,
        old: Option<Name16>,
        stg: u32,
        when_reg: bool,
    },
    /// CROSS_INVAL: ends the registrations of all others for the name.
    CrossInval {
        name: Name16,
    },
    /// The caller's registrations, by index.
    RegList,
    /// CASTOUT_DATA: answers the data of a changed entry, and holds it until it is unlocked.
    Castout {
        name: Name16,
    },
    /// UNLOCK_CASTOUT: lets a held entry go; it is unchanged unless it was written meanwhile.
    Unlock {
        name: Name16,
    },
    /// READ_COCLASS: the names of a castout class, 1 to 16.
    CoClass {
        class: u32,
    },
    /// READ_COSTATS: how many entries each castout class has.
    CoStats,
    /// READ_DIRINFO: what the directory says of an entry.
    DirInfo {
        name: Name16,
    },
    /// DELETE_NAME: ends the entry and the registrations for it.
    Delete {
        name: Name16,
    },
    /// READ_STGSTATS: how many entries, and changed ones, a storage class (1 to 8) has.
    StgStats {
        stg: u32,
    },
}

/// The answer to a command of a cache structure that was not refused.
#[derive(Drop)]
pub enum CacheReply {
    /// READ_DATA of an entry with data.
    Data {
        body: Body,
        adj: Option<Adjunct>,
        changed: bool,
    },
    /// READ_DATA of an entry without data.
    NoData,
    /// WRITE_DATA, DELETE_NAME.
    Ok,
    /// CROSS_INVAL: how many registrations ended.
    OkCount {
        n: u32,
    },
    /// The caller's registrations: index and name, by index.
    Regs(Listing<(u32, Name16)>),
    /// CASTOUT_DATA.
    CastData {
        body: Body,
        adj: Option<Adjunct>,
    },
    /// UNLOCK_CASTOUT: whether the entry is still changed.
    Unlocked {
        changed: bool,
    },
    /// READ_COCLASS: the names, by name.
    Names(Listing<Name16>),
    /// READ_COSTATS: class and number of entries, of each class that has any, by class.
    Stats(Listing<(u32, u32)>),
    /// READ_DIRINFO: castout class, storage class, holder of the castout lock, number of
    /// registrations.
    Dir {
        class: Option<u32>,
        stg: u32,
        holder: Option<ConnId>,
        regs: u32,
    },
    /// READ_STGSTATS: the entries of the class, and those of them that are changed.
    Stg {
        rows: u32,
        changed: u32,
    },
}
