use crate::adjuncts::Adjunct;
use crate::listings::Listing;
use crate::numbers::ConnId;
use crate::resources::Resource;

/// What a resource's manager decides of a waiter.
#[derive(Clone, Copy, Debug, PartialEq, Eq)]
pub enum Decision {
    /// It goes on waiting.
    Keep,
    /// It is denied, and waits no more.
    Deny,
    /// The owners are told of it.
    Notify,
}

/// A command of a lock structure (IXLLOCK, IXLRT).
#[derive(Clone, Copy)]
pub enum LockCmd {
    /// OBTAIN: the caller asks for the resource, exclusively or shared, with record data if given.
    Obtain {
        r: Resource,
        excl: bool,
        rec: Option<Adjunct>,
    },
    /// ALTER: an owner asks for another state.
    Alter {
        r: Resource,
        excl: bool,
        rec: Option<Adjunct>,
    },
    /// RELEASE.
    Release {
        r: Resource,
    },
    /// The manager's decision on a waiter (the contention exit of IXLCONN).
    Decide {
        r: Resource,
        conn: ConnId,
        how: Decision,
    },
    /// IXLRT READ: the record data of a connector.
    RtRead {
        conn: ConnId,
    },
    /// IXLRT DELETE: record data of a connector goes, and a retained lock with it.
    RtDelete {
        conn: ConnId,
        r: Resource,
    },
}

/// The answer to a command of a lock structure that was not refused.
#[derive(Drop)]
pub enum LockReply {
    /// OBTAIN, ALTER: the caller owns the resource in the state asked for.
    Granted,
    /// OBTAIN, ALTER: the caller waits, at this place among the resource's waiters, from 1.
    Pending { place: u32 },
    Ok,
    /// IXLRT READ: resource, whether exclusive, and record data, by resource.
    Records(Listing<(Resource, bool, Adjunct)>),
}
