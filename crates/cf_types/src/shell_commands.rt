use crate::events::Event;
use crate::forms::Caps;
use crate::numbers::{CfId, ConnId};

/// A command that structures of every kind share. Connectors give those up to `RebuildComplete`,
/// the operator the others; REBUILD START and STOP come from both.
#[derive(Clone, Copy, PartialEq, Eq)]
pub enum ShellCmd {
    /// CONNECT (IXLCONN): the caller becomes active, with disposition KEEP or DELETE.
    Connect { keep: bool },
    /// DISCONNECT (IXLDISC): the caller departs.
    Disconnect,
    /// FAIL: the caller's task or system fails. With disposition KEEP the connection stays, as
    /// failed.
    Fail,
    /// NEXT: the event exit is given the next event.
    Next,
    /// RESPOND (IXLEERSP): the oldest event taken that is to be answered is answered.
    Respond,
    /// REBUILD START (IXLREBLD), into an instance of this capacity.
    RebuildStart { caps: Caps },
    /// REBUILD STOP (IXLREBLD).
    RebuildStop,
    /// REBUILD CONNECT (IXLCONN with REBUILD): the caller connects to the new instance.
    RebuildConnect,
    /// COPY: moves items, 1 to 4,096 at most, from the old instance to the new one.
    Copy { n: u32 },
    /// REBUILD COMPLETE (IXLREBLD): the caller has copied what it had to.
    RebuildComplete,
    /// FORCECONN (SETXCF FORCE): a failed connection is gone.
    ForceConn { conn: ConnId },
    /// FORCESTR (SETXCF FORCE): a structure without connections is deallocated.
    ForceStr,
    /// LOSECONN: the connector's system can't reach the facility any more.
    LoseConn { conn: ConnId, cf: CfId },
    /// RESTORECONN: it can again.
    RestoreConn { conn: ConnId, cf: CfId },
    /// VARY: the facility is taken from the structure, with the instance there, or given back.
    Vary { cf: CfId, off: bool },
    /// DUPLEX START (SETXCF START,REBUILD,DUPLEX): a second instance with the same content.
    DuplexStart,
    /// DUPLEX STOP: the second instance is dropped.
    DuplexStop,
}

/// The answer to a common command that was not refused, and of the loss of a facility.
#[derive(Clone, Copy, PartialEq, Eq)]
pub enum ShellReply {
    Ok,
    /// CONNECT of a connector that had no connection: the facility of the primary instance.
    OkNew { cf: CfId },
    /// CONNECT of a failed connection: the facility of the primary instance.
    Reconnected { cf: CfId },
    /// NEXT: the event taken.
    Event { event: Event },
    /// RESPOND: the event answered.
    Responded { event: Event },
    /// REBUILD START: the number of the rebuild, from 1.
    OkNumber { number: u32 },
    /// REBUILD CONNECT, DUPLEX START, and DUPLEX STOP that dropped an instance: its facility.
    OkAt { cf: CfId },
    /// COPY: how many items were moved, and how many are left.
    Copied { moved: u32, left: u32 },
    /// VARY OFF and DUPLEX STOP where nothing was dropped.
    OkNone,
    /// One of two instances was lost: the facility of the other.
    Simplex { cf: CfId },
    /// The new instance of this rebuild was lost.
    Stopped { number: u32 },
    /// The only instance was lost.
    FailedNow,
}
