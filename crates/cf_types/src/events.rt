use crate::numbers::{CfId, ConnId};
use crate::resources::Resource;

/// What a connector is told by the event exit of its connection (IXLCONN), or by a lock structure.
/// Those marked "answered" are to be answered by RESPOND (IXLEERSP).
#[derive(Clone, Copy, PartialEq, Eq)]
pub enum Event {
    /// A connector became active.
    NewConn { conn: ConnId },
    /// A connector departed; answered.
    DiscFail { conn: ConnId },
    /// Rebuild `number` begins: stop using the structure; answered.
    Quiesce { number: u32 },
    /// All members are quiesced: connect to the new instance.
    RebuildConnect { number: u32 },
    /// All members are connected to the new instance: copy.
    ConnectsDone { number: u32 },
    /// All members completed: the new instance is in use; answered.
    Cleanup { number: u32 },
    /// The rebuild has ended.
    Complete { number: u32 },
    /// The rebuild is stopped; answered.
    Stop { number: u32 },
    /// The stop has ended.
    StopDone { number: u32 },
    /// The connector has lost its connectivity to a facility.
    LostConn { cf: CfId },
    /// The structure failed.
    StrFail,
    /// To a resource's manager: `conn` waits for the resource.
    Contention { r: Resource, conn: ConnId },
    /// To the owners of a resource: `conn` waits for it.
    Notify { r: Resource, conn: ConnId },
    /// The waiter's request is granted, in the exclusive or the shared state.
    Granted { r: Resource, excl: bool },
    /// The waiter's request is denied.
    Denied { r: Resource },
}

/// An event on its way to a connector.
#[derive(Clone, Copy, PartialEq, Eq)]
pub struct Letter {
    pub to: ConnId,
    pub event: Event,
}

/// The stages of a rebuild (IXLREBLD).
#[derive(Clone, Copy, Debug, PartialEq, Eq)]
pub enum Stage {
    Quiesce,
    Connect,
    Copy,
    Cleanup,
    Stopping,
}
