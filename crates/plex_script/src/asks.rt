use cf_types::{
    AlterCmd, AlterReply, CacheCmd, CacheReply, LockCmd, LockReply, QueueCmd, QueueReply,
};
use engine_api::History;

/// The history of a structure, of whatever kind.
pub enum AnyHistory {
    Cache(History<AlterCmd<CacheCmd>, AlterReply<CacheReply>>),
    List(History<QueueCmd, QueueReply>),
    Lock(History<LockCmd, LockReply>),
}

impl Drop for AnyHistory {
    fn drop(self) {
        match self {
            AnyHistory::Cache(_) | AnyHistory::List(_) | AnyHistory::Lock(_) => {}
        }
    }
}
