//! A reply of a structure of whatever type.
ghost use Rattle.std.specs.Prelude.{◌≡◌, option_map};
ghost use Rattle.plex_board.specs.declared.any_reply.AnyReply.TheVariants as any;

use plex_script::api::Reply;
use plex_script::types::{AlterReply, CacheReply, LockReply, QueueReply};

/// What was answered to a call of a structure, of whatever type.
pub enum AnyReply {
    Cache(Reply<AlterReply<CacheReply>>),
    List(Reply<QueueReply>),
    Lock(Reply<LockReply>),
}

impl Drop for AnyReply {
    fn drop(self) {
        match self {
            AnyReply::Cache(_) | AnyReply::List(_) | AnyReply::Lock(_) => {}
        }
    }
}

// A reply of a cache structure, if there is one.
pub(crate) fn of_cache(reply: Option<Reply<AlterReply<CacheReply>>>) -> Option<AnyReply>
    ensures { result ≡ option_map any.Cache reply }
{
    match reply {
        Some(reply) => Some(AnyReply::Cache(reply)),
        None => None,
    }
}

// A reply of a list structure, if there is one.
pub(crate) fn of_list(reply: Option<Reply<QueueReply>>) -> Option<AnyReply>
    ensures { result ≡ option_map any.List reply }
{
    match reply {
        Some(reply) => Some(AnyReply::List(reply)),
        None => None,
    }
}

// A reply of a lock structure, if there is one.
pub(crate) fn of_lock(reply: Option<Reply<LockReply>>) -> Option<AnyReply>
    ensures { result ≡ option_map any.Lock reply }
{
    match reply {
        Some(reply) => Some(AnyReply::Lock(reply)),
        None => None,
    }
}
