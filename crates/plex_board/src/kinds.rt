//! The three engines that a board runs, of which contracts know the meanings.
ghost use Rattle.std.specs.Prelude.{IsTrue};
ghost use Rattle.plex_script.specs.CfTypes.declared.forms.Kind.{Kind};
ghost use Rattle.plex_script.specs.CfTypes.Forms.{is_cache, is_list, is_lock};
ghost use Rattle.run_shown.specs.Meanings.{altered_caches};
ghost use Rattle.run_shown.specs.QueueModel.ListQueues.{queued_lists};
ghost use Rattle.lock_model.specs.Meaning.{lock_meaning};
ghost use Rattle.plex_board.specs.Means.{Means};

use plex_script::api::Engine;
use plex_script::types::{
    AlterCmd, AlterReply, CacheCmd, CacheReply, LockCmd, LockReply, QueueCmd, QueueReply,
};

/// An engine for each type of structure. Each means what the model of its type says.
pub trait Kinds {
    /// The engine of cache structures, whose capacity can be altered.
    type Cache: Engine<Cmd = AlterCmd<CacheCmd>, Reply = AlterReply<CacheReply>>;

    /// The engine of list structures, with event queues for sublists.
    type List: Engine<Cmd = QueueCmd, Reply = QueueReply>;

    /// The engine of lock structures.
    type Lock: Engine<Cmd = LockCmd, Reply = LockReply>;

    /// Each is for structures of its type.
    ghost cache_kind: { (kind : Kind) → IsTrue (is_cache kind) → IsTrue (Self.Cache.is_kind kind) };

    ghost list_kind: { (kind : Kind) → IsTrue (is_list kind) → IsTrue (Self.List.is_kind kind) };

    ghost lock_kind: { (kind : Kind) → IsTrue (is_lock kind) → IsTrue (Self.Lock.is_kind kind) };

    /// What a history of each says is what the model says of it.
    ghost cache_means: { Means Self.Cache.meaning altered_caches };

    ghost list_means: { Means Self.List.meaning queued_lists };

    ghost lock_means: { Means Self.Lock.meaning lock_meaning };
}
