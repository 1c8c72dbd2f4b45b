//! Replies by themselves, in the words that an entry of a history has behind `->`. A reply to VARY
//! lacks the `OK` that an entry has before what became of the structure.

ghost use Rattle.std.specs.Prelude.{◌≡◌, ◌++◌, OnOk, false};
ghost use Rattle.plex_script.specs.PlexSpell.Words.{tail_of};
ghost use Rattle.plex_report.specs.Lines.{reply_words};
ghost use Rattle.plex_report.specs.ReplyWords.{alter_reply_words, queue_reply_words, lock_reply_words};

use crate::lines::put_reply;
use plex_script::Script;
use plex_script::api::Reply;
use plex_script::types::{AlterReply, CacheReply, LockReply, NoMemory, QueueReply};

/// Puts the words of a reply of a cache structure to a line, with a blank before each. Where there is
/// no memory for a word, the line is left in the middle of it.
pub fn put_cache_reply(
    line: &mut Vec<u8>,
    script: &Script,
    reply: &Reply<AlterReply<CacheReply>>,
) -> Result<(), NoMemory>
    ensures { OnOk result (line.new.items ≡ line.old.items
        ++ tail_of (reply_words alter_reply_words script.now false reply.now)) }
{
    put_reply(line, script, false, reply)
}

/// Puts the words of a reply of a list structure to a line, with a blank before each. Where there is
/// no memory for a word, the line is left in the middle of it.
pub fn put_list_reply(
    line: &mut Vec<u8>,
    script: &Script,
    reply: &Reply<QueueReply>,
) -> Result<(), NoMemory>
    ensures { OnOk result (line.new.items ≡ line.old.items
        ++ tail_of (reply_words queue_reply_words script.now false reply.now)) }
{
    put_reply(line, script, false, reply)
}

/// Puts the words of a reply of a lock structure to a line, with a blank before each. Where there is
/// no memory for a word, the line is left in the middle of it.
pub fn put_lock_reply(
    line: &mut Vec<u8>,
    script: &Script,
    reply: &Reply<LockReply>,
) -> Result<(), NoMemory>
    ensures { OnOk result (line.new.items ≡ line.old.items
        ++ tail_of (reply_words lock_reply_words script.now false reply.now)) }
{
    put_reply(line, script, false, reply)
}
