//! The words of what is answered.
ghost use Rattle.std.specs.Prelude.{◌≡◌, ◌++◌, OnOk};
ghost use Rattle.plex_report.specs.PlexSpell.Words.{tail_of};
ghost use Rattle.plex_seat.specs.Answers.{any_reply_words};

use plex_board::AnyReply;
use plex_board::scripts::Script;
use plex_board::types::NoMemory;
use plex_report::{put_cache_reply, put_list_reply, put_lock_reply};

/// Puts the words of a reply to a line, with a blank before each, as an entry of a history has them
/// behind `->`, but for the OK that a history has before a loss by VARY: refusals and events too.
/// Where there is no memory for a word, the line is left in the middle of it.
pub fn put_reply(line: &mut Vec<u8>, script: &Script, reply: &AnyReply) -> Result<(), NoMemory>
    ensures { OnOk result (line.new.items
        ≡ line.old.items ++ tail_of (any_reply_words script.now reply.now)) }
{
    match reply {
        AnyReply::Cache(reply) => put_cache_reply(line, script, reply),
        AnyReply::List(reply) => put_list_reply(line, script, reply),
        AnyReply::Lock(reply) => put_lock_reply(line, script, reply),
    }
}
