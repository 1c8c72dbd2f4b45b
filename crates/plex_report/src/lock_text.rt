//! The words of the commands and the replies of a lock structure.

ghost use Rattle.plex_report.specs.CommandWords.{lock_words};
ghost use Rattle.plex_report.specs.ReplyWords.{lock_reply_words};

use crate::items::put_counted;
use crate::spelled::Spelled;
use plex_script::Script;
use plex_script::plain::{put_lock, put_of, put_word};
use plex_script::types::{LockCmd, LockReply, NoMemory};

impl Spelled for LockCmd {
    ghost words = { lock_words };

    fn put(&self, line: &mut Vec<u8>, script: &Script) -> Result<(), NoMemory> {
        put_lock(line, script.connectors.items(), self)
    }
}

impl Spelled for LockReply {
    ghost words = { lock_reply_words };

    fn put(&self, line: &mut Vec<u8>, _: &Script) -> Result<(), NoMemory> {
        match self {
            LockReply::Granted => put_word(line, b"GRANTED"),
            LockReply::Pending { place } => put_of(line, b"PENDING", *place),
            LockReply::Ok => put_word(line, b"OK"),
            LockReply::Records(records) => put_counted(line, b"RECORDS", records.items()),
        }
    }
}
