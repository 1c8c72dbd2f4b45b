//! The words of the commands that structures of every kind share, and of the replies to them.

ghost use Rattle.plex_report.specs.CommandWords.{shell_words};
ghost use Rattle.plex_report.specs.ReplyWords.{shell_reply_words};

use crate::events::put_event;
use crate::spelled::Spelled;
use plex_script::Script;
use plex_script::plain::{put_at, put_numbers, put_of, put_shell, put_word};
use plex_script::types::{NoMemory, ShellCmd, ShellReply};

impl Spelled for ShellCmd {
    ghost words = { shell_words };

    fn put(&self, line: &mut Vec<u8>, script: &Script) -> Result<(), NoMemory> {
        put_shell(line, script.connectors.items(), self)
    }
}

impl Spelled for ShellReply {
    ghost words = { shell_reply_words };

    fn put(&self, line: &mut Vec<u8>, script: &Script) -> Result<(), NoMemory> {
        match self {
            ShellReply::Ok => put_word(line, b"OK"),
            ShellReply::OkNew { cf } => put_at(line, b"OK NEW", *cf),
            ShellReply::Reconnected { cf } => put_at(line, b"OK RECONNECTED", *cf),
            ShellReply::Event { event } => {
                put_word(line, b"EVENT")?;
                put_event(line, script, event)
            }
            ShellReply::Responded { event } => {
                put_word(line, b"RESPONDED")?;
                put_event(line, script, event)
            }
            ShellReply::OkNumber { number } => put_of(line, b"OK", *number),
            ShellReply::OkAt { cf } => put_at(line, b"OK", *cf),
            ShellReply::Copied { moved, left } => {
                put_word(line, b"COPIED")?;
                put_numbers(line, *moved, *left)
            }
            ShellReply::OkNone => put_word(line, b"OK NONE"),
            ShellReply::Simplex { cf } => put_at(line, b"SIMPLEX", *cf),
            ShellReply::Stopped { number } => put_of(line, b"STOPPED", *number),
            ShellReply::FailedNow => put_word(line, b"FAILED"),
        }
    }
}
