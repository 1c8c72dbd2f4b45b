//! The words of events.

ghost use Rattle.std.specs.Prelude.{◌≡◌, ◌∷◌, ◌++◌, [], OnOk};
ghost use Rattle.plex_script.specs.PlexSpell.Words.{tail_of};
ghost use Rattle.plex_script.specs.PlexPlain.Naming.{resource_word};
ghost use Rattle.plex_report.specs.Naming.{caller_word};
ghost use Rattle.plex_report.specs.ReplyWords.{event_words};

use crate::line_text::put_caller;
use plex_script::Script;
use plex_script::plain::{put_at, put_of, put_resource, put_word, state_text};
use plex_script::types::{ConnId, Event, NoMemory, Resource};

// A word and a connector.
fn put_about(line: &mut Vec<u8>, script: &Script, word: &[u8], conn: ConnId) -> Result<(), NoMemory>
    ensures { OnOk result (line.new.items ≡ line.old.items
        ++ tail_of (word.now ∷ caller_word script.now conn ∷ [])) }
{
    put_word(line, word)?;
    put_caller(line, script, conn)
}

// A word, a resource and a connector that waits for it.
fn put_waiter(
    line: &mut Vec<u8>,
    script: &Script,
    word: &[u8],
    r: Resource,
    conn: ConnId,
) -> Result<(), NoMemory>
    ensures { OnOk result (line.new.items ≡ line.old.items
        ++ tail_of (word.now ∷ resource_word r ∷ caller_word script.now conn ∷ [])) }
{
    put_word(line, word)?;
    put_resource(line, r)?;
    put_caller(line, script, conn)
}

/// Puts an event to a line.
pub(crate) fn put_event(line: &mut Vec<u8>, script: &Script, event: &Event) -> Result<(), NoMemory>
    ensures { OnOk result (line.new.items ≡ line.old.items
        ++ tail_of (event_words script.now event.now)) }
{
    match event {
        Event::NewConn { conn } => put_about(line, script, b"NEWCONN", *conn),
        Event::DiscFail { conn } => put_about(line, script, b"DISCFAIL", *conn),
        Event::Quiesce { number } => put_of(line, b"QUIESCE", *number),
        Event::RebuildConnect { number } => put_of(line, b"REBUILDCONNECT", *number),
        Event::ConnectsDone { number } => put_of(line, b"CONNECTSDONE", *number),
        Event::Cleanup { number } => put_of(line, b"CLEANUP", *number),
        Event::Complete { number } => put_of(line, b"COMPLETE", *number),
        Event::Stop { number } => put_of(line, b"STOP", *number),
        Event::StopDone { number } => put_of(line, b"STOPDONE", *number),
        Event::LostConn { cf } => put_at(line, b"LOSTCONN", *cf),
        Event::StrFail => put_word(line, b"STRFAIL"),
        Event::Contention { r, conn } => put_waiter(line, script, b"CONTENTION", *r, *conn),
        Event::Notify { r, conn } => put_waiter(line, script, b"NOTIFY", *r, *conn),
        Event::Granted { r, excl } => {
            put_word(line, b"GRANTED")?;
            put_resource(line, *r)?;
            put_word(line, state_text(*excl))
        }
        Event::Denied { r } => {
            put_word(line, b"DENIED")?;
            put_resource(line, *r)
        }
    }
}
