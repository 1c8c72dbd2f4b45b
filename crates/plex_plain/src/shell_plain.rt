//! The words of the commands that structures of every kind share.

ghost use Rattle.std.specs.Prelude.{◌≡◌, ◌∷◌, ◌++◌, [], OnOk};
ghost use Rattle.plex_spell.specs.Words.{tail_of};
ghost use Rattle.plex_plain.specs.Naming.{caller_name, facility_word};
ghost use Rattle.plex_plain.specs.PlainWords.{shell_words};

use crate::line_text::{put_caller, put_facility, put_numbers, put_of, put_word};
use cf_types::{CfId, ConnId, Name16, NoMemory, ShellCmd};

// A word, a connector and a facility.
fn put_reach(
    line: &mut Vec<u8>,
    connectors: &[Name16],
    word: &[u8],
    conn: ConnId,
    cf: CfId,
) -> Result<(), NoMemory>
    ensures { OnOk result (line.new.items ≡ line.old.items
        ++ tail_of (word.now ∷ caller_name connectors.now conn.0 ∷ facility_word cf ∷ [])) }
{
    put_word(line, word)?;
    put_caller(line, connectors, conn.0 as usize)?;
    put_facility(line, cf)
}

/// Puts a word and a facility to a line, with a blank before each.
pub fn put_at(line: &mut Vec<u8>, word: &[u8], cf: CfId) -> Result<(), NoMemory>
    ensures { OnOk result (line.new.items ≡ line.old.items
        ++ tail_of (word.now ∷ facility_word cf ∷ [])) }
{
    put_word(line, word)?;
    put_facility(line, cf)
}

/// Puts the words of a command that structures of every kind share to a line, with a blank before
/// each. Where there is no memory, the line is left in the middle of them.
pub fn put_shell(line: &mut Vec<u8>, connectors: &[Name16], cmd: &ShellCmd) -> Result<(), NoMemory>
    ensures { OnOk result (line.new.items ≡ line.old.items
        ++ tail_of (shell_words connectors.now cmd.now)) }
{
    match cmd {
        ShellCmd::Connect { keep: true } => put_word(line, b"CONNECT KEEP"),
        ShellCmd::Connect { keep: false } => put_word(line, b"CONNECT DELETE"),
        ShellCmd::Disconnect => put_word(line, b"DISCONNECT"),
        ShellCmd::Fail => put_word(line, b"FAIL"),
        ShellCmd::Next => put_word(line, b"NEXT"),
        ShellCmd::Respond => put_word(line, b"RESPOND"),
        ShellCmd::RebuildStart { caps } => {
            put_word(line, b"REBUILD START")?;
            put_numbers(line, caps.entries, caps.elements)
        }
        ShellCmd::RebuildStop => put_word(line, b"REBUILD STOP"),
        ShellCmd::RebuildConnect => put_word(line, b"REBUILD CONNECT"),
        ShellCmd::Copy { n } => put_of(line, b"COPY", *n),
        ShellCmd::RebuildComplete => put_word(line, b"REBUILD COMPLETE"),
        ShellCmd::ForceConn { conn } => {
            put_word(line, b"FORCECONN")?;
            put_caller(line, connectors, conn.0 as usize)
        }
        ShellCmd::ForceStr => put_word(line, b"FORCESTR"),
        ShellCmd::LoseConn { conn, cf } => put_reach(line, connectors, b"LOSECONN", *conn, *cf),
        ShellCmd::RestoreConn { conn, cf } => {
            put_reach(line, connectors, b"RESTORECONN", *conn, *cf)
        }
        ShellCmd::Vary { cf, off: true } => {
            put_at(line, b"VARY", *cf)?;
            put_word(line, b"OFF")
        }
        ShellCmd::Vary { cf, off: false } => {
            put_at(line, b"VARY", *cf)?;
            put_word(line, b"ON")
        }
        ShellCmd::DuplexStart => put_word(line, b"DUPLEX START"),
        ShellCmd::DuplexStop => put_word(line, b"DUPLEX STOP"),
    }
}
