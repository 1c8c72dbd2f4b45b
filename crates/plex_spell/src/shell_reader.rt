ghost use Rattle.std.specs.Prelude.{◌≡◌};
ghost use Rattle.plex_spell.specs.ShellReading.{shell_at, rebuild_at, duplex_at, operator_at};
ghost use Rattle.plex_spell.specs.Places.{Gives, names_of};

use crate::fields::{bounded, connector, either, facility};
use crate::judge::Judge;
use crate::misses::Miss;
use crate::words::{Words, is};
use cf_types::limits::{CAPACITY, COPY_ITEMS};
use cf_types::{Caps, ShellCmd};

// What stands behind REBUILD.
fn rebuild(judge: &Judge, words: &mut Words) -> Result<ShellCmd, Miss>
    ensures { Gives result words.new (rebuild_at judge.now.rigour (names_of judge.now) words.old) }
{
    if words.skip(b"START") {
        let entries = bounded(judge.rigour, words, 1, CAPACITY)?;
        let elements = bounded(judge.rigour, words, 1, CAPACITY)?;
        return Ok(ShellCmd::RebuildStart {
            caps: Caps { entries, elements },
        });
    }
    if words.skip(b"STOP") {
        return Ok(ShellCmd::RebuildStop);
    }
    if words.skip(b"CONNECT") {
        return Ok(ShellCmd::RebuildConnect);
    }
    if words.skip(b"COMPLETE") {
        return Ok(ShellCmd::RebuildComplete);
    }
    Err(Miss::NoForm)
}

// What stands behind DUPLEX.
fn duplex(words: &mut Words) -> Result<ShellCmd, Miss>
    ensures { Gives result words.new (duplex_at words.old) }
{
    if words.skip(b"START") {
        return Ok(ShellCmd::DuplexStart);
    }
    if words.skip(b"STOP") {
        return Ok(ShellCmd::DuplexStop);
    }
    Err(Miss::NoForm)
}

// A command that only the operator gives, behind its first word.
fn operator_command(judge: &Judge, verb: &[u8], words: &mut Words) -> Result<ShellCmd, Miss>
    ensures { Gives result words.new (operator_at judge.now.rigour
        (names_of judge.now) verb.now words.old) }
{
    if is(verb, b"FORCECONN") {
        let conn = connector(judge, words)?;
        return Ok(ShellCmd::ForceConn { conn });
    }
    if is(verb, b"FORCESTR") {
        return Ok(ShellCmd::ForceStr);
    }
    if is(verb, b"LOSECONN") {
        let conn = connector(judge, words)?;
        let cf = facility(judge, words)?;
        return Ok(ShellCmd::LoseConn { conn, cf });
    }
    if is(verb, b"RESTORECONN") {
        let conn = connector(judge, words)?;
        let cf = facility(judge, words)?;
        return Ok(ShellCmd::RestoreConn { conn, cf });
    }
    if is(verb, b"VARY") {
        let cf = facility(judge, words)?;
        let off = either(words, b"OFF", b"ON")?;
        return Ok(ShellCmd::Vary { cf, off });
    }
    if is(verb, b"DUPLEX") {
        return duplex(words);
    }
    Err(Miss::NoForm)
}

/// Takes a command that structures of every kind share, whoever gives it.
pub fn shell(judge: &Judge, words: &mut Words) -> Result<ShellCmd, Miss>
    ensures { Gives result words.new (shell_at judge.now.rigour (names_of judge.now) words.old) }
{
    let verb = words.next().ok_or(Miss::NoForm)?;
    if is(verb, b"CONNECT") {
        let keep = either(words, b"KEEP", b"DELETE")?;
        return Ok(ShellCmd::Connect { keep });
    }
    if is(verb, b"DISCONNECT") {
        return Ok(ShellCmd::Disconnect);
    }
    if is(verb, b"FAIL") {
        return Ok(ShellCmd::Fail);
    }
    if is(verb, b"NEXT") {
        return Ok(ShellCmd::Next);
    }
    if is(verb, b"RESPOND") {
        return Ok(ShellCmd::Respond);
    }
    if is(verb, b"REBUILD") {
        return rebuild(judge, words);
    }
    if is(verb, b"COPY") {
        let n = bounded(judge.rigour, words, 1, COPY_ITEMS)?;
        return Ok(ShellCmd::Copy { n });
    }
    operator_command(judge, verb, words)
}
