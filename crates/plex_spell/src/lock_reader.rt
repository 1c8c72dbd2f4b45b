ghost use Rattle.std.specs.Prelude.{◌≡◌};
ghost use Rattle.plex_spell.specs.LockReading.{lock_at};
ghost use Rattle.plex_spell.specs.Places.{Gives, names_of};

use crate::fields::{connector, decision, either, resource, short_option};
use crate::judge::Judge;
use crate::misses::Miss;
use crate::words::{Words, is};
use cf_types::LockCmd;

/// Takes a command of a lock structure.
pub fn lock(judge: &Judge, words: &mut Words) -> Result<LockCmd, Miss>
    ensures { Gives result words.new (lock_at judge.now.rigour (names_of judge.now) words.old) }
{
    let verb = words.next().ok_or(Miss::NoForm)?;
    let rigour = judge.rigour;
    if is(verb, b"OBTAIN") {
        let r = resource(rigour, words)?;
        let excl = either(words, b"EXCL", b"SHR")?;
        let rec = short_option(rigour, words, b"REC")?;
        return Ok(LockCmd::Obtain { r, excl, rec });
    }
    if is(verb, b"ALTER") {
        let r = resource(rigour, words)?;
        let excl = either(words, b"EXCL", b"SHR")?;
        let rec = short_option(rigour, words, b"REC")?;
        return Ok(LockCmd::Alter { r, excl, rec });
    }
    if is(verb, b"RELEASE") {
        let r = resource(rigour, words)?;
        return Ok(LockCmd::Release { r });
    }
    if is(verb, b"DECIDE") {
        let r = resource(rigour, words)?;
        let conn = connector(judge, words)?;
        let how = decision(words)?;
        return Ok(LockCmd::Decide { r, conn, how });
    }
    if is(verb, b"RTREAD") {
        let conn = connector(judge, words)?;
        return Ok(LockCmd::RtRead { conn });
    }
    if is(verb, b"RTDELETE") {
        let conn = connector(judge, words)?;
        let r = resource(rigour, words)?;
        return Ok(LockCmd::RtDelete { conn, r });
    }
    Err(Miss::NoForm)
}
