//! Commands from text, as a script's line has them behind who and structure.
ghost use Rattle.std.specs.Prelude.{◌≡◌};
ghost use Rattle.plex_report.specs.PlexSpell.declared.rigour.Rigour.TheVariants.{Names};
ghost use Rattle.plex_report.specs.PlexSpell.Places.{Reads, names_of};
ghost use Rattle.plex_board.specs.PlexScript.Causes.{declared_in};
ghost use Rattle.plex_board.specs.Boards.{IsPolicy};
ghost use Rattle.plex_seat.specs.Commands.{alter_said, cache_said, list_said, lock_said, queue_said};

use plex_board::scripts::Script;
use plex_board::types::{AlterCmd, CacheCmd, ListCmd, LockCmd, QueueCmd};
use plex_report::spell::{Judge, Miss, Rigour, Words, alter, cache, list, lock, queue};
use std::alloc::Global;

// What words are judged by: the limits, and what the policy declares.
fn judge(script: &Script) -> Judge<'_>
    requires { IsPolicy script.now }
    ensures rigour { result.rigour ≡ Names }
    ensures declared { names_of result ≡ declared_in script.now }
{
    Judge {
        rigour: Rigour::Names,
        facilities: script.facilities.items(),
        structures: script.structures.items(),
        connectors: script.connectors.items(),
    }
}

/// The command of a lock structure that the words are, with names of the policy.
pub fn lock_command(script: &Script, text: &[u8]) -> Result<LockCmd, Miss>
    requires { IsPolicy script.now }
    ensures { Reads result (lock_said script.now text.now) }
{
    let mut words = Words::of(text);
    let cmd = lock(&judge(script), &mut words)?;
    if words.is_done() {
        Ok(cmd)
    } else {
        Err(Miss::NoForm)
    }
}

/// The command on the content of a cache structure that the words are.
pub fn cache_command(alloc: Global, script: &Script, text: &[u8]) -> Result<CacheCmd, Miss>
    requires { IsPolicy script.now }
    ensures { Reads result (cache_said script.now text.now) }
{
    let mut words = Words::of(text);
    let cmd = cache(alloc, &judge(script), &mut words)?;
    if words.is_done() {
        Ok(cmd)
    } else {
        Err(Miss::NoForm)
    }
}

/// The command of a cache structure that the words are, of whatever sort.
pub fn alter_command(
    alloc: Global,
    script: &Script,
    text: &[u8],
) -> Result<AlterCmd<CacheCmd>, Miss>
    requires { IsPolicy script.now }
    ensures { Reads result (alter_said script.now text.now) }
{
    let mut words = Words::of(text);
    let cmd = alter(alloc, &judge(script), &mut words)?;
    if words.is_done() {
        Ok(cmd)
    } else {
        Err(Miss::NoForm)
    }
}

/// The command on the records of a list structure that the words are.
pub fn list_command(alloc: Global, script: &Script, text: &[u8]) -> Result<ListCmd, Miss>
    requires { IsPolicy script.now }
    ensures { Reads result (list_said script.now text.now) }
{
    let mut words = Words::of(text);
    let cmd = list(alloc, &judge(script), &mut words)?;
    if words.is_done() {
        Ok(cmd)
    } else {
        Err(Miss::NoForm)
    }
}

/// The command of a list structure that the words are, of whatever sort.
pub fn queue_command(alloc: Global, script: &Script, text: &[u8]) -> Result<QueueCmd, Miss>
    requires { IsPolicy script.now }
    ensures { Reads result (queue_said script.now text.now) }
{
    let mut words = Words::of(text);
    let cmd = queue(alloc, &judge(script), &mut words)?;
    if words.is_done() {
        Ok(cmd)
    } else {
        Err(Miss::NoForm)
    }
}
