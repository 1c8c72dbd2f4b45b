ghost use Rattle.std.specs.Prelude.{◌≡◌, Option};
ghost use Rattle.plex_spell.specs.ListReading.{list_at, lock_command, make_places, make_of, update_places, update_of, move_places, move_of, delete_places, delete_of, label_name, label_key};
ghost use Rattle.plex_spell.specs.Patterns.{values_at};
ghost use Rattle.plex_spell.specs.Places.{Gives, names_of};

use crate::fields::{
    cond, data_option, either, key_option, label, lock_use, number, record, short_option, version,
};
use crate::judge::Judge;
use crate::labels::{Label, LockUse};
use crate::misses::Miss;
use crate::words::{Words, is};
use cf_types::{Key16, ListCmd, Name16};
use std::alloc::Global;

fn named(label: Option<Label>) -> Option<Name16>
    ensures { result ≡ label_name label }
{
    match label {
        Some(Label::Name(name)) => Some(name),
        Some(Label::Key(_)) => None,
        None => None,
    }
}

fn keyed(label: Option<Label>) -> Option<Key16>
    ensures { result ≡ label_key label }
{
    match label {
        Some(Label::Key(key)) => Some(key),
        Some(Label::Name(_)) => None,
        None => None,
    }
}

// What stands behind WRITE.
fn make(alloc: Global, judge: &Judge, words: &mut Words) -> Result<ListCmd, Miss>
    ensures { Gives result words.new (values_at judge.now.rigour
        (names_of judge.now) make_places make_of words.old) }
{
    let rigour = judge.rigour;
    let header = number(rigour, words)?;
    let head = either(words, b"HEAD", b"TAIL")?;
    let label = label(rigour, words)?;
    let body = data_option(alloc, rigour, words)?;
    let adj = short_option(rigour, words, b"ADJ")?;
    let cond = cond(rigour, words)?;
    Ok(ListCmd::Write {
        header,
        head,
        name: named(label),
        key: keyed(label),
        body,
        adj,
        cond,
    })
}

// What stands behind UPDATE.
fn update(alloc: Global, judge: &Judge, words: &mut Words) -> Result<ListCmd, Miss>
    ensures { Gives result words.new (values_at judge.now.rigour
        (names_of judge.now) update_places update_of words.old) }
{
    let rigour = judge.rigour;
    let at = record(rigour, words)?;
    let body = data_option(alloc, rigour, words)?;
    let adj = short_option(rigour, words, b"ADJ")?;
    let version = version(rigour, words)?;
    let cond = cond(rigour, words)?;
    Ok(ListCmd::Update {
        at,
        body,
        adj,
        version,
        cond,
    })
}

// What stands behind MOVE.
fn shift(judge: &Judge, words: &mut Words) -> Result<ListCmd, Miss>
    ensures { Gives result words.new (values_at judge.now.rigour
        (names_of judge.now) move_places move_of words.old) }
{
    let rigour = judge.rigour;
    let at = record(rigour, words)?;
    let header = number(rigour, words)?;
    let head = either(words, b"HEAD", b"TAIL")?;
    let key = key_option(rigour, words)?;
    let version = version(rigour, words)?;
    let cond = cond(rigour, words)?;
    Ok(ListCmd::Move {
        at,
        header,
        head,
        key,
        version,
        cond,
    })
}

// What stands behind DELETE.
fn delete(judge: &Judge, words: &mut Words) -> Result<ListCmd, Miss>
    ensures { Gives result words.new (values_at judge.now.rigour
        (names_of judge.now) delete_places delete_of words.old) }
{
    let rigour = judge.rigour;
    let at = record(rigour, words)?;
    let version = version(rigour, words)?;
    let cond = cond(rigour, words)?;
    Ok(ListCmd::Delete { at, version, cond })
}

// The command that does this with a list lock.
fn on_lock(lock: u32, how: LockUse) -> ListCmd
    ensures { result ≡ lock_command lock how }
{
    match how {
        LockUse::Set => ListCmd::LockSet { lock },
        LockUse::Reset => ListCmd::LockReset { lock },
        LockUse::Test => ListCmd::LockTest { lock },
    }
}

/// Takes a command of a list structure.
pub fn list(alloc: Global, judge: &Judge, words: &mut Words) -> Result<ListCmd, Miss>
    ensures { Gives result words.new (list_at judge.now.rigour (names_of judge.now) words.old) }
{
    let verb = words.next().ok_or(Miss::NoForm)?;
    let rigour = judge.rigour;
    if is(verb, b"WRITE") {
        return make(alloc, judge, words);
    }
    if is(verb, b"UPDATE") {
        return update(alloc, judge, words);
    }
    if is(verb, b"READ") {
        let at = record(rigour, words)?;
        let cond = cond(rigour, words)?;
        return Ok(ListCmd::Read { at, cond });
    }
    if is(verb, b"MOVE") {
        return shift(judge, words);
    }
    if is(verb, b"DELETE") {
        return delete(judge, words);
    }
    if is(verb, b"READLIST") {
        let header = number(rigour, words)?;
        return Ok(ListCmd::ReadList { header });
    }
    if is(verb, b"LOCK") {
        let lock = number(rigour, words)?;
        let how = lock_use(words)?;
        return Ok(on_lock(lock, how));
    }
    if is(verb, b"LCONTROLS") {
        let header = number(rigour, words)?;
        return Ok(ListCmd::LControls { header });
    }
    if is(verb, b"SETLIMIT") {
        let header = number(rigour, words)?;
        let n = number(rigour, words)?;
        return Ok(ListCmd::SetLimit { header, n });
    }
    if is(verb, b"MONITOR") {
        let header = number(rigour, words)?;
        let index = number(rigour, words)?;
        return Ok(ListCmd::Monitor { header, index });
    }
    if is(verb, b"UNMONITOR") {
        let header = number(rigour, words)?;
        return Ok(ListCmd::Unmonitor { header });
    }
    Err(Miss::NoForm)
}
