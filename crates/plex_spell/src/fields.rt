ghost use Rattle.std.specs.Prelude.{◌≡◌, ◌≤◌, IfOk, codes, option_map};
ghost use Rattle.cf_types.specs.declared.limits.TheConstants.{ADJUNCT_BYTES, RETRIES};
ghost use Rattle.cf_types.specs.declared.list_commands.At.TheVariants as at;
ghost use Rattle.plex_spell.specs.Tokens.{facility_of};
ghost use Rattle.plex_spell.specs.Places.{Gives, names_of, on_first, number_of, name_of, key_of, text_of, data_of, resource_of, record_of, new_name_of, facility_in, connector_in, structure_in};
ghost use Rattle.plex_spell.specs.Patterns.{either_of, decision_of, lock_use_of, refs_of, class_at, cond_at, label_at, key_at, record_at, flag_at, option_at, behind_at, number_at};

use crate::judge::Judge;
use crate::labels::{Label, LockUse};
use crate::misses::Miss;
use crate::rigour::Rigour;
use crate::words::{Words, is};
use crate::{numerals, singles};
use cf_types::limits::RETRIES;
use cf_types::{
    Adjunct, At, Body, CfId, Cond, ConnId, Decision, Key16, Name16, Refs, Resource, StrNo,
};
use std::alloc::Global;

/// Takes a number from `low` to `high`.
pub fn bounded(rigour: Rigour, words: &mut Words, low: u32, high: u32) -> Result<u32, Miss>
    ensures value { Gives result words.new (on_first (number_of rigour low high) words.old) }
    ensures range { low ≤ high → IfOk result (λ n. n ≤ high) }
{
    let Some(word) = words.next() else {
        return Err(Miss::NoForm);
    };
    numerals::number(rigour, word, low, high).ok_or(Miss::NoForm)
}

/// Takes a number of 32 bits.
pub fn number(rigour: Rigour, words: &mut Words) -> Result<u32, Miss>
    ensures { Gives result words.new (number_at rigour words.old) }
{
    bounded(rigour, words, 0, u32::MAX)
}

/// Takes the name of an entry or a record.
pub(crate) fn name(rigour: Rigour, words: &mut Words) -> Result<Name16, Miss>
    ensures { Gives result words.new (on_first (name_of rigour) words.old) }
{
    let Some(word) = words.next() else {
        return Err(Miss::NoForm);
    };
    singles::name(rigour, word).ok_or(Miss::NoForm)
}

/// Takes a list key.
pub(crate) fn key(rigour: Rigour, words: &mut Words) -> Result<Key16, Miss>
    ensures { Gives result words.new (on_first (key_of rigour) words.old) }
{
    let Some(word) = words.next() else {
        return Err(Miss::NoForm);
    };
    singles::key(rigour, word).ok_or(Miss::NoForm)
}

/// Takes an adjunct, or record data.
pub(crate) fn short(rigour: Rigour, words: &mut Words) -> Result<Adjunct, Miss>
    ensures { Gives result words.new (on_first (text_of rigour ADJUNCT_BYTES) words.old) }
{
    let Some(word) = words.next() else {
        return Err(Miss::NoForm);
    };
    singles::short(rigour, word).ok_or(Miss::NoForm)
}

/// Takes data.
pub(crate) fn data(alloc: Global, rigour: Rigour, words: &mut Words) -> Result<Body, Miss>
    ensures { Gives result words.new (on_first (data_of rigour) words.old) }
{
    let Some(word) = words.next() else {
        return Err(Miss::NoForm);
    };
    singles::data(alloc, rigour, word)
}

/// Takes a resource.
pub(crate) fn resource(rigour: Rigour, words: &mut Words) -> Result<Resource, Miss>
    ensures { Gives result words.new (on_first (resource_of rigour) words.old) }
{
    let Some(word) = words.next() else {
        return Err(Miss::NoForm);
    };
    singles::resource(rigour, word).ok_or(Miss::NoForm)
}

/// Takes a new name of a structure or a connector.
pub fn new_name(rigour: Rigour, words: &mut Words) -> Result<Name16, Miss>
    ensures { Gives result words.new (on_first (new_name_of rigour) words.old) }
{
    let Some(word) = words.next() else {
        return Err(Miss::NoForm);
    };
    singles::new_name(rigour, word).ok_or(Miss::NoForm)
}

/// Takes a facility that need not be declared.
pub fn new_facility(words: &mut Words) -> Result<CfId, Miss>
    ensures { Gives result words.new (on_first facility_of words.old) }
{
    let Some(word) = words.next() else {
        return Err(Miss::NoForm);
    };
    singles::facility_number(word).ok_or(Miss::NoForm)
}

/// Takes a facility.
pub fn facility(judge: &Judge, words: &mut Words) -> Result<CfId, Miss>
    ensures { Gives result words.new (on_first (facility_in judge.now.rigour
        (names_of judge.now)) words.old) }
{
    let Some(word) = words.next() else {
        return Err(Miss::NoForm);
    };
    singles::facility(judge, word).ok_or(Miss::NoForm)
}

/// Takes a connector.
pub(crate) fn connector(judge: &Judge, words: &mut Words) -> Result<ConnId, Miss>
    ensures { Gives result words.new (on_first (connector_in judge.now.rigour
        (names_of judge.now)) words.old) }
{
    let Some(word) = words.next() else {
        return Err(Miss::NoForm);
    };
    singles::connector(judge, word).ok_or(Miss::NoForm)
}

/// Takes a structure.
pub fn structure(judge: &Judge, words: &mut Words) -> Result<StrNo, Miss>
    ensures { Gives result words.new (on_first (structure_in judge.now.rigour
        (names_of judge.now)) words.old) }
{
    let Some(word) = words.next() else {
        return Err(Miss::NoForm);
    };
    singles::structure(judge, word).ok_or(Miss::NoForm)
}

// Whether a word is the first of two, or the second.
fn either_word(word: &[u8], first: &[u8], second: &[u8]) -> Option<bool>
    ensures { result ≡ either_of first.now second.now word.now }
{
    if is(word, first) {
        return Some(true);
    }
    if is(word, second) {
        return Some(false);
    }
    None
}

/// Takes one of two words; the answer is true for the first.
pub fn either(words: &mut Words, first: &[u8], second: &[u8]) -> Result<bool, Miss>
    ensures { Gives result words.new (on_first (either_of first.now second.now) words.old) }
{
    let Some(word) = words.next() else {
        return Err(Miss::NoForm);
    };
    either_word(word, first, second).ok_or(Miss::NoForm)
}

fn decision_word(word: &[u8]) -> Option<Decision>
    ensures { result ≡ decision_of word.now }
{
    if is(word, b"KEEP") {
        return Some(Decision::Keep);
    }
    if is(word, b"DENY") {
        return Some(Decision::Deny);
    }
    if is(word, b"NOTIFY") {
        return Some(Decision::Notify);
    }
    None
}

/// Takes a decision on a waiter.
pub(crate) fn decision(words: &mut Words) -> Result<Decision, Miss>
    ensures { Gives result words.new (on_first decision_of words.old) }
{
    let Some(word) = words.next() else {
        return Err(Miss::NoForm);
    };
    decision_word(word).ok_or(Miss::NoForm)
}

fn lock_use_word(word: &[u8]) -> Option<LockUse>
    ensures { result ≡ lock_use_of word.now }
{
    if is(word, b"SET") {
        return Some(LockUse::Set);
    }
    if is(word, b"RESET") {
        return Some(LockUse::Reset);
    }
    if is(word, b"TEST") {
        return Some(LockUse::Test);
    }
    None
}

/// Takes what is done with a list lock.
pub(crate) fn lock_use(words: &mut Words) -> Result<LockUse, Miss>
    ensures { Gives result words.new (on_first lock_use_of words.old) }
{
    let Some(word) = words.next() else {
        return Err(Miss::NoForm);
    };
    lock_use_word(word).ok_or(Miss::NoForm)
}

fn refs_word(word: &[u8]) -> Option<Refs>
    ensures { result ≡ refs_of word.now }
{
    if is(word, b"NAMES") {
        return Some(Refs::Names);
    }
    if is(word, b"KEYS") {
        return Some(Refs::Keys);
    }
    if is(word, b"NOTHING") {
        return Some(Refs::Nothing);
    }
    None
}

/// Takes what the records of a list structure are known by.
pub fn references(words: &mut Words) -> Result<Refs, Miss>
    ensures { Gives result words.new (on_first refs_of words.old) }
{
    let Some(word) = words.next() else {
        return Err(Miss::NoForm);
    };
    refs_word(word).ok_or(Miss::NoForm)
}

/// Takes CHANGED and a castout class, or UNCHANGED.
pub(crate) fn class(rigour: Rigour, words: &mut Words) -> Result<Option<u32>, Miss>
    ensures { Gives result words.new (class_at rigour words.old) }
{
    if words.skip(b"CHANGED") {
        return Ok(Some(number(rigour, words)?));
    }
    if words.skip(b"UNCHANGED") {
        return Ok(None);
    }
    Err(Miss::NoForm)
}

/// Takes a condition on a list lock, where there is one.
pub(crate) fn cond(rigour: Rigour, words: &mut Words) -> Result<Option<Cond>, Miss>
    ensures { Gives result words.new (cond_at rigour words.old) }
{
    if words.skip(b"NOTHELD") {
        return Ok(Some(Cond::NotHeld(number(rigour, words)?)));
    }
    if words.skip(b"HELDBY") {
        return Ok(Some(Cond::HeldBy(number(rigour, words)?)));
    }
    Ok(None)
}

/// Takes the name or the key of a new record, where there is one.
pub(crate) fn label(rigour: Rigour, words: &mut Words) -> Result<Option<Label>, Miss>
    ensures { Gives result words.new (label_at rigour words.old) }
{
    if words.skip(b"NAME") {
        return Ok(Some(Label::Name(name(rigour, words)?)));
    }
    if words.skip(b"KEY") {
        return Ok(Some(Label::Key(key(rigour, words)?)));
    }
    Ok(None)
}

// A header and a key.
fn keyed(rigour: Rigour, words: &mut Words) -> Result<At, Miss>
    ensures { Gives result words.new (key_at rigour words.old) }
{
    let header = number(rigour, words)?;
    let key = key(rigour, words)?;
    Ok(At::Key(header, key))
}

// A record's id.
fn by_id(rigour: Rigour, words: &mut Words) -> Result<At, Miss>
    ensures { Gives result words.new (option_map (λ read. (at.Id read.0, read.1)) (on_first
        (record_of rigour) words.old)) }
{
    let Some(word) = words.next() else {
        return Err(Miss::NoForm);
    };
    let id = singles::record_id(rigour, word).ok_or(Miss::NoForm)?;
    Ok(At::Id(id))
}

/// Takes how a list record is named.
pub(crate) fn record(rigour: Rigour, words: &mut Words) -> Result<At, Miss>
    ensures { Gives result words.new (record_at rigour words.old) }
{
    if words.skip(b"NAME") {
        return Ok(At::Name(name(rigour, words)?));
    }
    if words.skip(b"HEAD") {
        return Ok(At::Head(number(rigour, words)?));
    }
    if words.skip(b"TAIL") {
        return Ok(At::Tail(number(rigour, words)?));
    }
    if words.skip(b"KEY") {
        return keyed(rigour, words);
    }
    by_id(rigour, words)
}

/// Takes OLD and a name, where they are there.
pub(crate) fn old(rigour: Rigour, words: &mut Words) -> Result<Option<Name16>, Miss>
    ensures { Gives result words.new (option_at (codes "OLD") (on_first
        (name_of rigour)) words.old) }
{
    if words.skip(b"OLD") {
        Ok(Some(name(rigour, words)?))
    } else {
        Ok(None)
    }
}

/// Takes STG and a storage class, where they are there.
pub(crate) fn storage(rigour: Rigour, words: &mut Words) -> Result<Option<u32>, Miss>
    ensures { Gives result words.new (option_at (codes "STG") (on_first
        (number_of rigour 0 4294967295)) words.old) }
{
    if words.skip(b"STG") {
        Ok(Some(number(rigour, words)?))
    } else {
        Ok(None)
    }
}

/// Takes this word and an adjunct or record data, where they are there.
pub(crate) fn short_option(
    rigour: Rigour,
    words: &mut Words,
    word: &[u8],
) -> Result<Option<Adjunct>, Miss>
    ensures { Gives result words.new
        (option_at word.now (on_first (text_of rigour ADJUNCT_BYTES)) words.old) }
{
    if words.skip(word) {
        Ok(Some(short(rigour, words)?))
    } else {
        Ok(None)
    }
}

/// Takes DATA and data, where they are there.
pub(crate) fn data_option(
    alloc: Global,
    rigour: Rigour,
    words: &mut Words,
) -> Result<Option<Body>, Miss>
    ensures { Gives result words.new (option_at (codes "DATA") (on_first
        (data_of rigour)) words.old) }
{
    if words.skip(b"DATA") {
        Ok(Some(data(alloc, rigour, words)?))
    } else {
        Ok(None)
    }
}

/// Takes KEY and a list key, where they are there.
pub(crate) fn key_option(rigour: Rigour, words: &mut Words) -> Result<Option<Key16>, Miss>
    ensures { Gives result words.new (option_at (codes "KEY") (on_first
        (key_of rigour)) words.old) }
{
    if words.skip(b"KEY") {
        Ok(Some(key(rigour, words)?))
    } else {
        Ok(None)
    }
}

/// Takes KEY and a list key.
pub(crate) fn behind_key(rigour: Rigour, words: &mut Words) -> Result<Key16, Miss>
    ensures { Gives result words.new (behind_at (codes "KEY") (on_first
        (key_of rigour)) words.old) }
{
    if words.skip(b"KEY") {
        return key(rigour, words);
    }
    Err(Miss::NoForm)
}

/// Takes VERSION and a number from 1 on, where they are there.
pub(crate) fn version(rigour: Rigour, words: &mut Words) -> Result<Option<u32>, Miss>
    ensures { Gives result words.new (option_at (codes "VERSION") (on_first
        (number_of rigour 1 4294967295)) words.old) }
{
    if words.skip(b"VERSION") {
        Ok(Some(bounded(rigour, words, 1, u32::MAX)?))
    } else {
        Ok(None)
    }
}

/// Takes RETRY and a number from 1 on, where they are there.
pub fn retry(rigour: Rigour, words: &mut Words) -> Result<Option<u32>, Miss>
    ensures { Gives result words.new (option_at (codes "RETRY") (on_first
        (number_of rigour 1 RETRIES)) words.old) }
{
    if words.skip(b"RETRY") {
        Ok(Some(bounded(rigour, words, 1, RETRIES)?))
    } else {
        Ok(None)
    }
}
