ghost use Rattle.std.specs.Prelude.{◌≡◌};
ghost use Rattle.plex_plain.specs.PlexSpell.Patterns.{values_at};
ghost use Rattle.plex_plain.specs.PlexSpell.Places.{Gives, Reads, names_of};
ghost use Rattle.plex_script.specs.PolicyReading.{cache_places, cache_from, list_places, list_from, lock_places, lock_from, form_at, structure_at, declared_at, declaration_at};

use crate::declarations::Declaration;
use cf_types::limits::{CAPACITY, CONNECTORS, HEADERS, LIST_LOCKS, UNITS, VECTOR_BITS};
use cf_types::{Caps, Kind, Listing, Name16, Pref, StrForm};
use plex_plain::spell::{Judge, Miss, Words, fields, is};
use std::alloc::Global;

// What stands behind CACHE.
fn cache_form(
    alloc: Global,
    judge: &Judge,
    name: Name16,
    words: &mut Words,
) -> Result<Declaration, Miss>
    ensures { Gives result words.new (values_at judge.now.rigour (names_of judge.now) cache_places
        (cache_from name) words.old) }
{
    let rigour = judge.rigour;
    let entries = fields::bounded(rigour, words, 1, CAPACITY)?;
    let elements = fields::bounded(rigour, words, 1, CAPACITY)?;
    let conns = fields::bounded(rigour, words, 1, u32::from(CONNECTORS))?;
    let vector = fields::bounded(rigour, words, 1, VECTOR_BITS)?;
    let keep = fields::either(words, b"KEEP", b"DELETE")?;
    Ok(Declaration::Structure(StrForm {
        name,
        kind: Kind::Cache,
        caps: Caps { entries, elements },
        conns: conns as u8,
        vector,
        keep,
        prefs: Listing::from_vec(Vec::new(alloc)),
    }))
}

// What stands behind LIST.
fn list_form(
    alloc: Global,
    judge: &Judge,
    name: Name16,
    words: &mut Words,
) -> Result<Declaration, Miss>
    ensures { Gives result words.new (values_at judge.now.rigour (names_of judge.now) list_places
        (list_from name) words.old) }
{
    let rigour = judge.rigour;
    let entries = fields::bounded(rigour, words, 1, CAPACITY)?;
    let elements = fields::bounded(rigour, words, 1, CAPACITY)?;
    let conns = fields::bounded(rigour, words, 1, u32::from(CONNECTORS))?;
    let vector = fields::bounded(rigour, words, 1, VECTOR_BITS)?;
    let keep = fields::either(words, b"KEEP", b"DELETE")?;
    let headers = fields::bounded(rigour, words, 1, HEADERS)?;
    let locks = fields::bounded(rigour, words, 0, LIST_LOCKS)?;
    let refs = fields::references(words)?;
    Ok(Declaration::Structure(StrForm {
        name,
        kind: Kind::List {
            headers,
            locks,
            refs,
        },
        caps: Caps { entries, elements },
        conns: conns as u8,
        vector,
        keep,
        prefs: Listing::from_vec(Vec::new(alloc)),
    }))
}

// What stands behind LOCK.
fn lock_form(
    alloc: Global,
    judge: &Judge,
    name: Name16,
    words: &mut Words,
) -> Result<Declaration, Miss>
    ensures { Gives result words.new (values_at judge.now.rigour (names_of judge.now) lock_places
        (lock_from name) words.old) }
{
    let rigour = judge.rigour;
    let entries = fields::bounded(rigour, words, 1, CAPACITY)?;
    let elements = fields::bounded(rigour, words, 1, CAPACITY)?;
    let conns = fields::bounded(rigour, words, 1, u32::from(CONNECTORS))?;
    let keep = fields::either(words, b"KEEP", b"DELETE")?;
    Ok(Declaration::Structure(StrForm {
        name,
        kind: Kind::Lock,
        caps: Caps { entries, elements },
        conns: conns as u8,
        vector: 0,
        keep,
        prefs: Listing::from_vec(Vec::new(alloc)),
    }))
}

fn form(alloc: Global, judge: &Judge, name: Name16, words: &mut Words) -> Result<Declaration, Miss>
    ensures { Gives result words.new
        (form_at judge.now.rigour (names_of judge.now) name words.old) }
{
    if words.skip(b"CACHE") {
        return cache_form(alloc, judge, name, words);
    }
    if words.skip(b"LIST") {
        return list_form(alloc, judge, name, words);
    }
    if words.skip(b"LOCK") {
        return lock_form(alloc, judge, name, words);
    }
    Err(Miss::NoForm)
}

// What stands behind STRUCTURE.
fn structure(alloc: Global, judge: &Judge, words: &mut Words) -> Result<Declaration, Miss>
    ensures { Gives result words.new
        (structure_at judge.now.rigour (names_of judge.now) words.old) }
{
    let name = fields::new_name(judge.rigour, words)?;
    form(alloc, judge, name, words)
}

fn declared(alloc: Global, judge: &Judge, words: &mut Words) -> Result<Declaration, Miss>
    ensures { Gives result words.new (declared_at judge.now.rigour (names_of judge.now) words.old) }
{
    let verb = words.next().ok_or(Miss::NoForm)?;
    if is(verb, b"FACILITY") {
        let cf = fields::new_facility(words)?;
        let units = fields::bounded(judge.rigour, words, 1, UNITS)?;
        return Ok(Declaration::Facility(Pref { cf, units }));
    }
    if is(verb, b"STRUCTURE") {
        return structure(alloc, judge, words);
    }
    if is(verb, b"PREF") {
        let on = fields::structure(judge, words)?;
        let cf = fields::facility(judge, words)?;
        let units = fields::bounded(judge.rigour, words, 1, UNITS)?;
        return Ok(Declaration::Pref {
            on,
            pref: Pref { cf, units },
        });
    }
    if is(verb, b"CONNECTOR") {
        let name = fields::new_name(judge.rigour, words)?;
        return Ok(Declaration::Connector(name));
    }
    Err(Miss::NoForm)
}

/// Reads what a line of the policy declares, from all its words.
pub(crate) fn declaration(
    alloc: Global,
    judge: &Judge,
    mut words: Words,
) -> Result<Declaration, Miss>
    ensures { Reads result (declaration_at judge.now.rigour (names_of judge.now) words.entry) }
{
    let told = declared(alloc, judge, &mut words)?;
    if words.is_done() {
        Ok(told)
    } else {
        Err(Miss::NoForm)
    }
}
