//! Values of one word.

ghost use Rattle.std.specs.Prelude.{◌≡◌, ◌≤◌, List, length};
ghost use Rattle.cf_types.specs.declared.limits.TheConstants.{ADJUNCT_BYTES, CONNECTORS};
ghost use Rattle.cf_types.specs.declared.names.Name16.{Name16};
ghost use Rattle.line_rows.specs.Rows.{Single};
ghost use Rattle.line_rows.specs.Singles.{a_name, a_key, a_facility, a_connector, text, joined};
ghost use Rattle.reply_rows.specs.Parts.{small, a_resource, a_state, a_change, a_progress, a_holder, an_id};
ghost use Rattle.reply_rows.specs.Refusals.{byte, a_reference, connection, a_stage};
ghost use Rattle.reply_rows.specs.Contents.{a_held, an_index, a_count};

use crate::numerals::wide_number;
use cf_types::{Adjunct, CfId, ConnId, EntryId, Key16, Name16, Refs, Resource, Stage, StateWord};
use plex_spell::singles::{facility_number, key, name, short};
use plex_spell::texts::cut;
use plex_spell::{Rigour, connector_number, is, number};

/// A value that is one word, where a connector's word is its name among these.
pub trait OneWord: Sized {
    ghost one: { List Name16 → Single Self };

    /// Reads a word; `None` where it is the word of no value.
    fn read(connectors: &[Name16], word: &[u8]) -> Option<Self>
        requires { length connectors.now ≤ CONNECTORS }
        ensures { result ≡ (one connectors.now).value word.now };
}

impl OneWord for u32 {
    ghost one = { λ connectors. small };

    fn read(_: &[Name16], word: &[u8]) -> Option<u32> {
        number(Rigour::Names, word, 0, u32::MAX)
    }
}

impl OneWord for Name16 {
    ghost one = { λ connectors. a_name };

    fn read(_: &[Name16], word: &[u8]) -> Option<Name16> {
        name(Rigour::Names, word)
    }
}

impl OneWord for Adjunct {
    ghost one = { λ connectors. text ADJUNCT_BYTES };

    fn read(_: &[Name16], word: &[u8]) -> Option<Adjunct> {
        short(Rigour::Names, word)
    }
}

/// The state of a lock.
pub fn state(word: &[u8]) -> Option<bool>
    ensures { result ≡ a_state.value word.now }
{
    if is(word, b"EXCL") {
        return Some(true);
    }
    if is(word, b"SHR") {
        return Some(false);
    }
    None
}

impl OneWord for Resource {
    ghost one = { λ connectors. a_resource };

    fn read(_: &[Name16], word: &[u8]) -> Option<Resource> {
        let (name_part, hash_part) = cut(word, b'@')?;
        let name = name(Rigour::Names, name_part)?;
        let hash = number(Rigour::Names, hash_part, 0, u32::MAX)?;
        Some(Resource { name, hash })
    }
}

// A state and record data behind it.
fn held_end(connectors: &[Name16], word: &[u8]) -> Option<(bool, Adjunct)>
    requires { length connectors.now ≤ CONNECTORS }
    ensures { result ≡ (joined 58 a_state (text ADJUNCT_BYTES)).value word.now }
{
    let (front, behind) = cut(word, b':')?;
    let excl = state(front)?;
    let rec = Adjunct::read(connectors, behind)?;
    Some((excl, rec))
}

// A resource, and what stands behind it.
fn held_parts(connectors: &[Name16], word: &[u8]) -> Option<(Resource, (bool, Adjunct))>
    requires { length connectors.now ≤ CONNECTORS }
    ensures { result ≡ (joined 58 a_resource (joined 58 a_state
        (text ADJUNCT_BYTES))).value word.now }
{
    let (front, behind) = cut(word, b':')?;
    let r = Resource::read(connectors, front)?;
    let end = held_end(connectors, behind)?;
    Some((r, end))
}

impl OneWord for (Resource, bool, Adjunct) {
    ghost one = { λ connectors. a_held };

    fn read(connectors: &[Name16], word: &[u8]) -> Option<(Resource, bool, Adjunct)> {
        let (r, (excl, rec)) = held_parts(connectors, word)?;
        Some((r, excl, rec))
    }
}

impl OneWord for Key16 {
    ghost one = { λ connectors. a_key };

    fn read(_: &[Name16], word: &[u8]) -> Option<Key16> {
        key(Rigour::Names, word)
    }
}

impl OneWord for CfId {
    ghost one = { λ connectors. a_facility };

    fn read(_: &[Name16], word: &[u8]) -> Option<CfId> {
        facility_number(word)
    }
}

impl OneWord for ConnId {
    ghost one = { λ connectors. a_connector connectors };

    fn read(connectors: &[Name16], word: &[u8]) -> Option<ConnId> {
        connector_number(connectors, word)
    }
}

impl OneWord for Option<ConnId> {
    ghost one = { λ connectors. a_holder connectors };

    fn read(connectors: &[Name16], word: &[u8]) -> Option<Option<ConnId>> {
        if is(word, b"NONE") {
            return Some(None);
        }
        match ConnId::read(connectors, word) {
            Some(conn) => Some(Some(conn)),
            None => None,
        }
    }
}

impl OneWord for (u32, Name16) {
    ghost one = { λ connectors. an_index };

    fn read(_: &[Name16], word: &[u8]) -> Option<(u32, Name16)> {
        let (front, behind) = cut(word, b':')?;
        let index = number(Rigour::Names, front, 0, u32::MAX)?;
        let name = name(Rigour::Names, behind)?;
        Some((index, name))
    }
}

impl OneWord for (u32, u32) {
    ghost one = { λ connectors. a_count };

    fn read(_: &[Name16], word: &[u8]) -> Option<(u32, u32)> {
        let (front, behind) = cut(word, b':')?;
        let class = number(Rigour::Names, front, 0, u32::MAX)?;
        let count = number(Rigour::Names, behind, 0, u32::MAX)?;
        Some((class, count))
    }
}

/// Whether an entry is changed.
pub fn change(word: &[u8]) -> Option<bool>
    ensures { result ≡ a_change.value word.now }
{
    if is(word, b"CHANGED") {
        return Some(true);
    }
    if is(word, b"UNCHANGED") {
        return Some(false);
    }
    None
}

/// Whether a capacity that is altered has reached its target.
pub fn progress(word: &[u8]) -> Option<bool>
    ensures { result ≡ a_progress.value word.now }
{
    if is(word, b"DONE") {
        return Some(true);
    }
    if is(word, b"MORE") {
        return Some(false);
    }
    None
}

impl OneWord for EntryId {
    ghost one = { λ connectors. an_id };

    fn read(_: &[Name16], word: &[u8]) -> Option<EntryId> {
        match word {
            [] => None,
            [first, digits @ ..] => {
                if *first != b'#' {
                    return None;
                }
                let id = wide_number(digits)?;
                Some(EntryId(id))
            }
        }
    }
}

impl OneWord for u8 {
    ghost one = { λ connectors. byte };

    fn read(_: &[Name16], word: &[u8]) -> Option<u8> {
        let n = number(Rigour::Names, word, 0, 255)?;
        if n <= 255 { Some(n as u8) } else { None }
    }
}

impl OneWord for bool {
    ghost one = { λ connectors. a_state };

    fn read(_: &[Name16], word: &[u8]) -> Option<bool> {
        state(word)
    }
}

impl OneWord for Refs {
    ghost one = { λ connectors. a_reference };

    fn read(_: &[Name16], word: &[u8]) -> Option<Refs> {
        if is(word, b"NAMES") {
            return Some(Refs::Names);
        }
        if is(word, b"KEYS") {
            return Some(Refs::Keys);
        }
        if is(word, b"NOTHING") {
            return Some(Refs::Nothing);
        }
        None
    }
}

impl OneWord for StateWord {
    ghost one = { λ connectors. connection };

    fn read(_: &[Name16], word: &[u8]) -> Option<StateWord> {
        if is(word, b"ACTIVE") {
            return Some(StateWord::Active);
        }
        if is(word, b"LEAVING") {
            return Some(StateWord::Leaving);
        }
        if is(word, b"GONE") {
            return Some(StateWord::Gone);
        }
        None
    }
}

impl OneWord for Stage {
    ghost one = { λ connectors. a_stage };

    fn read(_: &[Name16], word: &[u8]) -> Option<Stage> {
        if is(word, b"QUIESCE") {
            return Some(Stage::Quiesce);
        }
        if is(word, b"CONNECT") {
            return Some(Stage::Connect);
        }
        if is(word, b"COPY") {
            return Some(Stage::Copy);
        }
        if is(word, b"CLEANUP") {
            return Some(Stage::Cleanup);
        }
        if is(word, b"STOPPING") {
            return Some(Stage::Stopping);
        }
        None
    }
}
