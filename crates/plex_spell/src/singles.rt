ghost use Rattle.std.specs.Prelude.{◌≡◌, ◌==◌, ◌≤◌, ◌<◌, ◌∷◌, true, length, position, Some, None, List, ℕ, Option, ◌*◌, nat_le};
ghost use Rattle.std.specs.List.{list_any, repeat};
ghost use Rattle.cf_types.specs.declared.limits.TheConstants.{ADJUNCT_BYTES, BODY_BYTES, CONNECTORS, STRUCTURES};
ghost use Rattle.cf_types.specs.Term.{IsTerm};
ghost use Rattle.plex_spell.specs.Words.{same_word};
ghost use Rattle.plex_spell.specs.Tokens.{is_term, name_word, facility_of, is_declared, connector_of, structure_of};
ghost use Rattle.plex_spell.specs.Places.{Reads, names_of, name_of, key_of, text_of, data_of, repeated_of, resource_of, resource_in, record_of, new_name_of, facility_in, connector_in, structure_in};
ghost use Rattle.cf_types.specs.declared.names.Name16.{Name16};

use crate::judge::Judge;
use crate::misses::Miss;
use crate::numerals::number;
use crate::rigour::Rigour;
use crate::texts::{cut, is_name, is_term, name_text, text};
use crate::words::is;
use cf_types::limits::{ADJUNCT_BYTES, BODY_BYTES, NAME_BYTES};
use cf_types::{
    Adjunct, Body, BodyFault, CfId, ConnId, EntryId, Key16, Name16, Pref, Resource, StrForm, StrNo,
    parse_adjunct, parse_body, parse_key, parse_name,
};
use std::alloc::Global;

/// Reads the name of an entry or a record.
pub fn name(rigour: Rigour, word: &[u8]) -> Option<Name16>
    ensures { result ≡ name_of rigour word.now }
{
    let text = text(rigour, word, NAME_BYTES)?;
    parse_name(text).ok()
}

/// Reads a list key.
pub fn key(rigour: Rigour, word: &[u8]) -> Option<Key16>
    ensures { result ≡ key_of rigour word.now }
{
    let text = text(rigour, word, NAME_BYTES)?;
    parse_key(text).ok()
}

/// Reads an adjunct, or record data.
pub fn short(rigour: Rigour, word: &[u8]) -> Option<Adjunct>
    ensures { result ≡ text_of rigour ADJUNCT_BYTES word.now }
{
    let text = text(rigour, word, ADJUNCT_BYTES)?;
    parse_adjunct(text).ok()
}

// Data of these bytes.
pub fn body(alloc: Global, text: &[u8]) -> Result<Body, Miss>
    requires { IsTerm BODY_BYTES text.now }
    ensures { Reads result (Some text.now) }
{
    match parse_body(alloc, text) {
        Ok(body) => Ok(body),
        Err(BodyFault::NoMemory(cause)) => Err(Miss::NoMemory(cause)),
        Err(BodyFault::BadName { .. }) => Err(Miss::NoForm),
        Err(BodyFault::TooLong { .. }) => Err(Miss::NoForm),
    }
}

// Data that stand there as they are.
fn plain_data(alloc: Global, rigour: Rigour, word: &[u8]) -> Result<Body, Miss>
    ensures { Reads result (text_of rigour BODY_BYTES word.now) }
{
    let text = text(rigour, word, BODY_BYTES).ok_or(Miss::NoForm)?;
    body(alloc, text)
}

// A text of term characters so many times, as long as data may be.
#[tactic(auto, using(crate::proofs::TextLaws::copies_told))]
fn copies(alloc: Global, piece: &[u8], count: u32) -> Result<Body, Miss>
    requires term { is_term piece.now ≡ true }
    requires some { 0 < count }
    requires short { count * length piece.now ≤ BODY_BYTES }
    ensures { Reads result (Some (repeat count piece.now)) }
{
    let text = piece.repeat(alloc, count as usize)?;
    body(alloc, text.as_slice())
}

// Whether so many copies are as long as data may be.
fn fits(piece: &[u8], count: u32) -> bool
    requires some { 0 < count }
    requires few { count ≤ BODY_BYTES }
    ensures { result ≡ nat_le (count * length piece.now) BODY_BYTES }
{
    piece.len() <= BODY_BYTES && count as usize * piece.len() <= BODY_BYTES
}

// Data that stand there as a text and how many times it counts.
fn repeated_data(alloc: Global, rigour: Rigour, piece: &[u8], times: &[u8]) -> Result<Body, Miss>
    ensures { Reads result (repeated_of rigour piece.now times.now) }
{
    if !is_term(piece) {
        return Err(Miss::NoForm);
    }
    let count = number(rigour, times, 1, BODY_BYTES as u32).ok_or(Miss::NoForm)?;
    if fits(piece, count) {
        return copies(alloc, piece, count);
    }
    if rigour == Rigour::Form {
        body(alloc, &piece[..1])
    } else {
        Err(Miss::NoForm)
    }
}

/// Reads data: as they are, or `w*n`, which is w so many times.
pub(crate) fn data(alloc: Global, rigour: Rigour, word: &[u8]) -> Result<Body, Miss>
    ensures { Reads result (data_of rigour word.now) }
{
    match cut(word, b'*') {
        Some((piece, times)) => repeated_data(alloc, rigour, piece, times),
        None => plain_data(alloc, rigour, word),
    }
}

// A resource of this name and this hash value.
fn resource_from(rigour: Rigour, name_part: &[u8], hash_part: &[u8]) -> Option<Resource>
    ensures { result ≡ resource_in rigour name_part.now hash_part.now }
{
    let name = name(rigour, name_part)?;
    let hash = number(rigour, hash_part, 0, u32::MAX)?;
    Some(Resource { name, hash })
}

/// Reads a resource: its name, `@` and its hash value.
pub(crate) fn resource(rigour: Rigour, word: &[u8]) -> Option<Resource>
    ensures { result ≡ resource_of rigour word.now }
{
    match cut(word, b'@') {
        Some((name_part, hash_part)) => resource_from(rigour, name_part, hash_part),
        None => None,
    }
}

/// Reads a list record's id: `#` and its number.
pub(crate) fn record_id(rigour: Rigour, word: &[u8]) -> Option<EntryId>
    ensures { result ≡ record_of rigour word.now }
{
    match word {
        [] => None,
        [first, digits @ ..] => {
            if *first != b'#' {
                return None;
            }
            let id = number(rigour, digits, 1, u32::MAX)?;
            Some(EntryId(u64::from(id)))
        }
    }
}

/// Reads a name of a structure or a connector.
pub(crate) fn new_name(rigour: Rigour, word: &[u8]) -> Option<Name16>
    ensures { result ≡ new_name_of rigour word.now }
{
    if is_name(word) {
        name(rigour, word)
    } else {
        None
    }
}

/// Reads the number of a facility.
pub fn facility_number(word: &[u8]) -> Option<CfId>
    ensures { result ≡ facility_of word.now }
{
    if is(word, b"CF1") {
        return Some(CfId(1));
    }
    if is(word, b"CF2") {
        return Some(CfId(2));
    }
    if is(word, b"CF3") {
        return Some(CfId(3));
    }
    if is(word, b"CF4") {
        return Some(CfId(4));
    }
    None
}

/// Whether one of these is about the facility.
pub fn is_about(prefs: &[Pref], cf: CfId) -> bool
    ensures { result ≡ is_declared prefs.now cf }
{
    prefs.iter().any(|pref| pref.cf.0 == cf.0)
}

/// Reads a facility.
pub(crate) fn facility(judge: &Judge, word: &[u8]) -> Option<CfId>
    ensures { result ≡ facility_in judge.now.rigour (names_of judge.now) word.now }
{
    let cf = facility_number(word)?;
    if judge.rigour == Rigour::Names && !is_about(judge.facilities, cf) {
        None
    } else {
        Some(cf)
    }
}

fn connector_place(connectors: &[Name16], word: &[u8]) -> Option<usize>
    ensures { result ≡ position (λ name. same_word (name_word name) word.now) connectors.now }
{
    connectors.iter().position(|name| is(name_text(name), word))
}

/// The number of the connector that a word names.
pub fn connector_number(connectors: &[Name16], word: &[u8]) -> Option<ConnId>
    requires { length connectors.now ≤ CONNECTORS }
    ensures { result ≡ connector_of connectors.now word.now }
{
    let place = connector_place(connectors, word)?;
    Some(ConnId(place as u8 + 1))
}

/// Reads a connector.
pub(crate) fn connector(judge: &Judge, word: &[u8]) -> Option<ConnId>
    ensures { result ≡ connector_in judge.now.rigour (names_of judge.now) word.now }
{
    new_name(judge.rigour, word)?;
    match connector_number(judge.connectors, word) {
        Some(conn) => Some(conn),
        None if judge.rigour == Rigour::Names => None,
        None => Some(ConnId(0)),
    }
}

fn structure_place(structures: &[StrForm], word: &[u8]) -> Option<usize>
    ensures { result ≡ position (λ form. same_word (name_word form.name) word.now) structures.now }
{
    structures
        .iter()
        .position(|form| is(name_text(&form.name), word))
}

/// The number of the structure that a word names.
pub fn structure_number(structures: &[StrForm], word: &[u8]) -> Option<StrNo>
    requires { length structures.now ≤ STRUCTURES }
    ensures { result ≡ structure_of structures.now word.now }
{
    let place = structure_place(structures, word)?;
    Some(StrNo(place as u8))
}

/// Reads a structure.
pub(crate) fn structure(judge: &Judge, word: &[u8]) -> Option<StrNo>
    ensures { result ≡ structure_in judge.now.rigour (names_of judge.now) word.now }
{
    new_name(judge.rigour, word)?;
    match structure_number(judge.structures, word) {
        Some(on) => Some(on),
        None if judge.rigour == Rigour::Names => None,
        None => Some(StrNo(0)),
    }
}
