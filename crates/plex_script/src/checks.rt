ghost use Rattle.std.specs.Prelude.{◌≡◌, length, nat_lt, Some, None, if◌then◌else◌, nat_le, ◌-◌};
ghost use Rattle.std.specs.List.{list_any};
ghost use Rattle.plex_plain.specs.PlexSpell.Words.{same_word};
ghost use Rattle.plex_plain.specs.PlexSpell.Tokens.{name_word};
ghost use Rattle.plex_script.specs.Causes.{is_full, has_pref, is_twice, facility_units, units_of, all_prefs, is_too_much, kind_of, is_comment, is_policy_word, caller_of, is_long, is_long_name};
ghost use Rattle.plex_script.specs.Reading.{script_of, remainder};

use crate::declarations::Declaration;
use crate::draft::Draft;
use cf_types::limits::{CONNECTORS, LINE_BYTES, NAME_BYTES, STRUCTURES};
use cf_types::{CfId, ConnId, Kind, Name16, Pref, StrForm, StrNo};
use plex_plain::spell::{connector_number, is, is_about, name_text};

/// Whether a line is too long.
pub(crate) fn is_long(line: &[u8]) -> bool
    ensures { result ≡ is_long line.now }
{
    line.len() > LINE_BYTES
}

/// Whether a word is too long for a name.
pub(crate) fn is_long_name(word: &[u8]) -> bool
    ensures { result ≡ is_long_name word.now }
{
    word.len() > NAME_BYTES
}

/// Whether the first word of a line makes it a comment.
pub(crate) fn is_comment(word: &[u8]) -> bool
    ensures { result ≡ is_comment word.now }
{
    match word {
        [] => false,
        [first, ..] => *first == b'*',
    }
}

/// Whether the first word of a line makes it one of the policy.
pub(crate) fn is_policy_word(word: &[u8]) -> bool
    ensures { result ≡ is_policy_word word.now }
{
    is(word, b"FACILITY") || is(word, b"STRUCTURE") || is(word, b"PREF") || is(word, b"CONNECTOR")
}

/// Who is meant by the first word of a line: the operator, or a connector.
pub(crate) fn caller(draft: &Draft, word: &[u8]) -> Option<ConnId>
    ensures { result ≡ caller_of draft.now.connectors.items word.now }
{
    if is(word, b"OP") {
        return Some(ConnId(0));
    }
    connector_number(draft.connectors.as_slice(), word)
}

/// The kind of a structure.
pub(crate) fn kind_of(structures: &[StrForm], on: StrNo) -> Kind
    ensures { result ≡ kind_of structures.now on }
{
    match structures.get(on.0 as usize) {
        Some(form) => form.kind,
        None => Kind::Cache,
    }
}

/// Whether there are as many structures, or connectors, as there may be.
pub(crate) fn is_full(draft: &Draft, word: &[u8]) -> bool
    ensures { result ≡ is_full (script_of draft.now) word.now }
{
    (is(word, b"STRUCTURE") && draft.structures.len() >= STRUCTURES as usize)
        || (is(word, b"CONNECTOR") && draft.connectors.len() >= CONNECTORS as usize)
}

fn is_structure(structures: &[StrForm], name: &Name16) -> bool
    ensures { result ≡ list_any (λ other. same_word (name_word other.name)
        (name_word name.now)) structures.now }
{
    structures
        .iter()
        .any(|other| is(name_text(&other.name), name_text(name)))
}

fn is_connector(connectors: &[Name16], name: &Name16) -> bool
    ensures { result ≡ list_any (λ other. same_word (name_word other)
        (name_word name.now)) connectors.now }
{
    connectors
        .iter()
        .any(|other| is(name_text(other), name_text(name)))
}

fn has_pref(structures: &[StrForm], on: StrNo, cf: CfId) -> bool
    ensures { result ≡ has_pref structures.now on cf }
{
    match structures.get(on.0 as usize) {
        Some(form) => is_about(form.prefs.items(), cf),
        None => false,
    }
}

/// Whether it is declared already.
pub(crate) fn is_twice(draft: &Draft, declaration: &Declaration) -> bool
    ensures { result ≡ is_twice (script_of draft.now) declaration.now }
{
    match declaration {
        Declaration::Facility(pref) => is_about(draft.facilities.as_slice(), pref.cf),
        Declaration::Structure(form) => is_structure(draft.structures.as_slice(), &form.name),
        Declaration::Pref { on, pref } => has_pref(draft.structures.as_slice(), *on, pref.cf),
        Declaration::Connector(name) => is_connector(draft.connectors.as_slice(), name),
    }
}

// The units that a facility has.
fn facility_units(facilities: &[Pref], cf: CfId) -> u32
    ensures { result ≡ facility_units facilities.now cf }
{
    for facility in facilities {
        if facility.cf.0 == cf.0 {
            return facility.units;
        }
    }
    0
}

// What is left of the units of a facility where these are set aside.
fn less(units: u32, prefs: &[Pref], cf: CfId) -> Option<u32>
    ensures { result ≡ remainder units (units_of prefs.now cf) }
{
    let mut left = units;
    for pref in prefs {
        if pref.cf.0 == cf.0 {
            left = left.checked_sub(pref.units)?;
        }
    }
    Some(left)
}

// What is left of the units of a facility where those of all structures are set aside.
fn less_all(units: u32, structures: &[StrForm], cf: CfId) -> Option<u32>
    ensures { result ≡ remainder units (units_of (all_prefs structures.now) cf) }
{
    let mut left = units;
    for form in structures {
        left = less(left, form.prefs.items(), cf)?;
    }
    Some(left)
}

/// Whether more units of a facility would be set aside than it has.
pub(crate) fn is_too_much(draft: &Draft, declaration: &Declaration) -> bool
    ensures { result ≡ is_too_much (script_of draft.now) declaration.now }
{
    match declaration {
        Declaration::Facility(_) => false,
        Declaration::Structure(_) => false,
        Declaration::Pref { on: _, pref } => {
            let units = facility_units(draft.facilities.as_slice(), pref.cf);
            match less_all(units, draft.structures.as_slice(), pref.cf) {
                Some(left) => left < pref.units,
                None => true,
            }
        }
        Declaration::Connector(_) => false,
    }
}
