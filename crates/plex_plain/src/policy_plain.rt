//! The lines of a policy, without their line feeds.

ghost use Rattle.std.specs.Prelude.{◌≡◌, ◌∷◌, ◌++◌, [], OnOk};
ghost use Rattle.std.specs.Fmt.{decimal};
ghost use Rattle.plex_spell.specs.FormWords.{form_tokens};
ghost use Rattle.plex_spell.specs.Words.{tail_of};
ghost use Rattle.plex_plain.specs.PlainWords.{plain_words, keep_word};
ghost use Rattle.plex_plain.specs.PolicyLines.{facility_line, form_line, pref_line, connector_line};

use crate::line_text::{
    keep_text, put_facility, put_name, put_number, put_numbers, put_text, put_word, refs_text,
};
use cf_types::{Kind, Name16, NoMemory, Pref, StrForm};

/// Puts the line that declares a facility behind a text.
pub fn put_facility_line(text: &mut Vec<u8>, facility: &Pref) -> Result<(), NoMemory>
    ensures { OnOk result (text.new.items ≡ text.old.items ++ facility_line facility.now) }
{
    put_text(text, b"FACILITY")?;
    put_facility(text, facility.cf)?;
    put_number(text, u64::from(facility.units))
}

// The kind of a structure, its capacity and how many connections it admits.
fn put_caps(line: &mut Vec<u8>, kind: &[u8], form: &StrForm) -> Result<(), NoMemory>
    ensures { OnOk result (line.new.items ≡ line.old.items
        ++ tail_of (kind.now ∷ decimal form.now.caps.entries ∷ decimal form.now.caps.elements
        ∷ decimal form.now.conns ∷ [])) }
{
    put_word(line, kind)?;
    put_numbers(line, form.caps.entries, form.caps.elements)?;
    put_number(line, u64::from(form.conns))
}

// The length of the vectors of a structure, and whether it stays.
fn put_vector(line: &mut Vec<u8>, form: &StrForm) -> Result<(), NoMemory>
    ensures { OnOk result (line.new.items ≡ line.old.items
        ++ tail_of (decimal form.now.vector ∷ keep_word form.now.keep ∷ [])) }
{
    put_number(line, u64::from(form.vector))?;
    put_word(line, keep_text(form.keep))
}

#[tactic(auto, using(crate::proofs::CommandLaws::words_cache_form, crate::proofs::CommandLaws::words_list_form, crate::proofs::CommandLaws::words_lock_form))]
fn put_form(line: &mut Vec<u8>, form: &StrForm) -> Result<(), NoMemory>
    ensures { OnOk result (line.new.items ≡ line.old.items
        ++ tail_of (plain_words [] [] (form_tokens form.now.kind form.now))) }
{
    match form.kind {
        Kind::Cache => {
            put_caps(line, b"CACHE", form)?;
            put_vector(line, form)
        }
        Kind::List {
            headers,
            locks,
            refs,
        } => {
            put_caps(line, b"LIST", form)?;
            put_vector(line, form)?;
            put_numbers(line, headers, locks)?;
            put_word(line, refs_text(refs))
        }
        Kind::Lock => {
            put_caps(line, b"LOCK", form)?;
            put_word(line, keep_text(form.keep))
        }
    }
}

/// Puts the line that declares a structure behind a text.
pub fn put_form_line(text: &mut Vec<u8>, form: &StrForm) -> Result<(), NoMemory>
    ensures { OnOk result (text.new.items ≡ text.old.items ++ form_line form.now) }
{
    put_text(text, b"STRUCTURE")?;
    put_name(text, &form.name)?;
    put_form(text, form)
}

/// Puts the line that sets units of a facility aside for a structure behind a text.
pub fn put_pref_line(text: &mut Vec<u8>, form: &StrForm, pref: &Pref) -> Result<(), NoMemory>
    ensures { OnOk result (text.new.items ≡ text.old.items ++ pref_line form.now pref.now) }
{
    put_text(text, b"PREF")?;
    put_name(text, &form.name)?;
    put_facility(text, pref.cf)?;
    put_number(text, u64::from(pref.units))
}

/// Puts the line that declares a connector behind a text.
pub fn put_connector_line(text: &mut Vec<u8>, name: &Name16) -> Result<(), NoMemory>
    ensures { OnOk result (text.new.items ≡ text.old.items ++ connector_line name.now) }
{
    put_text(text, b"CONNECTOR")?;
    put_name(text, name)
}
