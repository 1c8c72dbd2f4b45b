//! The text of a script.

ghost use Rattle.std.specs.Prelude.{◌≡◌, ◌∷◌, ◌++◌, [], IfOk, OnOk, map};
ghost use Rattle.std.specs.List.{flat_map};
ghost use Rattle.plex_plain.specs.PlexSpell.Words.{tail_of, line_text};
ghost use Rattle.plex_plain.specs.Naming.{caller_name, structure_name};
ghost use Rattle.plex_plain.specs.PlainWords.{plain_words};
ghost use Rattle.plex_plain.specs.PolicyLines.{facility_line, pref_line, structure_lines, connector_line};
ghost use Rattle.plex_script.specs.LineWords.{act_tokens, ask_tokens, retry_tokens};
ghost use Rattle.plex_script.specs.Limits.{KeepsLimits};
ghost use Rattle.plex_script.specs.Printed.{class_in, body_line, policy_lines, script_text, with_line_numbers};
ghost use Rattle.plex_script.specs.Scripts.{IsScript};
ghost use Rattle.plex_script.specs.declared.scripts.Act.TheVariants as act;

use crate::scripts::{Act, AnyAsk, Line, Script};
use cf_types::{Name16, NoMemory, Pref, StrForm};
use engine_api::Ask;
use plex_plain::{
    put_alter, put_caller_name, put_connector_line, put_facility_line, put_form_line, put_lock,
    put_of, put_pref_line, put_queue, put_shell, put_structure_name, put_word,
};
use std::alloc::Global;

// Puts the lines that declare facilities to a text.
fn put_facilities(text: &mut Vec<u8>, facilities: &[Pref]) -> Result<(), NoMemory>
    ensures { OnOk result (text.new.items ≡ text.old.items
        ++ flat_map line_text (map facility_line facilities.now)) }
{
    for facility in facilities {
        put_facility_line(text, facility)?;
        text.push(b'\n')?;
    }
    Ok(())
}

// Puts the lines that set units of facilities aside for a structure to a text.
fn put_prefs(text: &mut Vec<u8>, form: &StrForm, prefs: &[Pref]) -> Result<(), NoMemory>
    ensures { OnOk result (text.new.items ≡ text.old.items
        ++ flat_map line_text (map (pref_line form.now) prefs.now)) }
{
    for pref in prefs {
        put_pref_line(text, form, pref)?;
        text.push(b'\n')?;
    }
    Ok(())
}

// Puts the lines of a structure to a text.
fn put_structure(text: &mut Vec<u8>, form: &StrForm) -> Result<(), NoMemory>
    ensures { OnOk result (text.new.items ≡ text.old.items
        ++ flat_map line_text (structure_lines form.now)) }
{
    put_form_line(text, form)?;
    text.push(b'\n')?;
    put_prefs(text, form, form.prefs.items())
}

// Puts the lines of structures to a text.
fn put_structures(text: &mut Vec<u8>, structures: &[StrForm]) -> Result<(), NoMemory>
    ensures { OnOk result (text.new.items ≡ text.old.items
        ++ flat_map line_text (flat_map structure_lines structures.now)) }
{
    for form in structures {
        put_structure(text, form)?;
    }
    Ok(())
}

// Puts the lines that declare connectors to a text.
fn put_connectors(text: &mut Vec<u8>, connectors: &[Name16]) -> Result<(), NoMemory>
    ensures { OnOk result (text.new.items ≡ text.old.items
        ++ flat_map line_text (map connector_line connectors.now)) }
{
    for name in connectors {
        put_connector_line(text, name)?;
        text.push(b'\n')?;
    }
    Ok(())
}

// Puts the policy to a text.
fn put_policy(text: &mut Vec<u8>, script: &Script) -> Result<(), NoMemory>
    ensures { OnOk result (text.new.items ≡ text.old.items
        ++ flat_map line_text (policy_lines script.now)) }
{
    put_facilities(text, script.facilities.items())?;
    put_structures(text, script.structures.items())?;
    put_connectors(text, script.connectors.items())
}

// Puts the words of a call to a line, with a blank before each.
fn put_ask(line: &mut Vec<u8>, script: &Script, ask: &AnyAsk) -> Result<(), NoMemory>
    ensures { OnOk result (line.new.items ≡ line.old.items
        ++ tail_of (plain_words [] script.now.connectors
        (ask_tokens (class_in (act.Call ask.now)) ask.now))) }
{
    let connectors = script.connectors.items();
    match ask {
        AnyAsk::Cache(Ask::Shell(cmd)) => put_shell(line, connectors, cmd),
        AnyAsk::Cache(Ask::Content(cmd)) => put_alter(line, cmd),
        AnyAsk::List(Ask::Shell(cmd)) => put_shell(line, connectors, cmd),
        AnyAsk::List(Ask::Content(cmd)) => put_queue(line, cmd),
        AnyAsk::Lock(Ask::Shell(cmd)) => put_shell(line, connectors, cmd),
        AnyAsk::Lock(Ask::Content(cmd)) => put_lock(line, connectors, cmd),
    }
}

// Puts the words of what a line does to it, with a blank before each.
fn put_act(line: &mut Vec<u8>, script: &Script, act: &Act) -> Result<(), NoMemory>
    ensures { OnOk result (line.new.items ≡ line.old.items
        ++ tail_of (plain_words [] script.now.connectors (act_tokens (class_in act.now) act.now))) }
{
    match act {
        Act::Call(ask) => put_ask(line, script, ask),
        Act::Test(index) => put_of(line, b"TEST", *index),
        Act::TestWord(word) => put_of(line, b"TESTWORD", *word),
        Act::Post => put_word(line, b"POST"),
        Act::Take => put_word(line, b"TAKE"),
        Act::Events => put_word(line, b"EVENTS"),
    }
}

// Puts RETRY and a number to a line, where the number isn't 0.
fn put_retry(line: &mut Vec<u8>, script: &Script, retry: u32) -> Result<(), NoMemory>
    ensures { OnOk result (line.new.items ≡ line.old.items
        ++ tail_of (plain_words [] script.now.connectors (retry_tokens retry))) }
{
    if retry == 0 {
        return Ok(());
    }
    put_of(line, b"RETRY", retry)
}

// Puts who does something, and at which structure, to a text.
fn put_parties(text: &mut Vec<u8>, script: &Script, line: &Line) -> Result<(), NoMemory>
    ensures { OnOk result (text.new.items ≡ text.old.items
        ++ (caller_name script.now.connectors line.now.by.0
        ++ tail_of (structure_name script.now.structures line.now.on.0 ∷ []))) }
{
    put_caller_name(text, script.connectors.items(), line.by.0 as usize)?;
    put_word(text, b"")?;
    put_structure_name(text, script.structures.items(), line.on.0 as usize)
}

// Puts the line of a caller to a text.
#[tactic(auto, using(std::proofs::lemmas::Result::on_ok_weaker, crate::proofs::Spaced::four_parts, crate::proofs::Spaced::body_words))]
fn put_line(text: &mut Vec<u8>, script: &Script, line: &Line) -> Result<(), NoMemory>
    ensures { OnOk result (text.new.items ≡ text.old.items ++ body_line script.now line.now) }
{
    put_parties(text, script, line)?;
    put_act(text, script, &line.act)?;
    put_retry(text, script, line.retry)
}

// Puts the lines of callers to a text.
fn put_lines(text: &mut Vec<u8>, script: &Script, lines: &[Line]) -> Result<(), NoMemory>
    ensures { OnOk result (text.new.items ≡ text.old.items
        ++ flat_map line_text (map (body_line script.now) lines.now)) }
{
    for line in lines {
        put_line(text, script, line)?;
        text.push(b'\n')?;
    }
    Ok(())
}

/// The text of a script: FACILITY lines, for each structure its STRUCTURE line and its PREF lines,
/// CONNECTOR lines, each in the script's own order, and then the lines of callers. Words stand
/// with one blank between them, data in full, and `STG 1` is left out. Each line ends with a line
/// feed.
///
/// A script that keeps the forms, the ranges and the limits of the language is read again from this
/// text, with its lines numbered as they stand there.
///
/// # Errors
///
/// `NoMemory` where there is no memory for the text.
#[tactic(auto, using(crate::proofs::ReadBack::read_again, crate::proofs::Spaced::text_append))]
pub fn print(alloc: Global, script: &Script) -> Result<Vec<u8>, NoMemory>
    ensures text { IfOk result (λ text. text.items ≡ script_text script.now) }
    ensures again { IfOk result (λ text. KeepsLimits script.now
        → IsScript text.items (with_line_numbers script.now)) }
{
    let mut text = Vec::new(alloc);
    put_policy(&mut text, script)?;
    put_lines(&mut text, script, script.lines.items())?;
    Ok(text)
}
