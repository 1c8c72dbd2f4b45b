//! One call, as an entry of a history has it: what stands behind who and structure of a line.

ghost use Rattle.std.specs.Prelude.{◌≡◌, ◌<◌, ◌≤◌, IfOk, IfErr, IsTrue, if◌then◌else◌, length, nat_lt, not, ◌-◌, ◌+◌, None, Some};
ghost use Rattle.plex_plain.specs.Naming.{caller_name, structure_name};
ghost use Rattle.plex_plain.specs.PlexSpell.Words.{words_of};
ghost use Rattle.plex_script.specs.Causes.{declared_in, is_long};
ghost use Rattle.plex_script.specs.Commands.{call_alone, call_in, called_line, command_at, space_behind, MakesCommand};
ghost use Rattle.plex_plain.specs.PlexSpell.Places.{names_of, Reads};
ghost use Rattle.plex_plain.specs.PlexSpell.declared.rigour.Rigour.TheVariants.{Names};
ghost use Rattle.plex_script.specs.LineReading.{act_at};
ghost use Rattle.plex_script.specs.WellFormed.{IsWellFormed};
ghost use Rattle.plex_script.specs.declared.command_reader.CommandBad.TheVariants.{NotOne};

use crate::act_reader::{act, is_operator};
use crate::agents::common;
use crate::checks::kind_of;
use crate::scripts::{Act, AnyAsk, Script};
use cf_types::limits::LINE_BYTES;
use cf_types::{ConnId, Kind, Name16, NoMemory, ShellCmd, StrForm, StrNo};
use plex_plain::spell::{Judge, Miss, Rigour, Words, is, name_text};
use std::alloc::Global;

/// Why a text is no call.
#[derive(Debug, Drop)]
pub enum CommandBad {
    /// Behind who and structure it makes no line that calls the structure once.
    NotOne,
    /// There was no memory for what it says.
    NoMemory(NoMemory),
}

// How much of a line is left behind a word and a blank.
fn space_behind(space: usize, word: &[u8]) -> Option<usize>
    ensures { result ≡ space_behind space word.now }
{
    if word.len() < space {
        Some(space - word.len() - 1)
    } else {
        None
    }
}

fn caller_text(connectors: &[Name16], by: ConnId) -> &[u8]
    requires { by.0 ≤ length connectors.now }
    ensures { result.now ≡ caller_name connectors.now by.0 }
{
    if by.0 == 0 {
        return b"OP";
    }
    name_text(&connectors[by.0 as usize - 1])
}

fn structure_text(structures: &[StrForm], on: StrNo) -> &[u8]
    requires { on.0 < length structures.now }
    ensures { result.now ≡ structure_name structures.now on.0 }
{
    name_text(&structures[on.0 as usize].name)
}

// Whether the text makes a line behind who and structure that isn't too long.
fn fits_a_line(script: &Script, on: StrNo, by: ConnId, text: &[u8]) -> bool
    requires known { on.0 < length script.now.structures }
    requires caller { by.0 ≤ length script.now.connectors }
    ensures { result ≡ not (is_long (called_line script.now on by text.now)) }
{
    let who = caller_text(script.connectors.items(), by);
    let Some(space) = space_behind(LINE_BYTES, who) else {
        return false;
    };
    match space_behind(space, structure_text(script.structures.items(), on)) {
        None => false,
        Some(space) => text.len() <= space,
    }
}

// What the words do at a structure of this kind.
fn act_of(
    alloc: Global,
    script: &Script,
    by: ConnId,
    kind: Kind,
    text: &[u8],
) -> Result<(Act, u32), Miss>
    requires { IsWellFormed script.now }
    ensures { Reads result (act_at Names (declared_in script.now) by kind (words_of text.now)) }
{
    let judge = Judge {
        rigour: Rigour::Names,
        facilities: script.facilities.items(),
        structures: script.structures.items(),
        connectors: script.connectors.items(),
    };
    act(alloc, &judge, by, kind, Words::of(text))
}

// The call, if it is one that isn't asked again.
fn call_alone(told: (Act, u32)) -> Option<AnyAsk>
    ensures { result ≡ call_alone told }
{
    let (act, retry) = told;
    match act {
        Act::Call(asked) if retry == 0 => Some(asked),
        _ => None,
    }
}

// The call that the words make, if they make one.
fn call_in(
    alloc: Global,
    script: &Script,
    by: ConnId,
    kind: Kind,
    text: &[u8],
) -> Result<Option<AnyAsk>, NoMemory>
    requires { IsWellFormed script.now }
    ensures { IfOk result (λ call. call ≡ call_in
        (act_at Names (declared_in script.now) by kind (words_of text.now))) }
{
    match act_of(alloc, script, by, kind, text) {
        Ok(told) => Ok(call_alone(told)),
        Err(Miss::NoForm) => Ok(None),
        Err(Miss::NoMemory(cause)) => Err(cause),
    }
}

// The call that the text makes, if it makes one.
fn command_in(
    alloc: Global,
    script: &Script,
    on: StrNo,
    by: ConnId,
    text: &[u8],
) -> Result<Option<AnyAsk>, NoMemory>
    requires formed { IsWellFormed script.now }
    requires known { on.0 < length script.now.structures }
    requires caller { by.0 ≤ length script.now.connectors }
    ensures { IfOk result (λ call. call ≡ command_at script.now on by text.now) }
{
    let kind = kind_of(script.structures.items(), on);
    if is_operator(by) && is(text, b"NEXT") {
        return Ok(Some(common(kind, ShellCmd::Next)));
    }
    if fits_a_line(script, on, by, text) {
        return call_in(alloc, script, by, kind, text);
    }
    Ok(None)
}

/// The call that a caller of the script makes at one of its structures by this text, which stands
/// behind who and structure of a line, without RETRY. The operator's answer to a stage, which no
/// line says, is `NEXT`.
///
/// # Errors
///
/// `NotOne` exactly where the text makes no such call; `NoMemory` where there was no memory for
/// what it says. The script stays as it is.
pub fn read_command(
    alloc: Global,
    script: &Script,
    on: StrNo,
    by: ConnId,
    text: &[u8],
) -> Result<AnyAsk, CommandBad>
    requires formed { IsWellFormed script.now }
    requires known { on.0 < length script.now.structures }
    requires caller { by.0 ≤ length script.now.connectors }
    ensures made { IfOk result (MakesCommand script.now on by text.now) }
    ensures not_one { IfErr result (λ bad. bad ≡ NotOne
        → (asked : AnyAsk) → MakesCommand script.now on by text.now asked → ⊥) }
{
    match command_in(alloc, script, on, by, text) {
        Ok(Some(asked)) => Ok(asked),
        Ok(None) => Err(CommandBad::NotOne),
        Err(cause) => Err(CommandBad::NoMemory(cause)),
    }
}
