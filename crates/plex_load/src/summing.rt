//! What is told of a load.

ghost use Rattle.std.specs.Prelude.{◌≡◌, ◌<◌, ◌++◌, IfOk, OnOk};
ghost use Rattle.std.specs.List.{flat_map};
ghost use Rattle.plex_script.specs.PlexSpell.Words.{line_text};
ghost use Rattle.plex_load.specs.Summary.{count_line, calls_line, calls_lines, summary};

use crate::counts::{calls_by, entries, refused, tests};
use crate::policy::{CALLERS, letter};
use plex_script::plain::{put_number, put_text, put_word};
use plex_script::types::{ConnId, NoMemory};
use plex_script::{AnyHistory, Transcript};
use std::alloc::Global;

// Puts a line of a word and a number to a text.
fn put_count(text: &mut Vec<u8>, word: &[u8], number: u64) -> Result<(), NoMemory>
    ensures { OnOk result (text.new.items ≡ text.old.items
        ++ line_text (count_line word.now number)) }
{
    put_text(text, word)?;
    put_number(text, number)?;
    put_text(text, b"\n")
}

// Puts the line of a connector, from 0, to a text.
fn put_calls(text: &mut Vec<u8>, histories: &[AnyHistory], caller: u8) -> Result<(), NoMemory>
    requires { caller < 4 }
    ensures { OnOk result (text.new.items ≡ text.old.items
        ++ line_text (calls_line histories.now caller)) }
{
    let calls = calls_by(histories, ConnId(caller + 1))?;
    put_text(text, b"CALLS")?;
    put_word(text, &[letter(caller)])?;
    put_number(text, calls as u64)?;
    put_text(text, b"\n")
}

// Puts the lines of all connectors to a text.
#[tactic(auto, using(crate::proofs::NumberLaws::calls_none))]
fn put_callers(text: &mut Vec<u8>, histories: &[AnyHistory]) -> Result<(), NoMemory>
    ensures { OnOk result (text.new.items ≡ text.old.items
        ++ flat_map line_text (calls_lines histories.now 4)) }
{
    for caller in 0..CALLERS {
        put_calls(text, histories, caller)?;
    }
    Ok(())
}

/// What is told of the run of the load of `n`, line by line: `LOAD` and `n`; for each connector
/// `CALLS`, its letter, and how many calls it made, its departures among them; `TESTS` and how many
/// tests of bits the transcripts show; `ENTRIES` and how many entries the histories have; `REFUSED`
/// and how many of them tell a refusal; and `END`.
///
/// # Errors
///
/// `NoMemory` where there is no memory for the text, or a count is past what memory could hold.
pub fn summary(
    alloc: Global,
    n: u32,
    histories: &[AnyHistory],
    transcripts: &[Transcript],
) -> Result<Vec<u8>, NoMemory>
    ensures { IfOk result (λ text. text.items ≡ summary n histories.now transcripts.now) }
{
    let mut text = Vec::new(alloc);
    put_count(&mut text, b"LOAD", u64::from(n))?;
    put_callers(&mut text, histories)?;
    put_count(&mut text, b"TESTS", tests(transcripts)? as u64)?;
    put_count(&mut text, b"ENTRIES", entries(histories)? as u64)?;
    put_count(&mut text, b"REFUSED", refused(histories)? as u64)?;
    put_text(&mut text, b"END\n")?;
    Ok(text)
}
