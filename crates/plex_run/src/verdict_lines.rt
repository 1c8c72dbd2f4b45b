//! The line that tells what a check of a report found.
ghost use Rattle.std.specs.Prelude.{◌≡◌, ◌∷◌, [], ◌++◌, codes, IfOk, OnOk};
ghost use Rattle.std.specs.Fmt.{decimal};
ghost use Rattle.plex_run.specs.Checking.{verdict_line, verdict_of, verdict_of_checked};

use crate::checking::Found;
use check_model::Checked;
use plex_load::scripts::Script;
use plex_load::scripts::plain::{put_caller_name, put_digits, put_structure_name, put_text};
use plex_load::types::{ConnId, NoMemory, StrNo};
use std::alloc::Global;

// Puts a number to a line, and ends it.
fn put_last(line: &mut Vec<u8>, number: u64) -> Result<(), NoMemory>
    ensures { OnOk result (line.new.items ≡ line.old.items ++ decimal number ++ 10 ∷ []) }
{
    put_digits(line, number)?;
    put_text(line, b"\n")
}

// A word and a number.
fn counted(alloc: Global, word: &[u8], number: u64) -> Result<Vec<u8>, NoMemory>
    ensures { IfOk result (λ line. line.items ≡ word.now ++ decimal number ++ 10 ∷ []) }
{
    let mut line = Vec::from_slice(alloc, word)?;
    put_last(&mut line, number)?;
    Ok(line)
}

// The structure with the first history that isn't legal, and where it breaks off.
fn entry_line(alloc: Global, script: &Script, on: StrNo, place: u32) -> Result<Vec<u8>, NoMemory>
    ensures { IfOk result (λ line. line.items ≡ verdict_line
        (verdict_of_checked script.now (Checked.BadEntry on place))) }
{
    let mut line = Vec::from_slice(alloc, b"NO ")?;
    put_structure_name(&mut line, script.structures.items(), on.0 as usize)?;
    put_text(&mut line, b" ")?;
    put_last(&mut line, u64::from(place))?;
    Ok(line)
}

// The first caller whose transcript is wrong, and where.
fn item_line(alloc: Global, script: &Script, by: ConnId, item: u32) -> Result<Vec<u8>, NoMemory>
    ensures { IfOk result (λ line. line.items ≡ verdict_line
        (verdict_of_checked script.now (Checked.BadItem by item))) }
{
    let mut line = Vec::from_slice(alloc, b"NO TRANSCRIPT ")?;
    put_caller_name(&mut line, script.connectors.items(), by.0 as usize)?;
    put_text(&mut line, b" ")?;
    put_last(&mut line, u64::from(item))?;
    Ok(line)
}

// What is said of what a report prints.
fn checked_line(alloc: Global, script: &Script, answer: Checked) -> Result<Vec<u8>, NoMemory>
    ensures { IfOk result (λ line. line.items
        ≡ verdict_line (verdict_of_checked script.now answer)) }
{
    match answer {
        Checked::Yes { entries } => counted(alloc, b"YES ", entries),
        Checked::BadEntry { on, no } => entry_line(alloc, script, on, no),
        Checked::BadItem { by, item } => item_line(alloc, script, by, item),
    }
}

/// The line that tells what a check found.
///
/// # Errors
///
/// `NoMemory` where there is no memory for the line.
pub(crate) fn found_line(alloc: Global, script: &Script, found: Found) -> Result<Vec<u8>, NoMemory>
    ensures { IfOk result (λ line. line.items ≡ verdict_line (verdict_of script.now found)) }
{
    match found {
        Found::Unread { line } => counted(alloc, b"NO TEXT ", u64::from(line)),
        Found::Judged { answer } => checked_line(alloc, script, answer),
    }
}
