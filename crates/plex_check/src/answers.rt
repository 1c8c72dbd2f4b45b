//! The check of all that a report prints.
ghost use Rattle.std.specs.Prelude.{◌≡◌, IfOk, length, sum_by};
ghost use Rattle.check_model.specs.Judged.{AreLegalBelow, Judges};
ghost use Rattle.check_model.specs.Printings.{IsPrintedOf};
ghost use Rattle.check_model.specs.RunShown.PlexScript.Heard.{any_length};
ghost use Rattle.check_model.specs.RunShown.PlexScript.WellFormed.{IsWellFormed};
ghost use Rattle.check_model.specs.declared.checked.Checked.TheVariants as checked;
ghost use Rattle.caller_check.specs.Tables.{AreAnswered, rows_of};

use crate::structures::{AllJudged, judge_all};
use caller_check::first_bad_item;
use cf_types::{ConnId, NoMemory, StrNo};
use check_model::shown::scripts::{AnyHistory, Script};
use check_model::{Checked, Printed};
use std::alloc::Global;
use vector_waits::Queue;

// How many entries a history has.
fn any_len(history: &AnyHistory) -> usize
    ensures { result ≡ any_length history.now }
{
    match history {
        AnyHistory::Cache(entries) => entries.entries().len(),
        AnyHistory::List(entries) => entries.entries().len(),
        AnyHistory::Lock(entries) => entries.entries().len(),
    }
}

// How many entries all histories have.
fn count(histories: &[AnyHistory]) -> Result<u64, NoMemory>
    ensures { IfOk result (λ entries. entries ≡ sum_by any_length histories.now) }
{
    let mut so_far: u64 = 0;
    for history in histories {
        let Some(more) = so_far.checked_add(any_len(history) as u64) else {
            return Err(NoMemory::beyond_counts());
        };
        so_far = more;
    }
    Ok(so_far)
}

fn yes(histories: &[AnyHistory]) -> Result<Checked, NoMemory>
    ensures { IfOk result (λ answer. answer ≡ checked.Yes (sum_by any_length histories.now)) }
{
    let entries = count(histories)?;
    Ok(Checked::Yes { entries })
}

fn bad_entry(on: StrNo, place: usize) -> Result<Checked, NoMemory>
    ensures { IfOk result (λ answer. answer ≡ checked.BadEntry on place) }
{
    if place > u32::MAX as usize {
        return Err(NoMemory::beyond_counts());
    }
    Ok(Checked::BadEntry {
        on,
        no: place as u32,
    })
}

fn bad_item(by: ConnId, item: usize) -> Result<Checked, NoMemory>
    ensures { IfOk result (λ answer. answer ≡ checked.BadItem by item) }
{
    if item > u32::MAX as usize {
        return Err(NoMemory::beyond_counts());
    }
    Ok(Checked::BadItem {
        by,
        item: item as u32,
    })
}

// Judges the transcripts, one caller after another, where all histories are legal.
fn check_callers(
    alloc: Global,
    script: &Script,
    printed: &Printed,
    tables: &[Vec<Queue>],
) -> Result<Checked, NoMemory>
    requires formed { IsWellFormed script.now }
    requires printed { IsPrintedOf script.now printed.now }
    requires legal { AreLegalBelow script.now printed.now.histories (length script.now.structures) }
    requires answered { AreAnswered script.now printed.now (rows_of tables.now) }
    ensures { IfOk result (Judges script.now printed.now) }
{
    let many = printed.transcripts.items().len() as u8;
    for number in 0..many {
        let by = ConnId(number);
        match first_bad_item(alloc, script, printed, tables, by)? {
            Some(item) => return bad_item(by, item),
            None => {}
        }
    }
    yes(printed.histories.items())
}

/// Checks what a report of a script prints: whether each structure's history is legal, as it is
/// replayed call by call, and whether each caller's transcript is right. Else the first that is
/// wrong: the first structure whose history isn't legal, with the first entry of its first bad
/// block; or, where all are, the first caller whose transcript isn't right, with its first bad
/// item.
///
/// # Errors
///
/// Want of memory, or more entries or items than are counted.
pub fn check(alloc: Global, script: &Script, printed: &Printed) -> Result<Checked, NoMemory>
    requires formed { IsWellFormed script.now }
    requires printed { IsPrintedOf script.now printed.now }
    ensures checked { IfOk result (Judges script.now printed.now) }
{
    match judge_all(alloc, script, printed)? {
        AllJudged::Bad { on, place } => bad_entry(on, place),
        AllJudged::Tables(tables) => check_callers(alloc, script, printed, tables.as_slice()),
    }
}
