//! The history of each structure: a heading, and its entries.

ghost use Rattle.std.specs.Prelude.{◌≡◌, ◌<◌, ◌^◌, [], ◌∷◌, length, replicate, codes, IfOk, IfErr};
ghost use Rattle.cf_types.specs.declared.forms.Kind.TheVariants as kinds;
ghost use Rattle.plex_script.specs.Causes.{kind_of};
ghost use Rattle.plex_script.specs.Limits.{KeepsLimits};
ghost use Rattle.plex_report.specs.Lines.{heading, history_lines};
ghost use Rattle.plex_report.specs.Naming.{structure_name};
ghost use Rattle.report_fronts.specs.Slots.{history_slot, slots_each};
ghost use Rattle.report_fronts.specs.Slots.Slot.{Entered};
ghost use Rattle.report_read.specs.Lines.{IsPlaced};
ghost use Rattle.report_read.specs.Reads.{IsRead, AreEachRead, IsStop};
ghost use Rattle.report_read.specs.Histories.{IsHistory, AreBehind, IsList};

use crate::cursor::{Cursor, TextBad, next_line};
use crate::entries::read_entries;
use cf_types::{
    AlterCmd, AlterReply, CacheCmd, CacheReply, Kind, Listing, LockCmd, LockReply, QueueCmd,
    QueueReply, StrNo,
};
use engine_api::{Entry, History};
use plex_script::{AnyHistory, Script};
use report_lines::history_heading;
use std::alloc::Global;

// Reads the heading of a structure's history: how many entries follow.
#[tactic(auto, using(crate::proofs::HistoryLaws::heading_read))]
fn heading(
    script: &Script,
    number: usize,
    text: &[u8],
    from: Cursor,
) -> Result<(u64, Cursor), TextBad>
    requires keeps { KeepsLimits script.now }
    requires known { number < length script.now.structures }
    requires small { length text.now < 4294967295 }
    requires placed { IsPlaced text.now from }
    ensures small { IfOk result (λ step. step.0 < 2 ^ 64) }
    ensures read { IfOk result (λ step. IsRead script.now text.now from
        (history_slot script.now number ∷ [])
        (heading (codes "HISTORY") (structure_name script.now number) step.0 ∷ [])
        (replicate step.0 (Entered (record { 0 = number }))) step.1) }
    ensures stop { IfErr result (IsStop script.now text.now from
        (history_slot script.now number ∷ [])) }
{
    let Some((line, to)) = next_line(text, from) else {
        return Err(TextBad::Line {
            line: from.count + 1,
        });
    };
    match history_heading(script, number, line) {
        Some(n) => Ok((n, to)),
        None => Err(TextBad::Line {
            line: from.count + 1,
        }),
    }
}

// Reads so many entries of a cache structure.
#[tactic(auto, using(crate::proofs::HistoryLaws::shows_cache))]
fn cache_history(
    alloc: Global,
    script: &Script,
    on: StrNo,
    n: u64,
    text: &[u8],
    from: Cursor,
) -> Result<(AnyHistory, Cursor), TextBad>
    requires keeps { KeepsLimits script.now }
    requires known { on.0 < length script.now.structures }
    requires kind { kind_of script.now.structures on ≡ kinds.Cache }
    requires small { length text.now < 4294967295 }
    requires placed { IsPlaced text.now from }
    ensures read { IfOk result (λ step. AreBehind script.now text.now from on.0 n step.0 step.1) }
    ensures stop { IfErr result (IsStop script.now text.now from (replicate n (Entered on))) }
{
    let (entries, to) = read_entries::<Entry<AlterCmd<CacheCmd>, AlterReply<CacheReply>>>(
        alloc, script, on, n, text, from,
    )?;
    Ok((AnyHistory::Cache(History::from_vec(entries.into_vec())), to))
}

// Reads so many entries of a list structure.
#[tactic(auto, using(crate::proofs::HistoryLaws::shows_list))]
fn list_history(
    alloc: Global,
    script: &Script,
    on: StrNo,
    n: u64,
    text: &[u8],
    from: Cursor,
) -> Result<(AnyHistory, Cursor), TextBad>
    requires keeps { KeepsLimits script.now }
    requires known { on.0 < length script.now.structures }
    requires kind { IsList (kind_of script.now.structures on) }
    requires small { length text.now < 4294967295 }
    requires placed { IsPlaced text.now from }
    ensures read { IfOk result (λ step. AreBehind script.now text.now from on.0 n step.0 step.1) }
    ensures stop { IfErr result (IsStop script.now text.now from (replicate n (Entered on))) }
{
    let (entries, to) = read_entries::<Entry<QueueCmd, QueueReply>>(
        alloc, script, on, n, text, from,
    )?;
    Ok((AnyHistory::List(History::from_vec(entries.into_vec())), to))
}

// Reads so many entries of a lock structure.
#[tactic(auto, using(crate::proofs::HistoryLaws::shows_lock))]
fn lock_history(
    alloc: Global,
    script: &Script,
    on: StrNo,
    n: u64,
    text: &[u8],
    from: Cursor,
) -> Result<(AnyHistory, Cursor), TextBad>
    requires keeps { KeepsLimits script.now }
    requires known { on.0 < length script.now.structures }
    requires kind { kind_of script.now.structures on ≡ kinds.Lock }
    requires small { length text.now < 4294967295 }
    requires placed { IsPlaced text.now from }
    ensures read { IfOk result (λ step. AreBehind script.now text.now from on.0 n step.0 step.1) }
    ensures stop { IfErr result (IsStop script.now text.now from (replicate n (Entered on))) }
{
    let (entries, to) = read_entries::<Entry<LockCmd, LockReply>>(
        alloc, script, on, n, text, from,
    )?;
    Ok((AnyHistory::Lock(History::from_vec(entries.into_vec())), to))
}

// Reads so many entries of a structure, whatever its kind.
fn behind_heading(
    alloc: Global,
    script: &Script,
    on: StrNo,
    n: u64,
    text: &[u8],
    from: Cursor,
) -> Result<(AnyHistory, Cursor), TextBad>
    requires keeps { KeepsLimits script.now }
    requires known { on.0 < length script.now.structures }
    requires small { length text.now < 4294967295 }
    requires placed { IsPlaced text.now from }
    ensures read { IfOk result (λ step. AreBehind script.now text.now from on.0 n step.0 step.1) }
    ensures stop { IfErr result (IsStop script.now text.now from (replicate n (Entered on))) }
{
    match script.structures.items()[usize::from(on.0)].kind {
        Kind::Cache => cache_history(alloc, script, on, n, text, from),
        Kind::List { .. } => list_history(alloc, script, on, n, text, from),
        Kind::Lock => lock_history(alloc, script, on, n, text, from),
    }
}

// Reads the history of a structure.
#[tactic(auto, using(crate::proofs::HistoryLaws::history_stop))]
fn one_history(
    alloc: Global,
    script: &Script,
    number: usize,
    text: &[u8],
    from: Cursor,
) -> Result<(AnyHistory, Cursor), TextBad>
    requires keeps { KeepsLimits script.now }
    requires known { number < length script.now.structures }
    requires small { length text.now < 4294967295 }
    requires placed { IsPlaced text.now from }
    ensures read { IfOk result (λ step. IsHistory script.now number step.0
        × IsRead script.now text.now from (history_slot script.now number ∷ [])
        (history_lines script.now number step.0) [] step.1) }
    ensures stop { IfErr result (IsStop script.now text.now from
        (history_slot script.now number ∷ [])) }
{
    let (n, to) = heading(script, number, text, from)?;
    behind_heading(alloc, script, StrNo(number as u8), n, text, to)
}

/// Reads the history of each structure in order.
#[tactic(auto, using(crate::proofs::ManyLaws::none_each))]
pub(crate) fn read_histories(
    alloc: Global,
    script: &Script,
    text: &[u8],
    from: Cursor,
) -> Result<(Listing<AnyHistory>, Cursor), TextBad>
    requires keeps { KeepsLimits script.now }
    requires small { length text.now < 4294967295 }
    requires placed { IsPlaced text.now from }
    ensures read { IfOk result (λ step. AreEachRead script.now text.now from
        (history_slot script.now) (history_lines script.now) (IsHistory script.now)
        (length script.now.structures) step.0 step.1) }
    ensures stop { IfErr result (IsStop script.now text.now from
        (slots_each (history_slot script.now) (length script.now.structures) 0)) }
{
    let mut histories = Listing::new(alloc);
    let mut to = from;
    for number in 0..script.structures.items().len() {
        let (history, next) = one_history(alloc, script, number, text, to)?;
        histories.push(history)?;
        to = next;
    }
    Ok((histories, to))
}
