//! The lines that a script alone gives: its policy's, and the one behind all.

ghost use Rattle.std.specs.Prelude.{◌≡◌, ◌<◌, ◌+◌, ◌∷◌, ◌++◌, ℕ, List, [], codes, length, map, option_map, slice_get, IfOk, IfErr};
ghost use Rattle.plex_script.specs.Limits.{KeepsLimits};
ghost use Rattle.plex_script.specs.PlexSpell.Words.{line_text};
ghost use Rattle.plex_report.specs.Report.{report_lines};
ghost use Rattle.report_fronts.specs.Slots.{policy_lines};
ghost use Rattle.report_fronts.specs.Slots.Slot.{Exactly};
ghost use Rattle.report_read.specs.Lines.{IsPlaced};
ghost use Rattle.report_read.specs.Reads.{IsRead, IsStop, AreFirstRead, exact_slots};

use crate::cursor::{Cursor, TextBad, next_line};
use cf_types::NoMemory;
use plex_report::Report;
use plex_script::Script;
use plex_spell::is;
use std::alloc::Global;

/// Reads a line that is to be just this one.
#[tactic(auto, using(crate::proofs::PolicyLaws::exactly_read, crate::proofs::PolicyLaws::exactly_other, crate::proofs::EntryLaws::line_short))]
pub(crate) fn read_exactly(
    script: &Script,
    text: &[u8],
    from: Cursor,
    wanted: &[u8],
) -> Result<Cursor, TextBad>
    requires keeps { KeepsLimits script.now }
    requires small { length text.now < 4294967295 }
    requires placed { IsPlaced text.now from }
    ensures read { IfOk result (IsRead script.now text.now from (Exactly wanted.now ∷ [])
        (wanted.now ∷ []) []) }
    ensures stop { IfErr result (IsStop script.now text.now from (Exactly wanted.now ∷ [])) }
{
    let Some((line, to)) = next_line(text, from) else {
        return Err(TextBad::Line {
            line: from.count + 1,
        });
    };
    if is(line, wanted) {
        Ok(to)
    } else {
        Err(TextBad::Line {
            line: from.count + 1,
        })
    }
}

// A line without its feed.
fn without_feed(fed: &[u8]) -> &[u8]
    ensures { (line : List ℕ) → fed.now ≡ line_text line → result.now ≡ line }
{
    match fed {
        [] => fed,
        [line @ .., _] => line,
    }
}

// The k-th line of the policy, with its feed. The report is one that shows nothing else: its last
// line is behind the policy.
#[tactic(auto, using(crate::proofs::PolicyLaws::policy_end, crate::proofs::PolicyLaws::policy_last, crate::proofs::PolicyLaws::policy_here))]
fn policy_line(
    alloc: Global,
    script: &Script,
    report: &Report,
    k: usize,
) -> Result<Option<Vec<u8>>, NoMemory>
    requires alone { report.now ≡ map line_text (report_lines script.now [] []) }
    requires low { k < usize.MAX }
    ensures { IfOk result (λ line. option_map (λ v. v.items) line
        ≡ option_map line_text (slice_get (policy_lines script.now) k)) }
{
    let Some(line) = report.line(alloc, k)? else {
        return Ok(None);
    };
    match report.line(alloc, k + 1)? {
        None => Ok(None),
        Some(_) => Ok(Some(line)),
    }
}

/// Reads the lines of the script's policy.
#[tactic(auto, using(crate::proofs::PolicyLaws::first_none, crate::proofs::PolicyLaws::policy_done, crate::proofs::PolicyLaws::policy_goes_on, crate::proofs::PolicyLaws::policy_stops))]
pub(crate) fn read_policy(
    alloc: Global,
    script: &Script,
    text: &[u8],
    from: Cursor,
) -> Result<Cursor, TextBad>
    requires keeps { KeepsLimits script.now }
    requires small { length text.now < 4294967295 }
    requires placed { IsPlaced text.now from }
    ensures read { IfOk result (IsRead script.now text.now from
        (exact_slots (policy_lines script.now)) (policy_lines script.now) []) }
    ensures stop { IfErr result (IsStop script.now text.now from
        (exact_slots (policy_lines script.now))) }
{
    let report = Report::new(alloc, script, &[], &[])?;
    let mut to = from;
    for k in 0..usize::MAX {
        let Some(wanted) = policy_line(alloc, script, &report, k)? else {
            return Ok(to);
        };
        to = read_exactly(script, text, to, without_feed(wanted.as_slice()))?;
    }
    // No memory holds a policy of so many lines.
    Err(TextBad::NoMemory(NoMemory::beyond_counts()))
}
