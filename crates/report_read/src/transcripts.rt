//! Transcripts: a heading, and as many items as it tells.

ghost use Rattle.std.specs.Prelude.{◌≡◌, ◌<◌, ◌≤◌, ◌+◌, ◌∷◌, List, [], codes, length, replicate, IfOk, IfErr, IfSome, IfNone};
ghost use Rattle.plex_script.specs.Limits.{KeepsLimits};
ghost use Rattle.plex_report.specs.Lines.{heading, shown_line, transcript_lines};
ghost use Rattle.plex_report.specs.Naming.{caller_name};
ghost use Rattle.report_lines.specs.Readable.{IsItem};
ghost use Rattle.report_fronts.specs.Slots.{Slot, Opens, transcript_slot, slots_each};
ghost use Rattle.report_fronts.specs.Slots.Slot.{Listed};
ghost use Rattle.report_read.specs.Lines.{IsPlaced};
ghost use Rattle.report_read.specs.Reads.{IsRead, AreRead, AreEachRead, IsStop};
ghost use Rattle.report_read.specs.Transcripts.{IsTranscript, transcript_heading};

use crate::cursor::{Cursor, TextBad, next_line};
use cf_types::Listing;
use plex_script::{AgentEnd, Script, Shown, Transcript};
use report_lines::read_item;
use std::alloc::Global;

// Reads an item.
#[tactic(auto, using(crate::proofs::TranscriptLaws::item_read, crate::proofs::TranscriptLaws::item_other, crate::proofs::EntryLaws::line_short))]
fn one_item(script: &Script, text: &[u8], from: Cursor) -> Result<(Shown, Cursor), TextBad>
    requires keeps { KeepsLimits script.now }
    requires small { length text.now < 4294967295 }
    requires placed { IsPlaced text.now from }
    ensures read { IfOk result (λ step. IsItem script.now step.0 × IsRead script.now text.now from
        (Listed ∷ []) (shown_line script.now step.0 ∷ []) [] step.1) }
    ensures stop { IfErr result (IsStop script.now text.now from (Listed ∷ [])) }
{
    let Some((line, to)) = next_line(text, from) else {
        return Err(TextBad::Line {
            line: from.count + 1,
        });
    };
    match read_item(script, line) {
        Some(item) => Ok((item, to)),
        None => Err(TextBad::Line {
            line: from.count + 1,
        }),
    }
}

// Reads so many items.
#[tactic(auto, using(crate::proofs::ManyLaws::none_read, crate::proofs::ManyLaws::one_read, crate::proofs::ManyLaws::one_stops))]
fn read_items(
    alloc: Global,
    script: &Script,
    n: u64,
    text: &[u8],
    from: Cursor,
) -> Result<(Listing<Shown>, Cursor), TextBad>
    requires keeps { KeepsLimits script.now }
    requires small { length text.now < 4294967295 }
    requires placed { IsPlaced text.now from }
    ensures read { IfOk result (λ step. AreRead script.now text.now from Listed
        (shown_line script.now) (IsItem script.now) n step.0 step.1) }
    ensures stop { IfErr result (IsStop script.now text.now from (replicate n Listed)) }
{
    let mut items = Listing::new(alloc);
    let mut to = from;
    for _ in 0..n {
        let (item, next) = one_item(script, text, to)?;
        items.push(item)?;
        to = next;
    }
    Ok((items, to))
}

// How many items the heading of a caller's transcript tells. `None` where the line is no such
// heading, or tells of items where there are no structures.
#[tactic(auto, using(crate::proofs::TranscriptLaws::told_found, crate::proofs::TranscriptLaws::told_none, crate::proofs::TranscriptLaws::told_many))]
fn items_told(script: &Script, number: usize, line: &[u8]) -> Option<u64>
    requires keeps { KeepsLimits script.now }
    requires known { number ≤ length script.now.connectors }
    ensures found { IfSome result (λ n. (transcript_heading script.now number n ≡ line.now)
        × Opens script.now (transcript_slot script.now number) line.now (replicate n Listed)) }
    ensures none { IfNone result ((left : List Slot)
        → Opens script.now (transcript_slot script.now number) line.now left → ⊥) }
{
    let Some(n) = report_lines::transcript_heading(script, number, line) else {
        return None;
    };
    if n == 0 {
        return Some(n);
    }
    if script.structures.items().is_empty() {
        return None;
    }
    Some(n)
}

// Reads the heading of a caller's transcript.
#[tactic(auto, using(crate::proofs::TranscriptLaws::heading_read, crate::proofs::EntryLaws::line_other, crate::proofs::EntryLaws::line_short))]
fn read_heading(
    script: &Script,
    number: usize,
    text: &[u8],
    from: Cursor,
) -> Result<(u64, Cursor), TextBad>
    requires keeps { KeepsLimits script.now }
    requires known { number ≤ length script.now.connectors }
    requires small { length text.now < 4294967295 }
    requires placed { IsPlaced text.now from }
    ensures read { IfOk result (λ step. IsRead script.now text.now from
        (transcript_slot script.now number ∷ []) (transcript_heading script.now number step.0 ∷ [])
        (replicate step.0 Listed) step.1) }
    ensures stop { IfErr result (IsStop script.now text.now from
        (transcript_slot script.now number ∷ [])) }
{
    let Some((line, to)) = next_line(text, from) else {
        return Err(TextBad::Line {
            line: from.count + 1,
        });
    };
    match items_told(script, number, line) {
        Some(n) => Ok((n, to)),
        None => Err(TextBad::Line {
            line: from.count + 1,
        }),
    }
}

// Reads a caller's transcript.
#[tactic(auto, using(crate::proofs::TranscriptLaws::transcript_read, crate::proofs::TranscriptLaws::transcript_stop))]
fn read_transcript(
    alloc: Global,
    script: &Script,
    number: usize,
    text: &[u8],
    from: Cursor,
) -> Result<(Transcript, Cursor), TextBad>
    requires keeps { KeepsLimits script.now }
    requires known { number ≤ length script.now.connectors }
    requires small { length text.now < 4294967295 }
    requires placed { IsPlaced text.now from }
    ensures read { IfOk result (λ step. IsTranscript script.now step.0
        × IsRead script.now text.now from (transcript_slot script.now number ∷ [])
        (transcript_lines script.now number step.0) [] step.1) }
    ensures stop { IfErr result (IsStop script.now text.now from
        (transcript_slot script.now number ∷ [])) }
{
    let (n, behind) = read_heading(script, number, text, from)?;
    let (items, to) = read_items(alloc, script, n, text, behind)?;
    Ok((
        Transcript {
            items,
            end: AgentEnd::Done,
        },
        to,
    ))
}

/// Reads the transcripts of all callers, the operator's first.
#[tactic(auto, using(crate::proofs::ManyLaws::none_each, crate::proofs::ManyLaws::one_each, crate::proofs::ManyLaws::each_stops))]
pub(crate) fn read_transcripts(
    alloc: Global,
    script: &Script,
    text: &[u8],
    from: Cursor,
) -> Result<(Listing<Transcript>, Cursor), TextBad>
    requires keeps { KeepsLimits script.now }
    requires small { length text.now < 4294967295 }
    requires placed { IsPlaced text.now from }
    ensures read { IfOk result (λ step. AreEachRead script.now text.now from
        (transcript_slot script.now) (transcript_lines script.now) (λ x. IsTranscript script.now)
        (length script.now.connectors + 1) step.0 step.1) }
    ensures stop { IfErr result (IsStop script.now text.now from
        (slots_each (transcript_slot script.now) (length script.now.connectors + 1) 0)) }
{
    let mut transcripts = Listing::new(alloc);
    let mut to = from;
    for number in 0..script.connectors.items().len() + 1 {
        let (transcript, next) = read_transcript(alloc, script, number, text, to)?;
        transcripts.push(transcript)?;
        to = next;
    }
    Ok((transcripts, to))
}
