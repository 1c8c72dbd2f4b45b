//! Checks: a report that comes behind its script is read and judged, and what is found is told.
ghost use Rattle.std.specs.Prelude.{◌≡◌, ◌⊎◌, ◌≤◌, ◌<◌, true, false, length, IfOk, IfErr, IfSome};
ghost use Rattle.std.specs.Io.KnownBytes.{IsAtEnd};
ghost use Rattle.plex_agent.specs.CfIo.Count.{Rises};
ghost use Rattle.plex_load.specs.PlexScript.Limits.{KeepsLimits};
ghost use Rattle.plex_load.specs.PlexScript.Reading.{TellsFault};
ghost use Rattle.plex_load.specs.PlexScript.WellFormed.{IsWellFormed};
ghost use Rattle.check_model.specs.Judged.{Judges};
ghost use Rattle.report_texts.specs.Readable.{AreReadable};
ghost use Rattle.plex_run.specs.StatusLines.{memory_line, too_long_line};
ghost use Rattle.plex_run.specs.Written.{output, HasFailed, Writes, WritesFront, Gains};
ghost use Rattle.plex_run.specs.Outcome.{script_limit, status_line};
ghost use Rattle.plex_run.specs.Statuses.{OfText};
ghost use Rattle.plex_run.specs.Checking.{check_limit, verdict_line, verdict_of, verdict_of_checked, verdict_status, ReadsOne, IsOneAnswer, IsSaid, IsOnlyStatus, IsJudged, EndsCheck};

use crate::cutting::cut;
use crate::program::{SCRIPT_LIMIT, refused};
use crate::status_lines::why_text;
use crate::verdict_lines::found_line;
use crate::writing::{say, say_no_memory, say_unread, script_too_long};
use check_model::{Checked, Printed, one_answer};
use plex_agent::sources::{Sink, Source, read_all, write_all};
use plex_check::check;
use plex_load::scripts::{
    ReadFault, Script, keeps_limits, never_both, one_script, read, well_formed,
};
use plex_load::types::NoMemory;
use report_read::{TextBad, read_report};
use std::alloc::Global;

/// The greatest length of a script and its report, in bytes.
pub(crate) const CHECK_LIMIT: usize = 16_777_216;

/// What a check finds.
#[derive(Clone, Copy)]
pub(crate) enum Found {
    /// The first line up to which what stands behind the script begins no report.
    Unread { line: u32 },
    /// What a check answers of what the report prints.
    Judged { answer: Checked },
}

// The line of a text that is too long for a script and its report.
#[tactic(auto, using(crate::proofs::StatusLaws::whole_long))]
fn whole_too_long() -> &'static [u8]
    ensures { result.now ≡ too_long_line check_limit }
{
    b"TOOLONG 16777216\n"
}

// Whether a script is too long.
fn is_long(part: &[u8]) -> bool
    ensures long { result ≡ true → script_limit < length part.now }
    ensures fits { result ≡ false → length part.now ≤ script_limit }
{
    part.len() > SCRIPT_LIMIT
}

// Each text is read in one way as a report of the script.
fn one_reading(script: &Script)
    requires { KeepsLimits script.now }
    ensures { ReadsOne script.now }
{
    let _ = script;
}

// What a check answers of what a report prints.
#[tactic(auto, using(crate::proofs::PrintedLaws::printed_of))]
fn answered(alloc: Global, script: &Script, printed: &Printed) -> Result<Checked, NoMemory>
    requires formed { IsWellFormed script.now }
    requires keeps { KeepsLimits script.now }
    requires readable { AreReadable script.now printed.now }
    ensures judged { IfOk result (Judges script.now printed.now) }
    ensures one { IsOneAnswer script.now printed.now }
{
    one_answer(script, printed);
    check(alloc, script, printed)
}

// Reads what stands behind a script, and judges it.
fn found_in(alloc: Global, script: &Script, text: &[u8]) -> Result<Found, NoMemory>
    requires formed { IsWellFormed script.now }
    requires keeps { KeepsLimits script.now }
    requires small { length text.now ≤ check_limit }
    ensures said { IfOk result (λ found. IsSaid script.now text.now
        (verdict_of script.now found)) }
    ensures only { IfOk result (λ found. IsOnlyStatus script.now text.now
        (verdict_of script.now found)) }
{
    one_reading(script);
    let printed = match read_report(alloc, script, text) {
        Ok(printed) => printed,
        Err(TextBad::Line { line }) => return Ok(Found::Unread { line }),
        Err(TextBad::NoMemory(cause)) => return Err(cause),
    };
    match answered(alloc, script, &printed) {
        Ok(answer) => Ok(Found::Judged { answer }),
        Err(cause) => Err(cause),
    }
}

// Reads a script, and judges what stands behind it.
fn judged(alloc: Global, part: &[u8], rest: &[u8]) -> Result<(Script, Found), ReadFault>
    requires { length rest.now ≤ check_limit }
    ensures judged { IfOk result (λ it. IsJudged part.now rest.now it.0 (verdict_of it.0 it.1)) }
    ensures fault { IfErr result (TellsFault part.now) }
{
    keeps_limits();
    let script = match read(alloc, part) {
        Ok(script) => script,
        Err(fault) => return Err(fault),
    };
    well_formed(part, &script);
    match found_in(alloc, &script, rest) {
        Ok(found) => Ok((script, found)),
        Err(cause) => Err(ReadFault::NoMemory(cause)),
    }
}

// The status of what a check answers, where no write fails.
fn answer_status(script: &Script, answer: Checked) -> u8
    ensures status { result ≡ verdict_status (verdict_of_checked script.now answer) }
    ensures known { (result ≡ 0) ⊎ (result ≡ 9) }
{
    let _ = script;
    match answer {
        Checked::Yes { .. } => 0,
        Checked::BadEntry { .. } => 9,
        Checked::BadItem { .. } => 9,
    }
}

// The status of what was found, where no write fails.
fn found_status(script: &Script, found: Found) -> u8
    ensures status { result ≡ verdict_status (verdict_of script.now found) }
    ensures known { (result ≡ 0) ⊎ (result ≡ 9) }
{
    match found {
        Found::Unread { .. } => 9,
        Found::Judged { answer } => answer_status(script, answer),
    }
}

// Tells what was found, and the status.
fn told<K: Sink>(alloc: Global, script: &Script, found: Found, sink: &mut K) -> u8
    ensures done { result ≡ 0 → (verdict_status (verdict_of script.now found) ≡ 0)
        × Writes (output K.held K.faults sink.old sink.new)
        (verdict_line (verdict_of script.now found)) }
    ensures marked { result ≡ 9 → (verdict_status (verdict_of script.now found) ≡ 9)
        × Gains (output K.held K.faults sink.old sink.new)
        (verdict_line (verdict_of script.now found)) }
    ensures front { result ≡ 5 → (verdict_status (verdict_of script.now found) ≡ 0)
        × HasFailed (output K.held K.faults sink.old sink.new)
        × WritesFront (output K.held K.faults sink.old sink.new)
        (verdict_line (verdict_of script.now found)) }
    ensures no_memory { result ≡ 6 → Gains (output K.held K.faults sink.old sink.new)
        memory_line }
    ensures statuses { (result ≡ 0) ⊎ ((result ≡ 9) ⊎ ((result ≡ 5) ⊎ (result ≡ 6))) }
    ensures faults { K.faults sink.old ≤ K.faults sink.new }
{
    let line = match found_line(alloc, script, found) {
        Ok(line) => line,
        Err(cause) => {
            say_no_memory(cause, sink);
            return 6;
        }
    };
    if found_status(script, found) != 0 {
        say(sink, &line);
        return 9;
    }
    match write_all(sink, &line) {
        Ok(()) => 0,
        Err(_) => 5,
    }
}

// Checks the report that a text has behind its script, and tells what is found.
fn checked_text<K: Sink>(alloc: Global, text: &[u8], sink: &mut K) -> u8
    requires text { length text.now ≤ check_limit }
    ensures ends { EndsCheck text.now (output K.held K.faults sink.old sink.new) result }
    ensures write_fault { result ≡ 5 → HasFailed (output K.held K.faults sink.old sink.new) }
    ensures no_memory { result ≡ 6 → Gains (output K.held K.faults sink.old sink.new)
        memory_line }
    ensures too_long { result ≡ 7 → script_limit < length text.now }
    ensures statuses { (result ≡ 0) ⊎ ((result ≡ 5) ⊎ ((result ≡ 6) ⊎ ((result ≡ 3)
        ⊎ ((result ≡ 7) ⊎ (result ≡ 9))))) }
    ensures faults { K.faults sink.old ≤ K.faults sink.new }
{
    one_script();
    never_both();
    let Some((part, rest)) = cut(text) else {
        return refused(alloc, 0, b"NOREPORT", sink);
    };
    if is_long(part) {
        say(sink, script_too_long());
        return 7;
    }
    let (script, found) = match judged(alloc, part, rest) {
        Ok(it) => it,
        Err(ReadFault::Script { line, why }) => return refused(alloc, line, why_text(why), sink),
        Err(ReadFault::NoMemory(cause)) => {
            say_no_memory(cause, sink);
            return 6;
        }
    };
    told(alloc, &script, found, sink)
}

/// Checks the report that comes from a source behind its script and a line `REPORT`, and writes what
/// is found. Tells the status: 0, 3, 4, 5, 6, 7 or 9.
pub(crate) fn checked_in<S: Source, K: Sink>(alloc: Global, source: &mut S, sink: &mut K) -> u8
    ensures ends { OfText (S.left source.old)
        (λ text. EndsCheck text (output K.held K.faults sink.old sink.new) result) }
    ensures read_fault { result ≡ 4 → Rises (S.faults source.old) (S.faults source.new) }
    ensures write_fault { result ≡ 5 → HasFailed (output K.held K.faults sink.old sink.new) }
    ensures no_memory { result ≡ 6 → Gains (output K.held K.faults sink.old sink.new)
        memory_line }
    ensures too_long { result ≡ 7 → IfSome (S.left source.old)
        (λ text. script_limit < length text) }
    ensures line { IfSome (status_line result)
        (Gains (output K.held K.faults sink.old sink.new)) }
    ensures statuses { (result ≡ 0) ⊎ ((result ≡ 5) ⊎ ((result ≡ 6) ⊎ ((result ≡ 3)
        ⊎ ((result ≡ 4) ⊎ ((result ≡ 7) ⊎ (result ≡ 9)))))) }
    ensures at_end { (result ≡ 0) ⊎ ((result ≡ 3) ⊎ ((result ≡ 5) ⊎ (result ≡ 9)))
        → IsAtEnd (S.left source.new) }
    ensures source_faults { S.faults source.old ≤ S.faults source.new }
    ensures sink_faults { K.faults sink.old ≤ K.faults sink.new }
{
    let text = match read_all(alloc, source, CHECK_LIMIT) {
        Ok(text) => text,
        Err(end) => return say_unread(end, whole_too_long(), sink),
    };
    checked_text(alloc, &text, sink)
}
