//! The report whole.

ghost use Rattle.std.specs.Prelude.{◌≡◌, ◌<◌, ◌+◌, ◌∷◌, ◌++◌, [], codes, length, IfOk, IfErr, OnOk};
ghost use Rattle.plex_script.specs.Limits.{KeepsLimits};
ghost use Rattle.plex_report.specs.Report.{transcripts_lines};
ghost use Rattle.report_texts.specs.Texts.{IsReport};
ghost use Rattle.report_fronts.specs.Slots.{end_slots, caller_slots_from};
ghost use Rattle.report_read.specs.Lines.{IsPlaced};
ghost use Rattle.report_read.specs.Picked.{ArePicked};
ghost use Rattle.report_read.specs.Reads.{TellsLine};
ghost use Rattle.report_read.specs.Wholes.{AreTranscripts, EndsWith, IsEndStop};

use crate::cursor::{Cursor, TextBad};
use crate::histories::read_histories;
use crate::policy::{read_exactly, read_policy};
use crate::transcripts::read_transcripts;
use cf_types::Listing;
use check_model::Printed;
use plex_script::{Script, Transcript};
use std::alloc::Global;

// Reads the last line, behind which nothing stands.
#[tactic(auto, using(crate::proofs::WholeLaws::end_read, crate::proofs::WholeLaws::end_more, crate::proofs::WholeLaws::end_stop))]
fn read_end(script: &Script, text: &[u8], from: Cursor) -> Result<(), TextBad>
    requires keeps { KeepsLimits script.now }
    requires small { length text.now < 4294967295 }
    requires placed { IsPlaced text.now from }
    ensures read { OnOk result (EndsWith script.now text.now from end_slots
        (codes "END" ∷ [])) }
    ensures stop { IfErr result (IsEndStop script.now text.now from end_slots) }
{
    let to = read_exactly(script, text, from, b"END")?;
    if to.at < text.len() {
        return Err(TextBad::Line { line: to.count + 1 });
    }
    Ok(())
}

// Reads what stands behind the histories, to the end of the text.
#[tactic(auto, using(crate::proofs::WholeLaws::behind_read, crate::proofs::WholeLaws::behind_stop, crate::proofs::WholeLaws::behind_end))]
fn read_behind(
    alloc: Global,
    script: &Script,
    text: &[u8],
    from: Cursor,
) -> Result<Listing<Transcript>, TextBad>
    requires keeps { KeepsLimits script.now }
    requires small { length text.now < 4294967295 }
    requires placed { IsPlaced text.now from }
    ensures read { IfOk result (λ transcripts. AreTranscripts script.now transcripts
        × EndsWith script.now text.now from
        (caller_slots_from script.now (length script.now.connectors + 1) 0)
        (transcripts_lines script.now transcripts ++ codes "END" ∷ [])) }
    ensures stop { IfErr result (IsEndStop script.now text.now from
        (caller_slots_from script.now (length script.now.connectors + 1) 0)) }
{
    let (transcripts, to) = read_transcripts(alloc, script, text, from)?;
    read_end(script, text, to)?;
    Ok(transcripts)
}

/// Reads the report of a script with what it prints of each structure and caller.
///
/// # Errors
///
/// `Line` with the first line, from 1, up to which the text is the front of no report of the script:
/// where its lines are all right, and some are lacking, it is the number after the last. `NoMemory`
/// where there was no memory for what the text says.
#[tactic(auto, using(crate::proofs::WholeLaws::start_placed, crate::proofs::WholeLaws::policy_stop, crate::proofs::WholeLaws::histories_stop, crate::proofs::WholeLaws::rest_stop, crate::proofs::WholeLaws::report_read))]
pub fn read_report(alloc: Global, script: &Script, text: &[u8]) -> Result<Printed, TextBad>
    requires keeps { KeepsLimits script.now }
    requires small { length text.now < 4294967295 }
    ensures report { IfOk result (IsReport script.now text.now) }
    ensures picked { IfOk result (ArePicked script.now) }
    ensures line { IfErr result (TellsLine script.now text.now) }
{
    let start = Cursor { at: 0, count: 0 };
    let behind = read_policy(alloc, script, text, start)?;
    let (histories, to) = read_histories(alloc, script, text, behind)?;
    let transcripts = read_behind(alloc, script, text, to)?;
    Ok(Printed {
        histories,
        transcripts,
    })
}
