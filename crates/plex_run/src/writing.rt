//! What a sink is told of a run.
ghost use Rattle.std.specs.Prelude.{◌≡◌, ◌⊎◌, ◌≤◌, ◌<◌, ◌++◌, ◌^◌, length, Err, OnOk, OnErr, IfSome};
ghost use Rattle.std.specs.List.{concat};
ghost use Rattle.run_laws.specs.Readings.{report_of};
ghost use Rattle.plex_run.specs.declared.writing.Unwritten.TheVariants as reason;
ghost use Rattle.plex_run.specs.StatusLines.{full_line, memory_line, too_long_line};
ghost use Rattle.plex_run.specs.Written.{output, HasFailed, Writes, WritesFront, Gains};
ghost use Rattle.plex_run.specs.Outcome.{script_limit, reading_of, read_status, status_line};

use crate::pieces::Piece;
use crate::status_lines::full_line;
use plex_agent::Finished;
use plex_agent::sources::{ReadEnd, Sink, write_all};
use plex_load::scripts::Script;
use plex_load::types::{Name16, NoMemory};
use run_laws::reports::Report;
use std::alloc::Global;

/// Why a text was not written whole.
#[derive(Drop)]
pub(crate) enum Unwritten {
    /// A write failed.
    Failed,
    /// There was no memory for the next line.
    NoMemory(NoMemory),
}

impl From<NoMemory> for Unwritten {
    ghost from_gives = { λ cause unwritten. unwritten ≡ reason.NoMemory cause };

    fn from(cause: NoMemory) -> Self {
        Unwritten::NoMemory(cause)
    }
}

/// Writes a line that tells how the run ended. A failing write changes nothing else.
pub(crate) fn say<K: Sink>(sink: &mut K, line: &[u8])
    ensures gains { Gains (output K.held K.faults sink.old sink.new) line.now }
    ensures faults { K.faults sink.old ≤ K.faults sink.new }
{
    let _ = write_all(sink, line);
}

/// Tells that there was no memory.
pub(crate) fn say_no_memory<K: Sink>(_cause: NoMemory, sink: &mut K)
    ensures gains { Gains (output K.held K.faults sink.old sink.new) memory_line }
    ensures faults { K.faults sink.old ≤ K.faults sink.new }
{
    say(sink, b"NOMEMORY\n");
}

/// The line of a text that is too long for a script.
#[tactic(auto, using(crate::proofs::StatusLaws::script_long))]
pub(crate) fn script_too_long() -> &'static [u8]
    ensures { result.now ≡ too_long_line script_limit }
{
    b"TOOLONG 1048576\n"
}

/// Tells why no text came, and the status; where too many bytes came, by this line.
pub(crate) fn say_unread<K: Sink>(end: ReadEnd, long: &[u8], sink: &mut K) -> u8
    ensures status { result ≡ read_status end }
    ensures long { result ≡ 7 → Gains (output K.held K.faults sink.old sink.new) long.now }
    ensures line { IfSome (status_line result)
        (Gains (output K.held K.faults sink.old sink.new)) }
    ensures no_memory { result ≡ 6 → Gains (output K.held K.faults sink.old sink.new)
        memory_line }
    ensures statuses { (result ≡ 4) ⊎ ((result ≡ 6) ⊎ (result ≡ 7)) }
    ensures faults { K.faults sink.old ≤ K.faults sink.new }
{
    match end {
        ReadEnd::ReadFault => {
            say(sink, b"FAULT READ\n");
            4
        }
        ReadEnd::TooLong { .. } => {
            say(sink, long);
            7
        }
        ReadEnd::NoMemory(cause) => {
            say_no_memory(cause, sink);
            6
        }
    }
}

/// Writes a text.
pub(crate) fn write_text<K: Sink>(sink: &mut K, text: &[u8]) -> Result<(), Unwritten>
    ensures whole { OnOk result (Writes (output K.held K.faults sink.old sink.new) text.now) }
    ensures front { OnErr result
        (WritesFront (output K.held K.faults sink.old sink.new) text.now) }
    ensures cause { OnErr result (HasFailed (output K.held K.faults sink.old sink.new)) }
    ensures faults { K.faults sink.old ≤ K.faults sink.new }
{
    match write_all(sink, text) {
        Ok(()) => Ok(()),
        Err(_) => Err(Unwritten::Failed),
    }
}

// Writes what stands in the piece, and the report behind it, with memory for one line at a time.
#[tactic(auto, using(crate::proofs::ReportLaws::text_longer, crate::proofs::ReportLaws::length_longer))]
fn write_lines<K: Sink>(
    alloc: Global,
    report: &Report<'_>,
    piece: &mut Piece,
    sink: &mut K,
) -> Result<(), Unwritten>
    ensures whole { OnOk result (Writes (output K.held K.faults sink.old sink.new)
        (piece.old.bytes.items ++ concat report.now)) }
    ensures short { OnOk result (length (concat report.now) < 2 ^ 64) }
    ensures front { OnErr result (WritesFront (output K.held K.faults sink.old sink.new)
        (piece.old.bytes.items ++ concat report.now)) }
    ensures cause { result ≡ Err reason.Failed
        → HasFailed (output K.held K.faults sink.old sink.new) }
    ensures faults { K.faults sink.old ≤ K.faults sink.new }
{
    let mut bytes = 0u64;
    for k in 0..usize::MAX {
        let line = match report.line(alloc, k) {
            Ok(line) => line,
            Err(cause) => return Err(piece.break_off(cause, sink)),
        };
        let Some(text) = line else {
            return piece.flush(sink);
        };
        let Some(sum) = bytes.checked_add(text.len() as u64) else {
            return Err(piece.break_off(NoMemory::beyond_counts(), sink));
        };
        bytes = sum;
        piece.put(sink, &text)?;
    }
    // No memory holds what a report of so many lines tells.
    Err(piece.break_off(NoMemory::beyond_counts(), sink))
}

// Writes a heading and the report behind it. The memory for a piece of the report is taken first.
fn write_headed<K: Sink>(
    alloc: Global,
    heading: &[u8],
    report: &Report<'_>,
    sink: &mut K,
) -> Result<(), Unwritten>
    ensures whole { OnOk result (Writes (output K.held K.faults sink.old sink.new)
        (heading.now ++ concat report.now)) }
    ensures short { OnOk result (length (concat report.now) < 2 ^ 64) }
    ensures front { OnErr result (WritesFront (output K.held K.faults sink.old sink.new)
        (heading.now ++ concat report.now)) }
    ensures cause { result ≡ Err reason.Failed
        → HasFailed (output K.held K.faults sink.old sink.new) }
    ensures faults { K.faults sink.old ≤ K.faults sink.new }
{
    let mut piece = Piece::new(alloc)?;
    write_text(sink, heading)?;
    write_lines(alloc, report, &mut piece, sink)
}

/// Writes what a run left: the line of the structure whose journal got full, if one did, and the
/// report. It ends at the first write that fails.
pub(crate) fn write_run<K: Sink>(
    alloc: Global,
    full: Option<Name16>,
    script: &Script,
    finished: &Finished,
    sink: &mut K,
) -> Result<(), Unwritten>
    ensures whole { OnOk result (Writes (output K.held K.faults sink.old sink.new)
        (full_line full ++ report_of script.now (reading_of finished.now))) }
    ensures short { OnOk result
        (length (report_of script.now (reading_of finished.now)) < 2 ^ 64) }
    ensures front { OnErr result (WritesFront (output K.held K.faults sink.old sink.new)
        (full_line full ++ report_of script.now (reading_of finished.now))) }
    ensures cause { result ≡ Err reason.Failed
        → HasFailed (output K.held K.faults sink.old sink.new) }
    ensures faults { K.faults sink.old ≤ K.faults sink.new }
{
    let heading = full_line(alloc, full)?;
    let histories = finished.histories.items();
    let transcripts = finished.transcripts.items();
    let report = Report::new(alloc, script, histories, transcripts)?;
    write_headed(alloc, &heading, &report, sink)
}
