//! The run of a script, and what is written of it.
ghost use Rattle.std.specs.Prelude.{◌≡◌, ◌⊎◌, true, false, is_some, ◌≤◌, ◌<◌, ◌^◌, length, IfOk};
ghost use Rattle.std.specs.Vec.{vec_len};
ghost use Rattle.plex_load.specs.CfTypes.declared.limits.TheConstants.{LINKS};
ghost use Rattle.plex_agent.specs.PlexBoard.Runnable.{IsRunnable};
ghost use Rattle.run_laws.specs.Readings.{report_of};
ghost use Rattle.plex_run.specs.Wires.{wires};
ghost use Rattle.plex_run.specs.StatusLines.{memory_line};
ghost use Rattle.plex_run.specs.Written.{output, HasFailed, Writes, WritesFront, Gains, BreaksOff};
ghost use Rattle.plex_run.specs.Outcome.{full_of, reading_of, run_text, IsRunOf, EndsRun};

use crate::full::full_structure;
use crate::program::JOURNAL_LIMIT;
use crate::way::Way;
use crate::writing::{Unwritten, say_no_memory, write_run};
use plex_agent::links::Link;
use plex_agent::sources::Sink;
use plex_agent::{Finished, Gate, serial, threads};
use plex_load::scripts::Script;
use plex_load::types::NoMemory;
use std::alloc::Global;
use std::mem;
use std::sync::Wait;
use std::thread::Threads;

// Runs a script in this way over these links, which come back.
#[tactic(auto, using(crate::proofs::RunLaws::serial_run_is, crate::proofs::RunLaws::threads_run_is))]
fn run_by<R: Threads + Wait + Sync, L: Link, G: Gate>(
    rt: &R,
    alloc: Global,
    way: Way,
    script: &Script,
    links: Vec<L>,
    gate: &G,
) -> (Result<Finished, NoMemory>, Vec<L>)
    requires script { IsRunnable script.now }
    requires links { vec_len links ≡ LINKS }
    ensures run { IfOk result.0 (λ it. IsRunOf (wires L.calls L.downs L.faults links.items
        result.1.items) way script.now (reading_of it)) }
    ensures count { length result.1.items ≡ length links.items }
{
    match way {
        Way::InTurn => serial(rt, alloc, JOURNAL_LIMIT, script, links),
        Way::OnThreads => threads(rt, alloc, JOURNAL_LIMIT, script, links, gate),
    }
}

/// Runs a script in this way over these links, and puts them back.
pub(crate) fn run_over<R: Threads + Wait + Sync, L: Link, G: Gate>(
    rt: &R,
    alloc: Global,
    way: Way,
    script: &Script,
    links: &mut Vec<L>,
    gate: &G,
) -> Result<Finished, NoMemory>
    requires script { IsRunnable script.now }
    requires links { vec_len links.old ≡ LINKS }
    ensures run { IfOk result (λ it. IsRunOf (wires L.calls L.downs L.faults links.old.items
        links.new.items) way script.now (reading_of it)) }
    ensures count { length links.new.items ≡ length links.old.items }
{
    let taken = mem::replace(links, Vec::new(alloc));
    let (finished, back) = run_by(rt, alloc, way, script, taken, gate);
    *links = back;
    finished
}

// Writes what a run left, and tells the status. Where a journal got full, a failing write changes
// nothing else.
fn written<K: Sink>(alloc: Global, script: &Script, finished: &Finished, sink: &mut K) -> u8
    ensures whole { result ≡ 0 → Writes (output K.held K.faults sink.old sink.new)
        (run_text script.now (reading_of finished.now)) }
    ensures none_full { (result ≡ 0) ⊎ (result ≡ 5)
        → is_some (full_of script.now (reading_of finished.now)) ≡ false }
    ensures full { result ≡ 8 → (is_some (full_of script.now (reading_of finished.now)) ≡ true)
        × Gains (output K.held K.faults sink.old sink.new)
        (run_text script.now (reading_of finished.now)) }
    ensures front { result ≡ 5 → HasFailed (output K.held K.faults sink.old sink.new)
        × WritesFront (output K.held K.faults sink.old sink.new)
        (run_text script.now (reading_of finished.now)) }
    ensures broken_off { result ≡ 6 → BreaksOff (output K.held K.faults sink.old sink.new)
        (run_text script.now (reading_of finished.now)) memory_line }
    ensures short { result ≡ 0
        → length (report_of script.now (reading_of finished.now)) < 2 ^ 64 }
    ensures statuses { (result ≡ 0) ⊎ ((result ≡ 8) ⊎ ((result ≡ 5) ⊎ (result ≡ 6))) }
    ensures faults { K.faults sink.old ≤ K.faults sink.new }
{
    let full = full_structure(script.structures.items(), finished.transcripts.items());
    let wrote = write_run(alloc, full, script, finished, sink);
    if let Err(Unwritten::NoMemory(cause)) = wrote {
        say_no_memory(cause, sink);
        return 6;
    }
    if full.is_some() {
        return 8;
    }
    match wrote {
        Ok(()) => 0,
        Err(_) => 5,
    }
}

/// Runs a script in this way, writes what is left of the run, and tells the status.
pub(crate) fn reported<R: Threads + Wait + Sync, K: Sink, L: Link, G: Gate>(
    rt: &R,
    alloc: Global,
    way: Way,
    script: &Script,
    sink: &mut K,
    links: &mut Vec<L>,
    gate: &G,
) -> u8
    requires script { IsRunnable script.now }
    requires links { vec_len links.old ≡ LINKS }
    ensures ends { EndsRun (wires L.calls L.downs L.faults links.old.items links.new.items)
        way script.now (output K.held K.faults sink.old sink.new) result }
    ensures statuses { (result ≡ 0) ⊎ ((result ≡ 8) ⊎ ((result ≡ 5) ⊎ (result ≡ 6))) }
    ensures faults { K.faults sink.old ≤ K.faults sink.new }
    ensures count { length links.new.items ≡ length links.old.items }
{
    let finished = match run_over(rt, alloc, way, script, links, gate) {
        Ok(finished) => finished,
        Err(cause) => {
            say_no_memory(cause, sink);
            return 6;
        }
    };
    written(alloc, script, &finished, sink)
}
