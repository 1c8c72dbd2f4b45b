//! Loads: the run of a script that is made from a number, and what is told of it.
ghost use Rattle.std.specs.Prelude.{◌≡◌, ◌⊎◌, ◌≤◌, IfOk, length};
ghost use Rattle.std.specs.Vec.{vec_len};
ghost use Rattle.plex_load.specs.CfTypes.declared.limits.TheConstants.{LINKS};
ghost use Rattle.plex_run.specs.Wires.{wires};
ghost use Rattle.plex_run.specs.StatusLines.{memory_line};
ghost use Rattle.plex_run.specs.Written.{output, HasFailed, Writes, WritesFront, Gains};
ghost use Rattle.plex_run.specs.Outcome.{reading_of};
ghost use Rattle.plex_run.specs.Loading.{summary_of, IsLoadRun, EndsLoad};

use crate::running::run_over;
use crate::way::Way;
use crate::writing::say_no_memory;
use plex_agent::links::Link;
use plex_agent::sources::{Sink, write_all};
use plex_agent::{Finished, Gate};
use plex_load::types::NoMemory;
use plex_load::{make, summary};
use run_laws::{valid_is_fresh, within_script};
use std::alloc::Global;
use std::sync::Wait;
use std::thread::Threads;

// Runs the script that a number makes on threads over these links, and puts them back.
fn run_load<R: Threads + Wait + Sync, L: Link, G: Gate>(
    rt: &R,
    alloc: Global,
    n: u32,
    links: &mut Vec<L>,
    gate: &G,
) -> Result<Finished, NoMemory>
    requires links { vec_len links.old ≡ LINKS }
    ensures run { IfOk result (λ it. IsLoadRun (wires L.calls L.downs L.faults links.old.items
        links.new.items) n (reading_of it)) }
    ensures count { length links.new.items ≡ length links.old.items }
{
    valid_is_fresh();
    within_script();
    let script = make(alloc, n)?;
    run_over(rt, alloc, Way::OnThreads, &script, links, gate)
}

// Writes the summary of a load's run, and tells the status.
fn summed<K: Sink>(alloc: Global, n: u32, finished: &Finished, sink: &mut K) -> u8
    ensures done { result ≡ 0 → Writes (output K.held K.faults sink.old sink.new)
        (summary_of n (reading_of finished.now)) }
    ensures front { result ≡ 5 → HasFailed (output K.held K.faults sink.old sink.new)
        × WritesFront (output K.held K.faults sink.old sink.new)
        (summary_of n (reading_of finished.now)) }
    ensures no_memory { result ≡ 6 → Gains (output K.held K.faults sink.old sink.new)
        memory_line }
    ensures statuses { (result ≡ 0) ⊎ ((result ≡ 5) ⊎ (result ≡ 6)) }
    ensures faults { K.faults sink.old ≤ K.faults sink.new }
{
    let histories = finished.histories.items();
    let transcripts = finished.transcripts.items();
    let text = match summary(alloc, n, histories, transcripts) {
        Ok(text) => text,
        Err(cause) => {
            say_no_memory(cause, sink);
            return 6;
        }
    };
    match write_all(sink, &text) {
        Ok(()) => 0,
        Err(_) => 5,
    }
}

/// Runs the load of `n`: the script that `n` makes (`plex_load::make`) is run on threads over these
/// links, which are put back, and its summary (`plex_load::summary`) is written. Tells the status:
/// 0, 5 or 6.
#[tactic(auto, using(crate::proofs::LoadRunLaws::load_without_memory, crate::proofs::LoadRunLaws::load_ends))]
pub(crate) fn loaded<R: Threads + Wait + Sync, K: Sink, L: Link, G: Gate>(
    rt: &R,
    alloc: Global,
    n: u32,
    sink: &mut K,
    links: &mut Vec<L>,
    gate: &G,
) -> u8
    requires links { vec_len links.old ≡ LINKS }
    ensures ends { EndsLoad (wires L.calls L.downs L.faults links.old.items links.new.items) n
        (output K.held K.faults sink.old sink.new) result }
    ensures write_fault { result ≡ 5 → HasFailed (output K.held K.faults sink.old sink.new) }
    ensures no_memory { result ≡ 6 → Gains (output K.held K.faults sink.old sink.new)
        memory_line }
    ensures statuses { (result ≡ 0) ⊎ ((result ≡ 5) ⊎ (result ≡ 6)) }
    ensures faults { K.faults sink.old ≤ K.faults sink.new }
    ensures count { length links.new.items ≡ length links.old.items }
{
    let finished = match run_load(rt, alloc, n, links, gate) {
        Ok(finished) => finished,
        Err(cause) => {
            say_no_memory(cause, sink);
            return 6;
        }
    };
    summed(alloc, n, &finished, sink)
}
