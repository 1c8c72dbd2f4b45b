//! Locks: a script's lock requests, done in words, and what is told of them.
ghost use Rattle.std.specs.Prelude.{◌≡◌, ◌⊎◌, ◌≤◌, ◌<◌, length, IfOk, IfErr, IfSome};
ghost use Rattle.std.specs.Io.KnownBytes.{IsAtEnd};
ghost use Rattle.plex_agent.specs.CfIo.Count.{Rises};
ghost use Rattle.plex_locks.specs.Told.{locks_text};
ghost use Rattle.plex_run.specs.StatusLines.{memory_line};
ghost use Rattle.plex_run.specs.Written.{output, HasFailed, Writes, WritesFront, Gains};
ghost use Rattle.plex_run.specs.Outcome.{script_limit, status_line};
ghost use Rattle.plex_run.specs.Statuses.{OfText};
ghost use Rattle.plex_run.specs.Locks.{IsTaken, TellsUntaken, EndsLocks};

use crate::program::{SCRIPT_LIMIT, refused};
use crate::status_lines::why_text;
use crate::writing::{say_no_memory, say_unread, script_too_long};
use plex_agent::Gate;
use plex_agent::sources::{Sink, Source, read_all, write_all};
use plex_load::scripts::{ReadFault, Script, Why, never_both, one_script, read, well_formed};
use plex_load::types::NoMemory;
use plex_locks::{Locked, first_other, locked, locks_text};
use std::alloc::Global;
use std::thread::Threads;

/// Why a text isn't taken.
#[derive(Drop)]
pub(crate) enum Untaken {
    /// The first faulty line, from 1, and what is wrong with it.
    Fault { line: u32, why: Why },
    /// The first line of a script that lock words can't do.
    NotWords { line: u32 },
    /// There was no memory for the script.
    NoMemory(NoMemory),
}

// The script that a text says, where lock words can do all of it.
fn taken(alloc: Global, text: &[u8]) -> Result<Script, Untaken>
    ensures taken { IfOk result (IsTaken text.now) }
    ensures untaken { IfErr result (TellsUntaken text.now) }
{
    let script = match read(alloc, text) {
        Ok(script) => script,
        Err(ReadFault::Script { line, why }) => return Err(Untaken::Fault { line, why }),
        Err(ReadFault::NoMemory(cause)) => return Err(Untaken::NoMemory(cause)),
    };
    match first_other(text, &script) {
        Some(line) => Err(Untaken::NotWords { line }),
        None => Ok(script),
    }
}

// Writes what became of a script's locks, and tells the status.
fn written<K: Sink>(alloc: Global, script: &Script, told: &Locked, sink: &mut K) -> u8
    ensures done { result ≡ 0 → Writes (output K.held K.faults sink.old sink.new)
        (locks_text script.now told.now) }
    ensures front { result ≡ 5 → HasFailed (output K.held K.faults sink.old sink.new)
        × WritesFront (output K.held K.faults sink.old sink.new)
        (locks_text script.now told.now) }
    ensures no_memory { result ≡ 6 → Gains (output K.held K.faults sink.old sink.new)
        memory_line }
    ensures statuses { (result ≡ 0) ⊎ ((result ≡ 5) ⊎ (result ≡ 6)) }
    ensures faults { K.faults sink.old ≤ K.faults sink.new }
{
    let text = match locks_text(alloc, script, told) {
        Ok(text) => text,
        Err(cause) => {
            say_no_memory(cause, sink);
            return 6;
        }
    };
    match write_all(sink, &text) {
        Ok(()) => 0,
        Err(_) => 5,
    }
}

// Reads a script out of a text, does its locks in words, and writes what became of them.
fn locked_text<R: Threads + Sync, K: Sink, G: Gate>(
    rt: &R,
    alloc: Global,
    text: &[u8],
    sink: &mut K,
    gate: &G,
) -> u8
    requires text { length text.now ≤ script_limit }
    ensures ends { EndsLocks text.now (output K.held K.faults sink.old sink.new) result }
    ensures write_fault { result ≡ 5 → HasFailed (output K.held K.faults sink.old sink.new) }
    ensures no_memory { result ≡ 6 → Gains (output K.held K.faults sink.old sink.new)
        memory_line }
    ensures statuses { (result ≡ 0) ⊎ ((result ≡ 5) ⊎ ((result ≡ 6) ⊎ (result ≡ 3))) }
    ensures faults { K.faults sink.old ≤ K.faults sink.new }
{
    one_script();
    never_both();
    let script = match taken(alloc, text) {
        Ok(script) => script,
        Err(Untaken::Fault { line, why }) => return refused(alloc, line, why_text(why), sink),
        Err(Untaken::NotWords { line }) => return refused(alloc, line, b"NOTWORDS", sink),
        Err(Untaken::NoMemory(cause)) => {
            say_no_memory(cause, sink);
            return 6;
        }
    };
    well_formed(text, &script);
    let told = match locked(rt, alloc, &script, gate) {
        Ok(told) => told,
        Err(cause) => {
            say_no_memory(cause, sink);
            return 6;
        }
    };
    written(alloc, &script, &told, sink)
}

/// Does the locks of the script that comes from a source, in words (`plex_locks::locked`), and
/// writes what became of them (`plex_locks::locks_text`). Tells the status: 0, 3, 4, 5, 6 or 7.
pub(crate) fn locked_in<R: Threads + Sync, S: Source, K: Sink, G: Gate>(
    rt: &R,
    alloc: Global,
    source: &mut S,
    sink: &mut K,
    gate: &G,
) -> u8
    ensures ends { OfText (S.left source.old)
        (λ text. EndsLocks text (output K.held K.faults sink.old sink.new) result) }
    ensures read_fault { result ≡ 4 → Rises (S.faults source.old) (S.faults source.new) }
    ensures write_fault { result ≡ 5 → HasFailed (output K.held K.faults sink.old sink.new) }
    ensures no_memory { result ≡ 6 → Gains (output K.held K.faults sink.old sink.new)
        memory_line }
    ensures too_long { result ≡ 7 → IfSome (S.left source.old)
        (λ text. script_limit < length text) }
    ensures line { IfSome (status_line result)
        (Gains (output K.held K.faults sink.old sink.new)) }
    ensures statuses { (result ≡ 0) ⊎ ((result ≡ 5) ⊎ ((result ≡ 6) ⊎ ((result ≡ 3)
        ⊎ ((result ≡ 4) ⊎ (result ≡ 7))))) }
    ensures at_end { (result ≡ 0) ⊎ ((result ≡ 3) ⊎ (result ≡ 5))
        → IsAtEnd (S.left source.new) }
    ensures source_faults { S.faults source.old ≤ S.faults source.new }
    ensures sink_faults { K.faults sink.old ≤ K.faults sink.new }
{
    let text = match read_all(alloc, source, SCRIPT_LIMIT) {
        Ok(text) => text,
        Err(end) => return say_unread(end, script_too_long(), sink),
    };
    locked_text(rt, alloc, &text, sink, gate)
}
