//! The lines of a script, done by lock words.
ghost use Rattle.std.specs.Prelude.{◌≡◌, ◌≤◌, ◌<◌, [], IfOk, All, Some, map, length, replicate, slice_get};
ghost use Rattle.plex_script.specs.CfTypes.declared.limits.TheConstants.{CONNECTORS};
ghost use Rattle.plex_script.specs.WellFormed.{IsWellFormed};
ghost use Rattle.plex_locks.specs.Work.{AreIdle, IsReady, HasWorked, HaveWorked};
ghost use Rattle.plex_locks.specs.Told.{IsLocked, told_of, none_told, entries_of};

use crate::told::{HandTold, Locked};
use crate::worker::Worker;
use lock_words::{Hand, LockWords};
use plex_script::types::{ConnId, Listing, Name16, NoMemory, StrForm};
use plex_script::{Gate, Line, Script};
use std::alloc::Global;
use std::thread;
use std::thread::Threads;

// The connector at this place.
fn name_at(connectors: &[Name16], place: u8) -> Name16
    requires { place < length connectors.now }
    ensures { slice_get connectors.now place ≡ Some result }
{
    connectors[place as usize]
}

// The connectors of a script, each with its hand.
fn workers_of(
    alloc: Global,
    connectors: &[Name16],
    lines: &[Line],
    hands: Vec<Hand>,
) -> Result<Vec<Worker>, NoMemory>
    requires count { length hands.items ≡ length connectors.now }
    requires few { length connectors.now ≤ CONNECTORS }
    ensures { IfOk result (λ workers.
        AreIdle connectors.now lines.now hands.items workers.items) }
{
    let mut workers = Vec::with_capacity(alloc, hands.len())?;
    let mut place = 0u8;
    for hand in hands {
        let name = name_at(connectors, place);
        place += 1;
        let worker = Worker::new(alloc, name, ConnId(place), hand, lines)?;
        workers.push(worker)?;
    }
    Ok(workers)
}

// Each of the workers does its tasks, on at most this many threads.
fn work_all<R: Threads + Sync, G: Gate>(
    rt: &R,
    entries: u32,
    locks: &LockWords,
    gate: &G,
    threads: usize,
    workers: &mut [Worker],
)
    requires threads { 0 < threads }
    requires entries { (entries ≡ locks.now.words) × (0 < entries) }
    requires ready { All (IsReady locks.now) workers.old }
    requires new { All (λ worker. worker.done ≡ []) workers.old }
    ensures { HaveWorked locks.now workers.old workers.new }
{
    thread::for_each_mut(
        rt,
        workers,
        threads,
        &|_, worker: &mut Worker|
            requires { (entries ≡ locks.now.words) × (0 < entries)
                × IsReady locks.now worker.now × (worker.now.done ≡ []) }
            ensures { HasWorked locks.entry.now worker.entry.now worker.exit.now }
        { worker.work(entries, locks, gate) },
    );
}

// Each of the workers does its tasks, on a thread of its own where threads can be made.
fn work_each<R: Threads + Sync, G: Gate>(
    rt: &R,
    entries: u32,
    locks: &LockWords,
    gate: &G,
    workers: &mut Vec<Worker>,
)
    requires callers { 0 < length workers.old.items }
    requires entries { (entries ≡ locks.now.words) × (0 < entries) }
    requires ready { All (IsReady locks.now) workers.old.items }
    requires new { All (λ worker. worker.done ≡ []) workers.old.items }
    ensures { HaveWorked locks.now workers.old.items workers.new.items }
{
    let threads = workers.len();
    work_all(rt, entries, locks, gate, threads, workers.as_mut_slice());
}

// The hands of all workers, and what became of what each did.
fn part(alloc: Global, workers: Vec<Worker>) -> Result<(Vec<Hand>, Vec<HandTold>), NoMemory>
    ensures hands { IfOk result (λ r. r.0.items ≡ map (λ worker. worker.hand) workers.items) }
    ensures told { IfOk result (λ r. r.1.items ≡ map told_of workers.items) }
{
    let mut hands = Vec::with_capacity(alloc, workers.len())?;
    let mut told = Vec::with_capacity(alloc, workers.len())?;
    for worker in workers {
        let Worker {
            name,
            by: _,
            hand,
            tasks: _,
            done,
        } = worker;
        hands.push(hand)?;
        told.push(HandTold {
            name,
            done: Listing::from_vec(done),
        })?;
    }
    Ok((hands, told))
}

// How many lock words there are: as many as the structure has table entries.
fn entries_of(structures: &[StrForm]) -> u32
    ensures { result ≡ entries_of structures.now }
{
    match structures {
        [form, ..] => form.caps.entries,
        [] => 0,
    }
}

// What is told where nobody does anything.
fn none_done(alloc: Global, connectors: &[Name16], entries: u32) -> Result<Locked, NoMemory>
    ensures hands { IfOk result (λ told. told.hands ≡ map none_told connectors.now) }
    ensures words { IfOk result (λ told. told.words ≡ replicate entries 0) }
{
    let mut hands = Vec::new(alloc);
    for name in connectors {
        hands.push(HandTold {
            name: *name,
            done: Listing::new(alloc),
        })?;
    }
    let words = vec![in alloc; 0u64; entries as usize]?;
    Ok(Locked {
        hands: Listing::from_vec(hands),
        words: Listing::from_vec(words),
    })
}

// The connectors do their lines, each on a thread of its own where threads can be made.
#[tactic(auto, using(crate::proofs::ToldLaws::idlers_told))]
fn all_done<R: Threads + Sync, G: Gate>(
    rt: &R,
    alloc: Global,
    script: &Script,
    entries: u32,
    callers: u8,
    gate: &G,
) -> Result<Locked, NoMemory>
    requires callers { (0 < callers) × (callers ≤ CONNECTORS)
        × (callers ≡ length script.now.connectors) }
    requires entries { (0 < entries) × (entries ≡ entries_of script.now.structures) }
    ensures { IfOk result (IsLocked script.now) }
{
    let (locks, hands) = LockWords::start(alloc, entries, callers)?;
    let connectors = script.connectors.items();
    let mut workers = workers_of(alloc, connectors, script.lines.items(), hands)?;
    work_each(rt, entries, &locks, gate, &mut workers);
    let (hands, told) = part(alloc, workers)?;
    let words = locks.close(hands);
    Ok(Locked {
        hands: Listing::from_vec(told),
        words: Listing::from_vec(words),
    })
}

/// Does a script's lines that obtain and release locks, with a worker for each connector, each on
/// a thread of its own where threads can be made. The lock of a resource is the word whose number
/// is the resource's hash value modulo the structure's table entries. The gate is told of each line
/// before and after it.
///
/// Of what is told it holds: each connector did its lines in their order. It is told that it held a
/// word, or didn't, exactly where its own earlier outcomes say so. A word that is told to be
/// contended, or raced for, was granted to another connector; one that is contended, in the state
/// that is told. In the end each word has the value of what the outcomes leave held, and these
/// locks are compatible.
///
/// # Errors
///
/// `NoMemory` where there is no memory for the words, the hands and what is told of them.
#[tactic(auto, using(crate::proofs::ToldLaws::nobody_told))]
pub fn locked<R: Threads + Sync, G: Gate>(
    rt: &R,
    alloc: Global,
    script: &Script,
    gate: &G,
) -> Result<Locked, NoMemory>
    requires { IsWellFormed script.now }
    ensures { IfOk result (IsLocked script.now) }
{
    let connectors = script.connectors.items();
    let entries = entries_of(script.structures.items());
    if connectors.is_empty() || entries == 0 {
        return none_done(alloc, connectors, entries);
    }
    let callers = connectors.len() as u8;
    all_done(rt, alloc, script, entries, callers, gate)
}
