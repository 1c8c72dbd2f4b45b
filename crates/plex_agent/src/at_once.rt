//! The run of a script on threads.
ghost use Rattle.std.specs.Prelude.{◌≡◌, ◌+◌, ◌<◌, ◌≤◌, IfOk, All, length, map};
ghost use Rattle.std.specs.Vec.{vec_len};
ghost use Rattle.std.specs.List.{range_with_len};
ghost use Rattle.plex_board.specs.CfTypes.declared.limits.TheConstants.{CONNECTORS, LINKS};
ghost use Rattle.plex_board.specs.Runnable.{IsRunnable};
ghost use Rattle.plex_board.specs.RunShown.Headline.{ShowsHistories};
ghost use Rattle.plex_board.specs.RunLinks.{AreRunLinks};
ghost use Rattle.plex_board.specs.Boards.{new_desk};
ghost use Rattle.plex_board.specs.Callers.{IsLineFor};
ghost use Rattle.plex_agent.specs.Standing.{AreDesksOf, IsPlayable};
ghost use Rattle.plex_agent.specs.Crews.{IsIdle, Works, WorkEach, IsServed};

use crate::crew::seat;
use crate::in_turn::{Finished, finish};
use crate::worker::Worker;
use plex_board::Desk;
use plex_board::links::Link;
use plex_board::scripts::{Gate, Line, Script, Transcript};
use plex_board::types::NoMemory;
use plex_engines::Board;
use std::alloc::Global;
use std::sync::Wait;
use std::thread;
use std::thread::Threads;

// Each of the workers does its lines and its departures, on at most this many threads.
fn work_all<R: Threads + Wait + Sync, L: Link, G: Gate>(
    rt: &R,
    alloc: Global,
    lines: &[Line],
    board: &Board<L>,
    gate: &G,
    threads: usize,
    workers: &mut [Worker],
)
    requires threads { 0 < threads }
    requires workers { All (IsIdle board.now) workers.old }
    requires lines { All (IsLineFor board.now) lines.now }
    ensures { WorkEach board.now lines.now workers.old workers.new }
{
    thread::for_each_mut(
        rt,
        workers,
        threads,
        &|_, worker: &mut Worker|
            requires { All (IsLineFor board.now) lines.now × IsIdle board.now worker.now }
            ensures { Works board.entry.now lines.entry.now worker.entry.now worker.exit.now }
        { worker.work(rt, alloc, lines, board, gate) },
    );
}

// Each caller does its lines, in their order, and then its departures, on a thread of its own where
// threads can be made. Where none can be made the callers work one after another. The desks come
// back also where there was no memory.
fn work<R: Threads + Wait + Sync, L: Link, G: Gate>(
    rt: &R,
    alloc: Global,
    script: &Script,
    board: &Board<L>,
    desks: Vec<Desk>,
    gate: &G,
) -> (Result<Vec<Transcript>, NoMemory>, Vec<Desk>)
    requires desks { desks.items
        ≡ map (new_desk board.now) (range_with_len 0 (board.now.callers + 1)) }
    requires few { board.now.callers ≤ CONNECTORS }
    requires lines { All (IsPlayable board.now) script.now.lines }
    ensures served { IfOk result.0
        (λ shown. IsServed board.now script.now.lines result.1.items shown.items) }
    ensures of_board { AreDesksOf board.now result.1.items }
{
    let (mut workers, room) = match seat(alloc, desks) {
        Ok(seated) => seated,
        Err((desks, cause)) => return (Err(cause), desks),
    };
    let callers = workers.len();
    work_all(
        rt,
        alloc,
        script.lines.items(),
        board,
        gate,
        callers,
        workers.as_mut_slice(),
    );
    let (desks, shown) = room.part(workers);
    (Ok(shown), desks)
}

/// Runs a script with a worker for each caller, the operator's among them, each on a thread of its
/// own where threads can be made: it does the caller's lines in their order, and then its
/// departures. A journal of `limit` entries or more takes no call; the caller whose call comes to
/// one stops. The gate is told of each line before and after it. There are 64 links: structure `s`,
/// from 0, has the links `4 * s` to `4 * s + 3`, one to each facility. They come back in their
/// order, also where there was no memory.
pub fn threads<R: Threads + Wait + Sync, L: Link, G: Gate>(
    rt: &R,
    alloc: Global,
    limit: u32,
    script: &Script,
    links: Vec<L>,
    gate: &G,
) -> (Result<Finished, NoMemory>, Vec<L>)
    requires script { IsRunnable script.now }
    requires limit { (1 ≤ limit) × (limit ≤ 4294967000) }
    requires links { vec_len links ≡ LINKS }
    // Whatever the schedule was: a legal history of each structure, each caller's calls in it once
    // and in their order, transcripts that follow the script, and tests that tell what stood.
    ensures shows { IfOk result.0 (λ it.
        ShowsHistories limit script.now it.histories it.transcripts) }
    // The links of each structure were asked as its history tells.
    ensures asked { IfOk result.0 (λ it. AreRunLinks L.calls L.downs L.faults
        script.now.structures it.histories links.items result.1.items) }
    ensures count { length result.1.items ≡ length links.items }
{
    let (board, desks) = match Board::start(rt, alloc, script, limit, links) {
        Ok(begun) => begun,
        Err((links, cause)) => return (Err(cause), links),
    };
    let (shown, desks) = work(rt, alloc, script, &board, desks, gate);
    let (histories, links) = board.close(rt, desks);
    (finish(shown, histories), links)
}
