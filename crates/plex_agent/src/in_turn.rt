//! The run of a script on one thread.
ghost use Rattle.std.specs.Prelude.{◌≡◌, ◌≢◌, ◌+◌, ◌<◌, ◌≤◌, IfOk, IfNone, IfSome, IsOkAnd, All, length, map, slice_index_or};
ghost use Rattle.std.specs.Vec.{vec_len};
ghost use Rattle.std.specs.List.{range_with_len};
ghost use Rattle.plex_board.specs.CfTypes.NoMemory.Wants.{want};
ghost use Rattle.plex_board.specs.CfTypes.declared.limits.TheConstants.{CONNECTORS, LINKS};
ghost use Rattle.plex_board.specs.PlexScript.declared.transcripts.AgentEnd.TheVariants as ended;
ghost use Rattle.plex_board.specs.PlexScript.declared.transcripts.Transcript.{Transcript};
ghost use Rattle.plex_board.specs.RunShown.Headline.{ShowsHistories};
ghost use Rattle.plex_board.specs.Runnable.{IsRunnable};
ghost use Rattle.plex_board.specs.RunLinks.{AreRunLinks};
ghost use Rattle.plex_board.specs.Boards.{new_desk};
ghost use Rattle.plex_agent.specs.Standing.{AreDesksOf, IsPlayable};
ghost use Rattle.plex_agent.specs.Played.{IsPlayed};
ghost use Rattle.plex_agent.specs.Exact.{IsSerialRun};

use crate::crew::seat;
use crate::floor::{Floor, nobody};
use plex_board::Desk;
use plex_board::links::Link;
use plex_board::scripts::{AgentEnd, AnyHistory, Script, Transcript};
use plex_board::types::{Listing, NoMemory};
use plex_engines::Board;
use std::alloc::Global;
use std::mem::drop;
use std::sync::Wait;

/// What a run leaves: the history of each structure, and the transcript of each caller, from the
/// operator on.
#[derive(Drop)]
pub struct Finished {
    pub histories: Listing<AnyHistory>,
    pub transcripts: Listing<Transcript>,
}

// The first caller whose work ended for want of memory.
fn first_broken(transcripts: &[Transcript]) -> Option<usize>
    ensures none { IfNone result
        (All (λ transcript. transcript.end ≢ ended.NoMemory want) transcripts.now) }
    ensures some { IfSome result (λ place. (place < length transcripts.now)
        × ((d : Transcript) → (slice_index_or transcripts.now place d).end
        ≡ ended.NoMemory want)) }
{
    for place in 0..transcripts.len() {
        if matches!(transcripts[place].end, AgentEnd::NoMemory(_)) {
            return Some(place);
        }
    }
    None
}

// The want of memory for which a caller's work ended.
fn cause_of(broken: Transcript) -> NoMemory
    requires { broken.end ≡ ended.NoMemory want }
{
    match broken.end {
        AgentEnd::NoMemory(cause) => cause,
        AgentEnd::Done | AgentEnd::JournalFull { .. } => unreachable!(),
    }
}

/// A run, of what the callers were shown and of the histories, unless some caller's work ended for
/// want of memory.
pub(crate) fn finish(
    shown: Result<Vec<Transcript>, NoMemory>,
    histories: Vec<AnyHistory>,
) -> Result<Finished, NoMemory>
    ensures histories { IfOk result (λ it. it.histories ≡ histories.items) }
    ensures transcripts { IfOk result
        (λ it. IsOkAnd shown (λ transcripts. it.transcripts ≡ transcripts.items)) }
    ensures had_memory { IfOk result
        (λ it. All (λ transcript. transcript.end ≢ ended.NoMemory want) it.transcripts) }
{
    let mut transcripts = shown?;
    if let Some(place) = first_broken(&transcripts) {
        return Err(cause_of(transcripts.swap_remove(place)));
    }
    Ok(Finished {
        histories: Listing::from_vec(histories),
        transcripts: Listing::from_vec(transcripts),
    })
}

// Plays a script to its end at a board. The desks come back also where there was no memory.
fn play<L: Link>(
    rt: &impl Wait,
    alloc: Global,
    script: &Script,
    board: &Board<L>,
    desks: Vec<Desk>,
) -> (Result<Vec<Transcript>, NoMemory>, Vec<Desk>)
    requires desks { desks.items
        ≡ map (new_desk board.now) (range_with_len 0 (board.now.callers + 1)) }
    requires few { board.now.callers ≤ CONNECTORS }
    requires lines { All (IsPlayable board.now) script.now.lines }
    requires connectors { board.now.callers ≡ length script.now.connectors }
    ensures played { IfOk result.0
        (λ shown. IsPlayed board.now script.now result.1.items shown.items) }
    ensures of_board { AreDesksOf board.now result.1.items }
{
    let tray = match board.new_tray(alloc) {
        Ok(tray) => tray,
        Err(cause) => return (Err(cause), desks),
    };
    let last = match nobody(alloc, board.structures()) {
        Ok(last) => last,
        Err(cause) => return (Err(cause), desks),
    };
    let (workers, room) = match seat(alloc, desks) {
        Ok(seated) => seated,
        Err((desks, cause)) => return (Err(cause), desks),
    };
    let mut floor = Floor {
        workers,
        tray,
        last,
    };
    let played = floor.play(rt, alloc, board, script);
    let Floor {
        workers,
        tray,
        last,
    } = floor;
    drop(tray);
    drop(last);
    let (desks, shown) = room.part(workers);
    match played {
        Ok(()) => (Ok(shown), desks),
        Err(cause) => (Err(cause), desks),
    }
}

/// Runs a script on one thread: its lines in their order, then the departures of the connectors in
/// number order. A journal of `limit` entries or more takes no call; the caller whose call comes to
/// one stops. There are 64 links: structure `s`, from 0, has the links `4 * s` to `4 * s + 3`, one
/// to each facility. They come back in their order, also where there was no memory.
pub fn serial<L: Link>(
    rt: &impl Wait,
    alloc: Global,
    limit: u32,
    script: &Script,
    links: Vec<L>,
) -> (Result<Finished, NoMemory>, Vec<L>)
    requires script { IsRunnable script.now }
    requires limit { (1 ≤ limit) × (limit ≤ 4294967000) }
    requires links { vec_len links ≡ LINKS }
    // Where the links tell which calls they answer Down, it is the run over links that tell so.
    ensures exact { IsSerialRun L.calls L.downs L.faults limit script.now links.items result.0 }
    // It is one of the schedules that the callers' law speaks of: a legal history of each
    // structure, each caller's calls in it once and in their order, transcripts that follow the
    // script, and tests that tell what stood.
    ensures shows { IfOk result.0 (λ it.
        ShowsHistories limit script.now it.histories it.transcripts) }
    // The links of each structure were asked as its history tells.
    ensures asked { IfOk result.0 (λ it. AreRunLinks L.calls L.downs L.faults
        script.now.structures it.histories links.items result.1.items) }
    ensures count { length result.1.items ≡ length links.items }
{
    let (board, desks) = match Board::start(rt, alloc, script, limit, links) {
        Ok(begun) => begun,
        Err((links, cause)) => return (Err(cause), links),
    };
    let (shown, desks) = play(rt, alloc, script, &board, desks);
    let (histories, links) = board.close(rt, desks);
    (finish(shown, histories), links)
}
