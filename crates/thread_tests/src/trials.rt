//! A board with one cache and two connectors, from its start to its history.
ghost use Rattle.std.specs.Prelude.{◌≡◌, ◌≤◌, ◌∷◌, [], IfOk, All};
ghost use Rattle.plex_board.specs.Boards.{IsDeskOf, IsPolicy};
ghost use Rattle.thread_tests.specs.Seats.{HasCache, IsTrial};

use crate::halts::Halt;
use crate::seats::{CACHE, connect};
use crate::trial::Trial;
use plex_board::Desk;
use plex_board::api::History;
use plex_board::links::Steady;
use plex_board::scripts::{AnyHistory, Script, read, well_formed};
use plex_board::types::{AlterCmd, AlterReply, CacheCmd, CacheReply, ConnId, Kind};
use plex_engines::Board;
use std::alloc::Global;
use std::mem::replace;
use std::sync::Wait;

/// One cache, whose vectors have 64 bits, and two connectors.
const POLICY: &str = "FACILITY CF1 100\n\
    STRUCTURE GBP CACHE 8 8 4 64 DELETE\n\
    PREF GBP CF1 40\n\
    CONNECTOR A\n\
    CONNECTOR B\n";

// The policy as a script.
fn policy(alloc: Global) -> Result<Script, Halt>
    ensures { IfOk result (λ script. IsPolicy script) }
{
    let Ok(script) = read(alloc, POLICY.as_bytes()) else {
        return Err(Halt::OtherPolicy);
    };
    well_formed(POLICY.as_bytes(), &script);
    Ok(script)
}

// The desk of the last caller that is left, which is this one.
fn take_desk(board: &Board<Steady>, desks: &mut Vec<Desk>, owner: ConnId) -> Result<Desk, Halt>
    requires { All (IsDeskOf board.now) desks.old.items }
    ensures rest { All (IsDeskOf board.now) desks.new.items }
    ensures of_board { IfOk result (IsDeskOf board.now) }
    ensures owner { IfOk result (λ desk. desk.owner ≡ owner) }
{
    match desks.pop() {
        Some(desk) if desk.owner() == owner => Ok(desk),
        _ => Err(Halt::OtherDesks),
    }
}

// Sees that the board has one structure, a cache whose vectors have bits.
fn check_cache(board: &Board<Steady>) -> Result<(), Halt>
    ensures { IfOk result (λ _. HasCache board.now) }
{
    if board.structures() != 1 || board.kind(CACHE) != Kind::Cache || board.vector(CACHE) == 0 {
        return Err(Halt::OtherPolicy);
    }
    Ok(())
}

/// A board whose journals take `limit` entries, and at which nothing was done yet.
pub fn start(rt: &impl Wait, alloc: Global, limit: u32) -> Result<Trial, Halt>
    requires { (1 ≤ limit) × (limit ≤ 4294967000) }
    ensures { IfOk result IsTrial }
{
    let script = policy(alloc)?;
    if script.connectors.items().len() != 2 {
        return Err(Halt::OtherPolicy);
    }
    let links = vec![in alloc; Steady; 64]?;
    let Ok((board, mut desks)) = Board::start(rt, alloc, &script, limit, links) else {
        return Err(Halt::NoMemory);
    };
    check_cache(&board)?;
    let second = take_desk(&board, &mut desks, ConnId(2))?;
    let first = take_desk(&board, &mut desks, ConnId(1))?;
    let operator = take_desk(&board, &mut desks, ConnId(0))?;
    Ok(Trial {
        board,
        operator,
        first,
        second,
    })
}

/// Such a board at which both connectors are connected, the first by entry 1 of its journal, the
/// second by entry 2.
pub fn start_connected(rt: &impl Wait, alloc: Global, limit: u32) -> Result<Trial, Halt>
    requires { (1 ≤ limit) × (limit ≤ 4294967000) }
    ensures { IfOk result IsTrial }
{
    let Trial {
        board,
        operator,
        mut first,
        mut second,
    } = start(rt, alloc, limit)?;
    connect(rt, alloc, &board, &mut first)?;
    connect(rt, alloc, &board, &mut second)?;
    Ok(Trial {
        board,
        operator,
        first,
        second,
    })
}

// The desks of all callers.
fn desks_of(alloc: Global, operator: Desk, first: Desk, second: Desk) -> Result<Vec<Desk>, Halt>
    ensures { IfOk result (λ desks. desks.items ≡ operator ∷ first ∷ second ∷ []) }
{
    let mut desks = Vec::new(alloc);
    desks.push(operator)?;
    desks.push(first)?;
    desks.push(second)?;
    Ok(desks)
}

/// Ends the board, and answers the history of the cache.
pub fn close(
    rt: &impl Wait,
    alloc: Global,
    trial: Trial,
) -> Result<History<AlterCmd<CacheCmd>, AlterReply<CacheReply>>, Halt>
    requires { IsTrial trial }
{
    let Trial {
        board,
        operator,
        first,
        second,
    } = trial;
    if operator.owner().0 != 0 || first.owner().0 != 1 || second.owner().0 != 2 {
        return Err(Halt::OtherDesks);
    }
    let desks = desks_of(alloc, operator, first, second)?;
    let (mut histories, _) = board.close(rt, desks);
    match histories.pop() {
        Some(AnyHistory::Cache(ref mut history)) => {
            Ok(replace(history, History::from_vec(Vec::new(alloc))))
        }
        _ => Err(Halt::OtherPolicy),
    }
}
