//! The structures of a policy.
ghost use Rattle.std.specs.Prelude.{◌≡◌, ◌↔◌, ◌+◌, ◌≤◌, IfOk, IfErr, IfSome, IsSome, IsTrue, All, length, map};
ghost use Rattle.std.specs.List.{range_with_len};
ghost use Rattle.plex_board.specs.PlexScript.Scripts.{IsScript};
ghost use Rattle.plex_board.specs.PlexScript.Reading.{TellsFault};
ghost use Rattle.plex_board.specs.Boards.{IsPolicy, IsStarted, IsDeskOf, AreClosed, new_desk};

use plex_board::links::Steady;
use plex_board::scripts::{AnyHistory, ReadFault, Script, read, well_formed};
use plex_board::types::NoMemory;
use plex_board::{Board, Desk, Kinds};
use std::alloc::Global;
use std::marker::Model;
use std::sync::Wait;

/// How many links there are to the facilities: four for each of 16 structures.
const LINKS: usize = 64;

/// The script that a text is, which states a policy. The fault is the first line that is wrong, or
/// want of memory.
pub fn policy(alloc: Global, text: &[u8]) -> Result<Script, ReadFault>
    ensures script { IfOk result (IsScript text.now) }
    ensures policy { IfOk result (λ script. IsPolicy script) }
    ensures fault { IfErr result (TellsFault text.now) }
{
    match read(alloc, text) {
        Ok(script) => {
            well_formed(text, &script);
            Ok(script)
        }
        Err(fault) => Err(fault),
    }
}

/// The structures of a policy, which members share by `&`, over links that are never down.
/// Contracts see the board.
pub struct Plex<K: Kinds> {
    pub(crate) board: Board<K, Steady>,
    count: usize,
}

impl<K: Kinds> Model for Plex<K> {
    ghost use Rattle.std.specs.Prelude.{◌≡◌, ◌+◌};
    ghost use Rattle.plex_board.specs.CfLink.declared.steady.Steady.{Steady};
    ghost use Rattle.plex_board.specs.Boards.{BoardShown};

    ghost Value = { BoardShown Steady };

    ghost view = { λ plex. plex.board };

    ghost invariant = { λ plex. plex.board.callers + 1 ≡ plex.count };
}

impl<K: Kinds> Drop for Plex<K> {
    fn drop(self) {
        let Plex { board: _, count: _ } = self;
    }
}

impl<K: Kinds> Plex<K> {
    /// The structures of a policy, and a desk for each caller: the operator's, and then the
    /// connectors' in their order. A call is made where its structure's journal has fewer than
    /// `calls` entries.
    pub fn open(
        rt: &impl Wait,
        alloc: Global,
        script: &Script,
        calls: u32,
    ) -> Result<(Plex<K>, Vec<Desk>), NoMemory>
        requires policy { IsPolicy script.now }
        requires calls { (1 ≤ calls) × (calls ≤ 4294967000) }
        ensures forms { IfOk result (λ r. map (λ cell. cell.form) r.0.cells
            ≡ script.now.structures) }
        ensures cells { IfOk result (λ r. All
            (IsStarted (length script.now.connectors) calls) r.0.cells) }
        ensures callers { IfOk result (λ r. r.0.callers ≡ length script.now.connectors) }
        ensures desks { IfOk result (λ r. All (IsDeskOf r.0) r.1.items) }
        ensures new { IfOk result (λ r. r.1.items
            ≡ map (new_desk r.0) (range_with_len 0 (length script.now.connectors + 1))) }
    {
        let links = vec![in alloc; Steady; LINKS]?;
        match Board::start(rt, alloc, script, calls, links) {
            Ok((board, desks)) => {
                let count = desks.len();
                Ok((Plex { board, count }, desks))
            }
            Err((_, cause)) => Err(cause),
        }
    }

    /// The board, for what no seat asks.
    pub fn board(&self) -> &Board<K, Steady>
        ensures { result.now ≡ self.now }
    {
        &self.board
    }

    /// Ends the structures: the history of each. There is none exactly where the desks aren't one
    /// for each caller, in order from the operator's.
    pub fn close(self, rt: &impl Wait, desks: Vec<Desk>) -> Option<Vec<AnyHistory>>
        requires { All (IsDeskOf self) desks.items }
        ensures exactly { IsSome result
            ↔ (map (λ desk. desk.owner.0) desks.items ≡ range_with_len 0 (self.callers + 1)) }
        ensures closed { IfSome result
            (λ histories. AreClosed self desks.items histories.items) }
    {
        let Plex { board, count } = self;
        if are_all(count, desks.as_slice()) {
            let (histories, _) = board.close(rt, desks);
            Some(histories)
        } else {
            None
        }
    }
}

// Whether these are so many desks, those of the callers in order, from the operator on.
fn are_all(count: usize, desks: &[Desk]) -> bool
    ensures { IsTrue result
        ↔ (map (λ desk. desk.owner.0) desks.now ≡ range_with_len 0 count) }
{
    let mut next = 0usize;
    for desk in desks {
        if usize::from(desk.owner().0) != next {
            return false;
        }
        next += 1;
    }
    next == count
}
