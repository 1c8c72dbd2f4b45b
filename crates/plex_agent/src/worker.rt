//! One caller of a script.
ghost use Rattle.std.specs.Prelude.{◌≡◌, All};
ghost use Rattle.plex_board.specs.Turns.{is_done_as};
ghost use Rattle.plex_board.specs.Callers.{IsLineFor};
ghost use Rattle.plex_agent.specs.Crews.{IsIdle, Works, idle_worker};

use crate::agent::serve;
use plex_board::Desk;
use plex_board::links::Link;
use plex_board::scripts::{AgentEnd, Gate, Line, Transcript};
use plex_board::types::Listing;
use plex_engines::Board;
use std::alloc::Global;
use std::marker::Model;
use std::sync::Wait;

/// A caller at work: its desk, and what it was shown. It may go to another thread.
#[derive(Drop)]
pub struct Worker {
    pub(crate) desk: Desk,
    pub(crate) shown: Transcript,
}

impl Model for Worker {
    ghost use Rattle.plex_board.specs.Turns.{AtWork};

    ghost Value = { AtWork };

    ghost view = { λ w. record { desk = w.desk; shown = w.shown } };
}

impl Worker {
    /// A caller that has done nothing yet. It takes no memory.
    pub(crate) fn new(alloc: Global, desk: Desk) -> Worker
        ensures { result ≡ idle_worker desk }
    {
        Worker {
            desk,
            shown: Transcript {
                items: Listing::new(alloc),
                end: AgentEnd::Done,
            },
        }
    }

    /// Whether the caller's work goes on.
    pub(crate) fn is_working(&self) -> bool
        ensures { result ≡ is_done_as self.now.shown.end }
    {
        matches!(self.shown.end, AgentEnd::Done)
    }

    /// The caller does its lines among these, in their order, and then its departures.
    pub(crate) fn work<L: Link, G: Gate>(
        &mut self,
        rt: &impl Wait,
        alloc: Global,
        lines: &[Line],
        board: &Board<L>,
        gate: &G,
    )
        requires idle { IsIdle board.now self.old }
        requires lines { All (IsLineFor board.now) lines.now }
        ensures { Works board.now lines.now self.old self.new }
    {
        self.shown = serve(rt, alloc, lines, &mut self.desk, board, gate);
    }
}
