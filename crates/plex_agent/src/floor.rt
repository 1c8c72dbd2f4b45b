//! The callers of a script, at work one after another.
ghost use Rattle.std.specs.Prelude.{◌≡◌, ◌<◌, ◌≤◌, None, Some, IfOk, OnOk, All, length, replicate, slice_set};
ghost use Rattle.plex_board.specs.CfTypes.Forms.{IsConnector};
ghost use Rattle.plex_board.specs.CfTypes.declared.forms.StrForm.{StrForm};
ghost use Rattle.plex_board.specs.PlexScript.declared.scripts.Act.TheVariants as act;
ghost use Rattle.plex_board.specs.Floors.{PlaysLine, ClosesOne, Plays, new_floor, with_worker, heard_from_last, worker_of, is_counted, is_working};
ghost use Rattle.plex_board.specs.Serial.{connectors};
ghost use Rattle.plex_agent.specs.Standing.{IsFloorOf, IsTurn, IsPlayable, TakesTurn, PlaysActOn};

use crate::agent::{closing, turn};
use crate::worker::Worker;
use plex_board::Tray;
use plex_board::links::Link;
use plex_board::scripts::{Act, Line, Script, Shown};
use plex_board::types::{ConnId, NoMemory, StrNo};
use plex_engines::Board;
use std::alloc::Global;
use std::marker::Model;
use std::sync::Wait;

/// The callers at work, from the operator on; the notes that were posted; and for each structure who
/// acted on it last.
#[derive(Drop)]
pub struct Floor {
    pub(crate) workers: Vec<Worker>,
    pub(crate) tray: Tray,
    pub(crate) last: Vec<Option<ConnId>>,
}

impl Model for Floor {
    ghost use Rattle.plex_board.specs.Floors.{Floor};
    ghost use Rattle.plex_board.specs.Serial.{connectors};

    ghost Value = { Floor };

    ghost view = { λ f. record {
      workers = f.workers.items;
      tray = f.tray;
      last = f.last.items;
    } };
}

/// Nobody, for so many structures.
pub(crate) fn nobody(alloc: Global, structures: u8) -> Result<Vec<Option<ConnId>>, NoMemory>
    ensures { IfOk result (λ last. last.items ≡ replicate structures None) }
{
    let mut last = Vec::new(alloc);
    for _ in 0..structures {
        last.push(None)?;
    }
    Ok(last)
}

// Whether an act is counted, at a structure whose vectors have `bits` bits: a call, an event round,
// and a test within the vector.
fn is_counted(act: &Act, bits: u32) -> bool
    ensures { (form : StrForm) → form.vector ≡ bits → result ≡ is_counted form act.now }
{
    match act {
        Act::Call(_) | Act::Events => true,
        Act::Test(index) => *index < bits,
        Act::TestWord(word) => 32 * u64::from(*word) < u64::from(bits),
        Act::Post | Act::Take => false,
    }
}

impl Floor {
    // Whether a caller's work goes on.
    fn is_working(&self, by: ConnId) -> bool
        requires { by.0 < length self.now.workers }
        ensures { result ≡ is_working self.now by }
    {
        self.workers[usize::from(by.0)].is_working()
    }

    // Before a caller acts on a structure it is told what the one who acted there last knows of it:
    // nothing where that is itself, or was nobody.
    fn hear<L: Link>(&mut self, board: &Board<L>, by: ConnId, on: StrNo)
        requires floor { IsFloorOf board.now self.old }
        requires by { by.0 ≤ board.now.callers }
        requires place { on.0 < length board.now.cells }
        ensures heard { self.new
            ≡ with_worker by (heard_from_last self.old by (worker_of self.old by) on) self.old }
        ensures of_board { IsFloorOf board.now self.new }
    {
        let Some(other) = self.last[usize::from(on.0)] else {
            return;
        };
        let (to, from) = (usize::from(by.0), usize::from(other.0));
        if to < from {
            let (low, high) = self.workers.split_at_mut(from);
            let worker = &mut low[to];
            let other = &mut high[0];
            board.hear(&mut worker.desk, &mut other.desk, on);
        } else if from < to {
            let (low, high) = self.workers.split_at_mut(to);
            let worker = &mut high[0];
            let other = &mut low[from];
            board.hear(&mut worker.desk, &mut other.desk, on);
        }
    }

    // A caller's turn.
    fn work<L: Link>(&mut self, rt: &impl Wait, alloc: Global, board: &Board<L>, line: &Line)
        requires floor { IsFloorOf board.now self.old }
        requires line { IsPlayable board.now line.now }
        ensures turned { TakesTurn board.now line.now self.old self.new }
        ensures of_board { IsFloorOf board.now self.new }
    {
        let worker = &mut self.workers[usize::from(line.by.0)];
        turn(rt, alloc, line, &mut worker.desk, board, &mut worker.shown);
    }

    // A line but for a POST and a TAKE. Where it is counted, its caller hears before it, and has
    // then acted on the structure.
    fn turn<L: Link>(&mut self, rt: &impl Wait, alloc: Global, board: &Board<L>, line: &Line)
        requires floor { IsFloorOf board.now self.old }
        requires line { IsPlayable board.now line.now }
        requires turn { IsTurn line.now.act }
        ensures played { PlaysActOn board.now line.now line.now.act self.old self.new }
        ensures of_board { IsFloorOf board.now self.new }
    {
        if !is_counted(&line.act, board.vector(line.on)) {
            self.work(rt, alloc, board, line);
            return;
        }
        self.hear(board, line.by, line.on);
        self.work(rt, alloc, board, line);
        self.last[usize::from(line.on.0)] = Some(line.by);
    }

    // A POST by the tray.
    fn post<L: Link>(&mut self, board: &Board<L>, line: &Line) -> Result<(), NoMemory>
        requires floor { IsFloorOf board.now self.old }
        requires line { IsPlayable board.now line.now }
        ensures posted { OnOk result (PlaysActOn board.now line.now act.Post self.old self.new) }
        ensures of_board { IsFloorOf board.now self.new }
    {
        let on = line.on;
        let worker = &mut self.workers[usize::from(line.by.0)];
        let sure = board.post_in(&mut worker.desk, &mut self.tray, on);
        worker.shown.items.push(Shown::Posted { on, sure })
    }

    // A TAKE by the tray.
    fn take<L: Link>(&mut self, board: &Board<L>, line: &Line) -> Result<(), NoMemory>
        requires floor { IsFloorOf board.now self.old }
        requires line { IsPlayable board.now line.now }
        ensures took { OnOk result (PlaysActOn board.now line.now act.Take self.old self.new) }
        ensures of_board { IsFloorOf board.now self.new }
    {
        let on = line.on;
        let worker = &mut self.workers[usize::from(line.by.0)];
        let sure = board.take_in(&mut worker.desk, &mut self.tray, on);
        worker.shown.items.push(Shown::Took { on, sure })
    }

    // A line of the script, unless its caller's work has ended.
    fn line<L: Link>(
        &mut self,
        rt: &impl Wait,
        alloc: Global,
        board: &Board<L>,
        line: &Line,
    ) -> Result<(), NoMemory>
        requires floor { IsFloorOf board.now self.old }
        requires line { IsPlayable board.now line.now }
        ensures played { OnOk result (PlaysLine board.now line.now self.old self.new) }
        ensures of_board { IsFloorOf board.now self.new }
    {
        if !self.is_working(line.by) {
            return Ok(());
        }
        match &line.act {
            Act::Post => self.post(board, line),
            Act::Take => self.take(board, line),
            Act::Call(_) | Act::Events | Act::Test(_) | Act::TestWord(_) => {
                self.turn(rt, alloc, board, line);
                Ok(())
            }
        }
    }

    // The departures of a connector, unless its work has ended. Before them it hears at every
    // structure, and has then acted on each.
    fn close<L: Link>(&mut self, rt: &impl Wait, alloc: Global, board: &Board<L>, conn: ConnId)
        requires floor { IsFloorOf board.now self.old }
        requires connector { IsConnector conn }
        requires conn { conn.0 ≤ board.now.callers }
        ensures closed { ClosesOne board.now conn self.old self.new }
        ensures of_board { IsFloorOf board.now self.new }
    {
        if !self.is_working(conn) {
            return;
        }
        for place in 0..board.structures() {
            self.hear(board, conn, StrNo(place));
        }
        let worker = &mut self.workers[usize::from(conn.0)];
        closing(rt, alloc, &mut worker.desk, board, &mut worker.shown);
        for last in self.last.iter_mut() {
            *last = Some(conn);
        }
    }

    /// The whole of a script: its lines in their order, then the departures of its connectors in
    /// number order.
    pub(crate) fn play<L: Link>(
        &mut self,
        rt: &impl Wait,
        alloc: Global,
        board: &Board<L>,
        script: &Script,
    ) -> Result<(), NoMemory>
        requires start { self.old ≡ new_floor board.now }
        requires floor { IsFloorOf board.now self.old }
        requires lines { All (IsPlayable board.now) script.now.lines }
        requires connectors { board.now.callers ≡ length script.now.connectors }
        ensures played { OnOk result
            (Plays board.now script.now.lines (connectors script.now) self.new) }
        ensures of_board { IsFloorOf board.now self.new }
    {
        for line in script.lines.items() {
            self.line(rt, alloc, board, line)?;
        }
        for before in 0..script.connectors.items().len() as u8 {
            self.close(rt, alloc, board, ConnId(before + 1));
        }
        Ok(())
    }
}
