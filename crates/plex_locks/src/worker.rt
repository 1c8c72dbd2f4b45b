//! A connector at work.
ghost use Rattle.std.specs.Prelude.{◌≡◌, ◌<◌, ◌++◌, ◌∷◌, [], List, IfOk, length};
ghost use Rattle.lock_words.specs.Hands.{new_hand};
ghost use Rattle.plex_locks.specs.Requests.{tasks_by};
ghost use Rattle.plex_locks.specs.Work.{IsSameHand, IsWorked, IsReady, IsStill, HasWorked, asked_by};
ghost use Rattle.plex_locks.specs.declared.outcomes.Done.{Done};

use crate::hands::{obtain, release, word_of};
use crate::outcomes::{Done, Outcome};
use crate::requests::{Request, Task, tasks_by};
use lock_words::{Hand, LockWords};
use plex_script::types::{ConnId, Name16, NoMemory};
use plex_script::{Gate, Line};
use std::alloc::Global;
use std::marker::Model;

/// A connector at work: its hand, what it is to do, and what became of what it did, with the memory
/// for all of it. It may go to another thread.
#[derive(Drop)]
pub(crate) struct Worker {
    pub(crate) name: Name16,
    pub(crate) by: ConnId,
    pub(crate) hand: Hand,
    pub(crate) tasks: Vec<Task>,
    pub(crate) done: Vec<Done>,
}

impl Model for Worker {
    ghost use Rattle.std.specs.Prelude.{◌≤◌, length};
    ghost use Rattle.std.specs.Vec.{vec_len, vec_capacity};
    ghost use Rattle.plex_locks.specs.Work.{AtLocks};

    ghost Value = { AtLocks };

    ghost view = { λ w. record {
      name = w.name;
      by = w.by;
      hand = w.hand;
      tasks = w.tasks.items;
      done = w.done.items;
    } };

    ghost invariant = { λ w. vec_len w.tasks ≤ vec_capacity w.done };
}

// Does one request with a hand.
fn attempt(entries: u32, locks: &LockWords, hand: &mut Hand, request: Request) -> Outcome
    requires entries { (entries ≡ locks.now.words) × (0 < entries) }
    requires hand { (hand.old.table ≡ locks.now.table) × (hand.old.words ≡ locks.now.words) }
    ensures same { IsSameHand hand.old hand.new }
    ensures worked { (dones : List Done) → IsWorked hand.old dones
        → IsWorked hand.new (dones ++ (record { request = request; outcome = result }) ∷ []) }
{
    match request {
        Request::Obtain { r, excl } => obtain(locks, hand, word_of(entries, r), excl),
        Request::Release { r } => release(locks, hand, word_of(entries, r)),
    }
}

impl Worker {
    /// A connector that did nothing yet.
    pub(crate) fn new(
        alloc: Global,
        name: Name16,
        by: ConnId,
        hand: Hand,
        lines: &[Line],
    ) -> Result<Worker, NoMemory>
        ensures { IfOk result (λ w. w ≡ record {
          name = name;
          by = by;
          hand = hand;
          tasks = tasks_by by lines.now;
          done = [];
        }) }
    {
        let tasks = tasks_by(alloc, by, lines)?;
        let done = Vec::with_capacity(alloc, tasks.len())?;
        Ok(Worker {
            name,
            by,
            hand,
            tasks,
            done,
        })
    }

    // Does one request.
    fn act(&mut self, entries: u32, locks: &LockWords, request: Request)
        requires entries { (entries ≡ locks.now.words) × (0 < entries) }
        requires ready { IsReady locks.now self.old }
        requires room { length self.old.done < length self.old.tasks }
        ensures ready { IsReady locks.now self.new }
        ensures still { IsStill self.old self.new }
        ensures asked { asked_by self.new.done ≡ asked_by self.old.done ++ request ∷ [] }
    {
        let outcome = attempt(entries, locks, &mut self.hand, request);
        self.done.push_reserved(Done { request, outcome });
    }

    /// Does all its tasks, one after another. The gate is told of each before and after it.
    pub(crate) fn work<G: Gate>(&mut self, entries: u32, locks: &LockWords, gate: &G)
        requires entries { (entries ≡ locks.now.words) × (0 < entries) }
        requires ready { IsReady locks.now self.old }
        requires new { self.old.done ≡ [] }
        ensures { HasWorked locks.now self.old self.new }
    {
        let by = self.by;
        for place in 0..self.tasks.len() {
            let task = self.tasks[place];
            gate.before(by, task.line);
            self.act(entries, locks, task.request);
            gate.after(by, task.line);
        }
    }
}
