//! The callers of a script, who come to their desks, and leave them.
ghost use Rattle.std.specs.Prelude.{◌≡◌, ◌≤◌, [], IfOk, IfErr, map};
ghost use Rattle.std.specs.Vec.{vec_len, vec_capacity};
ghost use Rattle.plex_agent.specs.Crews.{idle_worker};

use crate::worker::Worker;
use plex_board::Desk;
use plex_board::scripts::Transcript;
use plex_board::types::NoMemory;
use std::alloc::Global;
use std::marker::Model;

/// The memory that it takes to part so many callers from their desks.
#[derive(Drop)]
pub(crate) struct Room {
    desks: Vec<Desk>,
    shown: Vec<Transcript>,
}

impl Model for Room {
    ghost use Rattle.std.specs.Prelude.{◌≡◌, ℕ, [], min};
    ghost use Rattle.std.specs.Vec.{vec_capacity};

    ghost Value = { ℕ };

    ghost view = { λ r. min (vec_capacity r.desks) (vec_capacity r.shown) };

    ghost invariant = { λ r. (r.desks.items ≡ []) × (r.shown.items ≡ []) };
}

// The memory for so many callers at work, and for parting them from their desks.
fn places(alloc: Global, callers: usize) -> Result<(Vec<Worker>, Room), NoMemory>
    ensures workers { IfOk result (λ it. (it.0.items ≡ []) × (callers ≤ vec_capacity it.0)) }
    ensures room { IfOk result (λ it. callers ≤ it.1) }
{
    Ok((
        Vec::with_capacity(alloc, callers)?,
        Room {
            desks: Vec::with_capacity(alloc, callers)?,
            shown: Vec::with_capacity(alloc, callers)?,
        },
    ))
}

/// The callers at these desks, none of which has done anything.
///
/// # Errors
///
/// Where there is no memory the desks come back, with the cause.
pub(crate) fn seat(
    alloc: Global,
    desks: Vec<Desk>,
) -> Result<(Vec<Worker>, Room), (Vec<Desk>, NoMemory)>
    ensures workers { IfOk result (λ it. it.0.items ≡ map idle_worker desks.items) }
    ensures room { IfOk result (λ it. vec_len it.0 ≤ it.1) }
    ensures handed_back { IfErr result (λ back. back.0.items ≡ desks.items) }
{
    let callers = desks.len();
    let (mut workers, room) = match places(alloc, callers) {
        Ok(places) => places,
        Err(cause) => return Err((desks, cause)),
    };
    for desk in desks {
        workers.push_reserved(Worker::new(alloc, desk));
    }
    Ok((workers, room))
}

impl Room {
    /// The desks of all callers, and what each was shown. It takes no memory.
    pub(crate) fn part(self, workers: Vec<Worker>) -> (Vec<Desk>, Vec<Transcript>)
        requires { vec_len workers ≤ self }
        ensures desks { result.0.items ≡ map (λ worker. worker.desk) workers.items }
        ensures shown { result.1.items ≡ map (λ worker. worker.shown) workers.items }
    {
        let Room {
            mut desks,
            mut shown,
        } = self;
        for worker in workers {
            let Worker {
                desk,
                shown: transcript,
            } = worker;
            desks.push_reserved(desk);
            shown.push_reserved(transcript);
        }
        (desks, shown)
    }
}
