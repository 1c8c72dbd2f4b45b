//! Threads that take turns and count them.
ghost use Rattle.std.specs.Prelude.{◌≡◌, ◌≤◌};

use crate::rounds::Crowd;
use plex_board::turns::{Keeps, KeyLock};
use std::alloc::{AllocError, Global};
use std::sync::Wait;
use std::thread::{Threads, join};

/// The turns so far, counted twice.
struct Twice;

impl Keeps for Twice {
    type Value = (u64, u64);

    type Key = ();

    ghost key_of = { λ _. tt };

    ghost stands = { λ _ counts. counts.0 ≡ counts.1 };
}

fn turn(rt: &impl Wait, lock: &KeyLock<Twice>, turns: u32) {
    for _ in 0..turns {
        let (counts, ticket) = lock.take(rt);
        lock.give(ticket, (counts.0.wrapping_add(1), counts.1.wrapping_add(1)));
    }
}

fn turn_in_two<R: Threads + Wait + Sync>(rt: &R, lock: &KeyLock<Twice>, turns: u32) {
    join(rt, || turn(rt, lock, turns), || turn(rt, lock, turns));
}

fn turn_in_four<R: Threads + Wait + Sync>(rt: &R, lock: &KeyLock<Twice>, turns: u32) {
    join(
        rt,
        || turn_in_two(rt, lock, turns),
        || turn_in_two(rt, lock, turns),
    );
}

/// Has each thread of the crowd take these turns, and says how many were taken in all.
pub fn count<R: Threads + Wait + Sync>(
    rt: &R,
    alloc: Global,
    crowd: Crowd,
    turns: u32,
) -> Result<u64, AllocError> {
    let Ok(lock) = KeyLock::<Twice>::new(alloc, (0, 0)) else {
        return Err(AllocError);
    };
    match crowd {
        Crowd::One => turn(rt, &lock, turns),
        Crowd::Two => turn_in_two(rt, &lock, turns),
        Crowd::Four => turn_in_four(rt, &lock, turns),
    }
    Ok(lock.end(rt).0)
}
