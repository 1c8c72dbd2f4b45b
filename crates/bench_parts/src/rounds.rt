//! Threads that obtain and release a lock each.
ghost use Rattle.std.specs.Prelude.{◌≡◌, ◌+◌, ◌<◌, ◌≤◌, All, IfSome};
ghost use Rattle.bench_parts.specs.declared.rounds.TheConstants.{APART, WORDS};
ghost use Rattle.bench_parts.specs.Rounds.{IsFree};

use lock_words::{Got, Hand, LockWords};
use std::alloc::{AllocError, Global};
use std::thread::{Threads, join};

/// How many threads there are.
#[derive(Clone, Copy)]
pub enum Crowd {
    One,
    Two,
    Four,
}

impl Crowd {
    pub fn threads(self) -> u32
        ensures { (1 ≤ result) × (result ≤ 4) }
    {
        match self {
            Crowd::One => 1,
            Crowd::Two => 2,
            Crowd::Four => 4,
        }
    }
}

/// How many lock words there are.
const WORDS: u32 = 128;

/// How far apart the words of two threads are, so that they share no cache line.
const APART: u32 = 32;

// Obtains a lock, and releases it.
fn round(locks: &LockWords, hand: &mut Hand, word: u32) -> bool
    requires word { word < locks.now.words }
    requires free { IsFree locks.now hand.old }
    ensures free { IsFree locks.now hand.new }
{
    match locks.obtain(hand, word, true) {
        Got::Granted => {
            locks.release(hand, word);
            true
        }
        Got::Contended { .. } => false,
        Got::Raced { .. } => false,
    }
}

// Does so many rounds, and says how often the lock was granted.
fn run(locks: &LockWords, mut hand: Hand, word: u32, rounds: u32) -> u64
    requires word { word < locks.now.words }
    requires free { IsFree locks.now hand }
{
    let mut granted = 0u64;
    for _ in 0..rounds {
        if round(locks, &mut hand, word) {
            granted = granted.wrapping_add(1);
        }
    }
    granted
}

// Two threads do so many rounds each, the first with this word.
fn run_two<R: Threads + Sync>(
    rt: &R,
    locks: &LockWords,
    hands: (Hand, Hand),
    word: u32,
    rounds: u32,
) -> u64
    requires word { (locks.now.words ≡ WORDS) × (word + APART < WORDS) }
    requires free { IsFree locks.now hands.0 × IsFree locks.now hands.1 }
{
    let (first, second) = hands;
    let next = word + APART;
    let (one, two) = join(
        rt,
        move || -> u64
            requires { (word < locks.now.words) × IsFree locks.now first }
        { run(locks, first, word, rounds) },
        move || -> u64
            requires { (next < locks.now.words) × IsFree locks.now second }
        { run(locks, second, next, rounds) },
    );
    one.wrapping_add(two)
}

// Four threads do so many rounds each.
fn run_four<R: Threads + Sync>(
    rt: &R,
    locks: &LockWords,
    hands: (Hand, Hand),
    others: (Hand, Hand),
    rounds: u32,
) -> u64
    requires words { locks.now.words ≡ WORDS }
    requires hands { IsFree locks.now hands.0 × IsFree locks.now hands.1 }
    requires others { IsFree locks.now others.0 × IsFree locks.now others.1 }
{
    let (one, two) = join(
        rt,
        move || -> u64
            requires { (locks.now.words ≡ WORDS) × IsFree locks.now hands.0 × IsFree locks.now hands.1 }
        { run_two(rt, locks, hands, 0, rounds) },
        move || -> u64
            requires { (locks.now.words ≡ WORDS) × IsFree locks.now others.0 × IsFree locks.now others.1 }
        { run_two(rt, locks, others, 2 * APART, rounds) },
    );
    one.wrapping_add(two)
}

// The next hand, which holds nothing.
fn next_hand(locks: &LockWords, hands: &mut Vec<Hand>) -> Option<Hand>
    requires { All (IsFree locks.now) hands.old.items }
    ensures rest { All (IsFree locks.now) hands.new.items }
    ensures hand { IfSome result (IsFree locks.now) }
{
    let _ = locks;
    hands.pop()
}

/// Has each thread of the crowd do these rounds with a word of its own, and says how often they
/// were granted in all.
pub fn count<R: Threads + Sync>(
    rt: &R,
    alloc: Global,
    crowd: Crowd,
    rounds: u32,
) -> Result<u64, AllocError> {
    let Ok((locks, mut hands)) = LockWords::start(alloc, WORDS, 4) else {
        return Err(AllocError);
    };
    let (Some(a), Some(b), Some(c), Some(d)) = (
        next_hand(&locks, &mut hands),
        next_hand(&locks, &mut hands),
        next_hand(&locks, &mut hands),
        next_hand(&locks, &mut hands),
    ) else {
        return Err(AllocError);
    };
    Ok(match crowd {
        Crowd::One => run(&locks, a, 0, rounds),
        Crowd::Two => run_two(rt, &locks, (a, b), 0, rounds),
        Crowd::Four => run_four(rt, &locks, (a, b), (c, d), rounds),
    })
}
