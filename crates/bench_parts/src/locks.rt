//! Locks of one word that nobody contends for: each thread obtains and releases one of its own.
use crate::rounds::{Crowd, count};
use std::alloc::Global;
use std::io;
use std::thread::Threads;
use std::time::{Clock, Instant};

/// The rounds of all threads together, where they are timed.
const TIMED: u32 = 40_000_000;

/// The rounds of each thread, where they are only counted.
const SHORT: u32 = 100;

/// Prints how many locks were granted, where they are only counted.
pub fn print_counts(rt: &(impl Threads + Sync + Clock + Print), alloc: Global) -> io::Result<()> {
    let granted = count(rt, alloc, Crowd::Four, SHORT)?;
    println!(rt; "4 threads with {SHORT} rounds each: {granted} granted")
}

/// Prints how long it takes, a line for each number of threads: `lock_words THREADS ROUNDS
/// NANOSECONDS`.
pub fn print_times(rt: &(impl Threads + Sync + Clock + Print), alloc: Global) -> io::Result<()> {
    for crowd in [Crowd::One, Crowd::Two, Crowd::Four] {
        let threads = crowd.threads();
        let start = Instant::now(rt)?;
        let granted = count(rt, alloc, crowd, TIMED / threads)?;
        let nanos = start.elapsed(rt)?.as_nanos();
        println!(rt; "lock_words {threads} {granted} {nanos}")?;
    }
    Ok(())
}
