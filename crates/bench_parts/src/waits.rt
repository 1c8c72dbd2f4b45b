//! Turns at a lock, and tests of a vector's bits, alone and beside a thread that makes calls.
use crate::rounds::Crowd;
use crate::turns::count;
use crate::vectors::{Company, Found, test_in};
use std::alloc::Global;
use std::io;
use std::sync::Wait;
use std::thread::Threads;
use std::time::{Clock, Instant};

/// The turns of all threads together, where they are timed.
const TIMED: u32 = 8_000_000;

/// The turns of each thread and the tests, where they are only counted.
const SHORT: u32 = 100;

/// The tests beside calls, where they are only counted: enough for some to come after a call.
const MANY: u32 = 1_000_000;

/// The tests, where they are timed.
const TIMED_TESTS: u32 = 100_000_000;

/// Prints how many turns and tests there were, where they are only counted.
pub fn print_counts(
    rt: &(impl Threads + Wait + Sync + Clock + Print),
    alloc: Global,
) -> io::Result<()> {
    let turns = count(rt, alloc, Crowd::Four, SHORT)?;
    println!(rt; "4 threads with {SHORT} turns each: {turns} turns")?;
    let found = test_in(rt, alloc, SHORT, Company::Alone)?;
    let set = found.set;
    println!(rt; "{SHORT} tests of a vector that nobody changes: {set} bits set")?;
    let found = test_in(rt, alloc, MANY, Company::Beside)?;
    let word = if found.set > 0 && found.known > 0 {
        "some"
    } else {
        "none"
    };
    println!(rt; "{MANY} tests beside calls that set bits: {word} set")
}

/// Prints how long they take. A line for each number of threads, `cf_turn THREADS TURNS
/// NANOSECONDS`, comes before a line for the tests alone and one for those beside a thread that makes
/// calls, `vec_words alone|beside TESTS NANOSECONDS SET KNOWN`.
pub fn print_times(
    rt: &(impl Threads + Wait + Sync + Clock + Print),
    alloc: Global,
) -> io::Result<()> {
    for crowd in [Crowd::One, Crowd::Two, Crowd::Four] {
        let threads = crowd.threads();
        let start = Instant::now(rt)?;
        let turns = count(rt, alloc, crowd, TIMED / threads)?;
        let nanos = start.elapsed(rt)?.as_nanos();
        println!(rt; "cf_turn {threads} {turns} {nanos}")?;
    }
    for (name, company) in [("alone", Company::Alone), ("beside", Company::Beside)] {
        let Found { set, known, nanos } = test_in(rt, alloc, TIMED_TESTS, company)?;
        println!(rt; "vec_words {name} {TIMED_TESTS} {nanos} {set} {known}")?;
    }
    Ok(())
}
