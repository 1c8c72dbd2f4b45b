//! READs of a cache structure and tests of a vector's bits, through a board, and beside them the
//! same READs of the engine alone and of a structure with two instances, and the same tests of the
//! vector words alone.
use crate::below::{use_engine, use_words};
use crate::boards::use_board;
use std::alloc::Global;
use std::io;
use std::sync::Wait;
use std::time::Clock;

/// The READs and the tests, where they are only counted.
const SHORT: u32 = 100;

/// The READs, where they are timed. A journal takes 65,536 calls.
const TIMED_READS: u32 = 60_000;

/// The tests, where they are timed.
const TIMED_TESTS: u32 = 100_000_000;

/// Prints how many READs and tests there were, where they are only counted.
pub fn print_counts(rt: &(impl Wait + Clock + Print), alloc: Global) -> io::Result<()> {
    let (reads, tests) = use_board(rt, alloc, false, SHORT, SHORT)?;
    let (last, set) = (reads.count, tests.count);
    println!(rt; "{SHORT} READs through a board: the last is call {last}")?;
    println!(rt; "{SHORT} tests through a board: {set} bits set")?;
    let (reads, _) = use_board(rt, alloc, true, SHORT, 0)?;
    let last = reads.count;
    println!(rt; "{SHORT} READs of two instances: the last is call {last}")?;
    let with_data = use_engine(rt, alloc, SHORT)?.count;
    println!(rt; "{SHORT} READs of an engine: {with_data} with data")?;
    let set = use_words(rt, alloc, SHORT)?.count;
    println!(rt; "{SHORT} tests of vector words: {set} bits set")
}

/// Prints how long they take, a line for each: what is done, how often, and the nanoseconds.
pub fn print_times(rt: &(impl Wait + Clock + Print), alloc: Global) -> io::Result<()> {
    let (reads, tests) = use_board(rt, alloc, false, TIMED_READS, TIMED_TESTS)?;
    let (read_nanos, test_nanos) = (reads.nanos, tests.nanos);
    println!(rt; "board read {TIMED_READS} {read_nanos}")?;
    println!(rt; "board test {TIMED_TESTS} {test_nanos}")?;
    let (reads, _) = use_board(rt, alloc, true, TIMED_READS, 0)?;
    let nanos = reads.nanos;
    println!(rt; "duplexed read {TIMED_READS} {nanos}")?;
    let nanos = use_engine(rt, alloc, TIMED_READS)?.nanos;
    println!(rt; "engine read {TIMED_READS} {nanos}")?;
    let nanos = use_words(rt, alloc, TIMED_TESTS)?.nanos;
    println!(rt; "words test {TIMED_TESTS} {nanos}")
}
