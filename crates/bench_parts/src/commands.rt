//! Commands on a cache engine with few rows and with many.
ghost use Rattle.std.specs.Prelude.{◌≤◌};

use crate::runs::{Timed, copy_all, depart, use_engine};
use crate::works::Work;
use std::alloc::Global;
use std::io;
use std::time::Clock;

/// How often each is done, where that is only counted.
const SHORT: u32 = 20;

/// How often each is done, where it is timed.
const LONG: u32 = 20_000;

// What is done, in a word.
fn word_of(work: Work) -> &'static str {
    match work {
        Work::Read => "read",
        Work::Reclaim => "reclaim",
        Work::Write => "write",
        Work::Castout => "castout",
        Work::Invalidate => "invalidate",
        Work::List => "list",
    }
}

fn print_count(rt: &(impl Clock + Print), alloc: Global, work: Work, rows: u32) -> io::Result<()>
    requires some { 1 ≤ rows }
    requires most { rows ≤ 4096 }
{
    let timed = use_engine(rt, alloc, work, rows, SHORT)?;
    let (word, count) = (word_of(work), timed.count);
    println!(rt; "{word}: {count} of {SHORT}")
}

/// Prints how many of them answered, with so many rows.
pub fn print_counts(rt: &(impl Clock + Print), alloc: Global, rows: u32) -> io::Result<()>
    requires some { 1 ≤ rows }
    requires most { rows ≤ 4096 }
{
    print_count(rt, alloc, Work::Read, rows)?;
    print_count(rt, alloc, Work::Reclaim, rows)?;
    print_count(rt, alloc, Work::Write, rows)?;
    print_count(rt, alloc, Work::Castout, rows)?;
    print_count(rt, alloc, Work::Invalidate, rows)?;
    print_count(rt, alloc, Work::List, rows)
}

fn print_time(rt: &(impl Clock + Print), word: &str, rows: u32, timed: Timed) -> io::Result<()> {
    let (count, nanos) = (timed.count, timed.nanos);
    println!(rt; "{word} {rows} {count} {nanos}")
}

fn time_work(rt: &(impl Clock + Print), alloc: Global, work: Work, rows: u32) -> io::Result<()>
    requires some { 1 ≤ rows }
    requires most { rows ≤ 4096 }
{
    let timed = use_engine(rt, alloc, work, rows, LONG)?;
    print_time(rt, word_of(work), rows, timed)
}

/// Prints how long they take, a line for each: what is done, how many rows there are, how often it
/// was done, and the nanoseconds.
pub fn print_times(rt: &(impl Clock + Print), alloc: Global, rows: u32) -> io::Result<()>
    requires some { 1 ≤ rows }
    requires most { rows ≤ 4096 }
{
    time_work(rt, alloc, Work::Read, rows)?;
    time_work(rt, alloc, Work::Reclaim, rows)?;
    time_work(rt, alloc, Work::Write, rows)?;
    time_work(rt, alloc, Work::Castout, rows)?;
    time_works(rt, alloc, rows)
}

fn time_works(rt: &(impl Clock + Print), alloc: Global, rows: u32) -> io::Result<()>
    requires some { 1 ≤ rows }
    requires most { rows ≤ 4096 }
{
    time_work(rt, alloc, Work::Invalidate, rows)?;
    time_work(rt, alloc, Work::List, rows)?;
    print_time(rt, "copy", rows, copy_all(rt, alloc, rows)?)?;
    print_time(rt, "depart", rows, depart(rt, alloc, rows)?)
}
