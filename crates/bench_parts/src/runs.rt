//! Runs of an engine, and how long they took.
ghost use Rattle.std.specs.Prelude.{◌≤◌};

use crate::row_pages::form;
use crate::works::{Work, are_changed, next_number, work_once, write_page};
use plex_board::api::Engine;
use plex_board::types::{ConnId, Effects, NoMemory};
use plex_engines::caches::CacheEngine;
use std::alloc::Global;
use std::io;
use std::time::{Clock, Instant};

/// What was counted, and the nanoseconds that it took.
#[derive(Clone, Copy)]
pub struct Timed {
    pub count: u32,
    pub nanos: u128,
}

// An engine with so many rows.
fn filled(
    alloc: Global,
    rows: u32,
    changed: bool,
    out: &mut Effects,
) -> Result<CacheEngine, NoMemory>
    requires some { 1 ≤ rows }
    requires most { rows ≤ 4096 }
{
    let form = form(alloc, rows)?;
    let mut engine = CacheEngine::empty(alloc, &form, form.caps)?;
    for k in 0..rows {
        write_page(alloc, &mut engine, k, k.saturating_sub(1), changed, out)?;
    }
    Ok(engine)
}

// Does it so many times, and says how often it was accepted.
fn repeat(
    alloc: Global,
    engine: &mut CacheEngine,
    work: Work,
    rows: u32,
    times: u32,
    out: &mut Effects,
) -> Result<u32, NoMemory>
    requires { 1 ≤ rows }
{
    let mut accepted = 0u32;
    let mut last = rows - 1;
    for _ in 0..times {
        let number = next_number(work, last, rows);
        if work_once(alloc, engine, work, number, last, out)? {
            accepted = accepted.wrapping_add(1);
        }
        last = number;
    }
    Ok(accepted)
}

fn no_memory() -> io::Error {
    io::Error::from(io::ErrorKind::OutOfMemory)
}

/// Does it so many times to an engine with so many rows.
pub fn use_engine(
    rt: &impl Clock,
    alloc: Global,
    work: Work,
    rows: u32,
    times: u32,
) -> io::Result<Timed>
    requires some { 1 ≤ rows }
    requires most { rows ≤ 4096 }
{
    let mut out = Effects::new(alloc);
    let Ok(mut engine) = filled(alloc, rows, are_changed(work), &mut out) else {
        return Err(no_memory());
    };
    let start = Instant::now(rt)?;
    let done = repeat(alloc, &mut engine, work, rows, times, &mut out);
    let nanos = start.elapsed(rt)?.as_nanos();
    match done {
        Ok(count) => Ok(Timed { count, nanos }),
        Err(_) => Err(no_memory()),
    }
}

// Copies of all items, one after another; says how many.
fn copies(alloc: Global, engine: &CacheEngine) -> Result<u32, NoMemory> {
    let order = engine.order(alloc)?;
    let mut count = 0u32;
    for k in 0..engine.count() {
        let _ = engine.item_in(alloc, &order, k)?;
        count = count.wrapping_add(1);
    }
    Ok(count)
}

/// Copies all rows of an engine that has so many.
pub fn copy_all(rt: &impl Clock, alloc: Global, rows: u32) -> io::Result<Timed>
    requires some { 1 ≤ rows }
    requires most { rows ≤ 4096 }
{
    let mut out = Effects::new(alloc);
    let Ok(engine) = filled(alloc, rows, false, &mut out) else {
        return Err(no_memory());
    };
    let start = Instant::now(rt)?;
    let done = copies(alloc, &engine);
    let nanos = start.elapsed(rt)?.as_nanos();
    match done {
        Ok(count) => Ok(Timed { count, nanos }),
        Err(_) => Err(no_memory()),
    }
}

// A connector departs that has no registration.
fn leave(engine: &mut CacheEngine, out: &mut Effects) -> Result<(), NoMemory> {
    let conn = ConnId(9);
    engine.leave_ready(conn, out)?;
    engine.leave(conn, false, out);
    Ok(())
}

/// A connector departs from an engine with so many rows.
pub fn depart(rt: &impl Clock, alloc: Global, rows: u32) -> io::Result<Timed>
    requires some { 1 ≤ rows }
    requires most { rows ≤ 4096 }
{
    let mut out = Effects::new(alloc);
    let Ok(mut engine) = filled(alloc, rows, true, &mut out) else {
        return Err(no_memory());
    };
    let start = Instant::now(rt)?;
    let done = leave(&mut engine, &mut out);
    let nanos = start.elapsed(rt)?.as_nanos();
    match done {
        Ok(()) => Ok(Timed { count: 1, nanos }),
        Err(_) => Err(no_memory()),
    }
}
