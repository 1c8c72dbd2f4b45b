//! READs of an engine alone, and tests of vector words alone.
ghost use Rattle.std.specs.Prelude.{◌≡◌, ◌<◌, ◌+◌, IfOk, IfSome, map};
ghost use Rattle.std.specs.List.{range_with_len};
ghost use Rattle.plex_board.specs.VecWords.Logged.{count_of};
ghost use Rattle.plex_board.specs.VecWords.Tokens.{new_pass};

use crate::faults::Timed;
use crate::pages::{PAGES, form, read, write};
use plex_board::api::Engine;
use plex_board::types::{CacheCmd, CacheReply, ConnId, Effects, NoMemory, Refusal};
use plex_board::vectors::{EngineSeat, Pass, Vectors};
use plex_engines::caches::CacheEngine;
use std::alloc::Global;
use std::io;
use std::time::{Clock, Instant};

// The connector that reads.
const READER: ConnId = ConnId(1);

// A command of the connector: it is got ready for, and done.
fn command(
    engine: &mut CacheEngine,
    cmd: &CacheCmd,
    out: &mut Effects,
) -> Result<Result<CacheReply, Refusal>, NoMemory> {
    out.clear();
    engine.ready(READER, cmd, out)?;
    Ok(engine.apply(READER, cmd, out))
}

// An engine with all pages.
fn engine_of(alloc: Global, out: &mut Effects) -> Result<CacheEngine, NoMemory> {
    let form = form(alloc)?;
    let mut engine = CacheEngine::empty(alloc, &form, form.caps)?;
    for k in 0..PAGES {
        let _ = command(&mut engine, &write(alloc, k)?, out)?;
    }
    Ok(engine)
}

// Reads the pages in turn, and says how often there were data.
#[inline(never)]
fn read_pages(engine: &mut CacheEngine, out: &mut Effects, reads: u32) -> Result<u32, NoMemory> {
    let mut with_data = 0u32;
    for k in 0..reads {
        if let Ok(CacheReply::Data { .. }) = command(engine, &read(k), out)? {
            with_data = with_data.wrapping_add(1);
        }
    }
    Ok(with_data)
}

/// Reads the pages of an engine in turn, and counts the READs that answered data.
pub fn use_engine(rt: &impl Clock, alloc: Global, reads: u32) -> io::Result<Timed> {
    let mut out = Effects::new(alloc);
    let Ok(mut engine) = engine_of(alloc, &mut out) else {
        return Err(io::Error::from(io::ErrorKind::OutOfMemory));
    };
    let start = Instant::now(rt)?;
    let read = read_pages(&mut engine, &mut out, reads);
    let nanos = start.elapsed(rt)?.as_nanos();
    match read {
        Ok(count) => Ok(Timed { count, nanos }),
        Err(_) => Err(io::Error::from(io::ErrorKind::OutOfMemory)),
    }
}

// Whether a bit is set, as a call of its own.
#[inline(never)]
fn is_set(vectors: &Vectors<u32>, pass: &mut Pass<u32>, index: u32) -> bool
    requires form { vectors.now.len ≡ 32 }
    requires pass { (pass.old.table ≡ vectors.now) × (0 < pass.old.owner) }
    requires index { index < 32 }
    ensures table { pass.new.table ≡ pass.old.table }
    ensures owner { pass.new.owner ≡ pass.old.owner }
{
    vectors.test(pass, index).bit
}

// Tests the bits in turn, and says how often one was set.
fn test_bits(vectors: &Vectors<u32>, pass: &mut Pass<u32>, tests: u32) -> u32
    requires form { vectors.now.len ≡ 32 }
    requires pass { (pass.old.table ≡ vectors.now) × (0 < pass.old.owner) }
{
    let mut set = 0u32;
    for k in 0..tests {
        if is_set(vectors, pass, k % PAGES) {
            set = set.wrapping_add(1);
        }
    }
    set
}

// The pass of the last caller.
fn last_pass(vectors: &Vectors<u32>, mut passes: Vec<Pass<u32>>) -> Option<Pass<u32>>
    requires { passes.items ≡ map (new_pass vectors.now) (range_with_len 0 (1 + 1)) }
    ensures { IfSome result (λ pass. (pass.table ≡ vectors.now) × (0 < pass.owner)) }
{
    passes.pop()
}

// Sets the 32 bits of the connector's vector, in a call of the connector.
fn set_bits(vectors: &Vectors<u32>, mut seat: EngineSeat<u32>, pass: &mut Pass<u32>)
    requires form { (vectors.now.conns ≡ 1) × (vectors.now.len ≡ 32) }
    requires tokens { (seat.table ≡ vectors.now) × (pass.old.table ≡ vectors.now) }
    requires idle { (seat.number ≡ 0) × (count_of seat.log ≡ 0) }
    ensures table { pass.new.table ≡ pass.old.table }
    ensures owner { pass.new.owner ≡ pass.old.owner }
{
    vectors.begin(&mut seat, 1);
    vectors.store_word(&mut seat, READER, 0, u32::MAX);
    vectors.commit_as(&mut seat, pass, &1);
}

// The words of one connector's vector, with all bits set, and the connector's pass.
fn words_of(alloc: Global) -> Result<(Vectors<u32>, Pass<u32>), NoMemory>
    ensures { IfOk result (λ r. (r.0.len ≡ 32) × (r.1.table ≡ r.0) × (0 < r.1.owner)) }
{
    let (vectors, seat, passes) = Vectors::start(alloc, 1, PAGES)?;
    let Some(mut pass) = last_pass(&vectors, passes) else {
        return Err(NoMemory::beyond_counts());
    };
    set_bits(&vectors, seat, &mut pass);
    Ok((vectors, pass))
}

/// Tests the bits of vector words in turn, and counts those that were set.
pub fn use_words(rt: &impl Clock, alloc: Global, tests: u32) -> io::Result<Timed> {
    let Ok((vectors, mut pass)) = words_of(alloc) else {
        return Err(io::Error::from(io::ErrorKind::OutOfMemory));
    };
    let start = Instant::now(rt)?;
    let count = test_bits(&vectors, &mut pass, tests);
    let nanos = start.elapsed(rt)?.as_nanos();
    Ok(Timed { count, nanos })
}
