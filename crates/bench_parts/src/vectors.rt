//! Tests of a vector's bits, alone and while another thread makes calls.
ghost use Rattle.std.specs.Prelude.{◌≡◌, ◌<◌, IfOk, All};
ghost use Rattle.plex_board.specs.VecWords.Logged.{count_of};

use plex_board::types::{ConnId, NoMemory};
use plex_board::vectors::{EngineSeat, Pass, Vectors};
use std::alloc::Global;
use std::hint::spin_loop;
use std::io;
use std::sync::Wait;
use std::sync::atomic::AtomicU64;
use std::sync::atomic::Ordering::SeqCst;
use std::thread::{Threads, join};
use std::time::{Clock, Instant};

/// How many bits were set of those that were tested, the number that the pass knew then, and the
/// nanoseconds that the tests took.
#[derive(Clone, Copy)]
pub struct Found {
    pub set: u32,
    pub known: u32,
    pub nanos: u128,
}

/// Whether another thread makes calls beside the tests.
#[derive(Clone, Copy, PartialEq, Eq)]
pub enum Company {
    Alone,
    Beside,
}

// Whether the calls have begun, and whether the tests are done.
#[derive(Drop)]
struct Race {
    begun: AtomicU64,
    done: AtomicU64,
}

// Tests indices 0 to 63 in turn.
#[inline(never)]
fn count_set(vectors: &Vectors<u32>, pass: &mut Pass<u32>, tests: u32) -> u32
    requires form { vectors.now.len ≡ 64 }
    requires pass { (pass.old.table ≡ vectors.now) × (0 < pass.old.owner) }
{
    let mut set = 0u32;
    for k in 0..tests {
        if vectors.test(pass, k % 64).bit {
            set = set.wrapping_add(1);
        }
    }
    set
}

// Waits until the calls have begun.
fn wait_for_calls(rt: &impl Wait, race: &Race) {
    for _ in rt.forever() {
        if race.begun.load(SeqCst) > 0 {
            return;
        }
        spin_loop();
    }
}

fn time_tests<R: Clock + Wait>(
    rt: &R,
    vectors: &Vectors<u32>,
    race: &Race,
    company: Company,
    mut pass: Pass<u32>,
    tests: u32,
) -> io::Result<Found>
    requires form { vectors.now.len ≡ 64 }
    requires pass { (pass.table ≡ vectors.now) × (0 < pass.owner) }
{
    if company == Company::Beside {
        wait_for_calls(rt, race);
    }
    let start = Instant::now(rt)?;
    let set = count_set(vectors, &mut pass, tests);
    let nanos = start.elapsed(rt)?.as_nanos();
    let known = pass.known();
    Ok(Found { set, known, nanos })
}

// Calls that store word 0, until the tests are done.
fn make_calls(
    vectors: &Vectors<u32>,
    race: &Race,
    mut seat: EngineSeat<u32>,
    mut pass: Pass<u32>,
    company: Company,
)
    requires form { (vectors.now.conns ≡ 1) × (vectors.now.len ≡ 64) }
    requires tokens { (seat.table ≡ vectors.now) × (pass.table ≡ vectors.now) }
    requires idle { (seat.number ≡ 0) × (count_of seat.log ≡ 0) }
{
    if company == Company::Alone {
        return;
    }
    race.begun.store(1, SeqCst);
    for made in 0..u32::MAX {
        if race.done.load(SeqCst) > 0 {
            return;
        }
        vectors.begin(&mut seat, made + 1);
        vectors.store_word(&mut seat, ConnId(1), 0, made);
        vectors.commit_as(&mut seat, &mut pass, &made);
    }
}

// The pass of the last caller that is left.
fn take_pass(vectors: &Vectors<u32>, passes: &mut Vec<Pass<u32>>) -> Result<Pass<u32>, NoMemory>
    requires { All (λ p. p.table ≡ vectors.now) passes.old.items }
    ensures rest { All (λ p. p.table ≡ vectors.now) passes.new.items }
    ensures pass { IfOk result (λ p. p.table ≡ vectors.now) }
{
    passes.pop().ok_or(NoMemory::beyond_counts())
}

/// Tests, alone or while another thread makes calls.
pub fn test_in<R: Threads + Clock + Wait + Sync>(
    rt: &R,
    alloc: Global,
    tests: u32,
    company: Company,
) -> io::Result<Found> {
    let Ok((vectors, seat, mut passes)) = Vectors::start(alloc, 1, 64) else {
        return Err(io::Error::from(io::ErrorKind::OutOfMemory));
    };
    let (Ok(pass), Ok(operator)) = (
        take_pass(&vectors, &mut passes),
        take_pass(&vectors, &mut passes),
    ) else {
        return Err(io::Error::from(io::ErrorKind::OutOfMemory));
    };
    if pass.owner() == ConnId(0) {
        return Err(io::Error::from(io::ErrorKind::OutOfMemory));
    }
    let words = &vectors;
    let race = &Race {
        begun: AtomicU64::new(0),
        done: AtomicU64::new(0),
    };
    let (found, ()) = join(
        rt,
        move || -> io::Result<Found>
            requires { (words.now.len ≡ 64) × (pass.table ≡ words.now) × (0 < pass.owner) }
        {
            let found = time_tests(rt, words, race, company, pass, tests);
            race.done.store(1, SeqCst);
            found
        },
        move ||
            requires { (words.now.conns ≡ 1) × (words.now.len ≡ 64) × (seat.table ≡ words.now)
                × (operator.table ≡ words.now) × (seat.number ≡ 0) × (count_of seat.log ≡ 0) }
        { make_calls(words, race, seat, operator, company) },
    );
    found
}
