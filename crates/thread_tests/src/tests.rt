use plex_board::types::ConnId;
use std::sync::atomic::AtomicU64;

mod full;
mod locks;
mod notes;
mod races;
mod turns;
mod words;
mod worlds;

const FIRST: ConnId = ConnId(1);

const SECOND: ConnId = ConnId(2);

/// How often the page is read, and how often it may be written for each READ.
const READS: u64 = 200;

const WRITES: u64 = 8;

/// More entries than the calls of a trial make.
const PLENTY: u32 = 4000;

// What two threads tell each other: how many READs were done, and the number that was posted last.
#[derive(Drop)]
struct Race {
    reads: AtomicU64,
    posted: AtomicU64,
}

fn new_race() -> Race {
    Race {
        reads: AtomicU64::new(0),
        posted: AtomicU64::new(0),
    }
}
