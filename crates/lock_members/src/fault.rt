//! Faults of the program.
use lock_words::NoMemory;
use std::io;
use thiserror::Error;

/// Why the program ends early.
#[derive(Debug, Drop, Error)]
pub enum Fault {
    /// There was no memory.
    #[error("out of memory")]
    NoMemory,

    /// Standard output took no more.
    #[error(transparent)]
    Output(#[from] io::Error),
}

impl From<NoMemory> for Fault {
    fn from(_: NoMemory) -> Self {
        Fault::NoMemory
    }
}
