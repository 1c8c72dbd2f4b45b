//! Faults of the program.
use plex_board::cells::CallRefused;
use plex_board::scripts::ReadFault;
use plex_board::types::NoMemory;
use std::io;
use thiserror::Error;

/// Why there is nothing to show.
#[derive(Debug, Drop, Error)]
pub enum Fault {
    /// The text is no policy of two members with a cache structure.
    #[error("no policy of two members with a cache structure")]
    Policy,

    /// A member waited for the other as long as it may.
    #[error("a member waited for the other in vain")]
    Alone,

    /// A call wasn't made: the journal was full, or there was no memory.
    #[error(transparent)]
    Refused(#[from] CallRefused),

    /// There was no memory.
    #[error("out of memory")]
    NoMemory,

    /// Standard output took no more.
    #[error(transparent)]
    Output(#[from] io::Error),
}

impl From<NoMemory> for Fault {
    fn from(_: NoMemory) -> Self {
        Fault::NoMemory
    }
}

impl From<ReadFault> for Fault {
    fn from(fault: ReadFault) -> Self {
        match fault {
            ReadFault::Script { .. } => Fault::Policy,
            ReadFault::NoMemory(_) => Fault::NoMemory,
        }
    }
}
