use plex_board::cells::CallRefused;
use plex_board::types::NoMemory;
use std::alloc::{AllocError, AllocFailed};

/// Why a caller went no further.
#[derive(Debug, Drop, PartialEq, Eq)]
pub enum Halt {
    /// A call wasn't made.
    Refused(CallRefused),
    /// There was no memory.
    NoMemory,
    /// What another thread was to do didn't come.
    Late,
    /// The policy isn't the one that was meant.
    OtherPolicy,
    /// The desks aren't those of the operator and both connectors, in their order.
    OtherDesks,
}

impl From<NoMemory> for Halt {
    fn from(_: NoMemory) -> Self {
        Halt::NoMemory
    }
}

impl From<AllocError> for Halt {
    fn from(_: AllocError) -> Self {
        Halt::NoMemory
    }
}

impl<T: Drop> From<AllocFailed<T>> for Halt {
    fn from(_: AllocFailed<T>) -> Self {
        Halt::NoMemory
    }
}

impl From<CallRefused> for Halt {
    fn from(refusal: CallRefused) -> Self {
        Halt::Refused(refusal)
    }
}
