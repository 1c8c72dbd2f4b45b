ghost use Rattle.std.specs.Prelude.{◌≡◌};
ghost use Rattle.cf_io.specs.declared.read_end.ReadEnd.TheVariants as ends;
ghost use Rattle.no_memory.specs.Wants.{want};

use crate::{Failed, NoMemory};
use std::alloc::AllocError;
use thiserror::Error;

/// Why the reading of a whole source ended before its end.
#[derive(Debug, Drop, Error)]
pub enum ReadEnd {
    /// A read failed.
    #[error("a read failed")]
    ReadFault,

    /// More bytes came than the limit allows.
    #[error("more than {limit} bytes came")]
    TooLong { limit: usize },

    /// There was no memory for the bytes that came.
    #[error("out of memory")]
    NoMemory(NoMemory),
}

impl From<Failed> for ReadEnd {
    ghost from_gives = { λ _ end. end ≡ ends.ReadFault };

    fn from(_: Failed) -> Self {
        ReadEnd::ReadFault
    }
}

impl From<AllocError> for ReadEnd {
    ghost from_gives = { λ _ end. end ≡ ends.NoMemory want };

    fn from(refused: AllocError) -> Self {
        ReadEnd::NoMemory(NoMemory::from(refused))
    }
}
