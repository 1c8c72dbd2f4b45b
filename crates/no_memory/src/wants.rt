ghost use Rattle.std.specs.Prelude.{◌≡◌, Some, codes};

use atomic_table::Refused;
use std::alloc::{AllocError, AllocFailed, Allocator};
use std::error::Error;
use std::fmt;

/// Want of memory. What was called stays as it was, unless its own page says otherwise.
#[derive(Debug, Drop, PartialEq, Eq)]
pub struct NoMemory {
    told: (),
}

impl NoMemory {
    /// So many things were kept that the next one's number has no place in its type; it is told as
    /// want of memory, though no allocator told of any.
    pub fn beyond_counts() -> NoMemory {
        NoMemory { told: () }
    }

    /// What an allocator had no memory for, and the want that it told.
    pub fn handing_back<T>(failed: AllocFailed<T>) -> (T, NoMemory)
        ensures { result.0 ≡ failed.value }
    {
        (failed.value, NoMemory { told: () })
    }
}

impl fmt::Display for NoMemory {
    ghost output = { λ _. Some (codes "no memory") };

    fn fmt<W: fmt::Write>(&self, f: &mut fmt::Formatter<W>) -> fmt::Result {
        write!(f, "no memory")
    }
}

impl Error for NoMemory {}

impl From<AllocError> for NoMemory {
    fn from(_: AllocError) -> NoMemory {
        NoMemory { told: () }
    }
}

impl<T: Drop> From<AllocFailed<T>> for NoMemory {
    fn from(_: AllocFailed<T>) -> NoMemory {
        NoMemory { told: () }
    }
}

impl<S: Drop, A: Allocator + Drop> From<Refused<S, A>> for NoMemory {
    fn from(_: Refused<S, A>) -> NoMemory {
        NoMemory { told: () }
    }
}
