use cf_types::NoMemory;
use std::alloc::{AllocError, AllocFailed};

/// What is wrong with a line, in the order in which the causes are tried.
#[derive(Clone, Copy, Debug, PartialEq, Eq)]
pub enum Why {
    /// The policy goes on behind a line that does something.
    Late,
    /// The words have none of the forms of lines.
    Syntax,
    /// A line or a word is too long, a number is out of its range, or there are too many
    /// structures or connectors.
    Limit,
    /// A facility, a structure or a connector isn't declared before.
    Unknown,
    /// It is declared already.
    Twice,
    /// More units of a facility are set aside than it has.
    Space,
}

/// Why a text is no script.
#[derive(Debug, Drop, PartialEq, Eq)]
pub enum ReadFault {
    /// The first faulty line, from 1, and what is wrong with it.
    Script { line: u32, why: Why },
    /// There was no memory for the script.
    NoMemory(NoMemory),
}

impl<T: Drop> From<AllocFailed<T>> for ReadFault {
    ghost use Rattle.std.specs.Prelude.{◌≡◌};
    ghost use Rattle.cf_types.specs.NoMemory.Wants.{want};
    ghost use Rattle.plex_script.specs.declared.faults.ReadFault.TheVariants as faults;

    ghost from_gives = { λ _ fault. fault ≡ faults.NoMemory want };

    fn from(failed: AllocFailed<T>) -> Self {
        ReadFault::NoMemory(failed.into())
    }
}

impl From<AllocError> for ReadFault {
    ghost use Rattle.std.specs.Prelude.{◌≡◌};
    ghost use Rattle.cf_types.specs.NoMemory.Wants.{want};
    ghost use Rattle.plex_script.specs.declared.faults.ReadFault.TheVariants as faults;

    ghost from_gives = { λ _ fault. fault ≡ faults.NoMemory want };

    fn from(failed: AllocError) -> Self {
        ReadFault::NoMemory(failed.into())
    }
}
