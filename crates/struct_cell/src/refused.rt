ghost use Rattle.std.specs.Prelude.{◌≡◌};
ghost use Rattle.struct_cell.specs.declared.refused.CallRefused.TheVariants as refused;

use cf_types::NoMemory;
use thiserror::Error;

/// Why a call wasn't made. It stands in no journal then.
#[derive(Debug, Drop, PartialEq, Eq, Error)]
pub enum CallRefused {
    /// The journal has as many entries as it may have, or more.
    #[error("the journal is full at {limit} entries")]
    JournalFull { limit: u32 },

    /// There was no memory for the call.
    #[error("out of memory")]
    NoMemory(NoMemory),
}

impl From<NoMemory> for CallRefused {
    ghost from_gives = { λ cause refusal. refusal ≡ refused.NoMemory cause };

    fn from(cause: NoMemory) -> Self {
        CallRefused::NoMemory(cause)
    }
}
