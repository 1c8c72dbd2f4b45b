use crate::faults::Why;
use cf_types::NoMemory;
use std::alloc::AllocFailed;

/// Why a line was not read.
#[derive(Drop)]
pub(crate) enum LineFault {
    /// This is wrong with it.
    Wrong(Why),
    /// There was no memory for what it says.
    NoMemory(NoMemory),
}

impl<T: Drop> From<AllocFailed<T>> for LineFault {
    ghost use Rattle.std.specs.Prelude.{◌≡◌};
    ghost use Rattle.cf_types.specs.NoMemory.Wants.{want};
    ghost use Rattle.plex_script.specs.declared.line_faults.LineFault.TheVariants as faults;

    ghost from_gives = { λ _ fault. fault ≡ faults.NoMemory want };

    fn from(failed: AllocFailed<T>) -> Self {
        LineFault::NoMemory(failed.into())
    }
}
