use cf_types::NoMemory;
use std::alloc::{AllocError, AllocFailed};

/// Why nothing was read.
#[derive(Debug, Drop, PartialEq, Eq)]
pub enum Miss {
    /// The words aren't of the form, or don't keep to what they are judged by.
    NoForm,
    /// There was no memory for what they say.
    NoMemory(NoMemory),
}

impl<T: Drop> From<AllocFailed<T>> for Miss {
    ghost use Rattle.std.specs.Prelude.{◌≡◌};
    ghost use Rattle.cf_types.specs.NoMemory.Wants.{want};
    ghost use Rattle.plex_spell.specs.declared.misses.Miss.TheVariants as misses;

    ghost from_gives = { λ _ miss. miss ≡ misses.NoMemory want };

    fn from(failed: AllocFailed<T>) -> Self {
        Miss::NoMemory(failed.into())
    }
}

impl From<AllocError> for Miss {
    ghost use Rattle.std.specs.Prelude.{◌≡◌};
    ghost use Rattle.cf_types.specs.NoMemory.Wants.{want};
    ghost use Rattle.plex_spell.specs.declared.misses.Miss.TheVariants as misses;

    ghost from_gives = { λ _ miss. miss ≡ misses.NoMemory want };

    fn from(failed: AllocError) -> Self {
        Miss::NoMemory(failed.into())
    }
}
