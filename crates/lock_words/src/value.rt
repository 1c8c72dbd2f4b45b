//! What a lock word's value says, and what a hand adds to it.
ghost use Rattle.std.specs.Prelude.{true, false, ◌+◌, ◌*◌, ◌≡◌};
ghost use Rattle.lock_words.specs.Values.{Admits, Adds, noted};

/// The value of a word that one hand holds EXCL.
pub const EXCL: u64 = 9_223_372_036_854_775_808;

/// The greatest number of hands that may hold one word SHR.
pub const MOST_SHARED: u64 = 65_535;

/// Whether a word of this value admits one more holder.
pub(crate) fn admits(value: u64, excl: bool) -> bool
    ensures yes { result ≡ true → Admits value excl }
    ensures no { result ≡ false → ¬ Admits value excl }
{
    if excl {
        value == 0
    } else {
        value < MOST_SHARED
    }
}

/// The value with one more holder.
pub(crate) fn added(seen: u64, excl: bool) -> u64
    requires { Admits seen excl }
    ensures { Adds seen excl result }
{
    if excl { EXCL } else { seen + 1 }
}

/// What a holder has in the value, by what its hand notes of the word.
pub(crate) fn share_of(note: Option<bool>) -> u64
    ensures { result ≡ noted false note + noted true note * 9223372036854775808 }
{
    match note {
        Some(true) => EXCL,
        Some(false) => 1,
        None => 0,
    }
}
