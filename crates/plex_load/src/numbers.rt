//! The numbers that say what the lines of a load do.

ghost use Rattle.std.specs.Prelude.{◌≡◌, ◌<◌, ◌%◌};
ghost use Rattle.plex_load.specs.Generated.{next_number, index_of};

/// Each number is below this.
const RANGE: u32 = 2_147_483_648;

/// The number with which the load of `n` begins.
pub(crate) fn seed(n: u32) -> u32
    ensures { result ≡ n % 2147483648 }
{
    n % RANGE
}

/// The number behind this one.
pub(crate) fn next_number(number: u32) -> u32
    ensures { result ≡ next_number number }
{
    ((u64::from(number) * 1_103_515_245 + 12_345) % u64::from(RANGE)) as u32
}

/// The page and the bit that a number stands for, 0 to 63.
pub(crate) fn index_of(number: u32) -> u32
    ensures { result ≡ index_of number }
{
    number / 65_536 % 64
}
