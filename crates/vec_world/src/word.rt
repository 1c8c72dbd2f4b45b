//! The two halves of a word.
ghost use Rattle.std.specs.Prelude.{◌≡◌};
ghost use Rattle.vec_world.specs.World.{bits_of, stamp_of, word_of};

/// 2 to the 32nd: the weight of the stamp in a word.
const STAMP: u64 = 1 << 32;

/// The word with these bits and this stamp.
#[inline]
pub fn word_of(bits: u32, stamp: u32) -> u64
    ensures { result ≡ word_of bits stamp }
{
    u64::from(stamp) * STAMP + u64::from(bits)
}

/// The word's stamp.
#[inline]
pub fn stamp_of(word: u64) -> u32
    ensures { result ≡ stamp_of word }
{
    (word / STAMP) as u32
}

/// The word's bits.
#[inline]
pub fn bits_of(word: u64) -> u32
    ensures { result ≡ bits_of word }
{
    (word % STAMP) as u32
}
