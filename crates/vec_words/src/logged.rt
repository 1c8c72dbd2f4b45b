//! What the history of the words records, and what a test answers.

/// A step of the history. `D` is the data of one answered call. No value of this type is made.
pub enum Logged<D> {
    /// The engine stored these bits under this number. Words are numbered over all vectors, the
    /// first connector's first.
    Stored { word: u32, bits: u32, stamp: u32 },
    /// The call of this number was answered, to this caller.
    Committed { number: u32, caller: u8, about: D },
}

/// One test of a bit, as contracts see it: the answer, and the number that the pass had seen
/// complete. No value of this type is made.
pub struct Sight {
    pub index: u32,
    pub bit: bool,
    pub at: u32,
    pub sure: u32,
}

/// The answer of a test (IXLVECTR TESTLOCALCACHE and TESTLISTSTATE): the bit, and the number that
/// the answer is of.
#[derive(Clone, Copy, PartialEq, Eq, Debug)]
pub struct Tested {
    pub bit: bool,
    pub at: u32,
}

/// The answer of a test of a whole word: 32 bits, index 32 times the word first, and the number
/// that the answer is of.
#[derive(Clone, Copy, PartialEq, Eq, Debug)]
pub struct TestedWord {
    pub bits: u32,
    pub at: u32,
}
