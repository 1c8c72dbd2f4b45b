//! The steps of the machine.

/// One step on the words of a vector, on the count, or on what a pass knows.
///
/// A step stands for one load or store of a word that threads share, or for a number that one pass
/// hands to another. Words and passes are numbered from 0. A step that can't act does nothing: that
/// holds of each that names a word or a pass that isn't there. No step fails but for memory.
#[derive(Clone, Copy, PartialEq, Eq)]
pub enum Step {
    /// Stores 32 bits of the vector, and a stamp, into a word: a part of what a command of the
    /// coupling facility changes in a connector's vector, as a cross-invalidation (IXLCACHE) or a
    /// list transition (IXLLIST). The stamp is the number of the command, from 1.
    ///
    /// It acts where the stamp is above the count, is the number in flight if there is one, and
    /// isn't the word's stamp yet. The stamp is in flight then.
    Store { word: u32, bits: u32, stamp: u32 },
    /// Makes a number the count: the command of that number is complete.
    ///
    /// It acts where the number is above the count, and is the one in flight if there is one.
    /// Nothing is in flight then.
    Commit { number: u32 },
    /// Loads a word. The pass knows the word's stamp then, or what it knew, whichever is larger: a
    /// test of a vector's entries (IXLVECTR, as TESTLOCALCACHE, TESTLISTSTATE or LTVECENTRIES).
    Load { pass: u8, word: u32 },
    /// Loads the count. The pass knows it then, or what it knew, whichever is larger.
    LoadCount { pass: u8 },
    /// Writes what the pass knows down, as the newest note.
    Split { pass: u8 },
    /// Takes the newest note away. The pass knows its number then, or what it knew, whichever is
    /// larger.
    ///
    /// It can't act where there is no note.
    Join { into: u8 },
}
