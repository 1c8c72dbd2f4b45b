use cf_types::{Listing, NoMemory, StrNo};

/// What a caller was shown.
#[derive(Clone, Copy, PartialEq, Eq)]
pub enum Shown {
    /// The number of its call.
    Call {
        on: StrNo,
        no: u32,
    },
    /// The bit at an index of its vector, and the number of the call at which it stood so.
    Test {
        on: StrNo,
        index: u32,
        bit: bool,
        at: u32,
    },
    /// The 32 bits of a word of its vector, the least index lowest, and the number of the call at
    /// which they stood so.
    Word {
        on: StrNo,
        word: u32,
        bits: u32,
        at: u32,
    },
    /// The index, or the word, isn't in the vector, which has this many bits.
    BadIndex {
        on: StrNo,
        index: u32,
        word: bool,
        len: u32,
    },
    /// The number that it posted.
    Posted {
        on: StrNo,
        sure: u32,
    },
    /// The number that it knows after it took what was posted.
    Took {
        on: StrNo,
        sure: u32,
    },
}

/// How a caller's work ended.
#[derive(Debug, Drop, PartialEq, Eq)]
pub enum AgentEnd {
    /// It did all its lines, and its closing.
    Done,
    /// A call came to this structure, whose journal was full.
    JournalFull { on: StrNo },
    /// There was no memory.
    NoMemory(NoMemory),
}

/// What a caller was shown, in order, and how its work ended.
#[derive(Drop)]
pub struct Transcript {
    pub items: Listing<Shown>,
    pub end: AgentEnd,
}
