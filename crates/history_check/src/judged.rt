/// What a history is found to be.
#[derive(Clone, Copy, Debug, PartialEq, Eq)]
pub enum Judged {
    /// Some calls and some answers of links make it.
    Legal,

    /// It isn't legal. The first block with which it isn't begins at this place, from 1. A block is
    /// a call with the marks before it, or marks at the end.
    Bad { place: usize },
}
