//! What became of requests.
use crate::requests::Request;

/// What became of a request.
#[derive(Clone, Copy, Debug, PartialEq, Eq)]
pub enum Outcome {
    /// OBTAIN: the connector holds the lock.
    Granted,
    /// OBTAIN: the connector held the word already.
    Held { excl: bool },
    /// OBTAIN: others hold the word, which has this value.
    Contended { value: u64 },
    /// OBTAIN: another changed the word between this one's two steps.
    Raced,
    /// RELEASE: the connector holds the word no more.
    Freed,
    /// RELEASE: the connector didn't hold the word.
    NotHeld,
}

/// A request, and what became of it.
#[derive(Clone, Copy, Debug, PartialEq, Eq)]
pub struct Done {
    pub request: Request,
    pub outcome: Outcome,
}
