//! What an attempt to obtain a lock answers.

/// The answer of [`obtain`](crate::LockWords::obtain). Where it isn't `Granted`, the hand holds
/// what it held before.
#[derive(Clone, Copy, PartialEq, Eq, Debug)]
pub enum Got {
    /// The hand holds the lock.
    Granted,
    /// The word was loaded, and its value doesn't admit the state.
    Contended { word: u64 },
    /// The word was changed between the load, which found `seen`, and the exchange, which found
    /// `found`. The two differ.
    Raced { seen: u64, found: u64 },
}
