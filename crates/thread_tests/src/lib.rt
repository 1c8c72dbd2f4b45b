//! Boards at which two callers work at once, each on a thread of its own, and what the history of
//! such a board says of them; and tests of the words that threads share and of the lock that knows its
//! key: steps on a pure machine of words, threads that race on words and on lock words, and threads
//! that take turns.
#![tactic(auto)]

#[cfg(test)]
mod halts;
#[cfg(test)]
mod past;
#[cfg(test)]
mod seats;
#[cfg(test)]
mod tests;
mod trial;
#[cfg(test)]
mod trials;
#[cfg(test)]
mod waits;

pub use trial::Trial;
