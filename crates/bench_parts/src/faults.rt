//! What is counted and timed, and what can go wrong.
use plex_board::cells::CallRefused;
use std::io;

/// What was counted, and the nanoseconds that it took.
#[derive(Clone, Copy)]
pub struct Timed {
    pub count: u32,
    pub nanos: u128,
}

/// A refused call as an error of the program.
pub fn call_error(refusal: CallRefused) -> io::Error {
    io::Error::from(match refusal {
        CallRefused::NoMemory(_) => io::ErrorKind::OutOfMemory,
        CallRefused::JournalFull { .. } => io::ErrorKind::Other,
    })
}
