//! What the history of the cache says of a caller's tests.
use plex_board::api::{Ask, Entry, Reply, What};
use plex_board::types::{AlterCmd, AlterReply, CacheCmd, CacheReply, ConnId};
use std::alloc::{AllocError, Global};

/// An entry of the history of the cache.
pub type Done = Entry<AlterCmd<CacheCmd>, AlterReply<CacheReply>>;

/// What a test of the page's bit answered: the bit, the number of a call, and the number of a call
/// that its caller had seen complete.
#[derive(Clone, Copy, Debug, PartialEq, Eq)]
pub struct Answer {
    pub bit: bool,
    pub at: u32,
    pub sure: u32,
}

// The bit of the caller's copy after a call: its own READ sets it, and another's WRITE clears it.
fn bit_after(entry: &Done, caller: ConnId, before: bool) -> bool {
    match &entry.what {
        What::Call(Ask::Content(AlterCmd::Inner(CacheCmd::Read { .. }))) if entry.by == caller =>
            true,
        What::Call(Ask::Content(AlterCmd::Inner(CacheCmd::Write { .. }))) if entry.by != caller =>
            false,
        _ => before,
    }
}

/// The bit of the caller's copy before any call, and after each call.
pub fn bits_after(
    alloc: Global,
    entries: &[Done],
    caller: ConnId,
) -> Result<Vec<bool>, AllocError> {
    let mut bits = Vec::new(alloc);
    let mut bit = false;
    bits.push(bit)?;
    for entry in entries {
        bit = bit_after(entry, caller, bit);
        bits.push(bit)?;
    }
    Ok(bits)
}

/// Whether the test told what stood: at its number; or, where its caller hadn't seen that call
/// complete, before it.
pub fn tells(bits: &[bool], answer: Answer) -> bool {
    let at = answer.at as usize;
    bits.get(at) == Some(&answer.bit)
        || (answer.sure < answer.at && bits.get(at - 1) == Some(&answer.bit))
}

/// Whether no answer has a lower number than the one before.
pub fn never_falls(answers: &[Answer]) -> bool {
    answers.windows(2).all(|pair| pair[0].at <= pair[1].at)
}

/// Whether the call of this number is the caller's.
pub fn is_of(entries: &[Done], number: u32, caller: ConnId) -> bool {
    entries
        .iter()
        .any(|entry| entry.no == number && entry.by == caller)
}

/// How many calls of the caller were done.
pub fn counted(entries: &[Done], caller: ConnId) -> usize {
    entries
        .iter()
        .filter(|entry| entry.by == caller && !matches!(entry.reply, Reply::Refused(_)))
        .count()
}
