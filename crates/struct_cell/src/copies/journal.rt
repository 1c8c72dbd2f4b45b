//! Replies from a journal, for the callers to whom they were given.
ghost use Rattle.std.specs.Prelude.{◌≡◌, IfOk};
ghost use Rattle.struct_cell.specs.Journals.{reply_for, reply_at};

use crate::copies::replies::{TryClone, copy_reply};
use cf_types::{ConnId, NoMemory};
use engine_api::{Entry, Reply, What};
use std::alloc::Global;

/// A copy of the reply of the entry with this number, where it tells a call of the caller's. Entry
/// `k` of the journal, from 1, has the number `k`.
pub fn own_reply<C, R: TryClone>(
    alloc: Global,
    journal: &[Entry<C, R>],
    owner: ConnId,
    no: u32,
) -> Result<Option<Reply<R>>, NoMemory>
    ensures { IfOk result (λ reply. reply ≡ reply_at journal.now owner no) }
{
    if no == 0 {
        return Ok(None);
    }
    match journal.get(no as usize - 1) {
        Some(entry) => reply_for(alloc, entry, owner),
        None => Ok(None),
    }
}

// A copy of the reply of an entry that tells a call of the caller's.
fn reply_for<C, R: TryClone>(
    alloc: Global,
    entry: &Entry<C, R>,
    owner: ConnId,
) -> Result<Option<Reply<R>>, NoMemory>
    ensures { IfOk result (λ reply. reply ≡ reply_for owner entry.now) }
{
    match &entry.what {
        What::Call(_) if entry.by.0 == owner.0 => Ok(Some(copy_reply(alloc, &entry.reply)?)),
        _ => Ok(None),
    }
}
