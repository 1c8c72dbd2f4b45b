ghost use Rattle.std.specs.Prelude.{◌≡◌, ◌≤◌, length, IfOk};
ghost use Rattle.cf_types.specs.declared.limits.TheConstants.{CONNECTORS};
ghost use Rattle.reply_rows.specs.Contents.{lock_row};

use crate::rows::{listing, plain, with_one};
use cf_types::{LockReply, Name16, NoMemory};
use plex_spell::Words;
use std::alloc::Global;

/// Reads a reply of a lock structure.
pub fn lock_reply(
    alloc: Global,
    connectors: &[Name16],
    words: &Words,
) -> Result<Option<LockReply>, NoMemory>
    requires { length connectors.now ≤ CONNECTORS }
    ensures { IfOk result (λ r. r ≡ lock_row.values words.now) }
{
    if plain(words, b"GRANTED").is_some() {
        return Ok(Some(LockReply::Granted));
    }
    if let Some(place) = with_one::<u32>(connectors, words, b"PENDING") {
        return Ok(Some(LockReply::Pending { place }));
    }
    if plain(words, b"OK").is_some() {
        return Ok(Some(LockReply::Ok));
    }
    if let Some(records) = listing(alloc, connectors, words, b"RECORDS")? {
        return Ok(Some(LockReply::Records(records)));
    }
    Ok(None)
}
