//! The items that a caller is shown, as they come. Room for an item is taken before what it shows
//! is done, so nothing is done that isn't shown.
ghost use Rattle.std.specs.Prelude.{◌≡◌, ◌<◌, OnOk, [], length};
ghost use Rattle.std.specs.Vec.{vec_len, vec_capacity};
ghost use Rattle.plex_board.specs.Turns.{is_done_as};

use plex_board::scripts::{AgentEnd, Shown, Transcript};
use plex_board::types::{Listing, NoMemory};
use std::alloc::Global;
use std::mem::replace;

/// Whether a caller's work goes on.
pub(crate) fn is_done(end: &AgentEnd) -> bool
    ensures { result ≡ is_done_as end.now }
{
    matches!(end, AgentEnd::Done)
}

/// Takes the items out of a transcript. It takes no memory.
pub(crate) fn take_items(alloc: Global, shown: &mut Transcript) -> Vec<Shown>
    ensures { result.items ≡ shown.old.items }
{
    replace(&mut shown.items, Listing::new(alloc)).into_vec()
}

/// Takes room for one item more. Want of memory changes nothing.
pub(crate) fn reserve_item(items: &mut Vec<Shown>) -> Result<(), NoMemory>
    ensures items { items.new.items ≡ items.old.items }
    ensures room { OnOk result (vec_len items.new < vec_capacity items.new) }
{
    items.reserve(1)?;
    Ok(())
}
