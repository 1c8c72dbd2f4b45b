//! A chain more, and a chain less, in the elements that chains and the free ones share.
ghost use Rattle.std.specs.Prelude.{◌≡◌, ◌+◌, ◌-◌, ◌<◌, ◌≤◌, None, Some, length, take, slice_get, slice_set};
ghost use Rattle.cf_pool.specs.Chains.{need_of, IsWithin, walked, chains_in};
ghost use Rattle.cf_pool.specs.Pools.{need_in, IsChain};
ghost use Rattle.cf_pool.specs.Shared.{IsShared};

use crate::elements::{SIZE, last_of, need_of, store};

/// Puts bytes into a new chain, which begins at the first free element; answers which one is then
/// the first free one.
pub(crate) fn fill(
    cells: &mut [[u8; SIZE]],
    next: &[u32],
    lens: &mut [u32],
    head: u32,
    free: u32,
    bytes: &[u8],
) -> u32
    requires shared { IsShared cells.old next.now lens.old head free }
    requires some { 1 ≤ length bytes.now }
    requires few { length bytes.now ≤ 4096 }
    requires room { need_of (length bytes.now) ≤ free }
    ensures shared { IsShared cells.new next.now lens.new result
        (free - need_of (length bytes.now)) }
    ensures chains { chains_in cells.new next.now lens.new
        ≡ slice_set (chains_in cells.old next.now lens.old) head
        (Some bytes.now) }
    ensures fresh { slice_get (chains_in cells.old next.now lens.old) head
        ≡ Some None }
    ensures stored { slice_get (chains_in cells.new next.now lens.new) head
        ≡ Some (Some bytes.now) }
{
    let rest = store(cells, next, need_of(bytes.len()), head, bytes);
    lens[head as usize] = bytes.len() as u32;
    rest
}

/// Puts the elements of a chain in front of the free ones; answers how many they are.
pub(crate) fn unlink(
    cells: &[[u8; SIZE]],
    next: &mut [u32],
    lens: &mut [u32],
    head: u32,
    free: u32,
    at: u32,
) -> u32
    requires shared { IsShared cells.now next.old lens.old head free }
    requires chain { IsChain (chains_in cells.now next.old lens.old) at }
    ensures need { result ≡ need_in (chains_in cells.now next.old lens.old) at }
    ensures fits { free + result < 4294967296 }
    ensures shared { IsShared cells.now next.new lens.new at (free + result) }
    ensures chains { chains_in cells.now next.new lens.new
        ≡ slice_set (chains_in cells.now next.old lens.old) at None }
{
    let need = need_of(lens[at as usize] as usize);
    let last = last_of(next, need, at);
    next[last as usize] = head;
    lens[at as usize] = 0;
    need
}

/// The length of the chain that begins at an element.
pub(crate) fn len_at(
    cells: &[[u8; SIZE]],
    next: &[u32],
    lens: &[u32],
    head: u32,
    free: u32,
    at: u32,
) -> u32
    requires shared { IsShared cells.now next.now lens.now head free }
    requires chain { IsChain (chains_in cells.now next.now lens.now) at }
    ensures bytes { slice_get (chains_in cells.now next.now lens.now) at
        ≡ Some (Some (take result (walked cells.now next.now (need_of result) at))) }
    ensures need { need_of result ≡ need_in (chains_in cells.now next.now lens.now) at }
    ensures few { result ≤ 4096 }
    ensures fits { free + need_of result < 4294967296 }
    ensures within { IsWithin next.now (need_of result) at }
    ensures cells { length cells.now ≡ length next.now }
{
    lens[at as usize]
}
