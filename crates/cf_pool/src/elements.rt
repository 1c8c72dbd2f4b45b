//! Elements that follow each other by links, and the bytes in them.
ghost use Rattle.std.specs.Prelude.{◌≡◌, ℕ, ◌+◌, ◌-◌, ◌<◌, ◌≤◌, ◌++◌, [], replicate, length, drop, take, slice_index, slice_index_or, IfOk, OnOk};
ghost use Rattle.cf_pool.specs.Chains.{need_of, behind, IsWithin, walked, written, stored};

use std::alloc::{AllocError, Global};

/// How many bytes an element holds.
pub const SIZE: usize = 256;

/// How many elements so many bytes need.
pub(crate) fn need_of(len: usize) -> u32
    requires { len ≤ 4096 }
    ensures { result ≡ need_of len }
{
    ((len + (SIZE - 1)) / SIZE) as u32
}

// Writes bytes to the front of an element.
fn write(cell: &mut [u8; SIZE], part: &[u8])
    requires { length part.now ≤ SIZE }
    ensures { cell.new ≡ written part.now cell.old }
{
    cell[..part.len()].copy_from_slice(part);
}

// The bytes for one element, and those for the next ones.
fn split(bytes: &[u8]) -> (&[u8], &[u8])
    ensures part { result.0.now ≡ take SIZE bytes.now }
    ensures later { result.1.now ≡ drop SIZE bytes.now }
    ensures fits { length result.0.now ≤ SIZE }
{
    if bytes.len() < SIZE {
        bytes.split_at(bytes.len())
    } else {
        bytes.split_at(SIZE)
    }
}

/// Stores bytes in elements that follow each other, and answers which one comes behind them.
#[tactic(auto, using(crate::proofs::WalkLaws::stored_told))]
pub(crate) fn store(
    cells: &mut [[u8; SIZE]],
    next: &[u32],
    count: u32,
    head: u32,
    bytes: &[u8],
) -> u32
    requires within { IsWithin next.now count head }
    requires cells { length cells.old ≡ length next.now }
    ensures cells { cells.new ≡ stored next.now count head bytes.now cells.old }
    ensures behind { result ≡ behind next.now count head }
{
    let mut at = head;
    let mut rest = bytes;
    let mut left = count;
    while left > 0 {
        let (part, later) = split(rest);
        write(&mut cells[at as usize], part);
        rest = later;
        at = next[at as usize];
        left -= 1;
    }
    at
}

/// The last of elements that follow each other.
#[tactic(auto, using(crate::proofs::WalkLaws::within_fewer))]
pub(crate) fn last_of(next: &[u32], count: u32, head: u32) -> u32
    requires within { IsWithin next.now count head }
    requires some { 0 < count }
    ensures { result ≡ behind next.now (count - 1) head }
{
    let mut at = head;
    let mut left = count - 1;
    while left > 0 {
        at = next[at as usize];
        left -= 1;
    }
    at
}

// Puts the bytes of an element behind others, or the first ones where no more are wanted.
#[tactic(auto, using(std::proofs::lemmas::List::take_min, crate::proofs::WalkLaws::appended))]
fn append(bytes: &mut Vec<u8>, cell: &[u8; SIZE], wanted: usize) -> Result<(), AllocError>
    ensures put { OnOk result (bytes.new.items ≡ bytes.old.items ++ take wanted cell.now) }
    ensures whole { length cell.now ≡ SIZE }
{
    bytes.extend_from_slice(&cell[..wanted.min(SIZE)])
}

/// The first bytes of elements that follow each other. It takes memory for these alone.
pub(crate) fn gather(
    alloc: Global,
    cells: &[[u8; SIZE]],
    next: &[u32],
    count: u32,
    head: u32,
    len: usize,
) -> Result<Vec<u8>, AllocError>
    requires within { IsWithin next.now count head }
    requires cells { length cells.now ≡ length next.now }
    ensures { IfOk result (λ bytes. bytes.items
        ≡ take len (walked cells.now next.now count head)) }
{
    let mut bytes = Vec::with_capacity(alloc, len)?;
    let mut at = head;
    let mut left = count;
    while left > 0 {
        let wanted = len - bytes.len();
        append(&mut bytes, &cells[at as usize], wanted)?;
        at = next[at as usize];
        left -= 1;
    }
    Ok(bytes)
}

/// Elements that hold nothing.
pub(crate) fn blank(alloc: Global, count: usize) -> Result<Vec<[u8; SIZE]>, AllocError>
    ensures { IfOk result (λ cells. length cells.items ≡ count) }
{
    vec![in alloc; [0u8; SIZE]; count]
}

/// Each element has its size, by its type.
pub(crate) fn are_whole(cells: &[[u8; SIZE]])
    ensures { (at : ℕ) → at < length cells.now → length (slice_index_or cells.now at []) ≡ SIZE }
{
    let _ = cells.len();
}

/// Lengths, with no chain yet.
pub(crate) fn unused(alloc: Global, count: usize) -> Result<Vec<u32>, AllocError>
    ensures { IfOk result (λ lens. lens.items ≡ replicate count 0) }
{
    vec![in alloc; 0u32; count]
}

/// Links from each element to the one behind it.
pub(crate) fn linked(alloc: Global, count: u32) -> Result<Vec<u32>, AllocError>
    ensures count { IfOk result (λ next. length next.items ≡ count) }
    ensures links { IfOk result (λ next. (k : ℕ) → k < count → slice_index next.items k ≡ k + 1) }
{
    let mut next = Vec::with_capacity(alloc, count as usize)?;
    for at in 0..count {
        next.push(at + 1)?;
    }
    Ok(next)
}
