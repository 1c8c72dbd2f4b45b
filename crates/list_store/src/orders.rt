//! Vectors of slab keys, one for each header.
ghost use Rattle.std.specs.Prelude.{◌≡◌, ◌+◌, ◌<◌, ◌≤◌, ◌++◌, ◌∷◌, ◌==◌, [], true, IsTrue, IfOk, OnOk, IfSome, IfNone, Some, length, position, slice_get, slice_set, replicate};
ghost use Rattle.std.specs.List.{list_all, list_any, insert, remove};
ghost use Rattle.std.specs.Vec.{vec_len, vec_capacity};
ghost use Rattle.cf_lists.specs.Lists.{all_records, records_of, lists_with, IsLastFull};
ghost use Rattle.list_store.specs.Orders.{orders_in, has_place, is_few};

use cf_types::NoMemory;
use std::alloc::Global;

// Puts a key at a place, where there is room for it.
fn insert_at(keys: &mut Vec<u32>, at: usize, key: u32)
    requires place { at ≤ vec_len keys.old }
    requires room { vec_len keys.old < vec_capacity keys.old }
    ensures items { keys.new.items ≡ insert keys.old.items at key }
    ensures len { vec_len keys.new ≡ vec_len keys.old + 1 }
{
    let _ = keys.insert(at, key);
}

/// A key comes to a place of a header.
#[tactic(auto, using(crate::proofs::VecLaws::orders_told))]
pub(crate) fn put(lists: &mut Vec<Vec<u32>>, header: usize, place: usize, key: u32)
    requires header { header < vec_len lists.old }
    requires place { place ≤ length (records_of (orders_in lists.old.items) header) }
    requires room { IsTrue (list_all has_place lists.old.items) }
    requires few { IsTrue (list_all is_few (orders_in lists.old.items)) }
    ensures lists { orders_in lists.new.items ≡ lists_with header place key
        (orders_in lists.old.items) }
    ensures len { vec_len lists.new ≡ vec_len lists.old }
    ensures few { IsTrue (list_all is_few (orders_in lists.new.items)) }
{
    insert_at(&mut lists[header], place, key);
}

/// Takes out the key at a place of a header.
#[tactic(auto, using(crate::proofs::VecLaws::orders_told))]
pub(crate) fn take_at(lists: &mut Vec<Vec<u32>>, header: usize, place: usize) -> u32
    requires header { header < vec_len lists.old }
    requires place { place < length (records_of (orders_in lists.old.items) header) }
    ensures key { slice_get (records_of (orders_in lists.old.items) header) place ≡ Some result }
    ensures lists { orders_in lists.new.items
        ≡ slice_set (orders_in lists.old.items) header
        (remove (records_of (orders_in lists.old.items) header) place) }
    ensures room { list_all has_place lists.old.items ≡ true → list_all has_place lists.new.items ≡
        true }
    ensures few { IsTrue (list_all is_few (orders_in lists.old.items))
        → IsTrue (list_all is_few (orders_in lists.new.items)) }
    ensures len { vec_len lists.new ≡ vec_len lists.old }
{
    lists[header].remove(place)
}

// Takes room for one key more.
fn reserve_one(keys: &mut Vec<u32>) -> Result<(), NoMemory>
    ensures items { keys.new.items ≡ keys.old.items }
    ensures len { vec_len keys.new ≡ vec_len keys.old }
    ensures room { OnOk result (has_place keys.new ≡ true) }
{
    if keys.len() >= u32::MAX as usize {
        return Err(NoMemory::beyond_counts());
    }
    keys.reserve(1)?;
    Ok(())
}

/// Takes room for one key more in each header.
#[tactic(auto, using(crate::proofs::VecLaws::orders_told))]
pub(crate) fn reserve(lists: &mut Vec<Vec<u32>>) -> Result<(), NoMemory>
    ensures lists { orders_in lists.new.items ≡ orders_in lists.old.items }
    ensures len { vec_len lists.new ≡ vec_len lists.old }
    ensures room { OnOk result (IsTrue (list_all has_place lists.new.items)) }
{
    for header in 0..lists.len() {
        reserve_one(&mut lists[header])?;
    }
    Ok(())
}

// Where a key stands first, where it does.
fn position_of(keys: &[u32], key: u32) -> Option<usize>
    ensures { result ≡ position (λ k. k == key) keys.now }
{
    keys.iter().position(|k| *k == key)
}

// Where a key stands that is there.
fn place_of(keys: &[u32], key: u32) -> usize
    requires { list_any (λ k. k == key) keys.now ≡ true }
    ensures { slice_get keys.now result ≡ Some key }
{
    match position_of(keys, key) {
        Some(place) => place,
        None => unreachable!(),
    }
}

/// The key at a place of a header, from 0.
pub(crate) fn key_at(lists: &[Vec<u32>], header: usize, place: usize) -> Option<u32>
    requires { header < length lists.now }
    ensures { result ≡ slice_get (records_of (orders_in lists.now) header) place }
{
    lists[header].as_slice().get(place).copied()
}

/// Where a key stands in a header, where it is.
pub(crate) fn place_in(lists: &[Vec<u32>], header: usize, key: u32) -> usize
    requires header { header < length lists.now }
    requires there { list_any (λ k. k == key) (records_of (orders_in lists.now) header) ≡ true }
    ensures { slice_get (records_of (orders_in lists.now) header) result ≡ Some key }
{
    place_of(lists[header].as_slice(), key)
}

/// How many keys a header has.
pub(crate) fn count(lists: &[Vec<u32>], header: usize) -> usize
    requires { header < length lists.now }
    ensures { result ≡ length (records_of (orders_in lists.now) header) }
{
    lists[header].len()
}

/// The last header that has keys.
pub(crate) fn last_header(lists: &[Vec<u32>]) -> Option<usize>
    ensures found { IfSome result (λ header. IsLastFull header (orders_in lists.now)) }
    ensures none { IfNone result (all_records (orders_in lists.now) ≡ []) }
{
    let mut left = lists.len();
    while left > 0 {
        left -= 1;
        if !lists[left].is_empty() {
            return Some(left);
        }
    }
    None
}

// One more header without keys.
fn push_none(alloc: Global, lists: &mut Vec<Vec<u32>>) -> Result<(), NoMemory>
    ensures { OnOk result (orders_in lists.new.items ≡ orders_in lists.old.items ++ [] ∷ []) }
{
    lists.push(Vec::new(alloc))?;
    Ok(())
}

/// So many headers without keys.
pub(crate) fn no_keys(alloc: Global, headers: u32) -> Result<Vec<Vec<u32>>, NoMemory>
    ensures { IfOk result (λ lists. orders_in lists.items ≡ replicate headers []) }
{
    let mut lists = Vec::new(alloc);
    for _ in 0..headers {
        push_none(alloc, &mut lists)?;
    }
    Ok(lists)
}
