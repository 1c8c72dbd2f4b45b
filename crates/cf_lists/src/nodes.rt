//! Lists whose nodes come from a list of spare nodes, so that a change takes no memory.
ghost use Rattle.std.specs.Prelude.{◌≡◌, ◌+◌, ◌≤◌, ◌<◌, ◌++◌, ◌∷◌, ◌^◌, [], IfOk, OnOk, take, drop, slice_set};
ghost use Rattle.std.specs.List.{insert, remove};
ghost use Rattle.std.specs.LinkedList.{linked_list_len};

use cf_types::NoMemory;
use std::alloc::Global;
use std::collections::LinkedList;

// Splits a list; this takes no memory.
fn split<T: Drop>(list: &mut LinkedList<T>, at: usize) -> LinkedList<T>
    requires { at ≤ linked_list_len list.old }
    ensures front { list.new ≡ take at list.old }
    ensures back { result ≡ drop at list.old }
{
    match list.split_off(at) {
        Ok(back) => back,
        Err(_) => unreachable!(),
    }
}

// Joins two lists that were one, or are short.
fn join<T: Drop>(list: &mut LinkedList<T>, back: LinkedList<T>)
    requires { linked_list_len list.old + linked_list_len back < 2 ^ 63 }
    ensures { list.new ≡ list.old ++ back }
{
    let mut back = back;
    let _ = list.append(&mut back);
}

// Writes the first element.
fn put_first<T: Drop>(list: &mut LinkedList<T>, value: T)
    requires { 0 < linked_list_len list.old }
    ensures { list.new ≡ slice_set list.old 0 value }
{
    if let Some(first) = list.front_mut() {
        *first = value;
    }
}

// A spare node, with a value.
fn node_of<T: Drop>(spare: &mut LinkedList<T>, value: T) -> LinkedList<T>
    requires { 1 ≤ linked_list_len spare.old }
    ensures node { result ≡ value ∷ [] }
    ensures spare { linked_list_len spare.new + 1 ≡ linked_list_len spare.old }
{
    let last = spare.len() - 1;
    let mut node = split(spare, last);
    put_first(&mut node, value);
    node
}

// A node is spare from now on; past a number of nodes that no list has, it is freed.
fn put_spare<T: Drop>(spare: &mut LinkedList<T>, node: LinkedList<T>)
    ensures { linked_list_len spare.old ≤ linked_list_len spare.new }
{
    let mut node = node;
    let _ = spare.append(&mut node);
}

/// Puts a value at a place, into a spare node.
pub fn insert<T: Drop>(list: &mut LinkedList<T>, spare: &mut LinkedList<T>, at: usize, value: T)
    requires place { at ≤ linked_list_len list.old }
    requires few { linked_list_len list.old + 1 < 2 ^ 63 }
    requires spare { 1 ≤ linked_list_len spare.old }
    ensures list { list.new ≡ insert list.old at value }
    ensures spare { linked_list_len spare.new + 1 ≡ linked_list_len spare.old }
{
    let node = node_of(spare, value);
    let back = split(list, at);
    join(list, node);
    join(list, back);
}

/// Takes the value at a place out; its node is spare again.
pub fn cut<T: Drop>(list: &mut LinkedList<T>, spare: &mut LinkedList<T>, at: usize)
    requires { at < linked_list_len list.old }
    ensures list { list.new ≡ remove list.old at }
    ensures spare { linked_list_len spare.old ≤ linked_list_len spare.new }
{
    let _len = list.len();
    let mut node = split(list, at);
    let back = split(&mut node, 1);
    join(list, back);
    put_spare(spare, node);
}

/// The first value goes behind all others.
pub fn roll<T: Drop>(list: &mut LinkedList<T>)
    requires { 0 < linked_list_len list.old }
    ensures { list.new ≡ drop 1 list.old ++ take 1 list.old }
{
    let _len = list.len();
    let rest = split(list, 1);
    let node = split(list, 0);
    join(list, rest);
    join(list, node);
}

/// The first value goes, and another one comes behind all others.
pub fn turn<T: Drop>(list: &mut LinkedList<T>, value: T)
    requires { 0 < linked_list_len list.old }
    ensures { list.new ≡ drop 1 list.old ++ value ∷ [] }
{
    let _len = list.len();
    let rest = split(list, 1);
    put_first(list, value);
    let node = split(list, 0);
    join(list, rest);
    join(list, node);
}

/// Another value takes the place of one.
pub fn replace<T: Drop>(list: &mut LinkedList<T>, at: usize, value: T)
    requires { at < linked_list_len list.old }
    ensures { list.new ≡ slice_set list.old at value }
{
    let _len = list.len();
    let mut back = split(list, at);
    put_first(&mut back, value);
    join(list, back);
}

/// Puts a copy of a value at a place, into a spare node.
pub fn insert_copy<T: Copy + Drop>(
    list: &mut LinkedList<T>,
    spare: &mut LinkedList<T>,
    at: usize,
    value: &T,
)
    requires place { at ≤ linked_list_len list.old }
    requires few { linked_list_len list.old + 1 < 2 ^ 63 }
    requires spare { 1 ≤ linked_list_len spare.old }
    ensures list { list.new ≡ insert list.old at value.now }
    ensures spare { linked_list_len spare.new + 1 ≡ linked_list_len spare.old }
{
    insert(list, spare, at, *value);
}

/// Takes spare nodes, so that there are this many, each with a copy of a value that nobody reads.
pub fn fill<T: Copy + Drop>(
    spare: &mut LinkedList<T>,
    nodes: usize,
    blank: &T,
) -> Result<(), NoMemory>
    ensures room { OnOk result (nodes ≤ linked_list_len spare.new) }
    ensures more { linked_list_len spare.old ≤ linked_list_len spare.new }
{
    let lacking = nodes.saturating_sub(spare.len());
    for _ in 0..lacking {
        spare.push_back(*blank)?;
    }
    Ok(())
}

/// The same list once more.
pub fn copy_list<T: Copy + Drop>(
    alloc: Global,
    list: &LinkedList<T>,
) -> Result<LinkedList<T>, NoMemory>
    ensures { IfOk result (λ copy. copy ≡ list.now) }
{
    let mut copy = LinkedList::new(alloc);
    for value in list.iter() {
        copy.push_back(*value)?;
    }
    Ok(copy)
}
