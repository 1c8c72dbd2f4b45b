ghost use Rattle.std.specs.Prelude.{◌≡◌, ◌+◌, ◌≤◌, ◌<◌, ◌&&◌, ◌||◌, ◌++◌, ◌^◌, [], map, IfOk, OnOk, IsTrue, not, false, length, filter, position, option_map, slice_get, slice_index_or, replicate};
ghost use Rattle.std.specs.List.{prefix_len};
ghost use Rattle.std.specs.LinkedList.{linked_list_len};
ghost use Rattle.cf_lists.specs.Pairwise.{pairwise};
ghost use Rattle.cf_lists.specs.Insertions.{insertion};
ghost use Rattle.cf_lists.specs.Bins.{joined};
ghost use Rattle.std.specs.Prelude.{◌∷◌, ◌-◌, Some, None, MatchOption, is_some, drop, cond};
ghost use Rattle.std.specs.List.{list_all};
ghost use Rattle.cf_types.specs.Resources.{resource_before};
ghost use Rattle.cf_lists.specs.Tables.{slot_in, placed_on, later_of, last_of};
ghost use Rattle.lock_queue.specs.Waiters.{is_on, is_waiter, first_of, waiter_of, waiters_of, waits, is_by, recorded_by, recorded_of, recorded_in, waiters_without, waiters_without_conn, stands_before, waiters_with, place_of, are_apart, IsQueue};
ghost use Rattle.lock_queue.specs.Tables.{part_of, resource_of, waiters_in, is_ahead, AreEntries, one_where};

use crate::waiters::Waiter;
use cf_lists::{copy_list, cut, fill, insert_copy, roll, start_of};
use cf_types::{ConnId, Name16, NoMemory, Resource};
use std::alloc::Global;
use std::collections::LinkedList;
use std::marker::Model;

// The waiters of a table entry, and nodes that hold nothing yet.
type Waiting = LinkedList<Waiter>;

/// The waiters of a lock structure. Contracts see them in the order of resources and, of one
/// resource, in the order in which they are granted, with how many more there is room for.
///
/// They lie in table entries: a resource's hash value modulo the number of entries picks the entry
/// of its waiters. That number plays no part in what contracts see. No order is kept: what goes
/// over all waiters makes it once.
#[derive(Drop)]
pub struct Queue {
    entries: Vec<LinkedList<Waiter>>,
    count: u32,
    recorded: u32,
    spare: LinkedList<Waiter>,
}

impl Model for Queue {
    ghost use Rattle.lock_queue.specs.QueueView.{QueueView, queue_view, IsKept};

    ghost Value = { QueueView };

    ghost view = { queue_view };

    ghost invariant = { IsKept };
}

// ---- one entry

// Whether this connector waits for this resource.
fn is_waiter(waiter: &Waiter, r: &Resource, conn: ConnId) -> bool
    ensures { result ≡ is_waiter r.now conn waiter.now }
{
    waiter.r == *r && waiter.conn == conn
}

// Whether a waiter of an entry stays ahead of one that comes.
fn is_ahead(other: &Waiter, waiter: &Waiter) -> bool
    ensures { result ≡ is_ahead other.now waiter.now }
{
    !((waiter.alter && !other.alter) && other.r == waiter.r)
}

// Where a connector stands that waits for a resource.
fn place_in(waiters: &Waiting, r: &Resource, conn: ConnId) -> Option<usize>
    ensures { result ≡ position (is_waiter r.now conn) waiters.now }
{
    waiters.iter().position(|waiter| is_waiter(waiter, r, conn))
}

// What a connector waits for at a resource.
fn find_in<'a>(waiters: &'a Waiting, r: &Resource, conn: ConnId) -> Option<&'a Waiter>
    ensures { option_map (λ waiter. waiter.now) result ≡ waiter_of r.now conn waiters.now }
{
    waiters.iter().find(|waiter| is_waiter(waiter, r, conn))
}

// The first that waits for a resource.
fn first_in<'a>(waiters: &'a Waiting, r: &Resource) -> Option<&'a Waiter>
    ensures { option_map (λ waiter. waiter.now) result ≡ first_of r.now waiters.now }
{
    waiters.iter().find(|waiter| waiter.r == *r)
}

// How many wait for a resource.
fn count_in(waiters: &Waiting, r: &Resource) -> usize
    ensures { result ≡ length (waiters_of r.now waiters.now) }
{
    waiters.iter().filter(|waiter| waiter.r == *r).count()
}

// The one at a place of those that wait for a resource.
fn nth_in<'a>(waiters: &'a Waiting, r: &Resource, n: usize) -> Option<&'a Waiter>
    ensures { option_map (λ waiter. waiter.now) result
        ≡ slice_get (waiters_of r.now waiters.now) n }
{
    waiters.iter().filter(|waiter| waiter.r == *r).nth(n)
}

// How many waiters for its resource stand before a waiter.
fn count_before(waiters: &Waiting, waiter: &Waiter) -> usize
    ensures { result ≡ length (filter (λ other. is_on waiter.now.r other
        && (other.alter || not waiter.now.alter)) waiters.now) }
{
    waiters
        .iter()
        .filter(|other| other.r == waiter.r && (other.alter || !waiter.alter))
        .count()
}

// Where a waiter is put.
fn spot_in(waiters: &Waiting, waiter: &Waiter) -> usize
    ensures { result ≡ prefix_len (λ other. is_ahead other waiter.now) waiters.now }
{
    waiters
        .iter()
        .take_while(|other| is_ahead(other, waiter))
        .count()
}

// Puts a waiter into its place, in a spare node; answers how many for its resource stand before it.
#[tactic(auto, using(crate::proofs::CountLaws::fewer))]
fn put_in(waiters: &mut Waiting, spare: &mut Waiting, waiter: Waiter) -> usize
    requires few { linked_list_len waiters.old + 1 < 2 ^ 63 }
    requires spare { 1 ≤ linked_list_len spare.old }
    ensures before { result ≡ length (filter (λ other. is_on waiter.r other
        && (other.alter || not waiter.alter)) waiters.old) }
    ensures waiters { waiters.new ≡ insertion (λ other. is_ahead other waiter) waiter waiters.old }
    ensures spare { linked_list_len spare.new + 1 ≡ linked_list_len spare.old }
{
    let before = count_before(waiters, &waiter);
    let at = spot_in(waiters, &waiter);
    insert_copy(waiters, spare, at, &waiter);
    before
}

// A connector waits for a resource no more; answers whether it did.
#[tactic(auto, using(cf_lists::proofs::EntrySpotLaws::some_place, cf_lists::proofs::KeyLaws::none_placed))]
fn take_from(waiters: &mut Waiting, spare: &mut Waiting, r: &Resource, conn: ConnId) -> bool
    requires { IsTrue (pairwise are_apart waiters.old) }
    ensures there { result ≡ waits r.now conn waiters.old }
    ensures waiters { waiters.new ≡ waiters_without r.now conn waiters.old }
    ensures spare { linked_list_len spare.old ≤ linked_list_len spare.new }
{
    match place_in(waiters, r, conn) {
        Some(at) => {
            cut(waiters, spare, at);
            true
        }
        None => false,
    }
}

// Whether the first waiter is this connector.
fn is_first_by(waiters: &Waiting, conn: ConnId) -> bool
    requires { 0 < length waiters.now }
    ensures { (d : Waiter) → result ≡ is_by conn (slice_index_or waiters.now 0 d) }
{
    match waiters.front() {
        Some(waiter) => waiter.conn == conn,
        None => false,
    }
}

// The first waiter goes where it is this connector, and else behind all others.
fn sift_one(waiters: &mut Waiting, spare: &mut Waiting, conn: ConnId)
    requires { 0 < length waiters.old }
    ensures waiters { (d : Waiter) → waiters.new ≡ drop 1 waiters.old
        ++ cond (not (is_by conn (slice_index_or waiters.old 0 d)))
        (slice_index_or waiters.old 0 d ∷ []) [] }
    ensures spare { linked_list_len spare.old ≤ linked_list_len spare.new }
{
    if is_first_by(waiters, conn) {
        cut(waiters, spare, 0);
    } else {
        roll(waiters);
    }
}

// A connector waits for nothing more.
fn take_conn(waiters: &mut Waiting, spare: &mut Waiting, conn: ConnId)
    ensures waiters { waiters.new ≡ waiters_without_conn conn waiters.old }
    ensures spare { linked_list_len spare.old ≤ linked_list_len spare.new }
{
    for _ in 0..waiters.len() {
        sift_one(waiters, spare, conn);
    }
}

// How many record data a waiter brings.
fn recorded_by(waiter: &Waiter) -> u32
    ensures { result ≡ recorded_by waiter.now }
{
    if waiter.rec.is_some() { 1 } else { 0 }
}

// How many record data one brings, if there is one.
fn recorded_of(waiter: Option<&Waiter>) -> u32
    ensures { result ≡ recorded_of (option_map (λ waiter. waiter.now) waiter.entry) }
{
    match waiter {
        Some(waiter) => recorded_by(waiter),
        None => 0,
    }
}

// How many record data waiters bring.
fn recorded_in(waiters: &Waiting) -> usize
    ensures { result ≡ recorded_in waiters.now }
{
    waiters.iter().filter(|waiter| waiter.rec.is_some()).count()
}

// How many waiters for a resource before one there are.
fn count_ahead(waiters: &Waiting, r: &Resource) -> usize
    ensures { result ≡ length (filter (λ waiter. resource_before waiter.r r.now) waiters.now) }
{
    waiters
        .iter()
        .filter(|waiter| waiter.r.cmp(r).is_lt())
        .count()
}

// Of two waiters the second, unless it waits for a resource before the first's.
fn later_of<'a>(best: Option<&'a Waiter>, waiter: &'a Waiter) -> Option<&'a Waiter>
    ensures { option_map (λ waiter. waiter.now) result
        ≡ later_of part_of (option_map (λ waiter. waiter.now) best.entry) (Some waiter.now) }
{
    match best {
        Some(best) if waiter.r.cmp(&best.r).is_lt() => Some(best),
        _ => Some(waiter),
    }
}

// The last waiter by resource, of one that is last so far and of these.
fn last_among<'a>(waiters: &'a Waiting, best: Option<&'a Waiter>) -> Option<&'a Waiter>
    ensures { option_map (λ waiter. waiter.now) result
        ≡ later_of part_of (option_map (λ waiter. waiter.now) best.entry)
        (last_of part_of waiters.now) }
{
    let mut last = best;
    for waiter in waiters.iter() {
        last = later_of(last, waiter);
    }
    last
}

// ---- all entries

// The entry that a resource's hash value picks.
fn slot_of(entries: &[Waiting], r: &Resource) -> usize
    requires { 0 < length entries.now }
    ensures slot { result ≡ slot_in (length entries.now) r.now }
    ensures within { result < length entries.now }
{
    r.hash as usize % entries.len()
}

// What a connector waits for at a resource.
fn find_on<'a>(entries: &'a [Waiting], r: &Resource, conn: ConnId) -> Option<&'a Waiter>
    requires { AreEntries entries.now }
    ensures { option_map (λ waiter. waiter.now) result
        ≡ waiter_of r.now conn (waiters_in entries.now) }
{
    let slot = slot_of(entries, r);
    find_in(&entries[slot], r, conn)
}

// The first that waits for a resource.
fn first_on<'a>(entries: &'a [Waiting], r: &Resource) -> Option<&'a Waiter>
    requires { AreEntries entries.now }
    ensures { option_map (λ waiter. waiter.now) result ≡ first_of r.now (waiters_in entries.now) }
{
    let slot = slot_of(entries, r);
    first_in(&entries[slot], r)
}

// How many wait for a resource.
fn count_on(entries: &[Waiting], r: &Resource) -> usize
    requires { AreEntries entries.now }
    ensures { result ≡ length (waiters_of r.now (waiters_in entries.now)) }
{
    let slot = slot_of(entries, r);
    count_in(&entries[slot], r)
}

// A connector waits for nothing more.
#[tactic(auto, using(cf_lists::proofs::PassLaws::mapped_whole))]
fn take_out_conn(entries: &mut [Waiting], spare: &mut Waiting, conn: ConnId)
    ensures entries { entries.new ≡ map (waiters_without_conn conn) entries.old }
    ensures spare { linked_list_len spare.old ≤ linked_list_len spare.new }
{
    for waiters in entries.iter_mut() {
        take_conn(waiters, spare, conn);
    }
}

// How many waiters there are.
#[tactic(auto, using(cf_lists::proofs::PassLaws::counted_next, crate::proofs::CountLaws::fewer))]
fn count_all(entries: &[Waiting]) -> usize
    requires { length (joined entries.now) < 4294967296 }
    ensures { result ≡ length (joined entries.now) }
{
    let mut count = 0;
    for waiters in entries {
        count += waiters.len();
    }
    count
}

// How many record data all waiters bring.
fn recorded_all(entries: &[Waiting]) -> usize
    requires { recorded_in (joined entries.now) < 4294967296 }
    ensures { result ≡ recorded_in (joined entries.now) }
{
    let mut count = 0;
    for waiters in entries {
        count += recorded_in(waiters);
    }
    count
}

// A connector waits for nothing more; answers how many wait then, and how many record data they
// bring.
#[tactic(auto, using(cf_lists::proofs::PassLaws::left_seen, cf_lists::proofs::RankLaws::length_seen, crate::proofs::CountLaws::recorded_seen))]
fn end_conn(entries: &mut [Waiting], spare: &mut Waiting, conn: ConnId) -> (usize, usize)
    requires kept { AreEntries entries.old }
    requires queue { IsQueue (waiters_in entries.old) }
    requires few { length (waiters_in entries.old) < 4294967296 }
    ensures kept { AreEntries entries.new }
    ensures queue { IsQueue (waiters_in entries.new) }
    ensures waiters { waiters_in entries.new ≡ waiters_without_conn conn (waiters_in entries.old) }
    ensures count { result.0 ≡ length (waiters_in entries.new) }
    ensures fits { result.0 < 4294967296 }
    ensures less { result.0 ≤ length (waiters_in entries.old) }
    ensures recorded { result.1 ≡ recorded_in (waiters_in entries.new) }
    ensures recorded_fits { result.1 < 4294967296 }
    ensures spare { linked_list_len spare.old ≤ linked_list_len spare.new }
{
    take_out_conn(entries, spare, conn);
    let count = count_all(entries);
    let recorded = recorded_all(entries);
    (count, recorded)
}

// How many waiters for resources before one there are.
fn count_all_ahead(entries: &[Waiting], r: &Resource) -> usize
    requires { length (joined entries.now) < 4294967296 }
    ensures { result ≡ length (filter (λ waiter. resource_before waiter.r r.now)
        (joined entries.now)) }
{
    let mut count = 0;
    for waiters in entries {
        count += count_ahead(waiters, r);
    }
    count
}

// The waiter at a place, where it waits for this resource.
#[tactic(auto, using(cf_lists::proofs::RankLaws::placed_none))]
fn at_on<'a>(entries: &'a [Waiting], r: &Resource, k: usize) -> Option<&'a Waiter>
    requires entries { AreEntries entries.now }
    requires few { length (joined entries.now) < 4294967296 }
    ensures { option_map (λ waiter. waiter.now) result
        ≡ placed_on part_of r.now k (waiters_in entries.now) }
{
    let before = count_all_ahead(entries, r);
    if k < before {
        return None;
    }
    let slot = slot_of(entries, r);
    nth_in(&entries[slot], r, k - before)
}

// The waiter at a place, where it waits for a resource of this entry.
#[tactic(auto, using(cf_lists::proofs::RankLaws::placed_here, cf_lists::proofs::EntryTableLaws::in_order))]
fn at_in<'a>(entries: &'a [Waiting], waiters: &'a Waiting, k: usize) -> Option<&'a Waiter>
    requires entries { AreEntries entries.now }
    requires few { length (joined entries.now) < 4294967296 }
    ensures { MatchOption result
        (IsTrue (list_all (λ waiter. not (is_some (placed_on part_of waiter.r k
        (waiters_in entries.now)))) waiters.now))
        (λ waiter. slice_get (waiters_in entries.now) k ≡ Some waiter.now) }
{
    for waiter in waiters.iter() {
        if let Some(found) = at_on(entries, &waiter.r, k) {
            return Some(found);
        }
    }
    None
}

// The waiter at a place, found without the order of all.
#[tactic(auto, using(cf_lists::proofs::PassLaws::all_next, cf_lists::proofs::RankLaws::none_placed_on, cf_lists::proofs::PassLaws::joined_past))]
fn search_at<'a>(entries: &'a [Waiting], k: usize) -> Option<&'a Waiter>
    requires entries { AreEntries entries.now }
    requires few { length (joined entries.now) < 4294967296 }
    ensures { option_map (λ waiter. waiter.now) result ≡ slice_get (waiters_in entries.now) k }
{
    for waiters in entries {
        if let Some(found) = at_in(entries, waiters, k) {
            return Some(found);
        }
    }
    None
}

// The last waiter by resource and then in order.
#[tactic(auto, using(cf_lists::proofs::RankLaws::last_next, cf_lists::proofs::RankLaws::last_past))]
fn last_in<'a>(entries: &'a [Waiting]) -> Option<&'a Waiter>
    ensures { option_map (λ waiter. waiter.now) result ≡ last_of part_of (joined entries.now) }
{
    let mut last = None;
    for waiters in entries {
        last = last_among(waiters, last);
    }
    last
}

// The resource at a place.
fn key_at(order: &[Resource], k: usize) -> Option<Resource>
    ensures { result ≡ slice_get order.now k }
{
    order.get(k).copied()
}

// The waiter at a place: its resource stands at that place of the order, and how many of these
// stand before it there is its place among the waiters.
#[tactic(auto, using(cf_lists::proofs::EntryTableLaws::ordered, cf_lists::proofs::EntryTableLaws::none_past))]
fn at_place<'a>(entries: &'a [Waiting], order: &[Resource], k: usize) -> Option<&'a Waiter>
    requires entries { AreEntries entries.now }
    requires order { order.now ≡ map resource_of (waiters_in entries.now) }
    ensures { option_map (λ waiter. waiter.now) result ≡ slice_get (waiters_in entries.now) k }
{
    match key_at(order, k) {
        Some(r) => {
            let before = start_of(order, &r);
            let slot = slot_of(entries, &r);
            nth_in(&entries[slot], &r, k.saturating_sub(before))
        }
        None => None,
    }
}

// A connector waits for a resource no more; answers whether it did.
fn take_out(entries: &mut [Waiting], spare: &mut Waiting, r: &Resource, conn: ConnId) -> bool
    requires kept { AreEntries entries.old }
    requires queue { IsQueue (waiters_in entries.old) }
    ensures kept { AreEntries entries.new }
    ensures queue { IsQueue (waiters_in entries.new) }
    ensures there { result ≡ waits r.now conn (waiters_in entries.old) }
    ensures waiters { waiters_in entries.new
        ≡ waiters_without r.now conn (waiters_in entries.old) }
    ensures less { length (waiters_in entries.new) + one_where result
        ≡ length (waiters_in entries.old) }
    ensures spare { linked_list_len spare.old ≤ linked_list_len spare.new }
{
    let slot = slot_of(entries, r);
    take_from(&mut entries[slot], spare, r, conn)
}

// One waiter more, where its connector doesn't wait for its resource; answers its place among those
// that do, from 1.
#[tactic(auto, using(cf_lists::proofs::EntryTableLaws::few_in, crate::proofs::CountLaws::fewer))]
fn put_new(entries: &mut [Waiting], spare: &mut Waiting, waiter: Waiter) -> usize
    requires kept { AreEntries entries.old }
    requires none { waits waiter.r waiter.conn (waiters_in entries.old) ≡ false }
    requires few { length (waiters_in entries.old) < 4294967295 }
    requires spare { 1 ≤ linked_list_len spare.old }
    ensures kept { AreEntries entries.new }
    ensures place { result ≡ length (filter (λ other. is_on waiter.r other
        && (other.alter || not waiter.alter)) (waiters_in entries.old)) + 1 }
    ensures within { result < 4294967296 }
    ensures waiters { waiters_in entries.new ≡ insertion (λ other. stands_before other waiter)
        waiter (waiters_in entries.old) }
    ensures spare { linked_list_len spare.new + 1 ≡ linked_list_len spare.old }
{
    let slot = slot_of(entries, &waiter.r);
    let before = put_in(&mut entries[slot], spare, waiter);
    before + 1
}

// One waiter more, in place of its connector's own for its resource; answers its place, and whether
// there was none.
fn put(entries: &mut [Waiting], spare: &mut Waiting, waiter: Waiter) -> (usize, bool)
    requires kept { AreEntries entries.old }
    requires queue { IsQueue (waiters_in entries.old) }
    requires few { length (waiters_in entries.old) < 4294967295 }
    requires spare { 1 ≤ linked_list_len spare.old }
    ensures kept { AreEntries entries.new }
    ensures queue { IsQueue (waiters_in entries.new) }
    ensures place { result.0 ≡ place_of waiter (waiters_in entries.old) }
    ensures within { result.0 < 4294967296 }
    ensures waiters { waiters_in entries.new ≡ waiters_with waiter (waiters_in entries.old) }
    ensures more { length (waiters_in entries.new)
        ≡ length (waiters_in entries.old) + one_where result.1 }
    ensures spare { linked_list_len spare.old ≤ linked_list_len spare.new + 1 }
{
    let there = take_out(entries, spare, &waiter.r, waiter.conn);
    let place = put_new(entries, spare, waiter);
    (place, !there)
}

// How many record data waiters bring with one more.
#[tactic(auto, using(crate::proofs::CountLaws::recorded_more, crate::proofs::CountLaws::recorded_few, crate::proofs::CountLaws::few_with))]
fn put_recorded(entries: &[Waiting], recorded: u32, waiter: &Waiter) -> u32
    requires kept { AreEntries entries.now }
    requires few { length (waiters_in entries.now) < 4294967295 }
    requires recorded { recorded ≡ recorded_in (waiters_in entries.now) }
    ensures { result ≡ recorded_in (waiters_with waiter.now (waiters_in entries.now)) }
{
    let had = recorded_of(find_on(entries, &waiter.r, waiter.conn));
    recorded - had + recorded_by(waiter)
}

// How many record data waiters bring without one.
#[tactic(auto, using(crate::proofs::CountLaws::recorded_less))]
fn take_recorded(entries: &[Waiting], recorded: u32, r: &Resource, conn: ConnId) -> u32
    requires kept { AreEntries entries.now }
    requires recorded { recorded ≡ recorded_in (waiters_in entries.now) }
    ensures { result ≡ recorded_in (waiters_without r.now conn (waiters_in entries.now)) }
{
    let had = recorded_of(find_on(entries, r, conn));
    recorded - had
}

// The resources of an entry's waiters, behind others.
fn push_keys(keys: &mut Vec<Resource>, waiters: &Waiting) -> Result<(), NoMemory>
    ensures { OnOk result (keys.new.items ≡ keys.old.items ++ map resource_of waiters.now) }
{
    for waiter in waiters.iter() {
        keys.push(waiter.r)?;
    }
    Ok(())
}

// The resources of all waiters.
fn keys_of(alloc: Global, entries: &[Waiting]) -> Result<Vec<Resource>, NoMemory>
    ensures { IfOk result (λ keys. keys.items ≡ map resource_of (joined entries.now)) }
{
    let mut keys = Vec::new(alloc);
    for waiters in entries {
        push_keys(&mut keys, waiters)?;
    }
    Ok(keys)
}

// The resources of all waiters in their order.
fn sorted_keys(alloc: Global, entries: &[Waiting]) -> Result<Vec<Resource>, NoMemory>
    ensures { IfOk result (λ keys. keys.items ≡ map resource_of (waiters_in entries.now)) }
{
    let mut keys = keys_of(alloc, entries)?;
    keys.sort()?;
    Ok(keys)
}

// The resource of a waiter, behind others, where it is this connector.
fn push_key_by(keys: &mut Vec<Resource>, waiter: &Waiter, conn: ConnId) -> Result<(), NoMemory>
    ensures { OnOk result (keys.new.items
        ≡ keys.old.items ++ map resource_of (filter (is_by conn) (waiter.now ∷ []))) }
{
    if waiter.conn == conn {
        keys.push(waiter.r)?;
    }
    Ok(())
}

// The resources that a connector waits for in an entry, behind others.
fn push_keys_by(keys: &mut Vec<Resource>, waiters: &Waiting, conn: ConnId) -> Result<(), NoMemory>
    ensures { OnOk result (keys.new.items
        ≡ keys.old.items ++ map resource_of (filter (is_by conn) waiters.now)) }
{
    for waiter in waiters.iter() {
        push_key_by(keys, waiter, conn)?;
    }
    Ok(())
}

// The resources that a connector waits for.
fn keys_by(alloc: Global, entries: &[Waiting], conn: ConnId) -> Result<Vec<Resource>, NoMemory>
    ensures { IfOk result (λ keys. keys.items
        ≡ map resource_of (filter (is_by conn) (joined entries.now))) }
{
    let mut keys = Vec::new(alloc);
    for waiters in entries {
        push_keys_by(&mut keys, waiters, conn)?;
    }
    Ok(keys)
}

// The resources that a connector waits for in their order.
fn sorted_keys_by(
    alloc: Global,
    entries: &[Waiting],
    conn: ConnId,
) -> Result<Vec<Resource>, NoMemory>
    ensures { IfOk result (λ keys. keys.items
        ≡ map resource_of (filter (is_by conn) (waiters_in entries.now))) }
{
    let mut keys = keys_by(alloc, entries, conn)?;
    keys.sort()?;
    Ok(keys)
}

// The same entries once more.
fn copy_entries(alloc: Global, entries: &[Waiting]) -> Result<Vec<Waiting>, NoMemory>
    ensures { IfOk result (λ copy. copy.items ≡ entries.now) }
{
    let mut made = Vec::new(alloc);
    for waiters in entries {
        made.push(copy_list(alloc, waiters)?)?;
    }
    Ok(made)
}

// What a node has that holds nothing yet.
fn blank() -> Waiter {
    Waiter {
        r: Resource {
            name: Name16([b' '; 16]),
            hash: 0,
        },
        conn: ConnId(0),
        excl: false,
        alter: false,
        rec: None,
    }
}

// Entries without waiters.
fn empty_entries(alloc: Global, n: usize) -> Result<Vec<Waiting>, NoMemory>
    ensures { IfOk result (λ made. made.items ≡ replicate n []) }
{
    let mut made = Vec::new(alloc);
    for _ in 0..n {
        made.push(LinkedList::new(alloc))?;
    }
    Ok(made)
}

impl Queue {
    /// No waiters, for a structure of so many table entries, at least 1; their number changes no
    /// answer.
    pub fn new(alloc: Global, entries: u32) -> Result<Queue, NoMemory>
        ensures { IfOk result (λ queue. queue.waiters ≡ []) }
    {
        let entries = empty_entries(alloc, entries.max(1) as usize)?;
        Ok(Queue {
            entries,
            count: 0,
            recorded: 0,
            spare: LinkedList::new(alloc),
        })
    }

    /// The same waiters once more.
    pub fn copy(&self, alloc: Global) -> Result<Queue, NoMemory>
        ensures { IfOk result (λ copy. copy.waiters ≡ self.now.waiters) }
    {
        let entries = copy_entries(alloc, &self.entries)?;
        Ok(Queue {
            entries,
            count: self.count,
            recorded: self.recorded,
            spare: LinkedList::new(alloc),
        })
    }

    /// How many waiters there are.
    pub fn len(&self) -> u32
        ensures len { result ≡ length self.now.waiters }
        ensures queue { IsQueue self.now.waiters }
    {
        self.count
    }

    /// How many record data waiters bring.
    pub fn records(&self) -> u32
        ensures { result ≡ recorded_in self.now.waiters }
    {
        self.recorded
    }

    /// The resources that a connector waits for, in their order.
    pub fn of(&self, alloc: Global, conn: ConnId) -> Result<Vec<Resource>, NoMemory>
        ensures { IfOk result (λ list. list.items
            ≡ map resource_of (filter (is_by conn) self.now.waiters)) }
    {
        sorted_keys_by(alloc, &self.entries, conn)
    }

    /// The resources of all waiters, in their order: what a copy of all takes once.
    pub fn order(&self, alloc: Global) -> Result<Vec<Resource>, NoMemory>
        ensures { IfOk result (λ order. order.items ≡ map resource_of self.now.waiters) }
    {
        sorted_keys(alloc, &self.entries)
    }

    /// The waiter at a place, from 0, by resource and then in order. None past the end. It is
    /// searched for among all, which is slow: what needs many goes by `order` and `at_in`.
    #[tactic(auto, using(cf_lists::proofs::RankLaws::length_seen))]
    pub fn at(&self, k: u32) -> Option<&Waiter>
        ensures { option_map (λ waiter. waiter.now) result ≡ slice_get self.now.waiters k }
    {
        let _ = self.len();
        search_at(&self.entries, k as usize)
    }

    /// The last waiter, by resource and then in order. None where nobody waits.
    #[tactic(auto, using(cf_lists::proofs::RankLaws::last_seen))]
    pub fn last(&self) -> Option<&Waiter>
        ensures { option_map (λ waiter. waiter.now) result
            ≡ slice_get self.now.waiters (length self.now.waiters - 1) }
    {
        last_in(&self.entries)
    }

    /// The waiter at a place, from 0, by resource and then in order. None past the end. `order` is
    /// the order of these waiters.
    pub fn at_in(&self, order: &[Resource], k: u32) -> Option<&Waiter>
        requires { order.now ≡ map resource_of self.now.waiters }
        ensures { option_map (λ waiter. waiter.now) result ≡ slice_get self.now.waiters k }
    {
        at_place(&self.entries, order, k as usize)
    }

    /// The first of those that wait for a resource.
    pub fn first(&self, r: &Resource) -> Option<&Waiter>
        ensures first { option_map (λ waiter. waiter.now) result ≡ first_of r.now self.now.waiters }
        ensures queue { IsQueue self.now.waiters }
    {
        first_on(&self.entries, r)
    }

    /// How many wait for a resource.
    #[tactic(auto, using(crate::proofs::CountLaws::fewer))]
    pub fn count_of(&self, r: &Resource) -> usize
        ensures count { result ≡ length (waiters_of r.now self.now.waiters) }
        ensures few { result < 4294967296 }
    {
        let _ = self.len();
        count_on(&self.entries, r)
    }

    /// What a connector waits for at a resource.
    pub fn find(&self, r: &Resource, conn: ConnId) -> Option<&Waiter>
        ensures { option_map (λ waiter. waiter.now) result ≡ waiter_of r.now conn self.now.waiters }
    {
        find_on(&self.entries, r, conn)
    }

    /// Takes room for one waiter more. Want of memory changes nothing.
    pub fn room(&mut self) -> Result<(), NoMemory>
        ensures waiters { self.new.waiters ≡ self.old.waiters }
        ensures room { OnOk result (1 ≤ self.new.room) }
        ensures more { self.old.room ≤ self.new.room }
    {
        if self.count == u32::MAX {
            return Err(NoMemory::beyond_counts());
        }
        fill(&mut self.spare, 1, &blank())
    }

    /// One waiter more: where it alters, directly before the first of its resource that doesn't
    /// alter, and else as the last of its resource. It takes the place of the connector's own, if
    /// it waits for the resource already. Answers its place among those that wait for the resource,
    /// from 1.
    pub fn push(&mut self, w: Waiter) -> u32
        requires { 1 ≤ self.old.room }
        ensures place { result ≡ place_of w self.old.waiters }
        ensures waiters { self.new.waiters ≡ waiters_with w self.old.waiters }
        ensures room { self.old.room ≤ self.new.room + 1 }
    {
        self.recorded = put_recorded(&self.entries, self.recorded, &w);
        let (place, more) = put(&mut self.entries, &mut self.spare, w);
        if more {
            self.count += 1;
        }
        place as u32
    }

    /// A connector waits for a resource no more; answers what it waited for.
    pub fn remove(&mut self, r: &Resource, conn: ConnId) -> Option<Waiter>
        ensures waited { result ≡ waiter_of r.now conn self.old.waiters }
        ensures waiters { self.new.waiters ≡ waiters_without r.now conn self.old.waiters }
        ensures room { self.old.room ≤ self.new.room }
    {
        let waited = self.find(r, conn).copied();
        self.recorded = take_recorded(&self.entries, self.recorded, r, conn);
        let there = take_out(&mut self.entries, &mut self.spare, r, conn);
        if there {
            self.count -= 1;
        }
        waited
    }

    /// A connector waits for nothing more.
    pub fn drop_conn(&mut self, conn: ConnId)
        ensures waiters { self.new.waiters ≡ waiters_without_conn conn self.old.waiters }
        ensures room { self.old.room ≤ self.new.room }
    {
        let (count, recorded) = end_conn(&mut self.entries, &mut self.spare, conn);
        self.count = count as u32;
        self.recorded = recorded as u32;
    }
}
