ghost use Rattle.std.specs.Prelude.{◌≡◌, ◌+◌, ◌≤◌, ◌<◌, ◌++◌, ◌∷◌, [], filter, IfOk, OnOk, length, map, option_map, slice_get, false, slice_index_or, replicate};
ghost use Rattle.std.specs.LinkedList.{linked_list_len};
ghost use Rattle.cf_types.specs.Resources.{resource_up_to};
ghost use Rattle.cf_lists.specs.Insertions.{insertion};
ghost use Rattle.std.specs.Prelude.{Some, None, MatchOption, IsTrue, not, is_some, ◌-◌};
ghost use Rattle.std.specs.List.{list_all};
ghost use Rattle.cf_types.specs.Resources.{resource_before};
ghost use Rattle.lock_table.specs.Holdings.{is_by, owners_without_active, owners_retained_of, owners_of, has_interest, owners_without, owners_with, owners_in_state, owners_retained, IsOwners};
ghost use Rattle.lock_table.specs.EntryView.{owners_left};
ghost use Rattle.cf_lists.specs.Bins.{joined};
ghost use Rattle.cf_lists.specs.Tables.{slot_in, placed_on, last_of};
ghost use Rattle.lock_table.specs.Tables.{part_of, resource_of, owners_in, AreEntries, one_where};

use crate::entry::{Entry, Owners, Spare};
use crate::holdings::Held;
use cf_lists::{fill, start_of};
use cf_types::{ConnId, Name16, NoMemory, Resource};
use std::alloc::Global;
use std::collections::LinkedList;
use std::marker::Model;

/// The interests of a lock structure. Contracts see them in the order of resources and, of one
/// resource, in the order in which they came to stand, with how many more there is room for.
///
/// They lie in table entries: a resource's hash value modulo the number of entries picks the entry
/// of its owners. That number plays no part in what contracts see. No order is kept: what goes over
/// all interests makes it once.
#[derive(Drop)]
pub struct Table {
    entries: Vec<Entry>,
    count: u32,
    spare: Spare,
}

impl Model for Table {
    ghost use Rattle.lock_table.specs.TableView.{TableView, table_view, IsKept};

    ghost Value = { TableView };

    ghost view = { table_view };

    ghost invariant = { IsKept };
}

// The entry that a resource's hash value picks.
fn slot_of(entries: &[Entry], r: &Resource) -> usize
    requires { 0 < length entries.now }
    ensures slot { result ≡ slot_in (length entries.now) r.now }
    ensures within { result < length entries.now }
{
    r.hash as usize % entries.len()
}

// The owners of a resource, in standing order.
fn owners_on<'a>(entries: &'a [Entry], r: &Resource) -> Owners<'a>
    requires { 0 < length entries.now }
    ensures { owners_left result ≡ owners_of r.now
        (slice_index_or entries.now (slot_in (length entries.now) r.now) []) }
{
    entries[slot_of(entries, r)].owners(r)
}

// A connector's interest in a resource goes; answers whether there was one.
fn take_out(entries: &mut [Entry], spare: &mut Spare, r: &Resource, conn: ConnId) -> bool
    requires { AreEntries entries.old }
    ensures kept { AreEntries entries.new }
    ensures there { result ≡ has_interest r.now conn (owners_in entries.old) }
    ensures owners { owners_in entries.new ≡ owners_without r.now conn (owners_in entries.old) }
    ensures less { length (owners_in entries.new) + one_where result
        ≡ length (owners_in entries.old) }
    ensures spare { linked_list_len spare.old ≤ linked_list_len spare.new }
{
    let slot = slot_of(entries, r);
    entries[slot].take(spare, r, conn)
}

// One interest more, as the last of its resource, where there is room for it, and where its
// connector has none in that resource.
fn put_new(entries: &mut [Entry], spare: &mut Spare, held: Held)
    requires kept { AreEntries entries.old }
    requires none { has_interest held.r held.conn (owners_in entries.old) ≡ false }
    requires few { length (owners_in entries.old) < 4294967296 }
    requires spare { 1 ≤ linked_list_len spare.old }
    ensures kept { AreEntries entries.new }
    ensures owners { owners_in entries.new ≡ insertion (λ other. resource_up_to other.r held.r) held
        (owners_in entries.old) }
    ensures spare { linked_list_len spare.new + 1 ≡ linked_list_len spare.old }
{
    let slot = slot_of(entries, &held.r);
    entries[slot].put(spare, held);
}

// One interest more, as the last of its resource, in place of its connector's own in that resource;
// answers whether there was none.
fn put(entries: &mut [Entry], spare: &mut Spare, held: Held) -> bool
    requires kept { AreEntries entries.old }
    requires few { length (owners_in entries.old) < 4294967296 }
    requires spare { 1 ≤ linked_list_len spare.old }
    ensures kept { AreEntries entries.new }
    ensures owners { owners_in entries.new ≡ owners_with held (owners_in entries.old) }
    ensures more { length (owners_in entries.new)
        ≡ length (owners_in entries.old) + one_where result }
    ensures spare { linked_list_len spare.old ≤ linked_list_len spare.new + 1 }
{
    let there = take_out(entries, spare, &held.r, held.conn);
    put_new(entries, spare, held);
    !there
}

// A connector's interest in a resource takes a state.
fn put_state(entries: &mut [Entry], r: &Resource, conn: ConnId, excl: bool)
    requires { AreEntries entries.old }
    ensures kept { AreEntries entries.new }
    ensures len { length (owners_in entries.new) ≡ length (owners_in entries.old) }
    ensures owners { owners_in entries.new
        ≡ owners_in_state r.now conn excl (owners_in entries.old) }
{
    let slot = slot_of(entries, r);
    entries[slot].set(r, conn, excl);
}

// A connector's interest in a resource is retained or not.
fn put_retention(entries: &mut [Entry], r: &Resource, conn: ConnId, retained: bool)
    requires { AreEntries entries.old }
    ensures kept { AreEntries entries.new }
    ensures len { length (owners_in entries.new) ≡ length (owners_in entries.old) }
    ensures owners { owners_in entries.new
        ≡ owners_retained r.now conn retained (owners_in entries.old) }
{
    let slot = slot_of(entries, r);
    entries[slot].set_retained(r, conn, retained);
}

// All interests of a connector are retained or not.
#[tactic(auto, using(cf_lists::proofs::PassLaws::mapped_whole))]
fn put_retentions(entries: &mut [Entry], conn: ConnId, retained: bool)
    ensures { entries.new ≡ map (owners_retained_of conn retained) entries.old }
{
    for entry in entries.iter_mut() {
        entry.set_retained_of(conn, retained);
    }
}

// A connector's interests that aren't retained go.
#[tactic(auto, using(cf_lists::proofs::PassLaws::mapped_whole))]
fn take_active(entries: &mut [Entry], spare: &mut Spare, conn: ConnId)
    ensures entries { entries.new ≡ map (owners_without_active conn) entries.old }
    ensures spare { linked_list_len spare.old ≤ linked_list_len spare.new }
{
    for entry in entries.iter_mut() {
        entry.take_active(spare, conn);
    }
}

// All interests of a connector are retained or not.
fn retain_of(entries: &mut [Entry], conn: ConnId, retained: bool)
    requires { AreEntries entries.old }
    ensures kept { AreEntries entries.new }
    ensures len { length (owners_in entries.new) ≡ length (owners_in entries.old) }
    ensures owners { owners_in entries.new ≡ owners_retained_of conn retained
        (owners_in entries.old) }
{
    put_retentions(entries, conn, retained);
}

// How many interests there are.
fn count_all(entries: &[Entry]) -> usize
    requires { length (joined entries.now) < 4294967296 }
    ensures { result ≡ length (joined entries.now) }
{
    let mut count = 0;
    for entry in entries {
        count += entry.len();
    }
    count
}

// A connector's interests that aren't retained go; answers how many there are then.
#[tactic(auto, using(cf_lists::proofs::PassLaws::left_seen, cf_lists::proofs::RankLaws::length_seen))]
fn end_active(entries: &mut [Entry], spare: &mut Spare, conn: ConnId) -> usize
    requires kept { AreEntries entries.old }
    requires few { length (owners_in entries.old) < 4294967296 }
    ensures kept { AreEntries entries.new }
    ensures owners { owners_in entries.new ≡ owners_without_active conn (owners_in entries.old) }
    ensures count { result ≡ length (owners_in entries.new) }
    ensures fits { result < 4294967296 }
    ensures less { result ≤ length (owners_in entries.old) }
    ensures spare { linked_list_len spare.old ≤ linked_list_len spare.new }
{
    take_active(entries, spare, conn);
    count_all(entries)
}

// How many interests are in resources before one.
fn count_before(entries: &[Entry], r: &Resource) -> usize
    requires { length (joined entries.now) < 4294967296 }
    ensures { result ≡ length (filter (λ held. resource_before held.r r.now) (joined entries.now)) }
{
    let mut count = 0;
    for entry in entries {
        count += entry.count_before(r);
    }
    count
}

// The interest at a place, where it is in this resource.
#[tactic(auto, using(cf_lists::proofs::RankLaws::placed_none))]
fn at_on<'a>(entries: &'a [Entry], r: &Resource, k: usize) -> Option<&'a Held>
    requires entries { AreEntries entries.now }
    requires few { length (joined entries.now) < 4294967296 }
    ensures { option_map (λ held. held.now) result
        ≡ placed_on part_of r.now k (owners_in entries.now) }
{
    let before = count_before(entries, r);
    if k < before {
        return None;
    }
    owners_on(entries, r).nth(k - before)
}

// The interest at a place, where it is in a resource of this entry.
#[tactic(auto, using(cf_lists::proofs::RankLaws::placed_here, cf_lists::proofs::EntryTableLaws::in_order))]
fn at_in<'a>(entries: &'a [Entry], entry: &'a Entry, k: usize) -> Option<&'a Held>
    requires entries { AreEntries entries.now }
    requires few { length (joined entries.now) < 4294967296 }
    ensures { MatchOption result
        (IsTrue (list_all (λ held. not (is_some (placed_on part_of held.r k
        (owners_in entries.now)))) entry.now))
        (λ held. slice_get (owners_in entries.now) k ≡ Some held.now) }
{
    for held in entry.iter() {
        if let Some(found) = at_on(entries, &held.r, k) {
            return Some(found);
        }
    }
    None
}

// The interest at a place, found without the order of all.
#[tactic(auto, using(cf_lists::proofs::PassLaws::all_next, cf_lists::proofs::RankLaws::none_placed_on, cf_lists::proofs::PassLaws::joined_past))]
fn search_at<'a>(entries: &'a [Entry], k: usize) -> Option<&'a Held>
    requires entries { AreEntries entries.now }
    requires few { length (joined entries.now) < 4294967296 }
    ensures { option_map (λ held. held.now) result ≡ slice_get (owners_in entries.now) k }
{
    for entry in entries {
        if let Some(found) = at_in(entries, entry, k) {
            return Some(found);
        }
    }
    None
}

// The last interest by resource and then in standing order.
#[tactic(auto, using(cf_lists::proofs::RankLaws::last_next, cf_lists::proofs::RankLaws::last_past))]
fn last_in<'a>(entries: &'a [Entry]) -> Option<&'a Held>
    ensures { option_map (λ held. held.now) result ≡ last_of part_of (joined entries.now) }
{
    let mut last = None;
    for entry in entries {
        last = entry.last(last);
    }
    last
}

// The resource at a place.
fn key_at(order: &[Resource], k: usize) -> Option<Resource>
    ensures { result ≡ slice_get order.now k }
{
    order.get(k).copied()
}

// The interest at a place: its resource stands at that place of the order, and how many of these
// stand before it there is its place among the owners.
#[tactic(auto, using(cf_lists::proofs::EntryTableLaws::ordered, cf_lists::proofs::EntryTableLaws::none_past))]
fn at_place<'a>(entries: &'a [Entry], order: &[Resource], k: usize) -> Option<&'a Held>
    requires entries { AreEntries entries.now }
    requires order { order.now ≡ map resource_of (owners_in entries.now) }
    ensures { option_map (λ held. held.now) result ≡ slice_get (owners_in entries.now) k }
{
    match key_at(order, k) {
        Some(r) => {
            let before = start_of(order, &r);
            owners_on(entries, &r).nth(k.saturating_sub(before))
        }
        None => None,
    }
}

// What a node has that holds nothing yet.
fn blank() -> Held {
    Held {
        r: Resource {
            name: Name16([b' '; 16]),
            hash: 0,
        },
        conn: ConnId(0),
        excl: false,
        retained: false,
    }
}

// The resources of an entry's interests, behind others.
fn push_keys(keys: &mut Vec<Resource>, entry: &Entry) -> Result<(), NoMemory>
    ensures { OnOk result (keys.new.items ≡ keys.old.items ++ map resource_of entry.now) }
{
    for held in entry.iter() {
        keys.push(held.r)?;
    }
    Ok(())
}

// The resources of all interests.
fn keys_of(alloc: Global, entries: &[Entry]) -> Result<Vec<Resource>, NoMemory>
    ensures { IfOk result (λ keys. keys.items ≡ map resource_of (joined entries.now)) }
{
    let mut keys = Vec::new(alloc);
    for entry in entries {
        push_keys(&mut keys, entry)?;
    }
    Ok(keys)
}

// The resources of all interests in their order.
fn sorted_keys(alloc: Global, entries: &[Entry]) -> Result<Vec<Resource>, NoMemory>
    ensures { IfOk result (λ keys. keys.items ≡ map resource_of (owners_in entries.now)) }
{
    let mut keys = keys_of(alloc, entries)?;
    keys.sort()?;
    Ok(keys)
}

// The resource of an interest, behind others, where it is this connector's.
fn push_key_by(keys: &mut Vec<Resource>, held: &Held, conn: ConnId) -> Result<(), NoMemory>
    ensures { OnOk result (keys.new.items
        ≡ keys.old.items ++ map resource_of (filter (is_by conn) (held.now ∷ []))) }
{
    if held.conn == conn {
        keys.push(held.r)?;
    }
    Ok(())
}

// The resources of a connector's interests in an entry, behind others, going over all.
fn push_all_by(keys: &mut Vec<Resource>, entry: &Entry, conn: ConnId) -> Result<(), NoMemory>
    ensures { OnOk result (keys.new.items
        ≡ keys.old.items ++ map resource_of (filter (is_by conn) entry.now)) }
{
    for held in entry.iter() {
        push_key_by(keys, held, conn)?;
    }
    Ok(())
}

// The same; an entry whose mask lacks the connector is passed by.
fn push_keys_by(keys: &mut Vec<Resource>, entry: &Entry, conn: ConnId) -> Result<(), NoMemory>
    ensures { OnOk result (keys.new.items
        ≡ keys.old.items ++ map resource_of (filter (is_by conn) entry.now)) }
{
    if entry.lacks(conn) {
        return Ok(());
    }
    push_all_by(keys, entry, conn)
}

// The resources of a connector's interests.
fn keys_by(alloc: Global, entries: &[Entry], conn: ConnId) -> Result<Vec<Resource>, NoMemory>
    ensures { IfOk result (λ keys. keys.items
        ≡ map resource_of (filter (is_by conn) (joined entries.now))) }
{
    let mut keys = Vec::new(alloc);
    for entry in entries {
        push_keys_by(&mut keys, entry, conn)?;
    }
    Ok(keys)
}

// The resources of a connector's interests in their order.
fn sorted_keys_by(alloc: Global, entries: &[Entry], conn: ConnId) -> Result<Vec<Resource>, NoMemory>
    ensures { IfOk result (λ keys. keys.items
        ≡ map resource_of (filter (is_by conn) (owners_in entries.now))) }
{
    let mut keys = keys_by(alloc, entries, conn)?;
    keys.sort()?;
    Ok(keys)
}

// The same entries once more.
fn copy_entries(alloc: Global, entries: &[Entry]) -> Result<Vec<Entry>, NoMemory>
    ensures { IfOk result (λ copy. copy.items ≡ entries.now) }
{
    let mut made = Vec::new(alloc);
    for entry in entries {
        made.push(entry.copy(alloc)?)?;
    }
    Ok(made)
}

// Entries without owners.
fn empty_entries(alloc: Global, n: usize) -> Result<Vec<Entry>, NoMemory>
    ensures { IfOk result (λ made. made.items ≡ replicate n []) }
{
    let mut made = Vec::new(alloc);
    for _ in 0..n {
        made.push(Entry::new(alloc))?;
    }
    Ok(made)
}

impl Table {
    /// No interests, for a structure of so many table entries, at least 1; their number changes no
    /// answer.
    pub fn new(alloc: Global, entries: u32) -> Result<Table, NoMemory>
        ensures { IfOk result (λ table. table.owners ≡ []) }
    {
        let entries = empty_entries(alloc, entries.max(1) as usize)?;
        Ok(Table {
            entries,
            count: 0,
            spare: LinkedList::new(alloc),
        })
    }

    /// The same interests once more.
    pub fn copy(&self, alloc: Global) -> Result<Table, NoMemory>
        ensures { IfOk result (λ copy. copy.owners ≡ self.now.owners) }
    {
        let entries = copy_entries(alloc, &self.entries)?;
        Ok(Table {
            entries,
            count: self.count,
            spare: LinkedList::new(alloc),
        })
    }

    /// The resources that a connector has an interest in, in their order.
    pub fn of(&self, alloc: Global, conn: ConnId) -> Result<Vec<Resource>, NoMemory>
        ensures { IfOk result (λ list. list.items
            ≡ map resource_of (filter (is_by conn) self.now.owners)) }
    {
        sorted_keys_by(alloc, &self.entries, conn)
    }

    /// How many interests there are.
    pub fn len(&self) -> u32
        ensures len { result ≡ length self.now.owners }
        ensures owners { IsOwners self.now.owners }
    {
        self.count
    }

    /// The resources of all interests, in their order: what a copy of all takes once.
    pub fn order(&self, alloc: Global) -> Result<Vec<Resource>, NoMemory>
        ensures { IfOk result (λ order. order.items ≡ map resource_of self.now.owners) }
    {
        sorted_keys(alloc, &self.entries)
    }

    /// The interest at a place, from 0, by resource and then in standing order. None past the end.
    /// It is searched for among all, which is slow: what needs many goes by `order` and `at_in`.
    #[tactic(auto, using(cf_lists::proofs::RankLaws::length_seen))]
    pub fn at(&self, k: u32) -> Option<&Held>
        ensures { option_map (λ held. held.now) result ≡ slice_get self.now.owners k }
    {
        let _ = self.len();
        search_at(&self.entries, k as usize)
    }

    /// The last interest, by resource and then in standing order. None where there is none.
    #[tactic(auto, using(cf_lists::proofs::RankLaws::last_seen))]
    pub fn last(&self) -> Option<&Held>
        ensures { option_map (λ held. held.now) result
            ≡ slice_get self.now.owners (length self.now.owners - 1) }
    {
        last_in(&self.entries)
    }

    /// The interest at a place, from 0, by resource and then in standing order. None past the end.
    /// `order` is the order of these interests.
    pub fn at_in(&self, order: &[Resource], k: u32) -> Option<&Held>
        requires { order.now ≡ map resource_of self.now.owners }
        ensures { option_map (λ held. held.now) result ≡ slice_get self.now.owners k }
    {
        at_place(&self.entries, order, k as usize)
    }

    /// The owners of a resource, in standing order.
    pub fn owners(&self, r: &Resource) -> Owners<'_>
        ensures { owners_left result ≡ owners_of r.now self.now.owners }
    {
        owners_on(&self.entries, r)
    }

    /// Takes room for so many interests more. Want of memory changes nothing.
    pub fn room(&mut self, adds: u32) -> Result<(), NoMemory>
        ensures owners { self.new.owners ≡ self.old.owners }
        ensures room { OnOk result (adds ≤ self.new.room) }
        ensures more { self.old.room ≤ self.new.room }
    {
        if adds > u32::MAX - self.len() {
            return Err(NoMemory::beyond_counts());
        }
        fill(&mut self.spare, adds as usize, &blank())
    }

    /// One interest more, as the last of its resource. It takes the place of the connector's own
    /// interest in that resource, if there is one.
    pub fn add(&mut self, held: Held)
        requires { 1 ≤ self.old.room }
        ensures owners { self.new.owners ≡ owners_with held self.old.owners }
        ensures room { self.old.room ≤ self.new.room + 1 }
    {
        if put(&mut self.entries, &mut self.spare, held) {
            self.count += 1;
        }
    }

    /// A connector's interest in a resource, if there is one, is retained from now on, or is so no
    /// more.
    pub fn set_retained(&mut self, r: &Resource, conn: ConnId, retained: bool)
        ensures owners { self.new.owners ≡ owners_retained r.now conn retained self.old.owners }
        ensures room { self.new.room ≡ self.old.room }
    {
        put_retention(&mut self.entries, r, conn, retained);
    }

    /// A connector's interest in a resource, if there is one, takes a state.
    pub fn set(&mut self, r: &Resource, conn: ConnId, excl: bool)
        ensures owners { self.new.owners ≡ owners_in_state r.now conn excl self.old.owners }
        ensures room { self.new.room ≡ self.old.room }
    {
        put_state(&mut self.entries, r, conn, excl);
    }

    /// A connector's interest in a resource goes; answers whether there was one.
    pub fn remove(&mut self, r: &Resource, conn: ConnId) -> bool
        ensures there { result ≡ has_interest r.now conn self.old.owners }
        ensures owners { self.new.owners ≡ owners_without r.now conn self.old.owners }
        ensures room { self.old.room ≤ self.new.room }
    {
        let there = take_out(&mut self.entries, &mut self.spare, r, conn);
        if there {
            self.count -= 1;
        }
        there
    }

    /// All interests of a connector are retained from now on, or are so no more.
    pub fn set_retained_of(&mut self, conn: ConnId, retained: bool)
        ensures owners { self.new.owners ≡ owners_retained_of conn retained self.old.owners }
        ensures room { self.new.room ≡ self.old.room }
    {
        retain_of(&mut self.entries, conn, retained);
    }

    /// A connector's interests that aren't retained go.
    pub fn end_active(&mut self, conn: ConnId)
        ensures owners { self.new.owners ≡ owners_without_active conn self.old.owners }
        ensures room { self.old.room ≤ self.new.room }
    {
        let count = end_active(&mut self.entries, &mut self.spare, conn);
        self.count = count as u32;
    }
}
