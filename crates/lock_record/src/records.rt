ghost use Rattle.std.specs.Prelude.{Bool, ◌≡◌, ◌+◌, ◌≤◌, ◌<◌, ◌++◌, ◌∷◌, [], IfOk, OnOk, None, Some, is_some, length, map, option_map, slice_get, if◌then◌else◌};
ghost use Rattle.std.specs.List.{IsDistinct, list_any};
ghost use Rattle.std.specs.Map.{keys_of};
ghost use Rattle.indexmap.specs.IndexMap.{spare};
ghost use Rattle.cf_lists.specs.Bins.{arranged};
ghost use Rattle.lock_record.specs.declared.recorded.Record.{Record};
ghost use Rattle.lock_record.specs.Book.{Writes, key_eq, part_at, records_in};
ghost use Rattle.lock_record.specs.Recorded.{is_of, is_part_by, record_of, has_record, part_of, part_before, resource_at, resources_by, records_without, records_with, records_of, records_without_conn, AreRecords};

use crate::recorded::Record;
use cf_types::limits::NAME_BYTES;
use cf_types::{Adjunct, ConnId, Name16, NoMemory, Resource};
use indexmap::IndexMap;
use std::alloc::Global;
use std::marker::Model;

/// Record data by connector, hash value and name.
type Entries = IndexMap<((u8, u32), [u8; NAME_BYTES]), Adjunct>;

/// The record data of a lock structure, in a map by connector and resource. Contracts see them in
/// the order of resources and connectors, and as they lie in the map, in no order that matters;
/// with how many the structure may have, and how many more there is room for.
#[derive(Drop)]
pub struct Records {
    map: Entries,
    limit: u32,
}

impl Model for Records {
    ghost use Rattle.lock_record.specs.Book.{Book, book, IsKept};

    ghost Value = { Book };

    ghost view = { book };

    ghost invariant = { IsKept };
}

// A connector's record data for a resource go. Answers whether there were any.
fn take_out(map: &mut Entries, r: &Resource, conn: ConnId) -> bool
    requires { IsDistinct key_eq (keys_of map.old.entries) }
    ensures there { result ≡ has_record r.now conn (records_in map.old.entries) }
    ensures unique { IsDistinct key_eq (keys_of map.new.entries) }
    ensures records { records_in map.new.entries
        ≡ records_without r.now conn (records_in map.old.entries) }
    ensures len { length map.new.entries ≤ length map.old.entries }
    ensures spare { spare map.old ≤ spare map.new }
{
    let name = r.name.0;
    map.swap_remove(&((conn.0, r.hash), name)).is_some()
}

// A connector's record data for whatever resource go.
fn take_out_conn(map: &mut Entries, conn: ConnId)
    ensures unique { IsDistinct key_eq (keys_of map.new.entries) }
    ensures records { records_in map.new.entries
        ≡ records_without_conn conn (records_in map.old.entries) }
    ensures len { length map.new.entries ≤ length map.old.entries }
    ensures spare { spare map.old ≤ spare map.new }
{
    map.retain(|key, _| key.0.0 != conn.0);
}

// Writes record data, for which there is room.
fn write(map: &mut Entries, r: Resource, conn: ConnId, rec: Adjunct)
    requires { 1 ≤ spare map.old }
    ensures writes { Writes map.old.entries (r, conn) (Some rec) map.new.entries }
    ensures unique { IsDistinct key_eq (keys_of map.new.entries) }
    ensures len { length map.new.entries ≤ length map.old.entries + 1 }
    ensures spare { spare map.old ≤ spare map.new + 1 }
{
    let name = r.name.0;
    let _ = map.insert(((conn.0, r.hash), name), rec);
}

// Puts record data in their place, where there is room for them.
fn put_in(map: &mut Entries, r: Resource, conn: ConnId, rec: Adjunct)
    requires unique { IsDistinct key_eq (keys_of map.old.entries) }
    requires room { 1 ≤ spare map.old }
    ensures unique { IsDistinct key_eq (keys_of map.new.entries) }
    ensures records { records_in map.new.entries ≡ records_with
        (record { r = r; conn = conn; rec = rec }) (records_in map.old.entries) }
    ensures len { length map.new.entries ≤ length map.old.entries + 1 }
    ensures spare { spare map.old ≤ spare map.new + 1 }
{
    write(map, r, conn, rec);
}

// The resource of an entry, and whose it is.
fn part_of(key: &((u8, u32), [u8; NAME_BYTES])) -> (Resource, ConnId)
    ensures { result ≡ part_at key.now }
{
    let name = key.1;
    let r = Resource {
        name: Name16(name),
        hash: key.0.1,
    };
    (r, ConnId(key.0.0))
}

// Whether a part, if there is one, is a connector's.
fn is_part_by(part: Option<(Resource, ConnId)>, conn: ConnId) -> bool
    ensures { result ≡ is_part_by conn part }
{
    match part {
        Some((_, by)) => by == conn,
        None => false,
    }
}

// One resource more, where the part is the connector's.
fn push_resource(
    list: &mut Vec<Resource>,
    part: Option<(Resource, ConnId)>,
    conn: ConnId,
) -> Result<(), NoMemory>
    ensures { OnOk result (list.new.items ≡ list.old.items ++ resource_at conn part) }
{
    match part {
        Some((r, by)) => push_own(list, r, by == conn),
        None => Ok(()),
    }
}

// One resource more, where it is.
fn push_own(list: &mut Vec<Resource>, r: Resource, own: bool) -> Result<(), NoMemory>
    ensures { OnOk result (list.new.items ≡ list.old.items ++ (if own then r ∷ [] else [])) }
{
    if own {
        list.push(r)?;
    }
    Ok(())
}

impl Records {
    /// No record data, for a structure that may have so many. It takes no memory yet.
    #[tactic(auto, using(crate::proofs::MapLaws::records_none))]
    pub fn new(alloc: Global, limit: u32) -> Result<Records, NoMemory>
        ensures records { IfOk result (λ book. book.records ≡ []) }
        ensures limit { IfOk result (λ book. book.limit ≡ limit) }
    {
        Ok(Records {
            map: IndexMap::new(alloc),
            limit,
        })
    }

    /// The same record data once more.
    #[tactic(auto, using(std::proofs::lemmas::List::Elements::same_from_all_zip))]
    pub fn copy(&self, alloc: Global) -> Result<Records, NoMemory>
        ensures records { IfOk result (λ copy. copy.records ≡ self.now.records) }
        ensures limit { IfOk result (λ copy. copy.limit ≡ self.now.limit) }
    {
        let _ = alloc;
        Ok(Records {
            map: self.map.clone()?,
            limit: self.limit,
        })
    }

    /// How many record data there are.
    #[tactic(auto, using(crate::proofs::MapLaws::length_in, crate::proofs::MapLaws::records_are, crate::proofs::WalkLaws::any_in))]
    pub fn count(&self) -> u32
        ensures count { result ≡ length self.now.records }
        ensures entries { result ≡ length self.now.entries }
        ensures order { self.now.records ≡ arranged part_of part_before self.now.entries }
        ensures alike { (p : Record → Bool) → list_any p self.now.entries
            ≡ list_any p self.now.records }
        ensures records { AreRecords self.now.records }
    {
        self.map.len() as u32
    }

    /// How many record data there are but for a connector's for a resource.
    pub fn count_others(&self, r: &Resource, conn: ConnId) -> u32
        ensures count { result ≡ length (records_without r.now conn self.now.records) }
        ensures records { AreRecords self.now.records }
    {
        if self.get(r, conn).is_some() {
            return self.count() - 1;
        }
        self.count()
    }

    /// The resource and the connector of the record data at a place of the map. None past the end.
    pub fn at(&self, k: u32) -> Option<(Resource, ConnId)>
        ensures { result ≡ option_map part_of (slice_get self.now.entries k) }
    {
        match self.map.get_index(k as usize) {
            Some((key, _)) => Some(part_of(key)),
            None => None,
        }
    }

    /// A connector's record data for a resource.
    pub fn get(&self, r: &Resource, conn: ConnId) -> Option<&Adjunct>
        ensures { option_map (λ rec. rec.now) result ≡ record_of r.now conn self.now.records }
    {
        let name = r.name.0;
        self.map.get(&((conn.0, r.hash), name))
    }

    /// Whether a connector has record data, for whatever resource.
    #[tactic(auto, using(crate::proofs::WalkLaws::there_at, crate::proofs::WalkLaws::skipped))]
    pub fn has_of(&self, conn: ConnId) -> bool
        ensures { result ≡ list_any (is_of conn) self.now.records }
    {
        for k in 0..self.count() {
            if is_part_by(self.at(k), conn) {
                return true;
            }
        }
        false
    }

    // The resources for which a connector has record data, as they lie in the map.
    #[tactic(auto, using(std::proofs::lemmas::List::append_assoc, crate::proofs::WalkLaws::listed_next))]
    fn unsorted(&self, alloc: Global, conn: ConnId) -> Result<Vec<Resource>, NoMemory>
        ensures { IfOk result (λ list. list.items ≡ resources_by conn self.now.entries) }
    {
        let mut list = Vec::new(alloc);
        for k in 0..self.count() {
            push_resource(&mut list, self.at(k), conn)?;
        }
        Ok(list)
    }

    /// The resources for which a connector has record data, in resource order.
    #[tactic(auto, using(crate::proofs::WalkLaws::sorted_resources, cf_lists::proofs::SortLaws::neighbours, cf_lists::proofs::EntryKeyLaws::resource_order))]
    pub fn of(&self, alloc: Global, conn: ConnId) -> Result<Vec<Resource>, NoMemory>
        ensures { IfOk result (λ list. list.items ≡ map (λ (recorded : Record). recorded.r)
            (records_of conn self.now.records)) }
    {
        let _ = self.count();
        let mut list = self.unsorted(alloc, conn)?;
        list.sort()?;
        Ok(list)
    }

    /// Takes room for as many `put` calls as the structure may have record data, and for one more.
    /// Want of memory changes nothing.
    pub fn room(&mut self) -> Result<(), NoMemory>
        ensures records { self.new.records ≡ self.old.records }
        ensures limit { self.new.limit ≡ self.old.limit }
        ensures room { OnOk result (self.new.limit + 1 ≤ self.new.room) }
        ensures more { self.old.room ≤ self.new.room }
    {
        if self.limit >= u32::MAX - self.count() {
            return Err(NoMemory::beyond_counts());
        }
        self.map.reserve(self.limit as usize + 1)?;
        Ok(())
    }

    /// Record data of a connector for a resource. They take the place of its own for that resource,
    /// if there are any.
    pub fn put(&mut self, r: Resource, conn: ConnId, rec: Adjunct)
        requires { 1 ≤ self.old.room }
        ensures records { self.new.records ≡ records_with (record { r = r; conn = conn; rec = rec })
            self.old.records }
        ensures limit { self.new.limit ≡ self.old.limit }
        ensures room { self.old.room ≤ self.new.room + 1 }
    {
        put_in(&mut self.map, r, conn, rec);
    }

    /// A connector's record data for a resource go; answers whether there were any.
    pub fn remove(&mut self, r: &Resource, conn: ConnId) -> bool
        ensures there { result ≡ has_record r.now conn self.old.records }
        ensures records { self.new.records ≡ records_without r.now conn self.old.records }
        ensures limit { self.new.limit ≡ self.old.limit }
        ensures room { self.old.room ≤ self.new.room }
    {
        take_out(&mut self.map, r, conn)
    }

    /// A connector's record data for whatever resource go.
    pub fn drop_conn(&mut self, conn: ConnId)
        ensures records { self.new.records ≡ records_without_conn conn self.old.records }
        ensures limit { self.new.limit ≡ self.old.limit }
        ensures room { self.old.room ≤ self.new.room }
    {
        take_out_conn(&mut self.map, conn);
    }
}
