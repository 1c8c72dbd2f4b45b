//! Records by header and place, and by id. Their data lie elsewhere: a record has a chain.
ghost use Rattle.std.specs.Prelude.{◌≡◌, ◌-◌, ◌<◌, ◌≤◌, [], true, false, IsTrue, IfOk, OnOk, IfSome, IfNone, Some, length, take, option_map, slice_get, replicate};
ghost use Rattle.std.specs.List.{list_any};
ghost use Rattle.cf_lists.specs.Pairwise.{pairwise};
ghost use Rattle.cf_lists.specs.Lists.{all_records, records_of, is_id, record_of, spot_of, lists_without, lists_with, lists_replaced, lists_popped, ids_apart, IsLastFull};
ghost use Rattle.list_store.specs.Tied.{rec_id};
ghost use Rattle.list_store.specs.Spots.{as_spot};

use crate::orders::{no_keys, reserve};
use crate::records::{Rec, Spot};
use crate::ties::{
    at, get, header_of, last_of, len_of, pop_out, put, put_in_place, reserve_slab, reserve_spots,
    spot, take_out,
};
use cf_types::{EntryId, NoMemory};
use indexmap::IndexMap;
use slab::Slab;
use std::alloc::Global;
use std::marker::Model;

/// Records in a slab, an order of their slab keys for each header, and a map from ids. Contracts
/// see a list of records for each header, and for how many more there is room.
#[derive(Drop)]
pub(crate) struct Table {
    slab: Slab<Rec>,
    orders: Vec<Vec<u32>>,
    spots: IndexMap<u64, (u32, u32)>,
}

impl Model for Table {
    ghost use Rattle.list_store.specs.TableView.{TableView, table_view, IsKept};

    ghost Value = { TableView };

    ghost view = { table_view };

    ghost invariant = { IsKept };
}

impl Table {
    /// No records, with so many headers.
    pub(crate) fn new(alloc: Global, headers: u32) -> Result<Table, NoMemory>
        ensures { IfOk result (λ table. table.lists ≡ replicate headers []) }
    {
        let orders = no_keys(alloc, headers)?;
        Ok(Table {
            slab: Slab::new(alloc),
            orders,
            spots: IndexMap::new(alloc),
        })
    }

    /// Takes room for one record more, in whichever header. Want of memory changes nothing.
    pub(crate) fn room(&mut self) -> Result<(), NoMemory>
        ensures lists { self.new.lists ≡ self.old.lists }
        ensures room { OnOk result (1 ≤ self.new.room) }
    {
        reserve_slab(&mut self.slab)?;
        reserve_spots(&mut self.spots)?;
        reserve(&mut self.orders)
    }

    /// How many headers there are.
    pub(crate) fn headers(&self) -> u32
        ensures { result ≡ length self.now.lists }
    {
        self.orders.len() as u32
    }

    /// How many records a header has.
    pub(crate) fn len(&self, header: u32) -> u32
        requires { header < length self.now.lists }
        ensures { result ≡ length (records_of self.now.lists header) }
    {
        len_of(&self.slab, self.orders.as_slice(), header as usize)
    }

    /// The record at a place of a header, from 0.
    pub(crate) fn at(&self, header: u32, place: u32) -> Option<&Rec>
        requires { header < length self.now.lists }
        ensures record { option_map (λ rec. rec.now) result
            ≡ slice_get (records_of self.now.lists header) place }
        ensures apart { IsTrue (pairwise (ids_apart rec_id) (all_records self.now.lists)) }
    {
        at(
            &self.slab,
            self.orders.as_slice(),
            &self.spots,
            header as usize,
            place as usize,
        )
    }

    /// The record with an id.
    pub(crate) fn get(&self, id: EntryId) -> Option<&Rec>
        ensures record { option_map (λ rec. rec.now) result
            ≡ record_of rec_id id.0 self.now.lists }
        ensures apart { IsTrue (pairwise (ids_apart rec_id) (all_records self.now.lists)) }
    {
        get(&self.slab, self.orders.as_slice(), &self.spots, id)
    }

    /// The header that the record with an id is in.
    pub(crate) fn header_of(&self, id: EntryId) -> Option<u32>
        ensures header { result ≡ option_map (λ spot. spot.0)
            (spot_of rec_id id.0 self.now.lists) }
        ensures apart { IsTrue (pairwise (ids_apart rec_id) (all_records self.now.lists)) }
    {
        header_of(&self.slab, self.orders.as_slice(), &self.spots, id)
    }

    /// Where the record with an id is.
    pub(crate) fn whereabouts(&self, id: EntryId) -> Option<Spot>
        ensures spot { result ≡ option_map as_spot (spot_of rec_id id.0 self.now.lists) }
        ensures apart { IsTrue (pairwise (ids_apart rec_id) (all_records self.now.lists)) }
    {
        spot(&self.slab, self.orders.as_slice(), &self.spots, id)
    }

    /// Puts a record at a place of a header. No record has its id.
    pub(crate) fn add(&mut self, header: u32, place: u32, rec: Rec)
        requires room { 1 ≤ self.old.room }
        requires header { header < length self.old.lists }
        requires place { place ≤ length (records_of self.old.lists header) }
        requires alone { list_any (is_id rec_id (rec_id rec)) (all_records self.old.lists) ≡ false }
        ensures { self.new.lists ≡ lists_with header place rec self.old.lists }
    {
        put(
            &mut self.slab,
            &mut self.orders,
            &mut self.spots,
            header,
            place,
            rec,
        );
    }

    /// Puts a record in place of the one with this id, which is there and is the record's own;
    /// gives that one.
    pub(crate) fn set(&mut self, id: EntryId, rec: Rec) -> Rec
        requires there { list_any (is_id rec_id id.0) (all_records self.old.lists) ≡ true }
        requires same { id ≡ rec.id }
        ensures record { record_of rec_id id.0 self.old.lists ≡ Some result }
        ensures lists { self.new.lists ≡ lists_replaced rec_id rec self.old.lists }
        ensures apart { IsTrue (pairwise (ids_apart rec_id) (all_records self.old.lists)) }
        ensures room { self.old.room ≤ self.new.room }
    {
        put_in_place(&mut self.slab, self.orders.as_slice(), &self.spots, rec)
    }

    /// Takes out the record with an id.
    pub(crate) fn take(&mut self, id: EntryId) -> Option<Rec>
        ensures record { result ≡ record_of rec_id id.0 self.old.lists }
        ensures lists { self.new.lists ≡ lists_without rec_id id.0 self.old.lists }
        ensures apart { IsTrue (pairwise (ids_apart rec_id) (all_records self.old.lists)) }
        ensures room { self.old.room ≤ self.new.room }
    {
        take_out(&mut self.slab, &mut self.orders, &mut self.spots, id)
    }

    /// The last header that has records.
    pub(crate) fn last_header(&self) -> Option<u32>
        ensures found { IfSome result (λ header. IsLastFull header self.now.lists) }
        ensures none { IfNone result (all_records self.now.lists ≡ []) }
    {
        match last_of(&self.slab, self.orders.as_slice()) {
            Some(header) => Some(header as u32),
            None => None,
        }
    }

    /// Takes the last record out, of the last header that has records; gives the header, too.
    pub(crate) fn pop(&mut self) -> Option<(u32, Rec)>
        ensures header { IfSome result (λ out. IsLastFull out.0 self.old.lists) }
        ensures found { IfSome result (λ out. record_of rec_id (rec_id out.1) self.old.lists
            ≡ Some out.1) }
        ensures lists { IfSome result (λ out. self.new.lists
            ≡ lists_without rec_id (rec_id out.1) self.old.lists) }
        ensures popped { IfSome result (λ out. self.new.lists
            ≡ lists_popped out.0 self.old.lists) }
        ensures none { IfNone result (all_records self.old.lists ≡ []) }
        ensures same { IfNone result (self.new ≡ self.old) }
        ensures apart { IsTrue (pairwise (ids_apart rec_id) (all_records self.old.lists)) }
    {
        match last_of(&self.slab, self.orders.as_slice()) {
            Some(header) => {
                let rec = pop_out(&mut self.slab, &mut self.orders, &mut self.spots, header);
                Some((header as u32, rec))
            }
            None => None,
        }
    }
}
