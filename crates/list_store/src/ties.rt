//! Records in a slab, with an order of slab keys for each header, and a map from ids to the header
//! and the slab key.
ghost use Rattle.std.specs.Prelude.{◌≡◌, ◌-◌, ◌+◌, ◌<◌, ◌≤◌, [], true, false, IsTrue, OnOk, IfSome, IfNone, Some, None, length, option_map, slice_get};
ghost use Rattle.std.specs.List.{list_all, list_any, remove};
ghost use Rattle.std.specs.Vec.{vec_len};
ghost use Rattle.slab.specs.Slab.{get as slab_get, slab_len, ContainsKey, HasRoomFor, Updates};
ghost use Rattle.indexmap.specs.IndexMap.{spare};
ghost use Rattle.cf_lists.specs.Lists.{all_records, records_of, is_id, record_of, spot_of, lists_without, lists_with, lists_less, lists_popped, lists_replaced, IsLastFull};
ghost use Rattle.list_store.specs.Orders.{orders_in, has_place, is_few};
ghost use Rattle.list_store.specs.Tied.{rec_id, lists_at, IsTied, Writes, spot_for};
ghost use Rattle.list_store.specs.Spots.{as_spot};

use crate::orders::{count, key_at, last_header, place_in, put as put_key, take_at};
use crate::records::{Rec, Spot};
use cf_types::{EntryId, NoMemory};
use indexmap::IndexMap;
use slab::Slab;

// Puts an entry into a map that has room for it.
fn write(spots: &mut IndexMap<u64, (u32, u32)>, id: u64, header: u32, key: u32)
    requires { 1 ≤ spare spots.old }
    ensures { Writes spots.old.entries id (Some (header, key)) spots.new.entries }
{
    let _ = spots.insert(id, (header, key));
}

// Takes the entry of an id out of a map, if there is one.
fn forget(spots: &mut IndexMap<u64, (u32, u32)>, id: u64)
    ensures writes { Writes spots.old.entries id None spots.new.entries }
    ensures room { spare spots.old ≤ spare spots.new }
{
    let _ = spots.swap_remove(&id);
}

/// A record more, at a place of a header; no record has its id.
pub(crate) fn put(
    slab: &mut Slab<Rec>,
    orders: &mut Vec<Vec<u32>>,
    spots: &mut IndexMap<u64, (u32, u32)>,
    header: u32,
    place: u32,
    rec: Rec,
)
    requires tied { IsTied slab.old (orders_in orders.old.items) spots.old.entries }
    requires few { IsTrue (list_all is_few (orders_in orders.old.items)) }
    requires header { header < vec_len orders.old }
    requires place { place ≤ length (records_of (orders_in orders.old.items) header) }
    requires alone { list_any (is_id rec_id (rec_id rec))
        (all_records (lists_at slab.old (orders_in orders.old.items))) ≡ false }
    requires slab_room { HasRoomFor slab.old 1 }
    requires small { slab.old.capacity ≤ 4294967296 }
    requires order_room { IsTrue (list_all has_place orders.old.items) }
    requires spot_room { 1 ≤ spare spots.old }
    ensures tied { IsTied slab.new (orders_in orders.new.items) spots.new.entries }
    ensures lists { lists_at slab.new (orders_in orders.new.items)
        ≡ lists_with header place rec (lists_at slab.old (orders_in orders.old.items)) }
    ensures few { IsTrue (list_all is_few (orders_in orders.new.items)) }
    ensures len { vec_len orders.new ≡ vec_len orders.old }
{
    let id = rec.id.0;
    let _adjunct = rec.adj;
    let key = store(slab, rec) as u32;
    put_key(orders, header as usize, place as usize, key);
    write(spots, id, header, key);
}

// Takes out a record that lies under a key, at a place of a header.
fn pull(
    slab: &mut Slab<Rec>,
    orders: &mut Vec<Vec<u32>>,
    spots: &mut IndexMap<u64, (u32, u32)>,
    header: usize,
    place: usize,
) -> Rec
    requires tied { IsTied slab.old (orders_in orders.old.items) spots.old.entries }
    requires few { IsTrue (list_all is_few (orders_in orders.old.items)) }
    requires header { header < vec_len orders.old }
    requires place { place < length (records_of (orders_in orders.old.items) header) }
    ensures record { slice_get (records_of (lists_at slab.old (orders_in orders.old.items)) header)
        place ≡ Some result }
    ensures tied { IsTied slab.new (orders_in orders.new.items) spots.new.entries }
    ensures lists { lists_at slab.new (orders_in orders.new.items)
        ≡ lists_without rec_id (rec_id result) (lists_at slab.old (orders_in orders.old.items)) }
    ensures removed { lists_at slab.new (orders_in orders.new.items)
        ≡ lists_less header place (lists_at slab.old (orders_in orders.old.items)) }
    ensures found { record_of rec_id (rec_id result)
        (lists_at slab.old (orders_in orders.old.items)) ≡ Some result }
    ensures few { IsTrue (list_all is_few (orders_in orders.new.items)) }
    ensures len { vec_len orders.new ≡ vec_len orders.old }
    ensures slab_room { HasRoomFor slab.new 1 }
    ensures capacity { slab.new.capacity ≡ slab.old.capacity }
    ensures order_room { IsTrue (list_all has_place orders.old.items)
        → IsTrue (list_all has_place orders.new.items) }
    ensures spot_room { spare spots.old ≤ spare spots.new }
{
    let key = take_at(orders, header, place);
    let rec = slab.remove(key as usize);
    forget(spots, rec.id.0);
    rec
}

// Puts a value in place of that under a key.
fn swap<T>(slab: &mut Slab<T>, key: usize, value: T) -> T
    requires { ContainsKey slab.old key }
    ensures value { slab_get slab.old key ≡ Some result }
    ensures updates { Updates slab.old slab.new key (Some value) }
    ensures len { slab_len slab.new ≡ slab_len slab.old }
    ensures capacity { slab.new.capacity ≡ slab.old.capacity }
{
    let old = slab.remove(key);
    slab.insert_reserved(value);
    old
}

// Stores a value, where there is room for it.
fn store<T>(slab: &mut Slab<T>, value: T) -> usize
    requires { HasRoomFor slab.old 1 }
    ensures vacant { slab_get slab.old result ≡ None }
    ensures updates { Updates slab.old slab.new result (Some value) }
    ensures len { slab_len slab.new ≡ slab_len slab.old + 1 }
    ensures within { result < slab.new.capacity }
    ensures capacity { slab.new.capacity ≡ slab.old.capacity }
{
    slab.insert_reserved(value)
}

// The header and the key that the map has for an id.
fn spot_for(spots: &IndexMap<u64, (u32, u32)>, id: EntryId) -> Option<(u32, u32)>
    ensures { result ≡ spot_for spots.now.entries id.0 }
{
    spots.get(&id.0).copied()
}

/// Where the record with an id is.
pub(crate) fn spot(
    slab: &Slab<Rec>,
    orders: &[Vec<u32>],
    spots: &IndexMap<u64, (u32, u32)>,
    id: EntryId,
) -> Option<Spot>
    requires tied { IsTied slab.now (orders_in orders.now) spots.now.entries }
    requires few { IsTrue (list_all is_few (orders_in orders.now)) }
    ensures { result ≡ option_map as_spot (spot_of rec_id id.0
        (lists_at slab.now (orders_in orders.now))) }
{
    match spot_for(spots, id) {
        Some((header, key)) => Some(Spot {
            header,
            place: place_in(orders, header as usize, key) as u32,
        }),
        None => None,
    }
}

/// The record with an id.
pub(crate) fn get<'a>(
    slab: &'a Slab<Rec>,
    orders: &[Vec<u32>],
    spots: &IndexMap<u64, (u32, u32)>,
    id: EntryId,
) -> Option<&'a Rec>
    requires { IsTied slab.now (orders_in orders.now) spots.now.entries }
    ensures { option_map (λ rec. rec.now) result ≡ record_of rec_id id.0
        (lists_at slab.now (orders_in orders.now)) }
{
    match spot_for(spots, id) {
        Some((_, key)) => slab.get(key as usize),
        None => None,
    }
}

/// The record at a place of a header, from 0.
pub(crate) fn at<'a>(
    slab: &'a Slab<Rec>,
    orders: &[Vec<u32>],
    spots: &IndexMap<u64, (u32, u32)>,
    header: usize,
    place: usize,
) -> Option<&'a Rec>
    requires tied { IsTied slab.now (orders_in orders.now) spots.now.entries }
    requires header { header < length orders.now }
    ensures { option_map (λ rec. rec.now) result ≡ slice_get
        (records_of (lists_at slab.now (orders_in orders.now)) header) place }
{
    match key_at(orders, header, place) {
        Some(key) => slab.get(key as usize),
        None => None,
    }
}

/// How many records a header has.
pub(crate) fn len_of(slab: &Slab<Rec>, orders: &[Vec<u32>], header: usize) -> u32
    requires header { header < length orders.now }
    requires few { IsTrue (list_all is_few (orders_in orders.now)) }
    ensures { result ≡ length (records_of (lists_at slab.now (orders_in orders.now)) header) }
{
    count(orders, header) as u32
}

/// The last header that has records.
pub(crate) fn last_of(slab: &Slab<Rec>, orders: &[Vec<u32>]) -> Option<usize>
    ensures found { IfSome result (λ header. IsLastFull header
        (lists_at slab.now (orders_in orders.now))) }
    ensures within { IfSome result (λ header. header < length orders.now) }
    ensures none { IfNone result (all_records (lists_at slab.now (orders_in orders.now)) ≡ []) }
{
    last_header(orders)
}

/// The header of the record with an id.
pub(crate) fn header_of(
    slab: &Slab<Rec>,
    orders: &[Vec<u32>],
    spots: &IndexMap<u64, (u32, u32)>,
    id: EntryId,
) -> Option<u32>
    requires { IsTied slab.now (orders_in orders.now) spots.now.entries }
    ensures { result ≡ option_map (λ spot. spot.0) (spot_of rec_id id.0
        (lists_at slab.now (orders_in orders.now))) }
{
    match spot_for(spots, id) {
        Some((header, _)) => Some(header),
        None => None,
    }
}

/// Puts a record in place of the one with its id.
pub(crate) fn put_in_place(
    slab: &mut Slab<Rec>,
    orders: &[Vec<u32>],
    spots: &IndexMap<u64, (u32, u32)>,
    rec: Rec,
) -> Rec
    requires tied { IsTied slab.old (orders_in orders.now) spots.now.entries }
    requires there { list_any (is_id rec_id (rec_id rec))
        (all_records (lists_at slab.old (orders_in orders.now))) ≡ true }
    ensures record { record_of rec_id (rec_id rec) (lists_at slab.old (orders_in orders.now))
        ≡ Some result }
    ensures tied { IsTied slab.new (orders_in orders.now) spots.now.entries }
    ensures lists { lists_at slab.new (orders_in orders.now)
        ≡ lists_replaced rec_id rec (lists_at slab.old (orders_in orders.now)) }
    ensures len { slab_len slab.new ≡ slab_len slab.old }
    ensures capacity { slab.new.capacity ≡ slab.old.capacity }
{
    let _adjunct = rec.adj;
    match spot_for(spots, rec.id) {
        Some((_, key)) => swap(slab, key as usize, rec),
        None => unreachable!(),
    }
}

/// Takes out the record with an id.
#[tactic(auto, using(cf_lists::proofs::RecordSpotLaws::get_within))]
pub(crate) fn take_out(
    slab: &mut Slab<Rec>,
    orders: &mut Vec<Vec<u32>>,
    spots: &mut IndexMap<u64, (u32, u32)>,
    id: EntryId,
) -> Option<Rec>
    requires tied { IsTied slab.old (orders_in orders.old.items) spots.old.entries }
    requires few { IsTrue (list_all is_few (orders_in orders.old.items)) }
    ensures record { result ≡ record_of rec_id id.0
        (lists_at slab.old (orders_in orders.old.items)) }
    ensures tied { IsTied slab.new (orders_in orders.new.items) spots.new.entries }
    ensures lists { lists_at slab.new (orders_in orders.new.items)
        ≡ lists_without rec_id id.0 (lists_at slab.old (orders_in orders.old.items)) }
    ensures few { IsTrue (list_all is_few (orders_in orders.new.items)) }
    ensures len { vec_len orders.new ≡ vec_len orders.old }
    ensures slab_room { slab_len slab.old < slab.old.capacity
        → slab_len slab.new < slab.new.capacity }
    ensures capacity { slab.new.capacity ≡ slab.old.capacity }
    ensures order_room { IsTrue (list_all has_place orders.old.items)
        → IsTrue (list_all has_place orders.new.items) }
    ensures spot_room { spare spots.old ≤ spare spots.new }
{
    match spot_for(spots, id) {
        Some((header, key)) => {
            let place = place_in(orders.as_slice(), header as usize, key);
            Some(pull(slab, orders, spots, header as usize, place))
        }
        None => None,
    }
}

// The place of the last key of a header, which has some.
fn last_place(orders: &[Vec<u32>], header: usize) -> usize
    requires header { header < length orders.now }
    requires full { 0 < length (records_of (orders_in orders.now) header) }
    ensures { result + 1 ≡ length (records_of (orders_in orders.now) header) }
{
    count(orders, header) - 1
}

/// Takes out the last record of a header, which has some.
pub(crate) fn pop_out(
    slab: &mut Slab<Rec>,
    orders: &mut Vec<Vec<u32>>,
    spots: &mut IndexMap<u64, (u32, u32)>,
    header: usize,
) -> Rec
    requires tied { IsTied slab.old (orders_in orders.old.items) spots.old.entries }
    requires few { IsTrue (list_all is_few (orders_in orders.old.items)) }
    requires full { IsLastFull header (lists_at slab.old (orders_in orders.old.items)) }
    ensures found { record_of rec_id (rec_id result)
        (lists_at slab.old (orders_in orders.old.items)) ≡ Some result }
    ensures tied { IsTied slab.new (orders_in orders.new.items) spots.new.entries }
    ensures lists { lists_at slab.new (orders_in orders.new.items)
        ≡ lists_without rec_id (rec_id result) (lists_at slab.old (orders_in orders.old.items)) }
    ensures popped { lists_at slab.new (orders_in orders.new.items)
        ≡ lists_popped header (lists_at slab.old (orders_in orders.old.items)) }
    ensures few { IsTrue (list_all is_few (orders_in orders.new.items)) }
    ensures len { vec_len orders.new ≡ vec_len orders.old }
{
    let last = last_place(orders.as_slice(), header);
    pull(slab, orders, spots, header, last)
}

/// Takes room in the slab and in the map for one record more.
pub(crate) fn reserve_slab(slab: &mut Slab<Rec>) -> Result<(), NoMemory>
    ensures slots { slab.new.slots ≡ slab.old.slots }
    ensures room { OnOk result (slab_len slab.new < slab.new.capacity) }
    ensures small { OnOk result (slab.new.capacity < 4294967296) }
{
    slab.reserve(1)?;
    if slab.capacity() > u32::MAX as usize {
        return Err(NoMemory::beyond_counts());
    }
    Ok(())
}

pub(crate) fn reserve_spots(spots: &mut IndexMap<u64, (u32, u32)>) -> Result<(), NoMemory>
    ensures entries { spots.new.entries ≡ spots.old.entries }
    ensures room { OnOk result (0 < spare spots.new) }
{
    spots.reserve(1)?;
    Ok(())
}
