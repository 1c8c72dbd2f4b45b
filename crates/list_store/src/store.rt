//! The records of a list structure with their data.
ghost use Rattle.std.specs.Prelude.{◌≡◌, ◌-◌, ◌+◌, ◌<◌, ◌≤◌, [], true, false, IsTrue, IfOk, IfErr, OnOk, OnErr, IfSome, IfNone, IsErr, ◌↔◌, Some, None, length, take, option_map, slice_get, slice_set, replicate, sum_by};
ghost use Rattle.std.specs.List.{list_any};
ghost use Rattle.cf_lists.specs.Pairwise.{pairwise};
ghost use Rattle.cf_pool.specs.Chains.{need_of};
ghost use Rattle.cf_pool.specs.Pools.{IsChain, need_at, need_in};
ghost use Rattle.cf_lists.specs.Lists.{IsLastFull, lists_popped};
ghost use Rattle.list_store.specs.Lists.{all_records, records_of, is_id, record_of, spot_of, lists_without, lists_with, lists_replaced, ids_apart};
ghost use Rattle.list_store.specs.Records.{record_in, HasChain, chains_less, chain_put, free_put, elements_in};

use crate::records::{Rec, Spot};
use crate::table::Table;
use cf_pool::{Chain, NoElements, Pool};
use cf_types::{EntryId, NoMemory};
use std::alloc::Global;
use std::marker::Model;

/// The records of a list structure, and the pool in which their data lie. Contracts see the records
/// with their data, the chains of the pool, and those of them that no record has.
#[derive(Drop)]
pub struct Store {
    table: Table,
    pool: Pool,
}

impl Model for Store {
    ghost use Rattle.list_store.specs.StoreView.{StoreView, store_view, IsStore};

    ghost Value = { StoreView };

    ghost view = { store_view };

    ghost invariant = { IsStore };
}

impl Store {
    /// No records, in so many headers, and so many elements, all free.
    #[tactic(auto, using(crate::proofs::StoreLaws::held_none))]
    pub fn new(alloc: Global, _entries: u32, elements: u32, headers: u32) -> Result<Store, NoMemory>
        ensures lists { IfOk result (λ store. store.lists ≡ replicate headers []) }
        ensures chains { IfOk result (λ store. store.chains ≡ replicate elements None) }
        ensures loose { IfOk result (λ store. store.loose ≡ replicate elements None) }
        ensures free { IfOk result (λ store. store.free ≡ elements) }
    {
        let table = Table::new(alloc, headers)?;
        let pool = Pool::new(alloc, elements)?;
        Ok(Store { table, pool })
    }

    /// Takes room for one record more, in whichever header. Want of memory changes nothing.
    pub fn room(&mut self) -> Result<(), NoMemory>
        ensures same { self.new ≡ record self.old { room = self.new.room } }
        ensures room { OnOk result (1 ≤ self.new.room) }
    {
        self.table.room()
    }

    /// How many headers there are.
    pub fn headers(&self) -> u32
        ensures { result ≡ length self.now.lists }
    {
        self.table.headers()
    }

    /// How many records a header has.
    pub fn len(&self, header: u32) -> u32
        requires { header < length self.now.lists }
        ensures { result ≡ length (records_of self.now.lists header) }
    {
        self.table.len(header)
    }

    /// The record at a place of a header, from 0.
    pub fn at(&self, header: u32, place: u32) -> Option<&Rec>
        requires { header < length self.now.lists }
        ensures record { option_map (λ rec. record_in self.now.chains rec.now) result
            ≡ slice_get (records_of self.now.lists header) place }
        ensures chain { IfSome result (λ rec. HasChain self.now.chains rec.now.body) }
        ensures apart { IsTrue (pairwise ids_apart (all_records self.now.lists)) }
    {
        self.table.at(header, place)
    }

    /// The record with an id.
    pub fn get(&self, id: EntryId) -> Option<&Rec>
        ensures record { option_map (λ rec. record_in self.now.chains rec.now) result
            ≡ record_of id self.now.lists }
        ensures chain { IfSome result (λ rec. HasChain self.now.chains rec.now.body) }
        ensures apart { IsTrue (pairwise ids_apart (all_records self.now.lists)) }
    {
        self.table.get(id)
    }

    /// The header that the record with an id is in.
    pub fn header_of(&self, id: EntryId) -> Option<u32>
        ensures header { result ≡ option_map (λ spot. spot.header) (spot_of id self.now.lists) }
        ensures apart { IsTrue (pairwise ids_apart (all_records self.now.lists)) }
    {
        self.table.header_of(id)
    }

    /// Where the record with an id is.
    pub fn whereabouts(&self, id: EntryId) -> Option<Spot>
        ensures spot { result ≡ spot_of id self.now.lists }
        ensures apart { IsTrue (pairwise ids_apart (all_records self.now.lists)) }
    {
        self.table.whereabouts(id)
    }

    /// Puts a record at a place of a header. No record has its id, and none has its chain.
    pub fn add(&mut self, header: u32, place: u32, rec: Rec)
        requires room { 1 ≤ self.old.room }
        requires header { header < length self.old.lists }
        requires place { place ≤ length (records_of self.old.lists header) }
        requires alone { list_any (is_id rec.id) (all_records self.old.lists) ≡ false }
        requires chain { HasChain self.old.loose rec.body }
        ensures lists { self.new.lists
            ≡ lists_with header place (record_in self.old.chains rec) self.old.lists }
        ensures chains { self.new.chains ≡ self.old.chains }
        ensures loose { self.new.loose ≡ chains_less rec.body self.old.loose }
        ensures free { self.new.free ≡ self.old.free }
    {
        self.table.add(header, place, rec);
    }

    /// Puts a record in place of the one with this id, which is there and is the record's own;
    /// gives that one, whose chain no record has then.
    pub fn set(&mut self, id: EntryId, rec: Rec) -> Rec
        requires there { list_any (is_id id) (all_records self.old.lists) ≡ true }
        requires same { id ≡ rec.id }
        requires chain { HasChain self.old.loose rec.body }
        ensures record { record_of id self.old.lists ≡ Some (record_in self.old.chains result) }
        ensures chain { HasChain self.new.loose result.body }
        ensures lists { self.new.lists
            ≡ lists_replaced (record_in self.old.chains rec) self.old.lists }
        ensures chains { self.new.chains ≡ self.old.chains }
        ensures was { chains_less rec.body self.old.loose
            ≡ chains_less result.body self.new.loose }
        ensures free { self.new.free ≡ self.old.free }
        ensures apart { IsTrue (pairwise ids_apart (all_records self.old.lists)) }
        ensures room { self.old.room ≤ self.new.room }
    {
        self.table.set(id, rec)
    }

    /// Takes out the record with an id; no record has its chain then.
    #[tactic(auto, using(crate::proofs::StoreLaws::shown_record))]
    pub fn take(&mut self, id: EntryId) -> Option<Rec>
        ensures record { option_map (record_in self.old.chains) result
            ≡ record_of id self.old.lists }
        ensures chain { IfSome result (λ rec. HasChain self.new.loose rec.body) }
        ensures lists { self.new.lists ≡ lists_without id self.old.lists }
        ensures chains { self.new.chains ≡ self.old.chains }
        ensures was { IfSome result (λ rec. self.old.loose ≡ chains_less rec.body self.new.loose) }
        ensures none { IfNone result (self.new.loose ≡ self.old.loose) }
        ensures free { self.new.free ≡ self.old.free }
        ensures apart { IsTrue (pairwise ids_apart (all_records self.old.lists)) }
        ensures room { self.old.room ≤ self.new.room }
    {
        self.table.take(id)
    }

    /// Takes the record with an id, which is there, to a place of a header.
    pub fn shift(&mut self, id: EntryId, header: u32, place: u32)
        requires room { 1 ≤ self.old.room }
        requires there { list_any (is_id id) (all_records self.old.lists) ≡ true }
        requires header { header < length self.old.lists }
        requires place { place ≤ length (records_of (lists_without id self.old.lists) header) }
        ensures lists { IfSome (record_of id self.old.lists) (λ rec. self.new.lists
            ≡ lists_with header place rec (lists_without id self.old.lists)) }
        ensures chains { self.new.chains ≡ self.old.chains }
        ensures loose { self.new.loose ≡ self.old.loose }
        ensures free { self.new.free ≡ self.old.free }
    {
        match self.take(id) {
            Some(rec) => self.add(header, place, rec),
            None => unreachable!(),
        }
    }

    /// The last header that has records.
    pub fn last_header(&self) -> Option<u32>
        ensures found { IfSome result (λ header. IsLastFull header self.now.lists) }
        ensures none { IfNone result (all_records self.now.lists ≡ []) }
    {
        self.table.last_header()
    }

    /// Takes the last record out, of the last header that has records; gives the header, too. No
    /// record has its chain then.
    pub fn pop(&mut self) -> Option<(u32, Rec)>
        ensures header { IfSome result (λ out. IsLastFull out.0 self.old.lists) }
        ensures found { IfSome result (λ out. record_of out.1.id self.old.lists
            ≡ Some (record_in self.old.chains out.1)) }
        ensures without { IfSome result (λ out. self.new.lists
            ≡ lists_without out.1.id self.old.lists) }
        ensures lists { IfSome result (λ out. self.new.lists
            ≡ lists_popped out.0 self.old.lists) }
        ensures chain { IfSome result (λ out. HasChain self.new.loose out.1.body) }
        ensures chains { self.new.chains ≡ self.old.chains }
        ensures was { IfSome result (λ out. self.old.loose
            ≡ chains_less out.1.body self.new.loose) }
        ensures free { self.new.free ≡ self.old.free }
        ensures none { IfNone result (all_records self.old.lists ≡ []) }
        ensures same { IfNone result (self.new ≡ self.old) }
        ensures apart { IsTrue (pairwise ids_apart (all_records self.old.lists)) }
    {
        self.table.pop()
    }

    /// Puts bytes into a new chain, which no record has. It takes no memory.
    #[tactic(auto, using(crate::proofs::StoreLaws::new_fresh))]
    pub fn put_body(&mut self, bytes: &[u8]) -> Result<Chain, NoElements>
        requires some { 1 ≤ length bytes.now }
        requires few { length bytes.now ≤ 4096 }
        ensures refused { IsErr result ↔ self.old.free < need_of (length bytes.now) }
        ensures err { IfErr result (λ e. e
            ≡ record { need = need_of (length bytes.now); free = self.old.free }) }
        ensures same { OnErr result (self.new ≡ self.old) }
        ensures fresh { IfOk result (λ chain. slice_get self.old.chains chain.head ≡ Some None) }
        ensures fresh_loose { IfOk result (λ chain. slice_get self.old.loose chain.head
            ≡ Some None) }
        ensures put { IfOk result (λ chain. self.new ≡ record self.old {
          chains = slice_set self.old.chains chain.head (Some bytes.now);
          loose = slice_set self.old.loose chain.head (Some bytes.now);
          free = self.old.free - need_of (length bytes.now);
        }) }
    {
        self.pool.put(bytes)
    }

    /// How many elements a chain has.
    pub fn need(&self, chain: &Chain) -> u32
        requires { IsChain self.now.chains chain.now.head }
        ensures { result ≡ need_in self.now.chains chain.now.head }
    {
        self.pool.need(chain)
    }

    /// The bytes of a chain, 1 to 4,096 of them.
    #[tactic(auto, using(crate::proofs::StoreLaws::data_size))]
    pub fn read_body(&self, alloc: Global, chain: &Chain) -> Result<Vec<u8>, NoMemory>
        requires { IsChain self.now.chains chain.now.head }
        ensures bytes { IfOk result (λ bytes. slice_get self.now.chains chain.now.head
            ≡ Some (Some bytes.items)) }
        ensures some { IfOk result (λ bytes. 1 ≤ length bytes.items) }
        ensures few { IfOk result (λ bytes. length bytes.items ≤ 4096) }
    {
        self.pool.read(alloc, chain)
    }

    /// Gives the elements of a chain back, which no record has. It takes no memory.
    pub fn give_body(&mut self, chain: Chain)
        requires { IsChain self.old.loose chain.head }
        ensures { self.new ≡ record self.old {
          chains = slice_set self.old.chains chain.head None;
          loose = slice_set self.old.loose chain.head None;
          free = self.old.free + need_in self.old.chains chain.head;
        } }
    {
        self.pool.give_back(chain);
    }

    /// Puts bytes into a chain, which no record has, in place of its own. It takes no memory.
    pub fn replace_body(&mut self, chain: Chain, bytes: &[u8]) -> Result<Chain, (Chain, NoElements)>
        requires chain { IsChain self.old.loose chain.head }
        requires some { 1 ≤ length bytes.now }
        requires few { length bytes.now ≤ 4096 }
        ensures refused { IsErr result
            ↔ self.old.free + need_in self.old.chains chain.head < need_of (length bytes.now) }
        ensures err { IfErr result (λ e. e ≡ (
          chain,
          record {
            need = need_of (length bytes.now);
            free = self.old.free + need_in self.old.chains chain.head;
          },
        )) }
        ensures same { OnErr result (self.new ≡ self.old) }
        ensures put { IfOk result (λ new. self.new ≡ record self.old {
          chains = chain_put self.old.chains chain.head new.head bytes.now;
          loose = chain_put self.old.loose chain.head new.head bytes.now;
          free = free_put self.old.free self.old.chains chain.head bytes.now;
        }) }
        ensures fresh { IfOk result (λ new. slice_get (slice_set self.old.chains chain.head None)
            new.head ≡ Some None) }
    {
        self.pool.replace(chain, bytes)
    }

    /// How many elements are free: those that are in no record's data, nor in a chain that no
    /// record has.
    pub fn free(&self) -> u32
        ensures free { result ≡ self.now.free }
        ensures all { elements_in (all_records self.now.lists) + sum_by need_at self.now.loose
            + self.now.free ≡ length self.now.chains }
    {
        self.pool.free()
    }
}
