//! Registrations in two maps, by place and by name. Whatever comes or goes does so in both.
ghost use Rattle.std.specs.Prelude.{◌≡◌, ◌+◌, ◌≤◌, ◌<◌, if◌then◌else◌, [], None, Some, false, true, not, IfOk, OnOk, IfSome, IfNone, length, filter};
ghost use Rattle.std.specs.List.{IsDistinct, list_any};
ghost use Rattle.std.specs.Map.{keys_of};
ghost use Rattle.indexmap.specs.IndexMap.{spare};
ghost use Rattle.cf_lists.specs.Insertions.{insertion};
ghost use Rattle.cf_lists.specs.Pairwise.{pairwise};
ghost use Rattle.cache_regs.specs.declared.registrations.Registration.{Registration};
ghost use Rattle.cache_regs.specs.Registrations.{is_at, is_for, registered_at, index_for, stands, stands_before};
ghost use Rattle.cache_regs.specs.Maps.{place_eq, named_eq, at_place, at_name, regs_in, WritesPlace, WritesName, IsAgreed, IsAloneFor};

use crate::registrations::Registration;
use cf_types::limits::NAME_BYTES;
use cf_types::{ConnId, Name16, NoMemory};
use indexmap::IndexMap;
use std::alloc::{AllocError, Global};
use std::marker::Model;

/// The names by connector and index.
type Places = IndexMap<(u8, u32), Name16>;
/// The indexes by connector and name.
type Names = IndexMap<(u8, [u8; NAME_BYTES]), u32>;

/// Registrations, found by connector and index and by connector and name. Contracts see them in the
/// order of connectors and, of one connector, of indexes, and for how many more there is room.
#[derive(Drop)]
pub(crate) struct Maps {
    by_place: Places,
    by_name: Names,
}

impl Model for Maps {
    ghost use Rattle.cache_regs.specs.Maps.{RegList, reg_list, AreAgreed};

    ghost Value = { RegList };

    ghost view = { reg_list };

    ghost invariant = { AreAgreed };
}

// Takes out what is registered at a place, and answers whether something was.
fn take_out(places: &mut Places, names: &mut Names, conn: ConnId, index: u32) -> bool
    requires { IsAgreed places.old.entries names.old.entries }
    ensures agreed { IsAgreed places.new.entries names.new.entries }
    ensures found { result ≡ stands (regs_in places.old.entries) conn index }
    ensures regs { regs_in places.new.entries
        ≡ filter (λ reg. not (is_at conn index reg)) (regs_in places.old.entries) }
    ensures len { length (regs_in places.new.entries) + (if result then 1 else 0)
        ≡ length (regs_in places.old.entries) }
    ensures places { spare places.old ≤ spare places.new }
    ensures names { spare names.old ≤ spare names.new }
{
    match places.swap_remove(&(conn.0, index)) {
        Some(name) => {
            let bytes = name.0;
            names.swap_remove(&(conn.0, bytes));
            true
        }
        None => false,
    }
}

// Writes a name at a place, for which there is room.
fn write_place(places: &mut Places, conn: ConnId, index: u32, name: Name16)
    requires { 1 ≤ spare places.old }
    ensures writes { WritesPlace places.old.entries conn index (Some name) places.new.entries }
    ensures unique { IsDistinct place_eq (keys_of places.new.entries) }
    ensures room { spare places.old ≤ spare places.new + 1 }
{
    let _ = places.insert((conn.0, index), name);
}

// Writes an index at a name, for which there is room.
fn write_name(names: &mut Names, conn: ConnId, name: Name16, index: u32)
    requires { 1 ≤ spare names.old }
    ensures writes { WritesName names.old.entries conn name (Some index) names.new.entries }
    ensures room { spare names.old ≤ spare names.new + 1 }
{
    let bytes = name.0;
    let _ = names.insert((conn.0, bytes), index);
}

// Puts in a registration, where its connector has none at the index and none for the name.
fn put_in(places: &mut Places, names: &mut Names, new: Registration)
    requires agreed { IsAgreed places.old.entries names.old.entries }
    requires free { stands (regs_in places.old.entries) new.conn new.index ≡ false }
    requires unnamed { list_any (is_for new.conn new.name) (regs_in places.old.entries) ≡ false }
    requires places { 1 ≤ spare places.old }
    requires names { 1 ≤ spare names.old }
    ensures agreed { IsAgreed places.new.entries names.new.entries }
    ensures regs { regs_in places.new.entries
        ≡ insertion (λ other. stands_before other new) new (regs_in places.old.entries) }
    ensures places { spare places.old ≤ spare places.new + 1 }
    ensures names { spare names.old ≤ spare names.new + 1 }
{
    write_place(places, new.conn, new.index, new.name);
    write_name(names, new.conn, new.name, new.index);
}

impl Maps {
    /// No registrations. It takes no memory yet.
    pub(crate) fn new(alloc: Global) -> Maps
        ensures { result.regs ≡ [] }
    {
        Maps {
            by_place: IndexMap::new(alloc),
            by_name: IndexMap::new(alloc),
        }
    }

    /// The same registrations once more.
    #[tactic(auto, using(std::proofs::lemmas::List::Elements::same_from_all_zip))]
    pub(crate) fn copy(&self) -> Result<Maps, AllocError>
        ensures { IfOk result (λ maps. maps.regs ≡ self.now.regs) }
    {
        Ok(Maps {
            by_place: self.by_place.clone()?,
            by_name: self.by_name.clone()?,
        })
    }

    /// How many registrations there are.
    #[tactic(auto, using(crate::proofs::MapLaws::length_told))]
    pub(crate) fn len(&self) -> usize
        ensures { result ≡ length self.now.regs }
    {
        self.by_place.len()
    }

    /// The name for which a connector is registered at an index.
    pub(crate) fn at(&self, conn: ConnId, index: u32) -> Option<Name16>
        ensures { result ≡ registered_at self.now.regs conn index }
    {
        self.by_place.get(&(conn.0, index)).copied()
    }

    /// Whether a connector is registered at an index.
    pub(crate) fn stands(&self, conn: ConnId, index: u32) -> bool
        ensures { result ≡ stands self.now.regs conn index }
    {
        self.by_place.contains_key(&(conn.0, index))
    }

    /// The index at which a connector is registered for a name.
    pub(crate) fn index_of(&self, conn: ConnId, name: &Name16) -> Option<u32>
        ensures index { result ≡ index_for self.now.regs conn name.now }
        ensures alone { IfSome result (λ index. IsAloneFor conn name.now index self.now.regs) }
    {
        self.by_name.get(&(conn.0, name.0)).copied()
    }

    /// Whether a connector is registered for a name.
    pub(crate) fn is_registered(&self, conn: ConnId, name: &Name16) -> bool
        ensures { result ≡ list_any (is_for conn name.now) self.now.regs }
    {
        self.by_name.contains_key(&(conn.0, name.0))
    }

    /// The place of some registration, where there is one.
    #[tactic(auto, using(crate::proofs::MapLaws::entry_stands))]
    pub(crate) fn some_place(&self) -> Option<(ConnId, u32)>
        ensures none { IfNone result (self.now.regs ≡ []) }
        ensures some { IfSome result (λ place. stands self.now.regs place.0 place.1 ≡ true) }
    {
        match self.by_place.last() {
            Some((place, _)) => Some((ConnId(place.0), place.1)),
            None => None,
        }
    }

    /// Takes room for one registration. Want of memory changes nothing.
    pub(crate) fn reserve(&mut self) -> Result<(), AllocError>
        ensures regs { self.new.regs ≡ self.old.regs }
        ensures room { OnOk result (1 ≤ self.new.room) }
    {
        self.by_place.reserve(1)?;
        self.by_name.reserve(1)
    }

    /// Takes out the registration at a place, and answers whether there was one.
    pub(crate) fn take(&mut self, conn: ConnId, index: u32) -> bool
        ensures found { result ≡ stands self.old.regs conn index }
        ensures regs { self.new.regs
            ≡ filter (λ reg. not (is_at conn index reg)) self.old.regs }
        ensures len { length self.new.regs + (if result then 1 else 0) ≡ length self.old.regs }
        ensures room { self.old.room ≤ self.new.room }
    {
        take_out(&mut self.by_place, &mut self.by_name, conn, index)
    }

    /// Puts in a registration, where its connector has none at the index and none for the name.
    pub(crate) fn put(&mut self, new: Registration)
        requires free { stands self.old.regs new.conn new.index ≡ false }
        requires unnamed { list_any (is_for new.conn new.name) self.old.regs ≡ false }
        requires room { 1 ≤ self.old.room }
        ensures regs { self.new.regs
            ≡ insertion (λ other. stands_before other new) new self.old.regs }
        ensures room { self.old.room ≤ self.new.room + 1 }
    {
        put_in(&mut self.by_place, &mut self.by_name, new);
    }
}
