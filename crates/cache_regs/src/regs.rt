ghost use Rattle.std.specs.Prelude.{◌≡◌, ◌+◌, ◌≤◌, ◌<◌, ◌++◌, ◌∷◌, [], false, true, IsTrue, IfOk, OnOk, length, map, filter};
ghost use Rattle.std.specs.List.{list_any, list_all};
ghost use Rattle.cf_types.specs.Forms.{IsCaller};
ghost use Rattle.cf_types.specs.Gains.{Gains};
ghost use Rattle.cf_lists.specs.Pairwise.{pairwise};
ghost use Rattle.cache_regs.specs.Registrations.{is_at, is_for, is_of, registered_at, index_for, stands, stands_before, regs_for, regs_of, regs_with, regs_without, regs_without_name, ends_with_name, names_apart};
ghost use Rattle.cache_regs.specs.Registry.{is_callers, is_within};
ghost use Rattle.cache_regs.specs.Ends.{is_elsewhere, ends_of};
ghost use Rattle.cache_regs.specs.Places.{with_reg, set_changes, named_at};
ghost use Rattle.cache_regs.specs.declared.registrations.Registration.{Registration};

use crate::ends::{end_all, end_conn, end_elsewhere, end_name, is_spared};
use crate::maps::Maps;
use crate::registrations::Registration;
use cf_types::limits::CALLERS;
use cf_types::{BitChange, ConnId, Effects, Name16, NoMemory};
use std::alloc::Global;
use std::marker::Model;

/// The registrations of a cache structure. Contracts see them in the order of connectors and, of
/// one connector, of indexes, with how many bits a vector has, and how many more there is room for.
#[derive(Drop)]
pub struct Regs {
    maps: Maps,
    len: u32,
}

impl Model for Regs {
    ghost use Rattle.cache_regs.specs.Registry.{Registry, registry, IsKept};

    ghost Value = { Registry };

    ghost view = { registry };

    ghost invariant = { IsKept };
}

// How many registrations of a connector end with a name: one or none.
#[tactic(auto, using(crate::proofs::ListedLaws::count_spared, crate::proofs::ListedLaws::count_one, crate::proofs::ListedLaws::count_absent))]
fn count_of(maps: &Maps, name: &Name16, spare: Option<ConnId>, conn: ConnId) -> u32
    requires { IsTrue (pairwise names_apart maps.now.regs) }
    ensures count { result ≡ length (filter (ends_of name.now spare conn) maps.now.regs) }
    ensures few { result ≤ 1 }
{
    if is_spared(spare, conn) {
        return 0;
    }
    if maps.is_registered(conn, name) {
        return 1;
    }
    0
}

// How many registrations end with a name.
fn count_name(maps: &Maps, name: &Name16, spare: Option<ConnId>) -> u32
    requires apart { IsTrue (pairwise names_apart maps.now.regs) }
    requires callers { IsTrue (list_all is_callers maps.now.regs) }
    ensures { result ≡ length (filter (ends_with_name name.now spare) maps.now.regs) }
{
    let mut count = 0;
    for conn in 0..CALLERS {
        count += count_of(maps, name, spare, ConnId(conn));
    }
    count
}

// Tells of the bit that a registration sets, where it doesn't stand yet.
fn tell_set(maps: &Maps, new: &Registration, out: &mut Effects)
    requires { 1 ≤ out.old.bits.room }
    ensures bits { out.new.bits.items
        ≡ out.old.bits.items ++ set_changes new.now maps.now.regs }
    ensures room { out.old.bits.room ≤ out.new.bits.room + 1 }
    ensures mail { out.new.mail ≡ out.old.mail }
{
    if !maps.stands(new.conn, new.index) {
        out.bits.push(BitChange {
            conn: new.conn,
            index: new.index,
            bit: true,
        });
    }
}

// Ends what stands at the index of a registration, and puts it there.
fn replace(maps: &mut Maps, new: Registration)
    requires nowhere { list_any (is_elsewhere new.conn new.index new.name) maps.old.regs ≡ false }
    requires place { 1 ≤ maps.old.room }
    ensures regs { maps.new.regs ≡ with_reg new maps.old.regs }
    ensures more { length maps.new.regs ≤ length maps.old.regs + 1 }
    ensures place { maps.old.room ≤ maps.new.room + 1 }
{
    maps.take(new.conn, new.index);
    maps.put(new);
}

// Puts a registration in the place of what stands at its index, and tells of its bit.
#[tactic(auto, using(crate::proofs::BitLaws::gains_set))]
fn put(maps: &mut Maps, new: Registration, out: &mut Effects)
    requires nowhere { list_any (is_elsewhere new.conn new.index new.name) maps.old.regs ≡ false }
    requires place { 1 ≤ maps.old.room }
    requires room { 1 ≤ out.old.bits.room }
    ensures regs { maps.new.regs ≡ with_reg new maps.old.regs }
    ensures bits { Gains (stands maps.old.regs) (stands maps.new.regs) out.old.bits.items
        out.new.bits.items }
    ensures room { out.old.bits.room ≤ out.new.bits.room + 1 }
    ensures mail { out.new.mail ≡ out.old.mail }
    ensures more { length maps.new.regs ≤ length maps.old.regs + 1 }
    ensures place { maps.old.room ≤ maps.new.room + 1 }
{
    tell_set(maps, &new, out);
    replace(maps, new);
}

// One name more.
fn push(list: &mut Vec<(u32, Name16)>, index: u32, name: Name16) -> Result<(), NoMemory>
    ensures { OnOk result (list.new.items ≡ list.old.items ++ (index, name) ∷ []) }
{
    list.push((index, name))?;
    Ok(())
}

// The name at an index more, if there is one.
fn push_at(
    list: &mut Vec<(u32, Name16)>,
    maps: &Maps,
    conn: ConnId,
    index: u32,
) -> Result<(), NoMemory>
    ensures { OnOk result (list.new.items
        ≡ list.old.items ++ named_at index (registered_at maps.now.regs conn index)) }
{
    match maps.at(conn, index) {
        Some(name) => push(list, index, name),
        None => Ok(()),
    }
}

// The registrations of a connector at the indexes below a length.
fn indexes(
    alloc: Global,
    maps: &Maps,
    len: u32,
    conn: ConnId,
) -> Result<Vec<(u32, Name16)>, NoMemory>
    requires ordered { IsTrue (pairwise stands_before maps.now.regs) }
    requires within { IsTrue (list_all (is_within len) maps.now.regs) }
    ensures { IfOk result (λ list. list.items ≡ map (λ (reg : Registration). (reg.index, reg.name))
        (regs_of conn maps.now.regs)) }
{
    let mut list = Vec::new(alloc);
    for index in 0..len {
        push_at(&mut list, maps, conn, index)?;
    }
    Ok(list)
}

impl Regs {
    /// No registrations, for vectors of so many bits; how many connections there may be plays no
    /// part. It takes no memory yet.
    pub fn new(alloc: Global, _conns: u8, len: u32) -> Result<Regs, NoMemory>
        ensures regs { IfOk result (λ regs. regs.regs ≡ []) }
        ensures len { IfOk result (λ regs. regs.len ≡ len) }
    {
        Ok(Regs {
            maps: Maps::new(alloc),
            len,
        })
    }

    /// The same registrations once more.
    pub fn copy(&self, _alloc: Global) -> Result<Regs, NoMemory>
        ensures regs { IfOk result (λ regs. regs.regs ≡ self.now.regs) }
        ensures len { IfOk result (λ regs. regs.len ≡ self.now.len) }
    {
        let maps = self.maps.copy()?;
        Ok(Regs {
            maps,
            len: self.len,
        })
    }

    /// How many registrations there are.
    pub fn total(&self) -> usize
        ensures { result ≡ length self.now.regs }
    {
        self.maps.len()
    }

    /// The indexes at which a connector is registered, in their order, with the names. Only want of
    /// memory is refused.
    pub fn of(&self, alloc: Global, conn: ConnId) -> Result<Vec<(u32, Name16)>, NoMemory>
        ensures { IfOk result (λ list. list.items
            ≡ map (λ (reg : Registration). (reg.index, reg.name)) (regs_of conn self.now.regs)) }
    {
        indexes(alloc, &self.maps, self.len, conn)
    }

    /// The name for which a connector is registered at an index.
    pub fn at(&self, conn: ConnId, index: u32) -> Option<Name16>
        ensures { result ≡ registered_at self.now.regs conn index }
    {
        self.maps.at(conn, index)
    }

    /// The index at which a connector is registered for a name.
    pub fn index_of(&self, conn: ConnId, name: &Name16) -> Option<u32>
        ensures { result ≡ index_for self.now.regs conn name.now }
    {
        self.maps.index_of(conn, name)
    }

    /// Whether a connector is registered for a name.
    pub fn is_registered(&self, conn: ConnId, name: &Name16) -> bool
        ensures { result ≡ list_any (is_for conn name.now) self.now.regs }
    {
        self.maps.is_registered(conn, name)
    }

    /// How many registrations there are for a name, but for those of the connector that is spared.
    pub fn count(&self, name: &Name16, spare: Option<ConnId>) -> u32
        ensures { result ≡ length (filter (ends_with_name name.now spare) self.now.regs) }
    {
        count_name(&self.maps, name, spare)
    }

    /// How many registrations there are for a name.
    pub fn count_all(&self, name: &Name16) -> u32
        ensures { result ≡ length (regs_for name.now self.now.regs) }
    {
        count_name(&self.maps, name, None)
    }

    /// Whether the bit of a connector's vector at an index stands.
    pub fn stands(&self, conn: ConnId, index: u32) -> bool
        ensures { result ≡ stands self.now.regs conn index }
    {
        self.maps.stands(conn, index)
    }

    /// Takes room for one more registration, and room in the effects for what one command tells:
    /// its registration, and the end of others'. Want of memory changes nothing.
    pub fn room(&mut self, out: &mut Effects) -> Result<(), NoMemory>
        ensures regs { self.new.regs ≡ self.old.regs }
        ensures len { self.new.len ≡ self.old.len }
        ensures place { OnOk result (1 ≤ self.new.room) }
        ensures bits { OnOk result (length self.new.regs + 3 ≤ out.new.bits.room) }
        ensures told { out.new.bits.items ≡ out.old.bits.items }
        ensures mail { out.new.mail ≡ out.old.mail }
    {
        let count = self.maps.len();
        if count >= u32::MAX as usize {
            return Err(NoMemory::beyond_counts());
        }
        self.maps.reserve()?;
        out.bits.reserve(count + 3)
    }

    /// Registers a connector for a name at an index. Its registration at that index, and its
    /// registration for that name at another one, end. At most two bits change.
    pub fn set(&mut self, conn: ConnId, index: u32, name: Name16, out: &mut Effects)
        requires caller { IsCaller conn }
        requires index { index < self.old.len }
        requires place { 1 ≤ self.old.room }
        requires room { 2 ≤ out.old.bits.room }
        ensures regs { self.new.regs ≡ regs_with conn index name self.old.regs }
        ensures len { self.new.len ≡ self.old.len }
        ensures bits { Gains (stands self.old.regs) (stands self.new.regs) out.old.bits.items
            out.new.bits.items }
        ensures room { out.old.bits.room ≤ out.new.bits.room + 2 }
        ensures mail { out.new.mail ≡ out.old.mail }
        ensures more { length self.new.regs ≤ length self.old.regs + 1 }
        ensures place { self.old.room ≤ self.new.room + 1 }
    {
        end_elsewhere(&mut self.maps, conn, index, &name, out);
        put(&mut self.maps, Registration { conn, index, name }, out);
    }

    /// Ends the registrations for a name, but those of the connector that is spared; answers how
    /// many ended. The bit of each is cleared.
    pub fn drop_name(&mut self, name: &Name16, spare: Option<ConnId>, out: &mut Effects) -> u32
        requires { length (filter (ends_with_name name.now spare) self.old.regs)
            ≤ out.old.bits.room }
        ensures count { result ≡ length (filter (ends_with_name name.now spare) self.old.regs) }
        ensures regs { self.new.regs ≡ regs_without_name name.now spare self.old.regs }
        ensures len { self.new.len ≡ self.old.len }
        ensures bits { Gains (stands self.old.regs) (stands self.new.regs) out.old.bits.items
            out.new.bits.items }
        ensures room { out.new.bits.room + result ≡ out.old.bits.room }
        ensures mail { out.new.mail ≡ out.old.mail }
        ensures fewer { length self.new.regs + result ≡ length self.old.regs }
        ensures place { self.old.room ≤ self.new.room }
    {
        let before = self.maps.len();
        end_name(&mut self.maps, name, spare, out);
        (before - self.maps.len()) as u32
    }

    /// Ends the registrations of a connector. The bit of each is cleared.
    pub fn drop_conn(&mut self, conn: ConnId, out: &mut Effects)
        requires { length (filter (is_of conn) self.old.regs) ≤ out.old.bits.room }
        ensures regs { self.new.regs ≡ regs_without conn self.old.regs }
        ensures len { self.new.len ≡ self.old.len }
        ensures bits { Gains (stands self.old.regs) (stands self.new.regs) out.old.bits.items
            out.new.bits.items }
        ensures mail { out.new.mail ≡ out.old.mail }
        ensures place { self.old.room ≤ self.new.room }
    {
        end_conn(&mut self.maps, self.len, conn, out);
    }

    /// Ends all registrations. The bit of each is cleared.
    pub fn drop_all(&mut self, out: &mut Effects)
        requires { length self.old.regs ≤ out.old.bits.room }
        ensures regs { self.new.regs ≡ [] }
        ensures len { self.new.len ≡ self.old.len }
        ensures bits { Gains (stands self.old.regs) (stands self.new.regs) out.old.bits.items
            out.new.bits.items }
        ensures mail { out.new.mail ≡ out.old.mail }
        ensures place { self.old.room ≤ self.new.room }
    {
        end_all(&mut self.maps, out);
    }
}
