ghost use Rattle.std.specs.Prelude.{Bool, ◌≡◌, ◌+◌, ◌-◌, ◌≤◌, ◌<◌, ◌++◌, ◌∷◌, [], None, Some, nat_eq, IfOk, OnOk, if◌then◌else◌, length, filter, option_map, slice_get};
ghost use Rattle.std.specs.List.{IsDistinct};
ghost use Rattle.std.specs.Map.{keys_of};
ghost use Rattle.std.specs.Cmp.Lexicographic.{pointwise};
ghost use Rattle.indexmap.specs.IndexMap.{spare};
ghost use Rattle.cf_types.specs.declared.names.Name16.{Name16};
ghost use Rattle.cache_classes.specs.declared.changed.Changed.{Changed};
ghost use Rattle.cache_classes.specs.Castout.{names_without, names_with, names_set, name_of, names_in, names_of, count_of, last_name, later, room_taken};
ghost use Rattle.cache_classes.specs.ClassBatch.{entries_in, classes_in, Writes};

use cf_types::limits::NAME_BYTES;
use cf_types::{Name16, NoMemory};
use indexmap::IndexMap;
use std::alloc::Global;
use std::marker::Model;

/// Castout classes by the bytes of names.
type Entries = IndexMap<[u8; NAME_BYTES], u32>;

/// The castout classes of changed names, one class for a name, in a map. Contracts see the names
/// with their classes in the order of names, and as they lie in the map, in no order that matters;
/// and for how many more there is room.
#[derive(Drop)]
pub struct Classes {
    map: Entries,
}

impl Model for Classes {
    ghost use Rattle.cache_classes.specs.ClassBatch.{ClassBatch, batch_of, IsKept};

    ghost Value = { ClassBatch };

    ghost view = { batch_of };

    ghost invariant = { IsKept };
}

// Takes out a name, if it is there.
#[tactic(auto, using(crate::proofs::MapLaws::removed_names))]
fn take_out(map: &mut Entries, name: &Name16)
    requires { IsDistinct (pointwise nat_eq) (keys_of map.old.entries) }
    ensures unique { IsDistinct (pointwise nat_eq) (keys_of map.new.entries) }
    ensures names { classes_in map.new.entries
        ≡ names_without name.now (classes_in map.old.entries) }
    ensures len { length map.new.entries ≤ length map.old.entries }
    ensures spare { spare map.old ≤ spare map.new }
{
    map.swap_remove(&name.0);
}

// Writes the class of a name, for which there is room.
fn write(map: &mut Entries, name: Name16, class: u32)
    requires { 1 ≤ spare map.old }
    ensures writes { Writes map.old.entries name (Some class) map.new.entries }
    ensures unique { IsDistinct (pointwise nat_eq) (keys_of map.new.entries) }
    ensures len { length map.new.entries ≤ length map.old.entries + 1 }
    ensures spare { spare map.old ≤ spare map.new + 1 }
{
    let _ = map.insert(name.0, class);
}

// A name takes a class, in place of the one that it had, where there is room for it.
#[tactic(auto, using(crate::proofs::MapLaws::put_names))]
fn put(map: &mut Entries, name: Name16, class: u32)
    requires unique { IsDistinct (pointwise nat_eq) (keys_of map.old.entries) }
    requires room { 1 ≤ spare map.old }
    ensures unique { IsDistinct (pointwise nat_eq) (keys_of map.new.entries) }
    ensures names { classes_in map.new.entries
        ≡ names_set name (Some class) (classes_in map.old.entries) }
    ensures len { length map.new.entries ≤ length map.old.entries + 1 }
    ensures spare { spare map.old ≤ spare map.new + 1 }
{
    write(map, name, class);
}

// A name takes a class, or has none any more.
fn set(map: &mut Entries, name: Name16, class: Option<u32>)
    requires unique { IsDistinct (pointwise nat_eq) (keys_of map.old.entries) }
    requires room { room_taken class ≤ spare map.old }
    ensures unique { IsDistinct (pointwise nat_eq) (keys_of map.new.entries) }
    ensures names { classes_in map.new.entries ≡ names_set name class (classes_in map.old.entries) }
    ensures len { length map.new.entries ≤ length map.old.entries + room_taken class }
    ensures spare { spare map.old ≤ spare map.new + room_taken class }
{
    match class {
        Some(class) => put(map, name, class),
        None => take_out(map, &name),
    }
}

// One name more, where it is.
fn push_own(list: &mut Vec<Name16>, name: &[u8; NAME_BYTES], own: bool) -> Result<(), NoMemory>
    ensures { OnOk result (list.new.items
        ≡ list.old.items ++ (if own then record { 0 = name.now } ∷ [] else [])) }
{
    if own {
        list.push(Name16(*name))?;
    }
    Ok(())
}

// The names of a class, as they lie in the map.
fn unsorted_of(alloc: Global, map: &Entries, class: u32) -> Result<Vec<Name16>, NoMemory>
    ensures { IfOk result (λ list. list.items ≡ names_of class (entries_in map.now.entries)) }
{
    let mut list = Vec::new(alloc);
    for (name, own) in map.iter() {
        push_own(&mut list, name, *own == class)?;
    }
    Ok(list)
}

// All names, as they lie in the map.
fn unsorted(alloc: Global, map: &Entries) -> Result<Vec<Name16>, NoMemory>
    ensures { IfOk result (λ list. list.items ≡ names_in (entries_in map.now.entries)) }
{
    let mut list = Vec::new(alloc);
    for (name, _) in map.iter() {
        push_own(&mut list, name, true)?;
    }
    Ok(list)
}

// One where it is, and nothing where it isn't.
fn one_if(own: bool) -> u32
    ensures { result ≡ (if own then 1 else 0) }
{
    if own { 1 } else { 0 }
}

// How many names a class has.
#[tactic(auto, using(crate::proofs::WalkLaws::counted_next, crate::proofs::WalkLaws::count_fits))]
fn count_of(map: &Entries, class: u32) -> u32
    requires { length map.now.entries < 4294967296 }
    ensures { result ≡ count_of class (entries_in map.now.entries) }
{
    let mut count = 0;
    for (_, own) in map.iter() {
        count += one_if(*own == class);
    }
    count
}

// The name at a place of the map.
fn name_at(map: &Entries, k: usize) -> Option<Name16>
    ensures { result ≡ option_map name_of (slice_get (entries_in map.now.entries) k) }
{
    match map.get_index(k) {
        Some((name, _)) => Some(Name16(*name)),
        None => None,
    }
}

// The later of two names.
fn later_of(last: Name16, name: Name16) -> Name16
    ensures { Some result ≡ later (Some last) (Some name) }
{
    if last.cmp(&name).is_lt() { name } else { last }
}

// The later of two names, or the one that there is.
fn later(last: Option<Name16>, name: Option<Name16>) -> Option<Name16>
    ensures { result ≡ later last name }
{
    match (last, name) {
        (Some(last), Some(name)) => Some(later_of(last, name)),
        (None, name) => name,
        (last, None) => last,
    }
}

// The last name of all.
#[tactic(auto, using(crate::proofs::LastLaws::last_none, crate::proofs::LastLaws::last_step))]
fn last_of(map: &Entries) -> Option<Name16>
    ensures { result ≡ last_name (classes_in map.now.entries) }
{
    let mut last = None;
    let mut k = map.len();
    while k > 0 {
        k -= 1;
        last = later(last, name_at(map, k));
    }
    last
}

impl Classes {
    /// No names. It takes no memory yet.
    pub fn new(alloc: Global) -> Result<Classes, NoMemory>
        ensures { IfOk result (λ classes. classes.names ≡ []) }
    {
        Ok(Classes {
            map: IndexMap::new(alloc),
        })
    }

    /// The same names and classes once more.
    #[tactic(auto, using(std::proofs::lemmas::List::Elements::same_from_all_zip))]
    pub fn copy(&self, alloc: Global) -> Result<Classes, NoMemory>
        ensures { IfOk result (λ copy. copy.names ≡ self.now.names) }
    {
        let _ = alloc;
        Ok(Classes {
            map: self.map.clone()?,
        })
    }

    /// How many names there are.
    #[tactic(auto, using(crate::proofs::MapLaws::length_in, crate::proofs::WalkLaws::alike_in))]
    pub fn len(&self) -> usize
        ensures names { result ≡ length self.now.names }
        ensures entries { result ≡ length self.now.entries }
        ensures alike { (p : Changed → Bool) → length (filter p self.now.entries)
            ≡ length (filter p self.now.names) }
    {
        self.map.len()
    }

    /// Takes room for one name more. Want of memory changes nothing.
    #[tactic(auto, using(crate::proofs::MapLaws::length_in))]
    pub fn room(&mut self) -> Result<(), NoMemory>
        requires few { length self.old.names < 4294967295 }
        ensures names { self.new.names ≡ self.old.names }
        ensures room { OnOk result (1 ≤ self.new.room) }
    {
        self.map.reserve(1)?;
        Ok(())
    }

    /// A name takes a castout class (1 to 16), in place of the one that it had; with no class the
    /// name goes, if it is there. A class takes room for one name at most, and none takes no room.
    pub fn set(&mut self, name: Name16, class: Option<u32>)
        requires { room_taken class ≤ self.old.room }
        ensures names { self.new.names ≡ names_set name class self.old.names }
        ensures room { self.old.room ≤ self.new.room + room_taken class }
    {
        set(&mut self.map, name, class);
    }

    /// The names of a castout class, in the order of names (READ_COCLASS of IXLCACHE). Only want of
    /// memory is refused.
    #[tactic(auto, using(crate::proofs::WalkLaws::sorted_of, cf_lists::proofs::SortLaws::neighbours, crate::proofs::NameOrder::name_order))]
    pub fn names(&self, alloc: Global, class: u32) -> Result<Vec<Name16>, NoMemory>
        ensures { IfOk result (λ list. list.items ≡ names_of class self.now.names) }
    {
        let mut list = unsorted_of(alloc, &self.map, class)?;
        list.sort()?;
        Ok(list)
    }

    /// All names, in their order. Only want of memory is refused.
    #[tactic(auto, using(crate::proofs::WalkLaws::sorted_names, cf_lists::proofs::SortLaws::neighbours, crate::proofs::NameOrder::name_order))]
    pub fn all_names(&self, alloc: Global) -> Result<Vec<Name16>, NoMemory>
        ensures { IfOk result (λ list. list.items ≡ names_in self.now.names) }
    {
        let mut list = unsorted(alloc, &self.map)?;
        list.sort()?;
        Ok(list)
    }

    /// How many names a castout class has (READ_COSTATS of IXLCACHE).
    #[tactic(auto, using(crate::proofs::WalkLaws::alike_in))]
    pub fn count(&self, class: u32) -> u32
        ensures { result ≡ count_of class self.now.names }
    {
        count_of(&self.map, class)
    }

    /// The name at a place of the map (from 0). None past the end.
    pub fn name_at(&self, k: usize) -> Option<Name16>
        ensures { result ≡ option_map name_of (slice_get self.now.entries k) }
    {
        name_at(&self.map, k)
    }

    /// The last name in the order of names, if there is one. It looks at each.
    pub fn last(&self) -> Option<Name16>
        ensures { result ≡ last_name self.now.names }
    {
        last_of(&self.map)
    }
}
