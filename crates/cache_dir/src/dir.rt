ghost use Rattle.std.specs.Prelude.{◌≡◌, ◌+◌, ◌≤◌, ◌++◌, ◌∷◌, [], None, Some, true, nat_eq, IfOk, OnOk, is_some, length, option_map, if◌then◌else◌};
ghost use Rattle.std.specs.List.{IsDistinct};
ghost use Rattle.std.specs.Map.{keys_of, lookup};
ghost use Rattle.std.specs.Option.{option_copied};
ghost use Rattle.std.specs.Cmp.Lexicographic.{pointwise};
ghost use Rattle.indexmap.specs.IndexMap.{spare};
ghost use Rattle.cf_types.specs.declared.names.Name16.{Name16};
ghost use Rattle.cache_dir.specs.RowMap.{row_at, let_go, Writes};
ghost use Rattle.cache_dir.specs.Locks.{conn_of, lock_of, lock_without, AreNoted};

use crate::row::{DirRow, Holder};
use cf_pool::Chain;
use cf_types::limits::NAME_BYTES;
use cf_types::{ConnId, Name16, NoMemory};
use indexmap::IndexMap;
use std::alloc::{AllocError, Global};
use std::marker::Model;
use std::mem;

/// The rows by the bytes of their names.
type Rows = IndexMap<[u8; NAME_BYTES], DirRow>;

/// Which connectors hold castout locks, by the bytes of the names of the rows.
type Locks = IndexMap<[u8; NAME_BYTES], ConnId>;

// Puts in the row of a name that has none, for which there is room.
fn put(rows: &mut Rows, row: DirRow)
    requires alone { row_at rows.old.entries row.name ≡ None }
    requires room { 1 ≤ spare rows.old }
    ensures writes { Writes (row_at rows.old.entries) row.name (Some row)
        (row_at rows.new.entries) }
    ensures len { length rows.new.entries ≡ length rows.old.entries + 1 }
    ensures spare { spare rows.old ≤ spare rows.new + 1 }
{
    let name = row.name;
    let _adj = row.adj;
    let _ = rows.insert(name.0, row);
}

// Puts a row in the place of the one of its name, and answers that one.
fn replace(rows: &mut Rows, row: DirRow) -> DirRow
    requires { is_some (row_at rows.old.entries row.name) ≡ true }
    ensures row { Some result ≡ row_at rows.old.entries row.name }
    ensures writes { Writes (row_at rows.old.entries) row.name (Some row)
        (row_at rows.new.entries) }
    ensures len { length rows.new.entries ≡ length rows.old.entries }
    ensures spare { spare rows.old ≤ spare rows.new }
{
    let name = row.name;
    let _adj = row.adj;
    match rows.get_mut(&name.0) {
        Some(place) => mem::replace(place, row),
        None => row,
    }
}

// Releases the castout lock of a row, where it is this connector's.
fn release(row: &mut DirRow, conn: ConnId)
    ensures { row.new ≡ let_go conn row.old }
{
    if let Some(holder) = row.holder
        && holder.conn == conn
    {
        row.holder = None;
    }
}

// Releases the castout lock of the row of a name, where it is this connector's.
fn release_at(rows: &mut Rows, name: &[u8; NAME_BYTES], conn: ConnId)
    ensures released { (q : Name16) → row_at rows.new.entries q
        ≡ (if pointwise nat_eq name.now q.0 then option_map (let_go conn) (row_at rows.old.entries q)
        else row_at rows.old.entries q) }
    ensures len { length rows.new.entries ≡ length rows.old.entries }
    ensures spare { spare rows.old ≤ spare rows.new }
{
    if let Some(row) = rows.get_mut(name) {
        release(row, conn);
    }
}

// Releases all castout locks of a connector, which are noted.
fn release_noted(rows: &mut Rows, locks: &Locks, conn: ConnId)
    requires { AreNoted rows.old.entries locks.now.entries }
    ensures released { (q : Name16) → row_at rows.new.entries q
        ≡ option_map (let_go conn) (row_at rows.old.entries q) }
    ensures len { length rows.new.entries ≡ length rows.old.entries }
    ensures spare { spare rows.old ≤ spare rows.new }
{
    for (name, holder) in locks.iter() {
        if *holder == conn {
            release_at(rows, name, conn);
        }
    }
}

// Releases all castout locks of a connector, by a look at each row.
fn release_each(rows: &mut Rows, conn: ConnId)
    ensures released { (q : Name16) → row_at rows.new.entries q
        ≡ option_map (let_go conn) (row_at rows.old.entries q) }
    ensures len { length rows.new.entries ≡ length rows.old.entries }
    ensures spare { spare rows.old ≤ spare rows.new }
{
    rows.retain(|_, row| {
        release(row, conn);
        true
    });
}

// Whether the castout lock of a row that was taken out is held.
fn is_held(row: &Option<DirRow>) -> bool
    ensures { result ≡ is_some (lock_of row.now) }
{
    match row {
        Some(row) => row.holder.is_some(),
        None => false,
    }
}

// Whether there is room for one lock more.
fn has_room(locks: &Locks) -> bool
    ensures { result ≡ true → 1 ≤ spare locks.now }
{
    locks.len() < locks.capacity()
}

// Notes who holds the castout lock of the row of a name, if anyone does, and answers whether there
// was room for it. It takes no memory.
fn note(locks: &mut Locks, name: Name16, holder: Option<Holder>) -> bool
    requires { IsDistinct (pointwise nat_eq) (keys_of locks.old.entries) }
    ensures writes { result ≡ true
        → Writes (row_at locks.old.entries) name (conn_of holder) (row_at locks.new.entries) }
    ensures unique { IsDistinct (pointwise nat_eq) (keys_of locks.new.entries) }
{
    locks.swap_remove(&name.0);
    let Some(holder) = holder else {
        return true;
    };
    has_room(locks) && locks.insert(name.0, holder.conn).is_ok()
}

// The castout lock of a row that was taken out is noted no more.
fn forget(locks: &mut Locks, name: &Name16, row: &Option<DirRow>)
    requires { IsDistinct (pointwise nat_eq) (keys_of locks.old.entries) }
    ensures writes { row_at locks.old.entries name.now ≡ lock_of row.now
        → Writes (row_at locks.old.entries) name.now None (row_at locks.new.entries) }
    ensures unique { IsDistinct (pointwise nat_eq) (keys_of locks.new.entries) }
{
    if is_held(row) {
        locks.swap_remove(&name.0);
    }
}

// The castout locks of a connector are noted no more.
fn forget_all(locks: &mut Locks, conn: ConnId)
    requires { IsDistinct (pointwise nat_eq) (keys_of locks.old.entries) }
    ensures rest { (q : Name16) → row_at locks.new.entries q
        ≡ lock_without conn (row_at locks.old.entries q) }
    ensures unique { IsDistinct (pointwise nat_eq) (keys_of locks.new.entries) }
{
    locks.retain(|_, holder| *holder != conn);
}

// Puts in a row under a name that has none.
fn add(rows: &mut Rows, name: [u8; NAME_BYTES], row: DirRow) -> Result<(), AllocError>
    requires { lookup (pointwise nat_eq name) rows.old.entries ≡ None }
    ensures { OnOk result (rows.new.entries ≡ rows.old.entries ++ (name, row) ∷ []) }
{
    let _adj = row.adj;
    rows.insert(name, row)?;
    Ok(())
}

// Notes a castout lock under a name that has none.
fn add_lock(locks: &mut Locks, name: [u8; NAME_BYTES], conn: ConnId) -> Result<(), AllocError>
    requires { lookup (pointwise nat_eq name) locks.old.entries ≡ None }
    ensures { OnOk result (locks.new.entries ≡ locks.old.entries ++ (name, conn) ∷ []) }
{
    locks.insert(name, conn)?;
    Ok(())
}

// The same chain in a copy of its pool, where there is one.
fn chain_in_copy(stored: &Option<Chain>) -> Option<Chain>
    ensures { result ≡ stored.now }
{
    match stored {
        Some(chain) => Some(chain.in_copy()),
        None => None,
    }
}

// The same row in a copy of the directory.
fn row_in_copy(row: &DirRow) -> DirRow
    ensures { result ≡ row.now }
{
    DirRow {
        name: row.name,
        stored: chain_in_copy(&row.stored),
        adj: row.adj,
        class: row.class,
        holder: row.holder,
        stg: row.stg,
    }
}

// Puts in the row that is the same in a copy of the directory, under a name that has none.
fn add_copy(rows: &mut Rows, name: [u8; NAME_BYTES], row: &DirRow) -> Result<(), AllocError>
    requires { lookup (pointwise nat_eq name) rows.old.entries ≡ None }
    ensures { OnOk result (rows.new.entries ≡ rows.old.entries ++ (name, row.now) ∷ []) }
{
    add(rows, name, row_in_copy(row))
}

// The same rows under the same names.
fn copied(alloc: Global, from: &Rows) -> Result<Rows, NoMemory>
    ensures { IfOk result (λ copy. copy.entries ≡ from.now.entries) }
{
    let mut copy = IndexMap::new(alloc);
    for (name, row) in from.iter() {
        add_copy(&mut copy, *name, row)?;
    }
    Ok(copy)
}

// The same castout locks.
fn copied_locks(alloc: Global, from: &Locks) -> Result<Locks, NoMemory>
    ensures { IfOk result (λ copy. copy.entries ≡ from.now.entries) }
{
    let mut copy = IndexMap::new(alloc);
    for (name, holder) in from.iter() {
        add_lock(&mut copy, *name, *holder)?;
    }
    Ok(copy)
}

/// The rows of a cache's directory by their names. Contracts see them in whatever order, and for
/// how many more there is room. The chains of their data lie in a pool beside it. The castout locks
/// that are held are noted apart from the rows, so that those of a connector are found without a
/// pass over all rows; there is such a pass once a lock had no room among them.
#[derive(Drop)]
pub struct Dir {
    rows: Rows,
    locks: Locks,
    are_noted: bool,
}

impl Model for Dir {
    ghost use Rattle.cache_dir.specs.RowMap.{RowMap, row_map};

    ghost Value = { RowMap };

    ghost view = { row_map };

    ghost use Rattle.cache_dir.specs.Locks.{AreLocked};

    ghost invariant = { AreLocked };
}

impl Dir {
    /// No rows, with room for so many. Only want of memory is refused.
    pub fn new(alloc: Global, entries: u32) -> Result<Dir, NoMemory>
        ensures none { IfOk result (λ dir. (q : Name16) → row_at dir.entries q ≡ None) }
        ensures len { IfOk result (λ dir. length dir.entries ≡ 0) }
        ensures room { IfOk result (λ dir. entries ≤ dir.room) }
    {
        let rows = IndexMap::with_capacity(alloc, entries as usize)?;
        let locks = IndexMap::with_capacity(alloc, entries as usize)?;
        Ok(Dir {
            rows,
            locks,
            are_noted: true,
        })
    }

    /// The same rows once more, for a copy of the pool. Only want of memory is refused.
    pub fn copy(&self, alloc: Global) -> Result<Dir, NoMemory>
        ensures { IfOk result (λ copy. copy.entries ≡ self.now.entries) }
    {
        let rows = copied(alloc, &self.rows)?;
        let locks = copied_locks(alloc, &self.locks)?;
        Ok(Dir {
            rows,
            locks,
            are_noted: self.are_noted,
        })
    }

    /// How many rows there are.
    pub fn len(&self) -> usize
        ensures { result ≡ length self.now.entries }
    {
        self.rows.len()
    }

    /// The row of a name, if there is one.
    pub fn find(&self, name: &Name16) -> Option<&DirRow>
        ensures { option_copied result ≡ row_at self.now.entries name.now }
    {
        self.rows.get(&name.0)
    }

    /// Takes room for one row more. Want of memory changes nothing.
    pub fn room(&mut self) -> Result<(), NoMemory>
        ensures rows { self.new.entries ≡ self.old.entries }
        ensures room { OnOk result (1 ≤ self.new.room) }
        ensures kept { self.old.room ≤ self.new.room }
    {
        self.rows.reserve(1)?;
        self.locks.reserve(1)?;
        Ok(())
    }

    /// Puts in the row of a name that has none, where there is room for it. It takes no memory.
    pub fn put(&mut self, row: DirRow)
        requires alone { row_at self.old.entries row.name ≡ None }
        requires room { 1 ≤ self.old.room }
        ensures writes { Writes (row_at self.old.entries) row.name (Some row)
            (row_at self.new.entries) }
        ensures len { length self.new.entries ≡ length self.old.entries + 1 }
        ensures kept { self.old.room ≤ self.new.room + 1 }
    {
        self.are_noted = note(&mut self.locks, row.name, row.holder) && self.are_noted;
        put(&mut self.rows, row);
    }

    /// Puts a row in the place of the one of its name, which there must be, and hands that one out.
    /// It takes no memory.
    pub fn set(&mut self, row: DirRow) -> DirRow
        requires { is_some (row_at self.old.entries row.name) ≡ true }
        ensures row { Some result ≡ row_at self.old.entries row.name }
        ensures writes { Writes (row_at self.old.entries) row.name (Some row)
            (row_at self.new.entries) }
        ensures len { length self.new.entries ≡ length self.old.entries }
        ensures kept { self.old.room ≤ self.new.room }
    {
        self.are_noted = note(&mut self.locks, row.name, row.holder) && self.are_noted;
        replace(&mut self.rows, row)
    }

    /// Takes out the row of a name, if there is one. There is as much room as before at least.
    pub fn take(&mut self, name: &Name16) -> Option<DirRow>
        ensures row { result ≡ row_at self.old.entries name.now }
        ensures writes { Writes (row_at self.old.entries) name.now None
            (row_at self.new.entries) }
        ensures len { length self.new.entries + (if is_some result then 1 else 0)
            ≡ length self.old.entries }
        ensures kept { self.old.room ≤ self.new.room }
    {
        let row = self.rows.swap_remove(&name.0);
        forget(&mut self.locks, name, &row);
        row
    }

    /// Releases all castout locks of a connector; the rows stay otherwise the same.
    pub fn release(&mut self, conn: ConnId)
        ensures released { (q : Name16) → row_at self.new.entries q
            ≡ option_map (let_go conn) (row_at self.old.entries q) }
        ensures len { length self.new.entries ≡ length self.old.entries }
        ensures kept { self.old.room ≤ self.new.room }
    {
        if self.are_noted {
            release_noted(&mut self.rows, &self.locks, conn);
        } else {
            release_each(&mut self.rows, conn);
        }
        forget_all(&mut self.locks, conn);
    }
}
