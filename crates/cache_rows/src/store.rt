//! The rows of a directory, and the pool in which their data lie.
ghost use Rattle.std.specs.Prelude.{◌≡◌, ◌+◌, ◌≤◌, None, Some, IfOk, OnOk, option_map};
ghost use Rattle.cf_types.specs.declared.names.Name16.{Name16};
ghost use Rattle.cf_types.specs.Stored.{elements_of};
ghost use Rattle.cache_model.specs.CacheDir.RowMap.{row_at, Writes};
ghost use Rattle.cache_model.specs.Contents.{without_hold};
ghost use Rattle.cache_rows.specs.Stored.{item_at, item_with, body_of, elements_of_row, row_of_label, chain_of, AreStored};

use crate::data::{data_of, give_back, store};
use crate::label::Label;
use crate::row::Row;
use cache_model::dirs::Dir;
use cache_model::pools::Pool;
use cf_types::{Body, ConnId, Name16, NoMemory};
use std::alloc::Global;
use std::marker::Model;

// Ends the row of a name, if there is one, and gives its elements back.
fn end_in(dir: &mut Dir, pool: &mut Pool, name: &Name16)
    requires { AreStored pool.old.chains (row_at dir.old.entries) }
    ensures stored { AreStored pool.new.chains (row_at dir.new.entries) }
    ensures writes { Writes (item_at pool.old.chains dir.old.entries) name.now None
        (item_at pool.new.chains dir.new.entries) }
    ensures gone { row_at dir.new.entries name.now ≡ None }
    ensures free { pool.new.free ≡ pool.old.free
        + elements_of_row (item_at pool.old.chains dir.old.entries name.now) }
    ensures kept { dir.old.room ≤ dir.new.room }
{
    let old = dir.take(name);
    give_back(pool, data_of(old));
}

// Puts in a row with data, under a name that has none.
fn write_in(dir: &mut Dir, pool: &mut Pool, label: &Label, body: &Body)
    requires stored { AreStored pool.old.chains (row_at dir.old.entries) }
    requires alone { row_at dir.old.entries label.now.name ≡ None }
    requires room { 1 ≤ dir.old.room }
    requires fits { elements_of (Some body.now) ≤ pool.old.free }
    ensures stored { AreStored pool.new.chains (row_at dir.new.entries) }
    ensures writes { Writes (item_at pool.old.chains dir.old.entries) label.now.name
        (Some (item_with label.now (Some body.now))) (item_at pool.new.chains dir.new.entries) }
    ensures free { pool.new.free + elements_of (Some body.now) ≡ pool.old.free }
{
    let chain = store(pool, body);
    dir.put(label.row(Some(chain)));
}

// Puts in a row with the data of the row of its name.
fn set_in(dir: &mut Dir, label: &Label)
    requires { 1 ≤ dir.old.room }
    ensures { Writes (row_at dir.old.entries) label.now.name
        (Some (row_of_label label.now (chain_of (row_at dir.old.entries label.now.name))))
        (row_at dir.new.entries) }
{
    let old = dir.take(&label.name);
    dir.put(label.row(data_of(old)));
}

/// The rows of a directory with their data, which lie in chains of one pool. Contracts see the rows
/// in whatever order, for how many more there is room, and how many elements are free.
#[derive(Drop)]
pub(crate) struct Store {
    dir: Dir,
    pool: Pool,
}

impl Model for Store {
    ghost use Rattle.cache_rows.specs.StoreView.{StoreView, store_view, IsStore};

    ghost Value = { StoreView };

    ghost view = { store_view };

    ghost invariant = { IsStore };
}

impl Store {
    /// No rows, with room for so many, and so many free elements. Only want of memory is refused.
    pub(crate) fn new(alloc: Global, entries: u32, elements: u32) -> Result<Store, NoMemory>
        ensures none { IfOk result (λ store. (q : Name16) → row_at store.entries q ≡ None) }
        ensures free { IfOk result (λ store. store.free ≡ elements) }
    {
        let dir = Dir::new(alloc, entries)?;
        let pool = Pool::new(alloc, elements)?;
        Ok(Store { dir, pool })
    }

    /// The same rows once more, with their data. Only want of memory is refused.
    pub(crate) fn copy(&self, alloc: Global) -> Result<Store, NoMemory>
        ensures entries { IfOk result (λ copy. copy.entries ≡ self.now.entries) }
        ensures free { IfOk result (λ copy. copy.free ≡ self.now.free) }
    {
        let dir = self.dir.copy(alloc)?;
        let pool = self.pool.copy(alloc)?;
        Ok(Store { dir, pool })
    }

    /// The row of a name, if there is one.
    #[tactic(auto, using(crate::proofs::StoreLaws::shown_at))]
    pub(crate) fn find(&self, name: &Name16) -> Option<Row<'_>>
        ensures { result ≡ row_at self.now.entries name.now }
    {
        match self.dir.find(name) {
            Some(row) => Some(Row::of(row, &self.pool)),
            None => None,
        }
    }

    /// Takes room for one row more. Want of memory changes nothing.
    pub(crate) fn room(&mut self) -> Result<(), NoMemory>
        ensures entries { self.new.entries ≡ self.old.entries }
        ensures room { OnOk result (1 ≤ self.new.room) }
        ensures kept { self.old.room ≤ self.new.room }
        ensures free { self.new.free ≡ self.old.free }
    {
        self.dir.room()
    }

    /// Puts in the row of a name with the data that the name has, where there is room for it. It
    /// takes no memory.
    pub(crate) fn set(&mut self, label: &Label)
        requires { 1 ≤ self.old.room }
        ensures writes { Writes (row_at self.old.entries) label.now.name
            (Some (item_with label.now (body_of (row_at self.old.entries label.now.name))))
            (row_at self.new.entries) }
        ensures free { self.new.free ≡ self.old.free }
    {
        set_in(&mut self.dir, label);
    }

    /// Puts in the row of a name with these data, where there is room for it; the elements of the
    /// name's own data count as free. It takes no memory.
    pub(crate) fn write(&mut self, label: &Label, body: &Body)
        requires room { 1 ≤ self.old.room }
        requires fits { elements_of (Some body.now) ≤ self.old.free
            + elements_of_row (row_at self.old.entries label.now.name) }
        ensures writes { Writes (row_at self.old.entries) label.now.name
            (Some (item_with label.now (Some body.now))) (row_at self.new.entries) }
        ensures free { self.new.free + elements_of (Some body.now) ≡ self.old.free
            + elements_of_row (row_at self.old.entries label.now.name) }
    {
        end_in(&mut self.dir, &mut self.pool, &label.name);
        write_in(&mut self.dir, &mut self.pool, label, body);
    }

    /// Ends the row of a name, if there is one, and gives its elements back. There is as much room
    /// as before at least.
    pub(crate) fn end(&mut self, name: &Name16)
        ensures writes { Writes (row_at self.old.entries) name.now None
            (row_at self.new.entries) }
        ensures free { self.new.free ≡ self.old.free
            + elements_of_row (row_at self.old.entries name.now) }
        ensures kept { self.old.room ≤ self.new.room }
    {
        end_in(&mut self.dir, &mut self.pool, name);
    }

    /// Releases all castout locks of a connector; the rows stay otherwise the same.
    #[tactic(auto, using(crate::proofs::StoreLaws::shown_at, crate::proofs::StoreLaws::released_items))]
    pub(crate) fn release(&mut self, conn: ConnId)
        ensures released { (q : Name16) → row_at self.new.entries q
            ≡ option_map (without_hold conn) (row_at self.old.entries q) }
        ensures kept { self.old.room ≤ self.new.room }
        ensures free { self.new.free ≡ self.old.free }
    {
        self.dir.release(conn);
    }
}
