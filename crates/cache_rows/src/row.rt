//! A row that is looked at where it lies.
ghost use Rattle.std.specs.Prelude.{◌≡◌, ◌≤◌, IfOk};
ghost use Rattle.cache_model.specs.Rows.{elements_of};
ghost use Rattle.cache_model.specs.Commands.Unlock.{is_rewritten};
ghost use Rattle.cache_rows.specs.Stored.{label_of, item_in, HasData};

use crate::data::{elements_at, read};
use crate::label::{Label, is_rewritten};
use cache_model::dirs::DirRow;
use cache_model::pools::Pool;
use cache_model::{CacheItem, Holder};
use cf_types::{Adjunct, Body, Name16, NoMemory};
use std::alloc::Global;
use std::marker::Model;

/// A row of the directory, which tells of itself. Contracts see it as the row with its data.
#[derive(Drop)]
pub struct Row<'a> {
    row: &'a DirRow,
    pool: &'a Pool,
}

impl<'a> Model for Row<'a> {
    ghost use Rattle.cache_model.specs.declared.items.CacheItem.{CacheItem};
    ghost use Rattle.cache_rows.specs.Stored.{item_in, HasData};

    ghost Value = { CacheItem };

    ghost view = { λ row. item_in row.pool.now.chains row.row.now };

    ghost invariant = { λ row. HasData row.pool.now.chains row.row.now.stored };
}

impl<'a> Row<'a> {
    /// A row that lies there, with its data in this pool.
    pub(crate) fn of(row: &'a DirRow, pool: &'a Pool) -> Row<'a>
        requires { HasData pool.now.chains row.now.stored }
        ensures { result ≡ item_in pool.now.chains row.now }
    {
        Row { row, pool }
    }

    /// Its name.
    pub fn name(&self) -> Name16
        ensures { result ≡ self.now.name }
    {
        self.row.name
    }

    /// Its adjunct data, where it has some.
    pub fn adj(&self) -> Option<Adjunct>
        ensures { result ≡ self.now.adj }
    {
        self.row.adj
    }

    /// Its castout class (1 to 16), where it is changed.
    pub fn class(&self) -> Option<u32>
        ensures { result ≡ self.now.class }
    {
        self.row.class
    }

    /// Who holds its castout lock.
    pub fn holder(&self) -> Option<Holder>
        ensures { result ≡ self.now.holder }
    {
        self.row.holder
    }

    /// Whether it was written since it is held.
    pub fn is_rewritten(&self) -> bool
        ensures { result ≡ is_rewritten self.now.holder }
    {
        is_rewritten(self.row.holder)
    }

    /// Its storage class (1 to 8).
    pub fn stg(&self) -> u32
        ensures { result ≡ self.now.stg }
    {
        self.row.stg
    }

    /// All but its data.
    pub(crate) fn label(&self) -> Label
        ensures { result ≡ label_of self.now }
    {
        Label {
            name: self.row.name,
            adj: self.row.adj,
            class: self.row.class,
            holder: self.row.holder,
            stg: self.row.stg,
        }
    }

    /// How many elements of 256 bytes its data take: none where it has no data.
    pub fn elements(&self) -> u32
        ensures elements { result ≡ elements_of self.now.body }
        ensures few { result ≤ 16 }
    {
        elements_at(self.pool, &self.row.stored)
    }

    /// A copy of its data, where it has some. Only want of memory is refused.
    pub fn body(&self, alloc: Global) -> Result<Option<Body>, NoMemory>
        ensures { IfOk result (λ body. body ≡ self.now.body) }
    {
        read(alloc, self.pool, &self.row.stored)
    }

    /// A copy of it, with its data. Only want of memory is refused.
    pub(crate) fn item(&self, alloc: Global) -> Result<CacheItem, NoMemory>
        ensures { IfOk result (λ item. item ≡ self.now) }
    {
        let body = self.body(alloc)?;
        Ok(CacheItem {
            name: self.row.name,
            body,
            adj: self.row.adj,
            class: self.row.class,
            holder: self.row.holder,
            stg: self.row.stg,
        })
    }
}
