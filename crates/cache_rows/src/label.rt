//! What the directory says of a row beside its data.
ghost use Rattle.std.specs.Prelude.{◌≡◌};
ghost use Rattle.cache_model.specs.Rows.{new_row};
ghost use Rattle.cache_model.specs.Commands.Unlock.{is_rewritten};
ghost use Rattle.cache_rows.specs.Stored.{label_of, row_of_label};

use cache_model::dirs::DirRow;
use cache_model::pools::Chain;
use cache_model::{CacheItem, Holder};
use cf_types::{Adjunct, Name16};

/// A row without its data.
#[derive(Clone, Copy)]
pub(crate) struct Label {
    pub name: Name16,
    pub adj: Option<Adjunct>,
    pub class: Option<u32>,
    pub holder: Option<Holder>,
    pub stg: u32,
}

impl Label {
    /// That of a new row: unchanged, of this storage class.
    pub(crate) fn new(name: &Name16, stg: u32) -> Label
        ensures { result ≡ label_of (new_row name.now stg) }
    {
        Label {
            name: *name,
            adj: None,
            class: None,
            holder: None,
            stg,
        }
    }

    /// That of a row.
    pub(crate) fn of(row: &CacheItem) -> Label
        ensures { result ≡ label_of row.now }
    {
        Label {
            name: row.name,
            adj: row.adj,
            class: row.class,
            holder: row.holder,
            stg: row.stg,
        }
    }

    /// The row of the directory with this chain as its data.
    pub(crate) fn row(&self, stored: Option<Chain>) -> DirRow
        ensures { result ≡ row_of_label self.now stored }
    {
        DirRow {
            name: self.name,
            stored,
            adj: self.adj,
            class: self.class,
            holder: self.holder,
            stg: self.stg,
        }
    }
}

/// Whether a held row was written.
pub(crate) fn is_rewritten(holder: Option<Holder>) -> bool
    ensures { result ≡ is_rewritten holder }
{
    match holder {
        Some(holder) => holder.rewritten,
        None => false,
    }
}
