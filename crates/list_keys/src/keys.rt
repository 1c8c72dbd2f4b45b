ghost use Rattle.std.specs.Prelude.{◌≡◌, ◌-◌, ◌≤◌, [], IsTrue, IfOk, OnOk, None, Some, length};
ghost use Rattle.std.specs.List.{prefix_len};
ghost use Rattle.indexmap.specs.IndexMap.{spare};
ghost use Rattle.cf_lists.specs.Pairwise.{pairwise};
ghost use Rattle.list_keys.specs.Names.{id_of, Writes};
ghost use Rattle.list_keys.specs.KeyOrder.{keys_up_to, stands_before};

use cf_types::limits::NAME_BYTES;
use cf_types::{EntryId, Key16, Name16, NoMemory};
use indexmap::IndexMap;
use std::alloc::Global;
use std::marker::Model;

/// The names of a list structure's records, one record at most for a name. Contracts see the id
/// that each name has, and for how many more names there is room.
#[derive(Drop)]
pub struct Keys {
    names: IndexMap<[u8; NAME_BYTES], EntryId>,
}

impl Model for Keys {
    ghost use Rattle.indexmap.specs.IndexMap.{spare};
    ghost use Rattle.list_keys.specs.Names.{NameBatch};

    ghost Value = { NameBatch };

    ghost view = { λ k. record { names = k.names.entries; room = spare k.names } };
}

// Whether a key stands before a new one that comes to the head or to the tail of its equals.
fn stands_before(head: bool, key: &Key16, other: &Key16) -> bool
    ensures { result ≡ stands_before head key.now other.now }
{
    if head {
        other.cmp(key).is_lt()
    } else {
        !key.cmp(other).is_lt()
    }
}

impl Keys {
    /// No names.
    pub fn new(alloc: Global) -> Result<Keys, NoMemory>
        ensures { IfOk result (λ keys. keys.names ≡ []) }
    {
        Ok(Keys {
            names: IndexMap::new(alloc),
        })
    }

    /// The same names once more.
    pub fn copy(&self, _alloc: Global) -> Result<Keys, NoMemory>
        ensures { IfOk result (λ copy. copy.names ≡ self.now.names) }
    {
        let names = self.names.clone()?;
        Ok(Keys { names })
    }

    /// Takes room for one more name. Want of memory changes nothing.
    pub fn room(&mut self) -> Result<(), NoMemory>
        ensures names { self.new.names ≡ self.old.names }
        ensures room { OnOk result (1 ≤ self.new.room) }
    {
        self.names.reserve(1)?;
        Ok(())
    }

    /// Puts in a name, which no record has.
    pub fn add_name(&mut self, name: Name16, id: EntryId)
        requires room { 1 ≤ self.old.room }
        requires new { id_of name self.old.names ≡ None }
        ensures { Writes self.old.names name (Some id) self.new.names }
    {
        let bytes = name.0;
        let _ = self.names.insert(bytes, id);
    }

    /// The id of the record with a name.
    pub fn by_name(&self, name: &Name16) -> Option<EntryId>
        ensures { result ≡ id_of name.now self.now.names }
    {
        self.names.get(&name.0).copied()
    }

    /// Takes out a name, if it is there.
    pub fn remove_name(&mut self, name: &Name16)
        ensures names { Writes self.old.names name.now None self.new.names }
        ensures room { self.old.room ≤ self.new.room }
    {
        self.names.swap_remove(&name.0);
    }

    /// Takes out all names.
    pub fn clear(&mut self)
        ensures { self.new.names ≡ [] }
    {
        self.names.clear();
    }

    /// Where a key comes to stand among keys in ascending order: before its equals at the head, and
    /// behind them at the tail. It is found by a binary search.
    pub fn place(&self, keys: &[Key16], key: &Key16, head: bool) -> u32
        requires ascending { IsTrue (pairwise keys_up_to keys.now) }
        requires few { length keys.now ≤ 4096 }
        ensures place { result ≡ prefix_len (stands_before head key.now) keys.now }
        ensures bound { result ≤ length keys.now }
    {
        keys.partition_point(|other| stands_before(head, key, other)) as u32
    }
}
