ghost use Rattle.std.specs.Prelude.{◌≡◌, ◌+◌, ◌<◌, ◌≤◌, ◌++◌, ◌∷◌, [], OnOk, OnErr};

use no_memory::NoMemory;
use std::alloc::Global;
use std::marker::Model;

/// Items in their order, with room taken for more. Contracts see the items and the room.
#[derive(Drop)]
pub struct Batch<T> {
    items: Vec<T>,
}

impl<T> Model for Batch<T> {
    ghost use Rattle.std.specs.Prelude.{◌-◌};
    ghost use Rattle.std.specs.Vec.{vec_len, vec_capacity};
    ghost use Rattle.cf_types.specs.Batch.{BatchView};

    ghost Value = { BatchView T };

    ghost view = { λ b. record {
      items = b.items.items;
      room = vec_capacity b.items - vec_len
          b.items;
    } };
}

impl<T> Batch<T> {
    /// No items, and no room.
    pub fn new(alloc: Global) -> Batch<T>
        ensures items { result.items ≡ [] }
    {
        Batch {
            items: Vec::new(alloc),
        }
    }

    /// The items of a `Vec`, with the room that it has.
    pub fn from_vec(items: Vec<T>) -> Batch<T>
        ensures { result.items ≡ items.items }
    {
        Batch { items }
    }

    /// Takes room for so many items more. Want of memory changes nothing.
    pub fn reserve(&mut self, count: usize) -> Result<(), NoMemory>
        ensures room { OnOk result (count ≤ self.new.room) }
        ensures items { self.new.items ≡ self.old.items }
        ensures more { self.old.room ≤ self.new.room }
        ensures err { OnErr result (self.new ≡ self.old) }
    {
        self.items.reserve(count)?;
        Ok(())
    }

    /// One item more, behind the others.
    pub fn push(&mut self, item: T)
        requires { 0 < self.old.room }
        ensures items { self.new.items ≡ self.old.items ++ item ∷ [] }
        ensures room { self.new.room + 1 ≡ self.old.room }
    {
        self.items.push_reserved(item);
    }

    /// The items.
    pub fn items(&self) -> &[T]
        ensures { result.now ≡ self.now.items }
    {
        self.items.as_slice()
    }

    /// The items as a `Vec`.
    pub fn into_vec(self) -> Vec<T>
        ensures { result.items ≡ self.items }
    {
        let Batch { items } = self;
        items
    }

    /// How many more items there is room for.
    pub fn room(&self) -> usize
        ensures { result ≡ self.now.room }
    {
        self.items.capacity() - self.items.len()
    }
}

impl<T: Drop> Batch<T> {
    /// Ends the items; the room stays.
    pub fn clear(&mut self)
        ensures items { self.new.items ≡ [] }
        ensures room { self.old.room ≤ self.new.room }
    {
        self.items.clear();
    }
}
