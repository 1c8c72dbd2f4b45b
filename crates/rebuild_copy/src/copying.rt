//! A copy under way.
ghost use Rattle.std.specs.Prelude.{◌≡◌, ◌+◌, ◌-◌, ◌<◌, ◌≤◌, [], IfOk, OnOk, OnErr, length, take};
ghost use Rattle.engine_api.specs.Meaning.{new_held, items_of};
ghost use Rattle.rebuild_copy.specs.Copies.{held_of, IsCopyOf, left_of, with_next, moved_by};

use crate::moved::Moved;
use cf_types::NoMemory;
use engine_api::Engine;
use std::alloc::Global;
use std::marker::Model;

/// A new instance into which the content of an old one is copied (IXLREBLD), item by item.
/// Contracts see the new instance's shape, its capacity, and the items so far.
#[derive(Drop)]
pub struct Copying<E: Engine> {
    fresh: E,
}

impl<E: Engine> Model for Copying<E> {
    ghost use Rattle.rebuild_copy.specs.Copies.{Copy, copy_in, IsFilled};

    ghost Value = { Copy E.Item };

    ghost view = { λ c. copy_in E.meaning (E.held c.fresh) };

    ghost invariant = { λ c. IsFilled E.meaning E.is_content (E.held c.fresh) };
}

impl<E: Engine> Copying<E> {
    /// Begins with a new instance in which nothing is.
    pub fn start(fresh: E) -> Copying<E>
        requires { E.held fresh ≡ new_held E.meaning (E.held fresh).shape (E.held fresh).caps }
        ensures { result ≡ record {
          shape = (E.held fresh).shape;
          caps = (E.held fresh).caps;
          items = [];
        } }
    {
        Copying { fresh }
    }

    /// Copies the next items of the old instance, found by their order: `n` of them, or those that
    /// are left.
    ///
    /// # Errors
    ///
    /// `NoMemory`, and then no item was copied.
    pub fn step(
        &mut self,
        alloc: Global,
        old: &E,
        order: &E::Order,
        n: u32,
    ) -> Result<Moved, NoMemory>
        requires copy { IsCopyOf E.meaning E.is_kind E.is_content self.old (E.held old.now) }
        requires order { E.is_order order.now (E.held old.now) }
        ensures moved { IfOk result (λ moved. moved ≡ moved_by E.meaning n (E.held old.now)
            self.old) }
        ensures copy { OnOk result (self.new ≡ with_next E.meaning n (E.held old.now) self.old) }
        ensures err { OnErr result (self.new ≡ self.old) }
    {
        let left = self.left(old);
        let moved = n.min(left);
        self.copy_next(alloc, old, order, moved)?;
        Ok(Moved {
            moved,
            left: left - moved,
        })
    }

    /// Empties the new instance, as a departure in stage COPY does.
    pub fn restart(&mut self)
        ensures { self.new ≡ record self.old { items = [] } }
    {
        let copied = self.fresh.count();
        self.drop_last(copied);
    }

    /// How many items of the old instance aren't copied yet.
    pub fn left(&self, old: &E) -> u32
        requires { IsCopyOf E.meaning E.is_kind E.is_content self.now (E.held old.now) }
        ensures { result ≡ left_of E.meaning self.now (E.held old.now) }
    {
        old.count() - self.fresh.count()
    }

    /// The new instance, once nothing of the old one is left: it has the old one's content without
    /// its registrations.
    pub fn finish(self, old: &E) -> E
        requires copy { IsCopyOf E.meaning E.is_kind E.is_content self (E.held old.now) }
        requires all { left_of E.meaning self (E.held old.now) ≡ 0 }
        ensures { E.held result ≡ record {
          shape = self.shape;
          base = self.caps;
          caps = self.caps;
          state = E.meaning.forget (E.held old.now).state;
        } }
    {
        let _ = old;
        self.fresh
    }

    /// The new instance as it stands.
    pub fn give_up(self) -> E
        ensures held { E.held result ≡ held_of E.meaning self }
        ensures items { items_of E.meaning (E.held result) ≡ self.items }
    {
        self.fresh
    }

    // Copies so many of the old instance's items. Where memory lacks, those that were copied go
    // again.
    fn copy_next(
        &mut self,
        alloc: Global,
        old: &E,
        order: &E::Order,
        n: u32,
    ) -> Result<(), NoMemory>
        requires copy { IsCopyOf E.meaning E.is_kind E.is_content self.old (E.held old.now) }
        requires order { E.is_order order.now (E.held old.now) }
        requires there { n ≤ left_of E.meaning self.old (E.held old.now) }
        ensures ok { OnOk result (self.new ≡ with_next E.meaning n (E.held old.now) self.old) }
        ensures err { OnErr result (self.new ≡ self.old) }
    {
        for k in 0..n {
            match self.copy_one(alloc, old, order) {
                Ok(()) => {}
                Err(fault) => {
                    self.drop_last(k);
                    return Err(fault);
                }
            }
        }
        Ok(())
    }

    // Copies the next item.
    fn copy_one(&mut self, alloc: Global, old: &E, order: &E::Order) -> Result<(), NoMemory>
        requires copy { IsCopyOf E.meaning E.is_kind E.is_content self.old (E.held old.now) }
        requires order { E.is_order order.now (E.held old.now) }
        requires there { 0 < left_of E.meaning self.old (E.held old.now) }
        ensures ok { OnOk result (self.new ≡ with_next E.meaning 1 (E.held old.now) self.old) }
        ensures err { OnErr result (self.new ≡ self.old) }
    {
        let copied = self.fresh.count();
        let item = old.item_in(alloc, order, copied)?;
        match self.fresh.place(item) {
            Ok(()) => Ok(()),
            Err((_item, refused)) => Err(refused),
        }
    }

    // Takes so many of the last items away.
    fn drop_last(&mut self, n: u32)
        requires { n ≤ length self.old.items }
        ensures { self.new
            ≡ record self.old { items = take (length self.old.items - n) self.old.items } }
    {
        for _ in 0..n {
            self.drop_one();
        }
    }

    // Takes the last item away.
    fn drop_one(&mut self)
        requires { 0 < length self.old.items }
        ensures { self.new
            ≡ record self.old { items = take (length self.old.items - 1) self.old.items } }
    {
        self.fresh.unplace();
    }
}
