//! A new instance that is filled, one step after another.
ghost use Rattle.std.specs.Prelude.{◌≡◌, [], IfSome, IfOk, OnOk, OnErr, None};
ghost use Rattle.engine_api.specs.Meaning.{new_held, items_of};
ghost use Rattle.rebuild_copy.specs.Copies.{held_of, left_of, with_next, moved_by};
ghost use Rattle.rebuild_copy.specs.Filling.{IsFillingOf};

use crate::copying::Copying;
use crate::moved::Moved;
use cf_types::NoMemory;
use engine_api::Engine;
use std::alloc::Global;
use std::marker::Model;

/// A copy under way, with where the old instance's items are found: that is looked up once, as long
/// as the old instance stays the same.
#[derive(Drop)]
pub struct Filling<E: Engine> {
    copying: Copying<E>,
    // from the first step on, until the copy begins anew
    order: Option<E::Order>,
}

impl<E: Engine> Model for Filling<E> {
    ghost use Rattle.rebuild_copy.specs.Filling.{FillingView};

    ghost Value = { FillingView E.Item E.Order };

    ghost view = { λ f. record { copy = f.copying; order = f.order } };
}

impl<E: Engine> Filling<E> {
    /// Begins with a new instance in which nothing is.
    pub fn start(fresh: E) -> Filling<E>
        requires { E.held fresh ≡ new_held E.meaning (E.held fresh).shape (E.held fresh).caps }
        ensures copy { result.copy ≡ record {
          shape = (E.held fresh).shape;
          caps = (E.held fresh).caps;
          items = [];
        } }
        ensures order { result.order ≡ None }
    {
        Filling {
            copying: Copying::start(fresh),
            order: None,
        }
    }

    /// Copies the next items of the old instance: `n` of them, or those that are left.
    ///
    /// # Errors
    ///
    /// `NoMemory`, and then no item was copied.
    pub fn step(&mut self, alloc: Global, old: &E, n: u32) -> Result<Moved, NoMemory>
        requires { IsFillingOf E.meaning E.is_kind E.is_content E.is_order self.old
            (E.held old.now) }
        ensures moved { IfOk result (λ moved. moved ≡ moved_by E.meaning n (E.held old.now)
            self.old.copy) }
        ensures copy { OnOk result
            (self.new.copy ≡ with_next E.meaning n (E.held old.now) self.old.copy) }
        ensures err { OnErr result (self.new.copy ≡ self.old.copy) }
        ensures ordered { IfSome self.new.order (λ order. E.is_order order (E.held old.now)) }
    {
        let order = order_of(alloc, old, self.order.take())?;
        let moved = self.copying.step(alloc, old, &order, n);
        self.order = Some(order);
        moved
    }

    /// Empties the new instance, as a departure in stage COPY does.
    pub fn restart(&mut self)
        ensures { self.new
            ≡ record { copy = record self.old.copy { items = [] }; order = None } }
    {
        self.copying.restart();
        self.order = None;
    }

    /// How many items of the old instance aren't copied yet.
    pub fn left(&self, old: &E) -> u32
        requires { IsFillingOf E.meaning E.is_kind E.is_content E.is_order self.now
            (E.held old.now) }
        ensures { result ≡ left_of E.meaning self.now.copy (E.held old.now) }
    {
        self.copying.left(old)
    }

    /// The new instance, once nothing of the old one is left: it has the old one's content without
    /// its registrations.
    pub fn finish(self, old: &E) -> E
        requires copy { IsFillingOf E.meaning E.is_kind E.is_content E.is_order self
            (E.held old.now) }
        requires all { left_of E.meaning self.copy (E.held old.now) ≡ 0 }
        ensures { E.held result ≡ record {
          shape = self.copy.shape;
          base = self.copy.caps;
          caps = self.copy.caps;
          state = E.meaning.forget (E.held old.now).state;
        } }
    {
        let Filling { copying, .. } = self;
        copying.finish(old)
    }

    /// The new instance as it stands.
    pub fn give_up(self) -> E
        ensures held { E.held result ≡ held_of E.meaning self.copy }
        ensures items { items_of E.meaning (E.held result) ≡ self.copy.items }
    {
        let Filling { copying, .. } = self;
        copying.give_up()
    }
}

// The order that was taken before, or else a new one.
fn order_of<E: Engine>(alloc: Global, old: &E, kept: Option<E::Order>) -> Result<E::Order, NoMemory>
    requires { IfSome kept (λ order. E.is_order order (E.held old.now)) }
    ensures { IfOk result (λ order. E.is_order order (E.held old.now)) }
{
    match kept {
        Some(order) => Ok(order),
        None => old.order(alloc),
    }
}
