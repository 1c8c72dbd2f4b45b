// The lock and its ticket.
ghost use Rattle.std.specs.Prelude.{◌≡◌, [], true, false, IfOk, IfErr};
ghost use Rattle.cf_turn.specs.Turns.{stand_waiting, HasTurn, HasValue};

use crate::keeps::{Boxed, Keeps};
use crate::turns::{Back, Stand, Start, Try, Turns, Two};
use atomic_table::{Seat, Table};
use no_memory::NoMemory;
use std::alloc::Global;
use std::hint::spin_loop;
use std::marker::Model;
use std::snapshot::Snapshot;
use std::sync::Wait;
use std::sync::atomic::AtomicU64;
use std::sync::atomic::Ordering::SeqCst;

/// A lock round one value, with a key that never changes. Contracts see it as its name and its key.
#[derive(Drop)]
pub struct KeyLock<F: Keeps> {
    table: Table<Option<F::Value>, Stand<F::Key>, Snapshot<F::Value>, Turns<F>, Global>,
    sleepers: AtomicU64,
}

impl<F: Keeps> Model for KeyLock<F> {
    ghost use Rattle.std.specs.Prelude.{◌≡◌};
    ghost use Rattle.cf_turn.specs.Locks.{Lock, lock_code};

    ghost Value = { Lock F.Key };

    ghost coded = { lock_code F.Key.code };

    ghost view = { λ lock. record {
      name = lock.table.shared.table_id;
      key = F.key_of
          lock.table.shared.key.value;
    } };

    ghost invariant = { λ lock. (lock.table.shared.table_id.words ≡ 1)
        × (lock.table.shared.table_id.slots ≡ 1) };
}

/// The right to give a value back to a lock. Contracts see it as the lock's name.
pub struct Ticket<F: Keeps> {
    seat: Seat<Option<F::Value>, Stand<F::Key>>,
}

impl<F: Keeps> Model for Ticket<F> {
    ghost use Rattle.atomic_table.specs.Seated.{TableId, table_id_coded};
    ghost use Rattle.cf_turn.specs.Turns.{HasTurn};

    ghost Value = { TableId };

    ghost coded = { table_id_coded };

    ghost view = { λ ticket. ticket.seat.table_id };

    ghost invariant = { λ ticket. HasTurn ticket.seat.me };
}

// The word while nobody has the turn, and while somebody has.
const FREE: u64 = 0;

const TAKEN: u64 = 1;

/// How often a thread looks at the word before it sleeps.
const LOOKS: u32 = 100;

impl<F: Keeps> KeyLock<F> {
    /// A free lock round the value, whose key is the value's. Where there is no memory the value
    /// comes back, with the cause.
    pub fn new(alloc: Global, value: F::Value) -> Result<KeyLock<F>, (F::Value, NoMemory)>
        requires { F.stands (F.key_of value) value }
        ensures made { IfOk result (λ lock. lock.key ≡ F.key_of value) }
        ensures refused { IfErr result (λ back. back.0 ≡ value) }
    {
        let mut slots = match Vec::with_capacity(alloc, 1) {
            Ok(slots) => slots,
            Err(failed) => return Err((value, failed.into())),
        };
        let start = Snapshot::of(&value);
        slots.push_reserved(Some(value));
        match Table::new(alloc, &[FREE], slots, &start) {
            Ok((table, _seat)) => Ok(KeyLock {
                table,
                sleepers: AtomicU64::new(0),
            }),
            Err(mut refused) => {
                let value = refused.slots.pop().unwrap().unwrap();
                Err((value, refused.into()))
            }
        }
    }

    /// Waits for the turn, and takes the value out. The ticket gives it back.
    pub fn take(&self, rt: &impl Wait) -> (F::Value, Ticket<F>)
        ensures value { F.stands self.now.key result.0 }
        ensures ticket { result.1 ≡ self.now.name }
    {
        let mut seat = self.win(rt);
        let value = self.draw(&mut seat);
        (value, Ticket { seat })
    }

    /// Gives a value back, and the turn with it. It wakes a thread that sleeps, if there is one.
    pub fn give(&self, ticket: Ticket<F>, value: F::Value)
        requires ticket { ticket ≡ self.now.name }
        requires value { F.stands self.now.key value }
    {
        let Ticket { mut seat } = ticket;
        self.put(&mut seat, value);
        self.free(&mut seat);
        leave(seat);
        if self.sleepers.load(SeqCst) > 0 {
            self.table.shared.wake_one(0);
        }
    }

    /// Waits for the turn, ends the lock and gives its value.
    pub fn end(self, rt: &impl Wait) -> F::Value
        ensures { F.stands self.key result }
    {
        let mut last = self.win(rt);
        self.draw(&mut last)
    }

    /// Two tickets of one lock never exist at once: nobody can make this call.
    pub fn never_two(&self, first: Ticket<F>, second: Ticket<F>)
        requires first { first ≡ self.now.name }
        requires second { second ≡ self.now.name }
        ensures { ⊥ }
    {
        let Ticket { mut seat } = first;
        let Ticket { seat: mut other } = second;
        let turns = self.table.shared.split_seat::<Two>(&mut other);
        self.table.shared.join_seat::<Two>(&mut seat, turns);
        self.table.shared.load::<Two>(&mut seat, 0);
    }

    // Comes to the lock, with no turn yet.
    fn enter(&self) -> Seat<Option<F::Value>, Stand<F::Key>>
        ensures name { result.table_id ≡ self.now.name }
        ensures waits { result.me ≡ (stand_waiting self.now.key, []) }
    {
        self.table.shared.load_new_seat::<Start>(0).1
    }

    // Tries for the turn until it comes.
    fn win(&self, rt: &impl Wait) -> Seat<Option<F::Value>, Stand<F::Key>>
        ensures name { result.table_id ≡ self.now.name }
        ensures turn { HasValue (F.stands self.now.key) result.me }
    {
        let mut seat = self.enter();
        for _ in rt.forever() {
            if self.try_turn(&mut seat) {
                return seat;
            }
            self.wait(rt);
        }
        unreachable!()
    }

    // Tries for the turn once. True if it came.
    fn try_turn(&self, seat: &mut Seat<Option<F::Value>, Stand<F::Key>>) -> bool
        requires name { seat.old.table_id ≡ self.now.name }
        requires waits { seat.old.me ≡ (stand_waiting self.now.key, []) }
        ensures name { seat.new.table_id ≡ seat.old.table_id }
        ensures won { result ≡ true → HasValue (F.stands self.now.key) seat.new.me }
        ensures lost { result ≡ false → seat.new.me ≡ seat.old.me }
    {
        let found = self
            .table
            .shared
            .compare_exchange::<Try<F>>(seat, 0, FREE, TAKEN);
        found == FREE
    }

    // Takes the value out of the slot.
    fn draw(&self, seat: &mut Seat<Option<F::Value>, Stand<F::Key>>) -> F::Value
        requires name { seat.old.table_id ≡ self.now.name }
        requires turn { HasValue (F.stands self.now.key) seat.old.me }
        ensures value { F.stands self.now.key result }
        ensures name { seat.new.table_id ≡ seat.old.table_id }
        ensures turn { HasTurn seat.new.me }
    {
        self.table.shared.exchange(seat, 0, None).unwrap()
    }

    // Puts a value into the slot.
    fn put(&self, seat: &mut Seat<Option<F::Value>, Stand<F::Key>>, value: F::Value)
        requires name { seat.old.table_id ≡ self.now.name }
        requires turn { HasTurn seat.old.me }
        requires value { F.stands self.now.key value }
        ensures name { seat.new.table_id ≡ seat.old.table_id }
        ensures turn { HasValue (F.stands self.now.key) seat.new.me }
    {
        drop(self.table.shared.exchange(seat, 0, Some(value)));
    }

    // Gives the slot back, and the turn with it.
    fn free(&self, seat: &mut Seat<Option<F::Value>, Stand<F::Key>>)
        requires name { seat.old.table_id ≡ self.now.name }
        requires turn { HasValue (F.stands self.now.key) seat.old.me }
        ensures name { seat.new.table_id ≡ seat.old.table_id }
        ensures turn { seat.new.me.0.turns ≡ 0 }
    {
        self.table.shared.store::<Back>(seat, 0, FREE);
    }

    // Looks at the word for a while, and then sleeps until it may have changed.
    fn wait(&self, rt: &impl Wait) {
        for _ in 0..LOOKS {
            if self.table.shared.peek(0) == FREE {
                return;
            }
            spin_loop();
        }
        self.sleepers.fetch_add(1, SeqCst);
        self.table.shared.park(rt, 0, TAKEN as u32);
        self.sleepers.fetch_sub(1, SeqCst);
    }
}

// A seat leaves the lock, which it may not do with the turn.
fn leave<V: Drop, K>(seat: Seat<V, Stand<K>>)
    requires { seat.me.0.turns ≡ 0 }
{
    drop(seat);
}

impl<F: Keeps> KeyLock<Boxed<F>> {
    /// A free lock round the value in a box, so that a turn moves a pointer however large the value
    /// is. Where there is no memory the value comes back, with the cause.
    pub fn boxed(alloc: Global, value: F::Value) -> Result<KeyLock<Boxed<F>>, (F::Value, NoMemory)>
        requires { F.stands (F.key_of value) value }
        ensures made { IfOk result (λ lock. lock.key ≡ F.key_of value) }
        ensures refused { IfErr result (λ back. back.0 ≡ value) }
    {
        match Box::new(alloc, value) {
            Ok(inside) => match KeyLock::new(alloc, inside) {
                Ok(lock) => Ok(lock),
                Err((inside, cause)) => Err((Box::into_inner(inside), cause)),
            },
            Err(failed) => Err(NoMemory::handing_back(failed)),
        }
    }
}
