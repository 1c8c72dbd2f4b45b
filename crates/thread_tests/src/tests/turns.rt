ghost use Rattle.std.specs.Prelude.{◌≡◌, ◌+◌, sum, IfSome};

use plex_board::turns::{Boxed, Keeps, KeyLock};
use std::alloc::Global;
use std::cell::Cell;
use std::hint::spin_loop;
use std::marker::PhantomData;
use std::sync::Wait;
use std::sync::atomic::AtomicU64;
use std::sync::atomic::Ordering::SeqCst;
use std::test::Fail;
use std::thread::{Threads, join, sleep};
use std::time::{Clock, Duration};

/// Two numbers that are one.
struct Twins;

impl Keeps for Twins {
    type Value = (u64, u64);

    type Key = ();

    ghost key_of = { λ _. tt };

    ghost stands = { λ _ pair. pair.0 ≡ pair.1 };
}

// Counts a turn, and answers how many turns were counted before.
fn count_turn(rt: &impl Wait, lock: &KeyLock<Twins>) -> u64 {
    let (pair, ticket) = lock.take(rt);
    lock.give(ticket, (pair.0.wrapping_add(1), pair.1.wrapping_add(1)));
    pair.0
}

// How many turns were counted.
fn turns_of(rt: &impl Wait, lock: &KeyLock<Twins>) -> u64 {
    let (pair, ticket) = lock.take(rt);
    lock.give(ticket, pair);
    pair.0
}

// Counts so many turns. In the middle it waits until others have counted some. It answers how many
// turns of others it saw there.
fn count_twins(rt: &impl Wait, lock: &KeyLock<Twins>, times: u64) -> u64 {
    let half = times / 2;
    for _ in 0..half {
        count_turn(rt, lock);
    }
    let mut others = 0;
    for _ in rt.forever() {
        others = turns_of(rt, lock).saturating_sub(half);
        if others > 0 {
            break;
        }
    }
    for _ in half..times {
        count_turn(rt, lock);
    }
    others
}

#[test]
fn turn_race(rt: HostRuntime) -> Result<(), Fail> {
    let Ok(lock) = KeyLock::<Twins>::new(rt.alloc(), (0, 0)) else {
        panic!(rt; "no memory")
    };
    let (first, second) = join(
        &rt,
        || count_twins(&rt, &lock, 10_000),
        || count_twins(&rt, &lock, 10_000),
    );
    assert!(rt; lock.end(&rt) == (20_000, 20_000));

    // Whoever came through the middle first found the other between its first turn and its middle.
    assert!(rt; first > 0 && second > 0);
    assert!(rt; first.min(second) <= 5_000);
    Ok(())
}

/// Amounts, and what they make of the total at the start.
#[derive(Drop)]
struct Account {
    total: u64,
    amounts: Vec<u64>,
}

/// An account whose total is right. The key is the total at the start.
struct Adds;

impl Keeps for Adds {
    type Value = Account;

    type Key = u64;

    ghost key_of = { λ account. account.total };

    ghost stands = { λ start account. account.total ≡ start + sum account.amounts.items };
}

impl Account {
    // Adds an amount, where it fits.
    fn add(&mut self, amount: u64)
        ensures { self.new.total + sum self.old.amounts.items
            ≡ self.old.total + sum self.new.amounts.items }
    {
        let Some(total) = self.total.checked_add(amount) else {
            return;
        };
        if self.amounts.push(amount).is_ok() {
            self.total = total;
        }
    }
}

// Adds the amounts below this. After the first it waits until others have added some.
fn add_all(rt: &impl Wait, lock: &KeyLock<Boxed<Adds>>, upto: u64) {
    for amount in 0..upto {
        let (mut account, ticket) = lock.take(rt);
        account.add(amount);
        lock.give(ticket, account);
        if amount == 0 {
            wait_for_others(rt, lock);
        }
    }
}

fn wait_for_others(rt: &impl Wait, lock: &KeyLock<Boxed<Adds>>) {
    for _ in rt.forever() {
        let (account, ticket) = lock.take(rt);
        let added = account.amounts.len();
        lock.give(ticket, account);
        if added > 1 {
            return;
        }
    }
}

fn open(alloc: Global, start: u64) -> Option<KeyLock<Boxed<Adds>>>
    ensures { IfSome result (λ lock. lock.key ≡ start) }
{
    let amounts = Vec::new(alloc);
    KeyLock::boxed(
        alloc,
        Account {
            total: start,
            amounts,
        },
    )
    .ok()
}

#[test]
fn sum_of_three(rt: HostRuntime) -> Result<(), Fail> {
    let lock = open(rt.alloc(), 7).ok_or("no memory")?;
    join(
        &rt,
        || add_all(&rt, &lock, 101),
        || join(
            &rt,
            || add_all(&rt, &lock, 201),
            || add_all(&rt, &lock, 301),
        ),
    );
    let account = Box::into_inner(lock.end(&rt));
    let added = account.total - 7;
    assert!(rt; added == 5_050 + 20_100 + 45_150);
    assert!(rt; added == account.amounts.iter().sum::<u64>());
    assert!(rt; account.amounts.len() == 603);
    Ok(())
}

/// Any fact-less value that may go to another thread, and need not be shared.
struct Anything<V> {
    of: PhantomData<V>,
}

impl<V: Send + Drop> Keeps for Anything<V> {
    type Value = V;

    type Key = ();

    ghost key_of = { λ _. tt };

    ghost stands = { λ _ _. Unit {0} };
}

// How far two threads are that share a lock: the first holds it, the second comes, and the first is
// about to give it back.
const HELD: u64 = 1;

const COMING: u64 = 2;

const GIVEN: u64 = 3;

// Waits until the other thread is as far as this.
fn wait_until(rt: &impl Wait, now: &AtomicU64, far: u64) {
    for _ in rt.forever() {
        if now.load(SeqCst) >= far {
            return;
        }
        spin_loop();
    }
}

// Takes a turn, and gives the value back once another thread has had time to sleep at the lock.
fn hold<V: Send + Drop>(
    rt: &(impl Wait + Clock),
    lock: &KeyLock<Boxed<Anything<V>>>,
    now: &AtomicU64,
) {
    let (value, ticket) = lock.take(rt);
    now.store(HELD, SeqCst);
    wait_until(rt, now, COMING);
    sleep(rt, Duration::from_millis(30));
    now.store(GIVEN, SeqCst);
    lock.give(ticket, value);
}

// Takes a turn once another thread holds it. It answers whether that one was done with its own.
fn come_second<V: Send + Drop>(
    rt: &impl Wait,
    lock: &KeyLock<Boxed<Anything<V>>>,
    now: &AtomicU64,
) -> bool {
    wait_until(rt, now, HELD);
    now.store(COMING, SeqCst);
    let (value, ticket) = lock.take(rt);
    lock.give(ticket, value);
    now.load(SeqCst) == GIVEN
}

// Two threads share a lock round a value that may be sent and not shared. It answers whether their
// turns came one after the other.
fn share_in_two<V: Send + Drop, R: Threads + Wait + Clock + Sync>(
    rt: &R,
    lock: &KeyLock<Boxed<Anything<V>>>,
) -> bool {
    let now = AtomicU64::new(0);
    join(rt, || hold(rt, lock, &now), || come_second(rt, lock, &now)).1
}

/// A count behind a `Cell`, which may be sent and not shared.
#[derive(Drop)]
struct Counter {
    reads: Cell<u64>,
}

#[test]
fn a_sleeper_wakes(rt: HostRuntime) -> Result<(), Fail> {
    let counter = Counter {
        reads: Cell::new(5),
    };
    let Ok(lock) = KeyLock::<Boxed<Anything<Counter>>>::boxed(rt.alloc(), counter) else {
        panic!(rt; "no memory")
    };
    assert!(rt; share_in_two(&rt, &lock));
    assert!(rt; lock.end(&rt).reads.get() == 5);
    Ok(())
}
