//! Two hands that race, each on a thread of its own.
ghost use Rattle.thread_tests.specs.Two.{IsHandOf};

use super::{closed, dealt, free_word, try_word};
use lock_words::{EXCL, Got, Hand, LockWords};
use std::hint::spin_loop;
use std::sync::Wait;
use std::sync::atomic::AtomicU64;
use std::sync::atomic::Ordering::SeqCst;
use std::test::Fail;
use std::thread::join;

const ROUNDS: u32 = 20_000;

const LAST: u32 = ROUNDS - 1;

// The word that both race for, and the one that both share all the time.
const RACED: u32 = 0;

const SHARED: u32 = 1;

// What threads count: those that share the one word, and those that have the other alone.
#[derive(Drop)]
struct Race {
    sharing: AtomicU64,
    alone: AtomicU64,
}

// What a thread was granted.
#[derive(Clone, Copy, Drop)]
struct Tally {
    alone: u32,
    wrong: u32,
}

// Takes a share of the one word, and waits for the other hand to have one too. The other hand takes
// its share once, so it comes between at most once, and the second try is the last one.
fn share(rt: &impl Wait, race: &Race, locks: &LockWords, hand: &mut Hand)
    requires { IsHandOf locks.now hand.old.number hand.old }
    ensures { IsHandOf locks.now hand.old.number hand.new }
{
    try_word(locks, hand, SHARED, false);
    try_word(locks, hand, SHARED, false);
    race.sharing.fetch_add(1, SeqCst);
    for _ in rt.forever() {
        if race.sharing.load(SeqCst) >= 2 {
            break;
        }
        spin_loop();
    }
}

// Whether another hand has the raced word alone, though this one has just been granted it.
fn is_wrong(race: &Race, excl: bool) -> bool {
    if !excl {
        return race.alone.load(SeqCst) > 0;
    }
    let others = race.alone.fetch_add(1, SeqCst);
    race.alone.fetch_sub(1, SeqCst);
    others > 0
}

// One round: EXCL and SHR in turn. The last one isn't released.
fn play(race: &Race, locks: &LockWords, hand: &mut Hand, round: u32, tally: &mut Tally)
    requires { IsHandOf locks.now hand.old.number hand.old }
    ensures { IsHandOf locks.now hand.old.number hand.new }
{
    let excl = round % 2 == 0;
    if try_word(locks, hand, RACED, excl) != Some(Got::Granted) {
        return;
    }
    if is_wrong(race, excl) {
        tally.wrong = tally.wrong.wrapping_add(1);
    }
    if excl {
        tally.alone = tally.alone.wrapping_add(1);
    }
    if round != LAST {
        free_word(locks, hand, RACED);
    }
}

// Shares the one word, and then tries for the other in all rounds.
fn rounds(rt: &impl Wait, race: &Race, locks: &LockWords, mut hand: Hand) -> (Hand, Tally)
    requires { IsHandOf locks.now hand.number hand }
    ensures { IsHandOf locks.now hand.number result.0 }
{
    share(rt, race, locks, &mut hand);
    let mut tally = Tally { alone: 0, wrong: 0 };
    for round in 0..ROUNDS {
        play(race, locks, &mut hand, round, &mut tally);
    }
    (hand, tally)
}

// What a hand that holds a word so has in its value.
fn part_of(held: Option<bool>) -> u64 {
    match held {
        None => 0,
        Some(false) => 1,
        Some(true) => EXCL,
    }
}

#[test]
fn hands_race(rt: HostRuntime) -> Result<(), Fail> {
    let (locks, first, second) = dealt(rt.alloc())?;
    let race = &Race {
        sharing: AtomicU64::new(0),
        alone: AtomicU64::new(0),
    };
    let words = &locks;
    let ((first, one), (second, other)) = join(
        &rt,
        move || -> (Hand, Tally)
            requires { IsHandOf words.now first.number first }
            ensures { IsHandOf words.entry.now first.number result.0 }
        { rounds(&rt, race, words, first) },
        move || -> (Hand, Tally)
            requires { IsHandOf words.now second.number second }
            ensures { IsHandOf words.entry.now second.number result.0 }
        { rounds(&rt, race, words, second) },
    );
    assert_eq!(rt; one.wrong, 0);
    assert_eq!(rt; other.wrong, 0);
    assert!(rt; one.alone > 0 || other.alone > 0);
    let raced = part_of(first.holds(RACED)).wrapping_add(part_of(second.holds(RACED)));
    assert!(rt; first.holds(SHARED) == Some(false) && second.holds(SHARED) == Some(false));
    let words = closed(rt.alloc(), locks, first, second)?;
    assert!(rt; words.as_slice() == [raced, 2].as_slice());
    Ok(())
}
