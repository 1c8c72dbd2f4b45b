//! Two hands of two words.
ghost use Rattle.std.specs.Prelude.{◌≡◌, ◌<◌, IfOk, length};
ghost use Rattle.thread_tests.specs.Two.{IsHandOf, AreTwo};

mod race;
mod turns;

use lock_words::{Got, Hand, LockWords, NoMemory};
use std::alloc::Global;

/// Makes two lock words, and two hands.
fn dealt(alloc: Global) -> Result<(LockWords, Hand, Hand), NoMemory>
    ensures { IfOk result (λ r. AreTwo r.0 r.1 r.2) }
{
    let (locks, mut hands) = LockWords::start(alloc, 2, 2)?;
    let Some(second) = hands.pop() else {
        unreachable!()
    };
    let Some(first) = hands.pop() else {
        unreachable!()
    };
    Ok((locks, first, second))
}

/// Ends the locks with their two hands.
fn closed(alloc: Global, locks: LockWords, first: Hand, second: Hand) -> Result<Vec<u64>, NoMemory>
    requires { AreTwo locks first second }
    ensures { IfOk result (λ words. length words.items ≡ 2) }
{
    let mut hands = Vec::with_capacity(alloc, 2)?;
    hands.push(first)?;
    hands.push(second)?;
    Ok(locks.close(hands))
}

/// Tries for a word, unless the hand holds it.
fn try_word(locks: &LockWords, hand: &mut Hand, word: u32, excl: bool) -> Option<Got>
    requires word { word < 2 }
    requires hand { IsHandOf locks.now hand.old.number hand.old }
    ensures hand { IsHandOf locks.now hand.old.number hand.new }
{
    if hand.holds(word).is_some() {
        return None;
    }
    Some(locks.obtain(hand, word, excl))
}

/// Releases a word, if the hand holds it.
fn free_word(locks: &LockWords, hand: &mut Hand, word: u32) -> bool
    requires word { word < 2 }
    requires hand { IsHandOf locks.now hand.old.number hand.old }
    ensures hand { IsHandOf locks.now hand.old.number hand.new }
{
    if hand.holds(word).is_none() {
        return false;
    }
    locks.release(hand, word);
    true
}
