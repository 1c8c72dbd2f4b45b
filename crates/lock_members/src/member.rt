//! A member's locks.
ghost use Rattle.std.specs.Prelude.{◌≡◌, ◌+◌, ◌<◌, ◌≤◌, Some, true};
ghost use Rattle.lock_words.specs.Values.{held_as};
ghost use Rattle.lock_members.specs.Members.{IsHandOf, Stays};
ghost use Rattle.lock_members.specs.declared.member.TheConstants.{WORDS, PAGES};

use lock_words::{Got, Hand, LockWords};

/// The word of the table's lock. Whoever works on pages holds it SHR.
pub const TABLE: u32 = 0;

/// How many pages a member works on. They are its own, and their words lie together.
pub const PAGES: u32 = 16;

/// How many lock words there are: the table's, and those of four members' pages.
pub const WORDS: u32 = 128;

/// How many units of work each member does.
pub const UNITS: u32 = 1_000;

// How often a lock is tried for where others only pass by.
const TRIES: u32 = 1_000_000;

/// Tries for a lock, again and again where another holder came or went in between. Whoever gets no
/// lock here has to ask the holders, by a lock structure.
pub fn lock(locks: &LockWords, hand: &mut Hand, word: u32, excl: bool) -> bool
    requires word { word < locks.now.words }
    requires hand { IsHandOf locks.now hand.old }
    ensures hand { IsHandOf locks.now hand.new }
    ensures same { Stays hand.old hand.new }
    ensures held { result ≡ true → held_as hand.new.held word ≡ Some excl }
{
    for _ in 0..TRIES {
        if hand.holds(word).is_some() {
            break;
        }
        if let Got::Contended { .. } = locks.obtain(hand, word, excl) {
            break;
        }
    }
    hand.holds(word) == Some(excl)
}

/// Releases a lock, if the hand holds it.
pub fn unlock(locks: &LockWords, hand: &mut Hand, word: u32)
    requires word { word < locks.now.words }
    requires hand { IsHandOf locks.now hand.old }
    ensures hand { IsHandOf locks.now hand.new }
    ensures same { Stays hand.old hand.new }
{
    if hand.holds(word).is_some() {
        locks.release(hand, word);
    }
}

// A unit of work on a page: the table is shared and the page is held alone meanwhile.
fn unit(locks: &LockWords, hand: &mut Hand, page: u32) -> bool
    requires words { locks.now.words ≡ WORDS }
    requires page { page < WORDS }
    requires hand { IsHandOf locks.now hand.old }
    ensures hand { IsHandOf locks.now hand.new }
    ensures same { Stays hand.old hand.new }
{
    let is_ours = lock(locks, hand, TABLE, false) && lock(locks, hand, page, true);
    unlock(locks, hand, page);
    unlock(locks, hand, TABLE);
    is_ours
}

/// A member's units of work on its pages, which begin at a word. How many were done without a
/// request to anybody is told.
pub fn units(locks: &LockWords, hand: &mut Hand, first: u32) -> u32
    requires words { locks.now.words ≡ WORDS }
    requires pages { first + PAGES ≤ WORDS }
    requires hand { IsHandOf locks.now hand.old }
    ensures hand { IsHandOf locks.now hand.new }
    ensures same { Stays hand.old hand.new }
{
    let mut done = 0u32;
    for number in 0..UNITS {
        if unit(locks, hand, first + number % PAGES) {
            done = done.wrapping_add(1);
        }
    }
    done
}
