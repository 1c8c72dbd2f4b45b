//! One request of a hand.
ghost use Rattle.std.specs.Prelude.{◌≡◌, ◌<◌, Bool, Some, None};
ghost use Rattle.lock_words.specs.Values.{held_as};
ghost use Rattle.lock_words.specs.Hands.{hand_released};
ghost use Rattle.lock_words.specs.declared.got.Got.{Got};
ghost use Rattle.plex_locks.specs.declared.outcomes.Outcome.TheVariants as outcomes;
ghost use Rattle.plex_locks.specs.Outcomes.{word_of};
ghost use Rattle.plex_locks.specs.Work.{IsSameHand, IsTried};

use crate::outcomes::Outcome;
use lock_words::{Got, Hand, LockWords};
use plex_script::types::Resource;

/// The word of a resource.
pub(crate) fn word_of(entries: u32, r: Resource) -> u32
    requires { 0 < entries }
    ensures word { result ≡ word_of entries r }
    ensures within { result < entries }
{
    r.hash % entries
}

/// Tries to obtain a word's lock, unless the hand holds it.
pub(crate) fn obtain(locks: &LockWords, hand: &mut Hand, word: u32, excl: bool) -> Outcome
    requires table { hand.old.table ≡ locks.now.table }
    requires words { (hand.old.words ≡ locks.now.words) × (word < locks.now.words) }
    ensures held { (e : Bool) → held_as hand.old.held word ≡ Some e
        → (result ≡ outcomes.Held e) × (hand.new ≡ hand.old) }
    ensures tried { held_as hand.old.held word ≡ None → IsTried word excl hand.old hand.new result }
    ensures same { IsSameHand hand.old hand.new }
{
    if let Some(excl) = hand.holds(word) {
        return Outcome::Held { excl };
    }
    match locks.obtain(hand, word, excl) {
        Got::Granted => Outcome::Granted,
        Got::Contended { word } => Outcome::Contended { value: word },
        Got::Raced { .. } => Outcome::Raced,
    }
}

/// Releases a word's lock, if the hand holds it.
pub(crate) fn release(locks: &LockWords, hand: &mut Hand, word: u32) -> Outcome
    requires table { hand.old.table ≡ locks.now.table }
    requires words { (hand.old.words ≡ locks.now.words) × (word < locks.now.words) }
    ensures held { (e : Bool) → held_as hand.old.held word ≡ Some e
        → (result ≡ outcomes.Freed) × (hand.new ≡ hand_released hand.old word) }
    ensures free { held_as hand.old.held word ≡ None
        → (result ≡ outcomes.NotHeld) × (hand.new ≡ hand.old) }
    ensures same { IsSameHand hand.old hand.new }
{
    if hand.holds(word).is_none() {
        return Outcome::NotHeld;
    }
    locks.release(hand, word);
    Outcome::Freed
}
