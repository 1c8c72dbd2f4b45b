//! Two hands that take turns.
ghost use Rattle.thread_tests.specs.Two.{AreTwo};

use super::{closed, dealt, free_word, try_word};
use lock_words::{EXCL, Got, Hand, LockWords};
use std::test::Fail;

// Both share the word; then one has it alone.
fn take_turns(locks: &LockWords, first: &mut Hand, second: &mut Hand) -> bool
    requires { AreTwo locks.now first.old second.old }
    ensures { AreTwo locks.now first.new second.new }
{
    let shared = try_word(locks, first, 0, false) == Some(Got::Granted);
    let refused = try_word(locks, second, 0, true) == Some(Got::Contended { word: 1 });
    let beside = try_word(locks, second, 0, false) == Some(Got::Granted);
    let freed = free_word(locks, first, 0) && free_word(locks, second, 0);
    let alone = try_word(locks, second, 0, true) == Some(Got::Granted);
    let late = try_word(locks, first, 0, false) == Some(Got::Contended { word: EXCL });
    shared && refused && beside && freed && alone && late
}

#[test]
fn hands_take_turns(rt: HostRuntime) -> Result<(), Fail> {
    let (locks, mut first, mut second) = dealt(rt.alloc())?;
    assert!(rt; take_turns(&locks, &mut first, &mut second));
    assert!(rt; first.holds(0).is_none());
    assert!(rt; second.holds(0) == Some(true));
    let words = closed(rt.alloc(), locks, first, second)?;
    assert!(rt; words.as_slice() == [EXCL, 0].as_slice());
    Ok(())
}
