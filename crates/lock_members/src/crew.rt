//! The four members.
ghost use Rattle.std.specs.Prelude.{◌≡◌, ◌≤◌, ◌+◌, ◌*◌, IfOk, length};
ghost use Rattle.lock_members.specs.Members.{IsHandOf, Stays, IsCrewOf};
ghost use Rattle.lock_members.specs.declared.member.TheConstants.{WORDS, PAGES};

use crate::member::{PAGES, TABLE, WORDS, lock, units, unlock};
use lock_words::{Hand, LockWords, NoMemory};
use std::alloc::Global;
use std::thread::{Threads, join_mut};

/// The hands of the four members.
#[derive(Drop)]
pub struct Crew {
    pub a: Hand,
    pub b: Hand,
    pub c: Hand,
    pub d: Hand,
}

/// How many units of work each of them did.
#[derive(Clone, Copy)]
pub struct Done {
    pub a: u32,
    pub b: u32,
    pub c: u32,
    pub d: u32,
}

impl Crew {
    /// Lock words, all free, and four members.
    pub fn meet(alloc: Global) -> Result<(LockWords, Crew), NoMemory>
        ensures words { IfOk result (λ r. r.0.words ≡ WORDS) }
        ensures crew { IfOk result (λ r. IsCrewOf r.0 r.1) }
    {
        let (locks, mut hands) = LockWords::start(alloc, WORDS, 4)?;
        let (Some(d), Some(c), Some(b), Some(a)) = (
            hands.pop(),
            hands.pop(),
            hands.pop(),
            hands.pop(),
        ) else {
            unreachable!()
        };
        Ok((locks, Crew { a, b, c, d }))
    }

    /// The members part. What the words have then is left.
    pub fn part(self, alloc: Global, locks: LockWords) -> Result<Vec<u64>, NoMemory>
        requires crew { IsCrewOf locks self }
        ensures count { IfOk result (λ words. length words.items ≡ locks.words) }
    {
        let Crew { a, b, c, d } = self;
        let mut hands = Vec::with_capacity(alloc, 4)?;
        hands.push(a)?;
        hands.push(b)?;
        hands.push(c)?;
        hands.push(d)?;
        Ok(locks.close(hands))
    }
}

/// All four work, each on a thread of its own where one can be made.
pub fn work<R: Threads + Sync>(rt: &R, locks: &LockWords, crew: Crew) -> (Crew, Done)
    requires words { locks.now.words ≡ WORDS }
    requires crew { IsCrewOf locks.now crew }
    ensures crew { IsCrewOf locks.now result.0 }
{
    let Crew {
        mut a,
        mut b,
        mut c,
        mut d,
    } = crew;
    let ((one, two), (three, four)) = join_mut(
        rt,
        &mut || -> (u32, u32)
            requires words { locks.now.words ≡ WORDS }
            requires hands { IsHandOf locks.now a × IsHandOf locks.now b }
            ensures hands { IsHandOf locks.entry.now a.exit × IsHandOf locks.entry.now b.exit }
            ensures same { Stays a.entry a.exit × Stays b.entry b.exit }
        { two_work(rt, locks, &mut a, &mut b, 1) },
        &mut || -> (u32, u32)
            requires words { locks.now.words ≡ WORDS }
            requires hands { IsHandOf locks.now c × IsHandOf locks.now d }
            ensures hands { IsHandOf locks.entry.now c.exit × IsHandOf locks.entry.now d.exit }
            ensures same { Stays c.entry c.exit × Stays d.entry d.exit }
        { two_work(rt, locks, &mut c, &mut d, 1 + 2 * PAGES) },
    );
    let done = Done {
        a: one,
        b: two,
        c: three,
        d: four,
    };
    (Crew { a, b, c, d }, done)
}

// Two of them do. Their pages begin at this word.
fn two_work<R: Threads + Sync>(
    rt: &R,
    locks: &LockWords,
    one: &mut Hand,
    other: &mut Hand,
    first: u32,
) -> (u32, u32)
    requires words { locks.now.words ≡ WORDS }
    requires pages { first + 2 * PAGES ≤ WORDS }
    requires hands { IsHandOf locks.now one.old × IsHandOf locks.now other.old }
    ensures hands { IsHandOf locks.now one.new × IsHandOf locks.now other.new }
    ensures one { Stays one.old one.new }
    ensures other { Stays other.old other.new }
{
    let next = first + PAGES;
    join_mut(
        rt,
        &mut || units(locks, one, first),
        &mut || units(locks, other, next),
    )
}

/// A wants the table alone while B shares it, and again once B has released it. Whether the first
/// was refused is told, and whether the second was granted.
pub fn alone(locks: &LockWords, crew: Crew) -> (Crew, bool, bool)
    requires words { locks.now.words ≡ WORDS }
    requires crew { IsCrewOf locks.now crew }
    ensures crew { IsCrewOf locks.now result.0 }
{
    let Crew { mut a, mut b, c, d } = crew;
    let is_shared = lock(locks, &mut b, TABLE, false);
    let is_refused = is_shared && !lock(locks, &mut a, TABLE, true);
    unlock(locks, &mut b, TABLE);
    let is_granted = lock(locks, &mut a, TABLE, true);
    (Crew { a, b, c, d }, is_refused, is_granted)
}
