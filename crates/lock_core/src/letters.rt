//! For how many letters a command wants room, and a departure.
ghost use Rattle.std.specs.Prelude.{◌≡◌, ◌≤◌, IsTrue, length};
ghost use Rattle.cf_lists.specs.Pairwise.{pairwise};
ghost use Rattle.cf_types.specs.Resources.{resource_before};
ghost use Rattle.cf_types.specs.declared.numbers.ConnId.{ConnId};
ghost use Rattle.lock_model.specs.Commands.Decide as decide;
ghost use Rattle.lock_model.specs.Step.{after};
ghost use Rattle.lock_core.specs.Awaited.{waiting_for};

use crate::locks::Locks;
use cf_types::{ConnId, Decision, LockCmd, Resource};

// How many letters a decision sends at most: with a denial one to the waiter, and one to each that
// is granted.
#[tactic(auto, using(crate::proofs::LetterLaws::denied_few))]
fn most_decided(locks: &Locks, how: Decision, r: &Resource, conn: ConnId) -> usize
    ensures { length (decide.after how r.now conn locks.now.content).letters ≤ result }
{
    match how {
        Decision::Keep => 0,
        Decision::Deny => locks.queue.count_of(r) + 1,
        Decision::Notify => locks.interests.count_told(r, conn),
    }
}

/// How many letters a command sends at most, whoever gives it. Who waits for its resource may be
/// granted it; and one that asks for a resource may have its manager told instead.
#[tactic(auto, using(crate::proofs::LetterLaws::release_few, crate::proofs::LetterLaws::delete_few))]
pub(crate) fn most_letters(locks: &Locks, cmd: &LockCmd) -> usize
    ensures { (by : ConnId) → length (after locks.now.content by cmd.now).letters ≤ result }
{
    match cmd {
        LockCmd::Obtain { .. } => 1,
        LockCmd::Alter { r, .. } => locks.queue.count_of(r) + 1,
        LockCmd::Release { r } => locks.queue.count_of(r),
        LockCmd::Decide { r, conn, how } => most_decided(locks, *how, r, *conn),
        LockCmd::RtRead { .. } => 0,
        LockCmd::RtDelete { conn: _, r } => locks.queue.count_of(r),
    }
}

/// How many wait for resources, of which none stands twice: so they are no more than all that wait.
/// For so many letters a departure wants room, whose resources these are: each that waits for one
/// of them may be granted it.
#[tactic(auto, using(crate::proofs::AwaitedLaws::counted_told))]
pub(crate) fn most_left(locks: &Locks, resources: &[Resource]) -> usize
    requires { IsTrue (pairwise resource_before resources.now) }
    ensures sum { result ≡ waiting_for locks.now.content.waiters resources.now }
    ensures within { result ≤ length locks.now.content.waiters }
{
    let _ = locks.queue.len();
    let mut letters = 0;
    for r in resources {
        letters += locks.queue.count_of(r);
    }
    letters
}
