//! OBTAIN of IXLLOCK: a connector asks for a resource.
ghost use Rattle.std.specs.Prelude.{◌≡◌, ◌+◌, ◌≤◌, ◌++◌, length};
ghost use Rattle.std.specs.Result.{result_err};
ghost use Rattle.engine_api.specs.Meaning.{first_refusal};
ghost use Rattle.lock_model.specs.Commands.Obtain as obtain;
ghost use Rattle.lock_core.specs.Stock.{HasRoom};

use crate::locks::Locks;
use crate::refusals::{Judged, interested_refusal, pending_refusal, records_refusal};
use cf_types::{Adjunct, Caps, ConnId, Effects, LockReply, Resource};
use lock_interests::held_by;
use lock_queue::Waiter;

/// What the caller asks for.
pub(crate) fn request(by: ConnId, r: Resource, excl: bool, rec: Option<Adjunct>) -> Waiter
    ensures { result ≡ obtain.request by r excl rec }
{
    Waiter {
        r,
        conn: by,
        excl,
        alter: false,
        rec,
    }
}

// Whether anybody waits for a resource.
#[tactic(auto, using(lock_interests::proofs::OwnerLaws::found_any))]
fn is_awaited(locks: &Locks, r: &Resource) -> bool
    ensures { result ≡ obtain.is_awaited r.now locks.now.content.waiters }
{
    locks.queue.first(r).is_some()
}

// Whether a command is granted at once: nobody waits, and all other owners are compatible.
fn is_at_once(locks: &Locks, w: &Waiter) -> bool
    ensures { result ≡ obtain.at_once w.now locks.now.content }
{
    !is_awaited(locks, &w.r) && locks.interests.may_own(&held_by(w))
}

/// Why the command is refused.
pub(crate) fn refusal(caps: Caps, locks: &Locks, w: &Waiter) -> Judged
    ensures { result_err result ≡ first_refusal (obtain.causes caps w.now locks.now.content) }
{
    pending_refusal(&locks.queue, &w.r, w.conn)?;
    interested_refusal(&locks.interests, &w.r, w.conn)?;
    records_refusal(caps, locks, w, is_at_once(locks, w))
}

/// Does the command.
pub(crate) fn act(locks: &mut Locks, w: &Waiter, out: &mut Effects) -> LockReply
    requires room { HasRoom 1 locks.old }
    requires waiter { 1 ≤ locks.old.waiter_room }
    requires letters { length (obtain.after w.now locks.old.content).letters ≤ out.old.mail.room }
    ensures reply { result ≡ obtain.reply w.now locks.old.content }
    ensures content { locks.new.content ≡ (obtain.after w.now locks.old.content).content }
    ensures mail { out.new.mail.items ≡ out.old.mail.items
        ++ (obtain.after w.now locks.old.content).letters }
    ensures letters { out.new.mail.room + length (obtain.after w.now locks.old.content).letters ≡
        out.old.mail.room }
    ensures bits { out.new.bits ≡ out.old.bits }
    ensures limit { locks.new.limit ≡ locks.old.limit }
{
    if is_at_once(locks, w) {
        locks.grant_at_once(w);
        LockReply::Granted
    } else {
        locks.wait(w, out)
    }
}
