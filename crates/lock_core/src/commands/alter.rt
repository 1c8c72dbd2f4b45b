//! ALTER of IXLLOCK: an owner asks for another state.
ghost use Rattle.std.specs.Prelude.{◌≡◌, ◌+◌, ◌≤◌, ◌++◌, length};
ghost use Rattle.std.specs.Result.{result_err};
ghost use Rattle.engine_api.specs.Meaning.{first_refusal};
ghost use Rattle.lock_model.specs.Commands.Alter as alter;
ghost use Rattle.lock_core.specs.Stock.{HasRoom};

use crate::grants::grant;
use crate::locks::Locks;
use crate::refusals::{Judged, interest_refusal, pending_refusal, records_refusal};
use cf_types::{Adjunct, Caps, ConnId, Effects, LockReply, Resource};
use lock_interests::held_by;
use lock_queue::Waiter;

/// What the caller asks for.
pub(crate) fn request(by: ConnId, r: Resource, excl: bool, rec: Option<Adjunct>) -> Waiter
    ensures { result ≡ alter.request by r excl rec }
{
    Waiter {
        r,
        conn: by,
        excl,
        alter: true,
        rec,
    }
}

// Whether a command is granted at once: all other owners are compatible, whoever waits.
fn is_at_once(locks: &Locks, w: &Waiter) -> bool
    ensures { result ≡ alter.at_once w.now locks.now.content }
{
    locks.interests.may_own(&held_by(w))
}

/// Why the command is refused.
pub(crate) fn refusal(caps: Caps, locks: &Locks, w: &Waiter) -> Judged
    ensures { result_err result ≡ first_refusal (alter.causes caps w.now locks.now.content) }
{
    pending_refusal(&locks.queue, &w.r, w.conn)?;
    interest_refusal(&locks.interests, &w.r, w.conn)?;
    records_refusal(caps, locks, w, is_at_once(locks, w))
}

/// Does the command.
pub(crate) fn act(locks: &mut Locks, w: &Waiter, out: &mut Effects) -> LockReply
    requires room { HasRoom 1 locks.old }
    requires waiter { 1 ≤ locks.old.waiter_room }
    requires letters { length (alter.after w.now locks.old.content).letters ≤ out.old.mail.room }
    ensures reply { result ≡ alter.reply w.now locks.old.content }
    ensures content { locks.new.content ≡ (alter.after w.now locks.old.content).content }
    ensures mail { out.new.mail.items ≡ out.old.mail.items
        ++ (alter.after w.now locks.old.content).letters }
    ensures letters { out.new.mail.room + length (alter.after w.now locks.old.content).letters ≡
        out.old.mail.room }
    ensures bits { out.new.bits ≡ out.old.bits }
    ensures limit { locks.new.limit ≡ locks.old.limit }
{
    if is_at_once(locks, w) {
        locks.grant_at_once(w);
        grant(locks, &w.r, out);
        LockReply::Granted
    } else {
        locks.wait(w, out)
    }
}
