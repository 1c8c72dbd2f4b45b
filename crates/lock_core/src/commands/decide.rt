//! The decision of a resource's manager on a waiter (the contention exit of IXLCONN).
ghost use Rattle.std.specs.Prelude.{◌≡◌, ◌+◌, ◌≤◌, ◌++◌, length};
ghost use Rattle.std.specs.Result.{result_err};
ghost use Rattle.engine_api.specs.Meaning.{first_refusal};
ghost use Rattle.lock_model.specs.Commands.Decide as decide;
ghost use Rattle.lock_core.specs.Stock.{HasRoom};

use crate::grants::grant;
use crate::locks::Locks;
use crate::refusals::{Judged, manager_refusal, waiter_refusal};
use cf_types::{ConnId, Decision, Effects, Resource};

/// Why the command is refused.
pub(crate) fn refusal(locks: &Locks, by: ConnId, r: &Resource, conn: ConnId) -> Judged
    ensures { result_err result ≡ first_refusal (decide.causes by r.now conn locks.now.content) }
{
    manager_refusal(&locks.interests, by, r)?;
    waiter_refusal(&locks.queue, r, conn)
}

/// Does the command.
pub(crate) fn act(locks: &mut Locks, how: Decision, r: &Resource, conn: ConnId, out: &mut Effects)
    requires room { HasRoom 1 locks.old }
    requires letters { length (decide.after how r.now conn locks.old.content).letters ≤
        out.old.mail.room }
    ensures content { locks.new.content ≡ (decide.after how r.now conn locks.old.content).content }
    ensures mail { out.new.mail.items ≡ out.old.mail.items
        ++ (decide.after how r.now conn locks.old.content).letters }
    ensures letters { out.new.mail.room + length
        (decide.after how r.now conn locks.old.content).letters ≡ out.old.mail.room }
    ensures bits { out.new.bits ≡ out.old.bits }
    ensures limit { locks.new.limit ≡ locks.old.limit }
{
    match how {
        Decision::Keep => {}
        Decision::Deny => {
            locks.deny(r, conn, out);
            grant(locks, r, out);
        }
        Decision::Notify => locks.interests.notify(r, conn, out),
    }
}
