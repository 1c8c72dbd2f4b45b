//! DELETE of IXLRT: record data go, and a retained interest with them.
ghost use Rattle.std.specs.Prelude.{◌≡◌, ◌+◌, ◌≤◌, ◌++◌, length};
ghost use Rattle.std.specs.Result.{result_err};
ghost use Rattle.engine_api.specs.Meaning.{first_refusal};
ghost use Rattle.lock_model.specs.Commands.RtDelete as rt_delete;
ghost use Rattle.lock_core.specs.Stock.{HasRoom};

use crate::grants::grant;
use crate::locks::Locks;
use crate::refusals::{Judged, record_refusal};
use cf_types::{ConnId, Effects, Resource};
use lock_interests::Interests;

/// Why the command is refused.
#[tactic(auto, using(crate::proofs::ReadLaws::refusal_told))]
pub(crate) fn refusal(interests: &Interests, r: &Resource, conn: ConnId) -> Judged
    ensures { result_err result
        ≡ first_refusal (rt_delete.causes r.now conn interests.now.interests) }
{
    record_refusal(interests.has_record(r, conn))
}

/// Does the command.
pub(crate) fn act(locks: &mut Locks, r: &Resource, conn: ConnId, out: &mut Effects)
    requires room { HasRoom 1 locks.old }
    requires letters { length (rt_delete.after r.now conn locks.old.content).letters ≤
        out.old.mail.room }
    ensures content { locks.new.content ≡ (rt_delete.after r.now conn locks.old.content).content }
    ensures mail { out.new.mail.items ≡ out.old.mail.items
        ++ (rt_delete.after r.now conn locks.old.content).letters }
    ensures letters { out.new.mail.room + length
        (rt_delete.after r.now conn locks.old.content).letters ≡ out.old.mail.room }
    ensures bits { out.new.bits ≡ out.old.bits }
    ensures limit { locks.new.limit ≡ locks.old.limit }
{
    if locks.interests.is_retained(r, conn) {
        locks.end_part(r, conn);
        grant(locks, r, out);
    } else {
        locks.unrecord(r, conn);
    }
}
