//! RELEASE of IXLLOCK: an owner gives a resource up.
ghost use Rattle.std.specs.Prelude.{◌≡◌, ◌+◌, ◌≤◌, ◌++◌, length};
ghost use Rattle.std.specs.Result.{result_err};
ghost use Rattle.engine_api.specs.Meaning.{first_refusal};
ghost use Rattle.lock_model.specs.Commands.Release as release;
ghost use Rattle.lock_core.specs.Stock.{HasRoom};

use crate::grants::grant;
use crate::locks::Locks;
use crate::refusals::{Judged, interest_refusal, pending_refusal};
use cf_types::{ConnId, Effects, Resource};

/// Why the command is refused.
pub(crate) fn refusal(locks: &Locks, by: ConnId, r: &Resource) -> Judged
    ensures { result_err result ≡ first_refusal (release.causes by r.now locks.now.content) }
{
    pending_refusal(&locks.queue, r, by)?;
    interest_refusal(&locks.interests, r, by)
}

/// Does the command.
pub(crate) fn act(locks: &mut Locks, by: ConnId, r: &Resource, out: &mut Effects)
    requires room { HasRoom 1 locks.old }
    requires letters { length (release.after by r.now locks.old.content).letters ≤
        out.old.mail.room }
    ensures content { locks.new.content ≡ (release.after by r.now locks.old.content).content }
    ensures mail { out.new.mail.items ≡ out.old.mail.items
        ++ (release.after by r.now locks.old.content).letters }
    ensures letters { out.new.mail.room + length (release.after by r.now locks.old.content).letters
        ≡ out.old.mail.room }
    ensures bits { out.new.bits ≡ out.old.bits }
    ensures limit { locks.new.limit ≡ locks.old.limit }
{
    locks.give_up(by, r);
    grant(locks, r, out);
}
