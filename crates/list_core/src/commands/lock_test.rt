//! LOCK of IXLLIST, test: who holds a list lock.
ghost use Rattle.std.specs.Prelude.{◌≡◌};
ghost use Rattle.std.specs.Result.{result_err};
ghost use Rattle.engine_api.specs.Meaning.{first_refusal};
ghost use Rattle.list_model.specs.Commands.LockTest as lock_test;

use crate::refusals::{Judged, lock_refusal};
use cf_types::ListReply;
use engine_api::Shape;
use list_kept::{Kept, locks_of};

/// Why the command is refused.
pub(crate) fn refusal(shape: Shape, lock: u32) -> Judged
    ensures { result_err result ≡ first_refusal (lock_test.causes shape lock) }
{
    lock_refusal(locks_of(shape.kind), lock)
}

/// The reply where the command isn't refused.
pub(crate) fn reply(kept: &Kept, lock: u32) -> ListReply
    ensures { result ≡ lock_test.reply kept.now.content lock }
{
    ListReply::Holder {
        holder: kept.holder(lock),
    }
}
