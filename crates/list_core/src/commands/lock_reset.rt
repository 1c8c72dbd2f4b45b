//! LOCK of IXLLIST, reset: the caller gives a list lock back.
ghost use Rattle.std.specs.Prelude.{◌≡◌, ◌<◌, length};
ghost use Rattle.std.specs.Result.{result_err};
ghost use Rattle.engine_api.specs.Meaning.{first_refusal};
ghost use Rattle.list_model.specs.Commands.LockReset as lock_reset;

use crate::refusals::{Judged, lock_refusal, not_held_refusal};
use cf_types::ConnId;
use engine_api::Shape;
use list_kept::{Kept, locks_of};

/// Why the command is refused.
pub(crate) fn refusal(shape: Shape, kept: &Kept, by: ConnId, lock: u32) -> Judged
    ensures { result_err result ≡ first_refusal (lock_reset.causes shape kept.now.content by lock) }
{
    lock_refusal(locks_of(shape.kind), lock)?;
    not_held_refusal(by, kept.holder(lock))
}

/// Does the command.
pub(crate) fn act(kept: &mut Kept, lock: u32)
    requires { lock < length kept.old.content.locks }
    ensures content { kept.new.content ≡ lock_reset.after kept.old.content lock }
    ensures elements { kept.new.elements ≡ kept.old.elements }
    ensures vector { kept.new.vector ≡ kept.old.vector }
{
    kept.set_lock(lock, None);
}
