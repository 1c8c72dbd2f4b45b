//! LOCK of IXLLIST, set: the caller takes a list lock that nobody holds.
ghost use Rattle.std.specs.Prelude.{◌≡◌, ◌<◌, length};
ghost use Rattle.std.specs.Result.{result_err};
ghost use Rattle.engine_api.specs.Meaning.{first_refusal};
ghost use Rattle.list_model.specs.Commands.LockSet as lock_set;

use crate::refusals::{Judged, held_refusal, lock_refusal};
use cf_types::ConnId;
use engine_api::Shape;
use list_kept::{Kept, locks_of};

/// Why the command is refused.
pub(crate) fn refusal(shape: Shape, kept: &Kept, lock: u32) -> Judged
    ensures { result_err result ≡ first_refusal (lock_set.causes shape kept.now.content lock) }
{
    lock_refusal(locks_of(shape.kind), lock)?;
    held_refusal(kept.holder(lock))
}

/// Does the command.
pub(crate) fn act(kept: &mut Kept, by: ConnId, lock: u32)
    requires { lock < length kept.old.content.locks }
    ensures content { kept.new.content ≡ lock_set.after kept.old.content by lock }
    ensures elements { kept.new.elements ≡ kept.old.elements }
    ensures vector { kept.new.vector ≡ kept.old.vector }
{
    kept.set_lock(lock, Some(by));
}
