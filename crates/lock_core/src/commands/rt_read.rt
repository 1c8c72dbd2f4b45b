//! READ of IXLRT: the record data of a connector.
ghost use Rattle.std.specs.Prelude.{◌≡◌};
ghost use Rattle.std.specs.Result.{result_err};
ghost use Rattle.engine_api.specs.Meaning.{first_refusal};
ghost use Rattle.lock_model.specs.Commands.RtRead as rt_read;

use crate::refusals::{Judged, record_refusal};
use cf_types::ConnId;
use lock_interests::Interests;

/// Why the command is refused.
#[tactic(auto, using(crate::proofs::ReadLaws::refusal_told))]
pub(crate) fn refusal(interests: &Interests, conn: ConnId) -> Judged
    ensures { result_err result ≡ first_refusal (rt_read.causes conn interests.now.interests) }
{
    record_refusal(interests.has_records(conn))
}
