//! READ_STGSTATS of IXLCACHE: how many rows a storage class has.
ghost use Rattle.std.specs.Prelude.{◌≡◌, ◌^◌, ◌<◌, length};
ghost use Rattle.std.specs.Result.{result_err};
ghost use Rattle.engine_api.specs.Meaning.{first_refusal};
ghost use Rattle.cache_model.specs.Commands.StgStats as stg_stats;

use crate::refusals::{Judged, storage_refusal};
use cache_rows::Rows;
use cf_types::CacheReply;

/// Why the command is refused.
pub(crate) fn refusal(stg: u32) -> Judged
    ensures { result_err result ≡ first_refusal (stg_stats.causes stg) }
{
    storage_refusal(stg)
}

/// The reply where the command isn't refused.
pub(crate) fn reply(rows: &Rows, stg: u32) -> CacheReply
    requires { length rows.now.rows < 2 ^ 32 }
    ensures { result ≡ stg_stats.reply rows.now.rows stg }
{
    CacheReply::Stg {
        rows: rows.count_of_storage(stg),
        changed: rows.changed_of_storage(stg),
    }
}
