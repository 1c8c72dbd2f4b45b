//! READ_COCLASS of IXLCACHE: the names of a castout class.
ghost use Rattle.std.specs.Prelude.{◌≡◌, IfOk};
ghost use Rattle.std.specs.Result.{result_err};
ghost use Rattle.engine_api.specs.Meaning.{first_refusal};
ghost use Rattle.cache_model.specs.Commands.CoClass as co_class;

use crate::refusals::{Judged, class_refusal};
use cache_rows::Rows;
use cf_types::{CacheReply, Listing, NoMemory};
use std::alloc::Global;

/// Why the command is refused.
pub(crate) fn refusal(class: u32) -> Judged
    ensures { result_err result ≡ first_refusal (co_class.causes class) }
{
    class_refusal(class)
}

/// The reply where the command isn't refused.
pub(crate) fn reply(alloc: Global, rows: &Rows, class: u32) -> Result<CacheReply, NoMemory>
    ensures { IfOk result (λ reply. reply ≡ co_class.reply rows.now.rows class) }
{
    let names = rows.names_of_class(alloc, class)?;
    Ok(CacheReply::Names(Listing::from_vec(names)))
}
