//! READ_DIRINFO of IXLCACHE: what the directory says of a name.
ghost use Rattle.std.specs.Prelude.{◌≡◌};
ghost use Rattle.std.specs.Result.{result_err};
ghost use Rattle.engine_api.specs.Meaning.{first_refusal};
ghost use Rattle.cache_model.specs.Commands.DirInfo as dir_info;

use crate::refusals::{Judged, entry_refusal};
use cache_model::registrations::Regs;
use cache_rows::Rows;
use cf_types::{CacheReply, Name16};

/// Why the command is refused.
pub(crate) fn refusal(rows: &Rows, name: &Name16) -> Judged
    ensures { result_err result ≡ first_refusal (dir_info.causes rows.now.rows name.now) }
{
    entry_refusal(rows, name)
}

/// The reply where the command isn't refused.
pub(crate) fn reply(rows: &Rows, regs: &Regs, name: &Name16) -> CacheReply
    ensures { result ≡ dir_info.reply rows.now.rows regs.now.regs name.now }
{
    let regs = regs.count_all(name);
    match rows.row(name) {
        Some(row) => CacheReply::Dir {
            class: row.class(),
            stg: row.stg(),
            holder: row.holder().map(|holder| holder.conn),
            regs,
        },
        None => CacheReply::Dir {
            class: None,
            stg: 1,
            holder: None,
            regs,
        },
    }
}
