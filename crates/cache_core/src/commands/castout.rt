//! CASTOUT_DATA of IXLCACHE: the caller holds a changed row, and gets its data.
ghost use Rattle.std.specs.Prelude.{◌≡◌, ◌≤◌, IfOk};
ghost use Rattle.std.specs.Result.{result_err};
ghost use Rattle.engine_api.specs.Meaning.{first_refusal};
ghost use Rattle.cache_model.specs.Rows.{row_or_new, rows_replaced};
ghost use Rattle.cache_model.specs.Commands.Castout as castout;

use crate::refusals::{Judged, entry_refusal, held_refusal, unchanged_refusal};
use cache_rows::{Row, Rows};
use cf_types::{CacheReply, ConnId, Name16, NoMemory};
use std::alloc::Global;

/// Why the command is refused.
pub(crate) fn refusal(rows: &Rows, name: &Name16) -> Judged
    ensures { result_err result ≡ first_refusal (castout.causes rows.now.rows name.now) }
{
    entry_refusal(rows, name)?;
    held_refusal(rows, name)?;
    unchanged_refusal(rows, name)
}

// The answer to a row.
fn data_reply(alloc: Global, row: &Row<'_>) -> Result<CacheReply, NoMemory>
    ensures { IfOk result (λ reply. reply ≡ castout.data_reply row.now row.now.body) }
{
    match row.body(alloc)? {
        None => Ok(CacheReply::NoData),
        Some(body) => Ok(CacheReply::CastData {
            body,
            adj: row.adj(),
        }),
    }
}

/// The reply where the command isn't refused.
pub(crate) fn reply(alloc: Global, rows: &Rows, name: &Name16) -> Result<CacheReply, NoMemory>
    ensures { IfOk result (λ reply. reply ≡ castout.reply rows.now.rows name.now) }
{
    match rows.row(name) {
        Some(row) => data_reply(alloc, &row),
        None => Ok(CacheReply::NoData),
    }
}

/// Does the command.
pub(crate) fn act(rows: &mut Rows, by: ConnId, name: &Name16)
    requires { 1 ≤ rows.old.room }
    ensures rows { rows.new.rows ≡ rows_replaced (castout.row_with_hold by
        (row_or_new name.now 1 rows.old.rows)) rows.old.rows }
    ensures entries { rows.new.entries ≡ rows.old.entries }
    ensures elements { rows.new.elements ≡ rows.old.elements }
{
    rows.hold(by, name);
}
