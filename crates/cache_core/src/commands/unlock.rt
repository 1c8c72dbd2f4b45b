//! UNLOCK_CASTOUT of IXLCACHE: the caller holds a row no more.
ghost use Rattle.std.specs.Prelude.{◌≡◌, ◌≤◌};
ghost use Rattle.std.specs.Result.{result_err};
ghost use Rattle.engine_api.specs.Meaning.{first_refusal};
ghost use Rattle.cache_model.specs.Rows.{row_or_new, rows_replaced};
ghost use Rattle.cache_model.specs.Commands.Unlock as unlock;

use crate::refusals::{Judged, entry_refusal, not_held_refusal};
use cache_rows::Rows;
use cf_types::{CacheReply, ConnId, Name16};

/// Why the command is refused.
pub(crate) fn refusal(rows: &Rows, by: ConnId, name: &Name16) -> Judged
    ensures { result_err result ≡ first_refusal (unlock.causes rows.now.rows by name.now) }
{
    entry_refusal(rows, name)?;
    not_held_refusal(rows, by, name)
}

/// The reply where the command isn't refused.
pub(crate) fn reply(rows: &Rows, name: &Name16) -> CacheReply
    ensures { result ≡ unlock.reply rows.now.rows name.now }
{
    match rows.row(name) {
        Some(row) => CacheReply::Unlocked {
            changed: row.is_rewritten(),
        },
        None => CacheReply::Unlocked { changed: false },
    }
}

/// Does the command.
pub(crate) fn act(rows: &mut Rows, name: &Name16)
    requires { 1 ≤ rows.old.room }
    ensures rows { rows.new.rows ≡ rows_replaced (unlock.row_without_hold
        (row_or_new name.now 1 rows.old.rows)) rows.old.rows }
    ensures entries { rows.new.entries ≡ rows.old.entries }
    ensures elements { rows.new.elements ≡ rows.old.elements }
{
    rows.unlock(name);
}
