//! READ_LCONTROLS of IXLLIST: how many records a header has, and its limit.
ghost use Rattle.std.specs.Prelude.{◌≡◌};
ghost use Rattle.list_model.specs.Commands.LControls as l_controls;

use cf_types::ListReply;
use list_kept::Kept;

/// The reply where the command isn't refused.
pub(crate) fn reply(kept: &Kept, header: u32) -> ListReply
    ensures { result ≡ l_controls.reply kept.now.content header }
{
    ListReply::Controls {
        count: kept.len(header),
        limit: kept.limit(header),
    }
}
