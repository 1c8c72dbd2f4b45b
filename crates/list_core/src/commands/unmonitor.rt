//! MONITOR_LIST of IXLLIST, stop: the caller's monitor of a header ends, if there is one.
ghost use Rattle.std.specs.Prelude.{◌≡◌, ◌≤◌, length};
ghost use Rattle.cf_types.specs.Gains.{Gains};
ghost use Rattle.list_model.specs.Contents.{stands};
ghost use Rattle.list_model.specs.Commands.Unmonitor as unmonitor;

use cf_types::{ConnId, Effects, ListReply};
use list_kept::Kept;

/// The reply where the command isn't refused.
pub(crate) fn reply(kept: &Kept, by: ConnId, header: u32) -> ListReply
    ensures { result ≡ unmonitor.reply kept.now.content by header }
{
    ListReply::OkCount {
        n: kept.count_for(by, header),
    }
}

/// Does the command.
pub(crate) fn act(kept: &mut Kept, by: ConnId, header: u32, out: &mut Effects)
    requires { length kept.old.content.monitors ≤ out.old.bits.room }
    ensures content { kept.new.content ≡ unmonitor.after kept.old.content by header }
    ensures elements { kept.new.elements ≡ kept.old.elements }
    ensures vector { kept.new.vector ≡ kept.old.vector }
    ensures bits { Gains (stands kept.old.content) (stands kept.new.content) out.old.bits.items
        out.new.bits.items }
    ensures mail { out.new.mail ≡ out.old.mail }
{
    kept.unmonitor(by, header, out);
}
