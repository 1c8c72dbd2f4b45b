//! MONITOR_LIST of IXLLIST, start: the caller's monitor of a header stands at the index alone.
ghost use Rattle.std.specs.Prelude.{◌≡◌, ◌<◌};
ghost use Rattle.std.specs.Result.{result_err};
ghost use Rattle.cf_types.specs.Forms.{IsCaller};
ghost use Rattle.cf_types.specs.Gains.{Gains};
ghost use Rattle.engine_api.specs.Meaning.{first_refusal};
ghost use Rattle.list_model.specs.Contents.{stands};
ghost use Rattle.list_model.specs.Commands.Monitor as monitor;
ghost use Rattle.list_kept.specs.ContentView.{IsRoomy};

use crate::refusals::{Judged, header_refusal, in_use_refusal, index_refusal};
use cf_types::{ConnId, Effects, ListReply};
use engine_api::Shape;
use list_kept::{Kept, headers_of};

/// Why the command is refused.
pub(crate) fn refusal(shape: Shape, kept: &Kept, by: ConnId, header: u32, index: u32) -> Judged
    ensures { result_err result
        ≡ first_refusal (monitor.causes shape kept.now.content by header index) }
{
    header_refusal(headers_of(shape.kind), header)?;
    index_refusal(shape.vector, index)?;
    in_use_refusal(kept, by, index, header)
}

/// The reply where the command isn't refused.
pub(crate) fn reply(kept: &Kept, header: u32) -> ListReply
    ensures { result ≡ monitor.reply kept.now.content header }
{
    if kept.len(header) == 0 {
        ListReply::Empty
    } else {
        ListReply::NotEmpty
    }
}

/// Does the command.
pub(crate) fn act(kept: &mut Kept, by: ConnId, header: u32, index: u32, out: &mut Effects)
    requires caller { IsCaller by }
    requires index { index < kept.old.vector }
    requires room { IsRoomy kept.old out.old.bits.room }
    ensures content { kept.new.content ≡ monitor.after kept.old.content by header index }
    ensures elements { kept.new.elements ≡ kept.old.elements }
    ensures vector { kept.new.vector ≡ kept.old.vector }
    ensures bits { Gains (stands kept.old.content) (stands kept.new.content) out.old.bits.items
        out.new.bits.items }
    ensures mail { out.new.mail ≡ out.old.mail }
{
    kept.monitor(by, index, header, out);
}
