//! DELETE of IXLLIST: a record is removed.
ghost use Rattle.std.specs.Prelude.{◌≡◌};
ghost use Rattle.std.specs.Result.{result_err};
ghost use Rattle.cf_types.specs.Gains.{Gains};
ghost use Rattle.engine_api.specs.Meaning.{first_refusal};
ghost use Rattle.list_model.specs.Contents.{stands};
ghost use Rattle.list_model.specs.Commands.Delete as delete;
ghost use Rattle.list_kept.specs.ContentView.{IsRoomy};
ghost use Rattle.list_core.specs.Found.{IsFound};

use crate::commands::Asked;
use crate::refusals::{
    Judged, cond_lock_refusal, cond_refusal, record_refusal, ref_form_refusal, ref_header_refusal,
    refs_of, version_refusal,
};
use cf_types::{At, ConnId, Effects, ListReply};
use engine_api::Shape;
use list_kept::{Kept, headers_of, id_at, locks_of};

/// Why the command is refused.
pub(crate) fn refusal(shape: Shape, kept: &Kept, by: ConnId, asked: Asked) -> Judged
    ensures { result_err result
        ≡ first_refusal (delete.causes shape kept.now.content by asked.at asked.version
        asked.cond) }
{
    let Asked { at, version, cond } = asked;
    cond_lock_refusal(locks_of(shape.kind), cond)?;
    cond_refusal(kept, by, cond)?;
    ref_header_refusal(headers_of(shape.kind), at)?;
    ref_form_refusal(refs_of(shape.kind), at)?;
    record_refusal(kept, at)?;
    version_refusal(kept, at, version)
}

/// The reply where the command isn't refused.
pub(crate) fn reply(kept: &Kept, at: At) -> ListReply
    ensures { result ≡ delete.reply kept.now.content at }
{
    ListReply::Id {
        id: id_at(kept, at),
    }
}

/// Does the command.
pub(crate) fn act(kept: &mut Kept, at: At, out: &mut Effects)
    requires room { IsRoomy kept.old out.old.bits.room }
    requires found { IsFound kept.old.content.lists at }
    ensures content { kept.new.content ≡ delete.after kept.old.content at }
    ensures elements { kept.new.elements ≡ kept.old.elements }
    ensures vector { kept.new.vector ≡ kept.old.vector }
    ensures bits { Gains (stands kept.old.content) (stands kept.new.content) out.old.bits.items
        out.new.bits.items }
    ensures mail { out.new.mail ≡ out.old.mail }
{
    let id = id_at(kept, at);
    kept.remove(id, out);
}
