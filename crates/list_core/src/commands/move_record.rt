//! MOVE of IXLLIST: a record is taken out and comes to its place in a header, with a new key if one
//! is given and with the version that it has.
ghost use Rattle.std.specs.Prelude.{◌≡◌, ◌<◌, length};
ghost use Rattle.std.specs.Result.{result_err};
ghost use Rattle.cf_types.specs.Gains.{Gains};
ghost use Rattle.engine_api.specs.Meaning.{first_refusal};
ghost use Rattle.list_model.specs.Contents.{stands};
ghost use Rattle.list_model.specs.Commands.Move as moving;
ghost use Rattle.list_kept.specs.ContentView.{IsRoomy};
ghost use Rattle.list_kept.specs.Orderly.{IsOrderly};
ghost use Rattle.list_core.specs.Found.{IsFound};

use crate::commands::Asked;
use crate::refusals::{
    Judged, cond_lock_refusal, cond_refusal, full_refusal, header_refusal, new_key_refusal,
    record_refusal, ref_form_refusal, ref_header_refusal, refs_of, version_refusal,
};
use cf_types::{At, ConnId, Effects, Key16};
use engine_api::Shape;
use list_kept::{Kept, headers_of, id_at, locks_of};

// The header has no place for a record of another header.
fn place_refusal(kept: &Kept, at: At, header: u32) -> Judged
    ensures { result_err result ≡ moving.place_refusal kept.now.content at header }
{
    if kept.header_of(id_at(kept, at)) == header {
        Ok(())
    } else {
        full_refusal(kept, header)
    }
}

/// Why the command is refused.
pub(crate) fn refusal(
    shape: Shape,
    kept: &Kept,
    by: ConnId,
    asked: Asked,
    header: u32,
    key: Option<Key16>,
) -> Judged
    ensures { result_err result
        ≡ first_refusal (moving.causes shape kept.now.content by asked.at header key
        asked.version asked.cond) }
{
    let Asked { at, version, cond } = asked;
    cond_lock_refusal(locks_of(shape.kind), cond)?;
    cond_refusal(kept, by, cond)?;
    ref_header_refusal(headers_of(shape.kind), at)?;
    ref_form_refusal(refs_of(shape.kind), at)?;
    record_refusal(kept, at)?;
    version_refusal(kept, at, version)?;
    header_refusal(headers_of(shape.kind), header)?;
    new_key_refusal(refs_of(shape.kind), key)?;
    place_refusal(kept, at, header)
}

/// Does the command.
#[tactic(auto, using(crate::proofs::FoundLaws::found_told, list_kept::proofs::ToldLaws::content_at))]
pub(crate) fn act(
    kept: &mut Kept,
    at: At,
    header: u32,
    head: bool,
    key: Option<Key16>,
    out: &mut Effects,
)
    requires room { IsRoomy kept.old out.old.bits.room }
    requires header { header < length kept.old.content.lists }
    requires found { IsFound kept.old.content.lists at }
    requires orderly { IsOrderly kept.old.elements
        (moving.after kept.old.content at header head key).lists }
    ensures content { kept.new.content ≡ moving.after kept.old.content at header head key }
    ensures elements { kept.new.elements ≡ kept.old.elements }
    ensures vector { kept.new.vector ≡ kept.old.vector }
    ensures bits { Gains (stands kept.old.content) (stands kept.new.content) out.old.bits.items
        out.new.bits.items }
    ensures mail { out.new.mail ≡ out.old.mail }
{
    let id = id_at(kept, at);
    kept.shift(id, header, head, key, out);
}
