//! WRITE of IXLLIST, updating: what is given of a record's data and adjunct is replaced, and its
//! version rises.
ghost use Rattle.std.specs.Prelude.{◌≡◌, ◌<◌, ◌^◌};
ghost use Rattle.std.specs.Result.{result_err};
ghost use Rattle.engine_api.specs.Meaning.{first_refusal};
ghost use Rattle.list_model.specs.ListStore.Lists.{all_records};
ghost use Rattle.list_model.specs.Records.{elements_in};
ghost use Rattle.list_model.specs.Lists.{the_record};
ghost use Rattle.list_model.specs.Commands.Update as update;
ghost use Rattle.list_core.specs.Found.{IsFound};

use crate::commands::Asked;
use crate::refusals::{
    Judged, cond_lock_refusal, cond_refusal, elements_refusal, record_refusal, ref_form_refusal,
    ref_header_refusal, refs_of, version_refusal,
};
use cf_types::{Adjunct, At, Body, Caps, ConnId, ListReply, elements_of};
use engine_api::Shape;
use list_kept::{Bare, Kept, headers_of, id_at, locks_of, record_at};

/// Why the command is refused.
pub(crate) fn refusal(
    shape: Shape,
    caps: Caps,
    kept: &Kept,
    by: ConnId,
    asked: Asked,
    body: &Option<Body>,
) -> Judged
    requires { elements_in (all_records kept.now.content.lists) < 2 ^ 32 }
    ensures { result_err result
        ≡ first_refusal (update.causes shape caps kept.now.content by asked.at body.now
        asked.version asked.cond) }
{
    let Asked { at, version, cond } = asked;
    cond_lock_refusal(locks_of(shape.kind), cond)?;
    cond_refusal(kept, by, cond)?;
    ref_header_refusal(headers_of(shape.kind), at)?;
    ref_form_refusal(refs_of(shape.kind), at)?;
    record_refusal(kept, at)?;
    version_refusal(kept, at, version)?;
    let need = elements_of(body);
    elements_refusal(caps, need, kept, id_at(kept, at))
}

/// The reply where the command isn't refused.
pub(crate) fn reply(kept: &Kept, at: At) -> ListReply
    ensures { result ≡ update.reply kept.now.content at }
{
    ListReply::Id {
        id: id_at(kept, at),
    }
}

// The version of a record after an update: one greater, and 1 after the greatest.
fn next_version(version: u32) -> u32
    ensures { result ≡ next_version version }
{
    if version < u32::MAX { version + 1 } else { 1 }
}

ghost use Rattle.list_model.specs.Records.{next_version};

// The record as it will be, but for its data.
fn updated(kept: &Kept, at: At, adj: Option<Adjunct>) -> Bare
    requires { IsFound kept.now.content.lists at }
    ensures { result ≡ updated_with adj (the_record kept.now.content.lists at) }
{
    match record_at(kept, at) {
        Some(rec) => Bare {
            id: rec.id,
            version: next_version(rec.version),
            name: rec.name,
            key: rec.key,
            adj: adj.or(rec.adj),
        },
        None => unreachable!(),
    }
}

ghost use Rattle.list_core.specs.Found.{updated_with};

/// Does the command.
#[tactic(auto, using(crate::proofs::FoundLaws::found_told, list_kept::proofs::ToldLaws::content_at))]
pub(crate) fn act(kept: &mut Kept, at: At, body: &Option<Body>, adj: Option<Adjunct>)
    requires found { IsFound kept.old.content.lists at }
    requires orderly { IsOrderly kept.old.elements
        (update.after kept.old.content at body.now adj).lists }
    ensures content { kept.new.content ≡ update.after kept.old.content at body.now adj }
    ensures elements { kept.new.elements ≡ kept.old.elements }
    ensures vector { kept.new.vector ≡ kept.old.vector }
{
    let bare = updated(kept, at, adj);
    kept.replace(bare, body);
}

ghost use Rattle.list_kept.specs.Orderly.{IsOrderly};
