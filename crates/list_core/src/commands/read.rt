//! READ of IXLLIST: a record with its version, and the header that it is in.
ghost use Rattle.std.specs.Prelude.{◌≡◌, IfOk};
ghost use Rattle.std.specs.Result.{result_err};
ghost use Rattle.engine_api.specs.Meaning.{first_refusal};
ghost use Rattle.list_model.specs.Commands.Read as read;

use crate::refusals::{
    Judged, cond_lock_refusal, cond_refusal, record_refusal, ref_form_refusal, ref_header_refusal,
    refs_of,
};
use cf_types::{At, Cond, ConnId, EntryId, ListReply, NoMemory};
use engine_api::Shape;
use list_kept::{Kept, headers_of, locks_of, record_at};
use std::alloc::Global;

/// Why the command is refused.
pub(crate) fn refusal(shape: Shape, kept: &Kept, by: ConnId, at: At, cond: Option<Cond>) -> Judged
    ensures { result_err result ≡ first_refusal (read.causes shape kept.now.content by at cond) }
{
    cond_lock_refusal(locks_of(shape.kind), cond)?;
    cond_refusal(kept, by, cond)?;
    ref_header_refusal(headers_of(shape.kind), at)?;
    ref_form_refusal(refs_of(shape.kind), at)?;
    record_refusal(kept, at)
}

/// The reply where the command isn't refused.
pub(crate) fn reply(alloc: Global, kept: &Kept, at: At) -> Result<ListReply, NoMemory>
    ensures { IfOk result (λ reply. reply ≡ read.reply kept.now.content at) }
{
    match record_at(kept, at) {
        Some(rec) => Ok(ListReply::Entry {
            id: rec.id,
            header: kept.header_of(rec.id),
            version: rec.version,
            name: rec.name,
            key: rec.key,
            body: kept.read(alloc, &rec.body)?,
            adj: rec.adj,
        }),
        None => Ok(ListReply::Entry {
            id: EntryId(0),
            header: kept.header_of(EntryId(0)),
            version: 0,
            name: None,
            key: None,
            body: None,
            adj: None,
        }),
    }
}
