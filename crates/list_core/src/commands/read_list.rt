//! READ_LIST of IXLLIST: the ids of a header's records, in order.
ghost use Rattle.std.specs.Prelude.{◌≡◌, ◌++◌, ◌∷◌, [], OnOk, IfOk, map};
ghost use Rattle.std.specs.Result.{result_err};
ghost use Rattle.engine_api.specs.Meaning.{first_refusal};
ghost use Rattle.list_model.specs.ListStore.Record.{Record};
ghost use Rattle.list_model.specs.ListStore.Lists.{records_of};
ghost use Rattle.list_model.specs.Commands.ReadList as read_list;

use crate::refusals::{Judged, header_refusal};
use cf_types::{EntryId, ListReply, Listing, NoMemory};
use engine_api::Shape;
use list_kept::{Kept, headers_of};
use std::alloc::Global;

/// Why the command is refused.
pub(crate) fn refusal(shape: Shape, header: u32) -> Judged
    ensures { result_err result ≡ first_refusal (read_list.causes shape header) }
{
    header_refusal(headers_of(shape.kind), header)
}

// One id more.
fn push(ids: &mut Vec<EntryId>, id: EntryId) -> Result<(), NoMemory>
    ensures { OnOk result (ids.new.items ≡ ids.old.items ++ id ∷ []) }
{
    ids.push(id)?;
    Ok(())
}

// The ids of a header's records.
#[tactic(auto, using(crate::proofs::RowLaws::rows_told, std::proofs::lemmas::List::take_all))]
fn ids_of(alloc: Global, kept: &Kept, header: u32) -> Result<Vec<EntryId>, NoMemory>
    ensures { IfOk result (λ ids. ids.items
        ≡ map (λ (rec : Record). rec.id) (records_of kept.now.content.lists header)) }
{
    let mut ids = Vec::new(alloc);
    for place in 0..kept.len(header) {
        match kept.at(header, place) {
            Some(rec) => push(&mut ids, rec.id)?,
            None => unreachable!(),
        }
    }
    Ok(ids)
}

/// The reply where the command isn't refused.
pub(crate) fn reply(alloc: Global, kept: &Kept, header: u32) -> Result<ListReply, NoMemory>
    ensures { IfOk result (λ reply. reply ≡ read_list.reply kept.now.content header) }
{
    let ids = ids_of(alloc, kept, header)?;
    Ok(ListReply::Ids(Listing::from_vec(ids)))
}
