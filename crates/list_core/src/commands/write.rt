//! WRITE of IXLLIST, creating: a new record at its place in a header.
ghost use Rattle.std.specs.Prelude.{◌≡◌, ◌<◌, ◌^◌, false, length};
ghost use Rattle.std.specs.Result.{result_err};
ghost use Rattle.std.specs.List.{list_any};
ghost use Rattle.cf_types.specs.Gains.{Gains};
ghost use Rattle.engine_api.specs.Meaning.{first_refusal};
ghost use Rattle.list_model.specs.ListStore.Lists.{all_records, count_of, is_id};
ghost use Rattle.list_model.specs.Records.{elements_in};
ghost use Rattle.list_model.specs.Contents.{stands};
ghost use Rattle.list_model.specs.Commands.Write as write;
ghost use Rattle.list_kept.specs.ContentView.{IsRoomy};
ghost use Rattle.list_kept.specs.Orderly.{IsOrderly};

use crate::refusals::{
    Judged, cond_lock_refusal, cond_refusal, elements_refusal, entries_refusal, full_refusal,
    header_refusal, name_refusal, reference_refusal, refs_of,
};
use cf_types::{
    Adjunct, Body, Caps, Cond, ConnId, Effects, EntryId, Key16, ListReply, Name16, elements_of,
};
use engine_api::Shape;
use list_kept::{Bare, Kept, headers_of, locks_of};

// The data need more elements than all records leave free. No record has the next id.
fn room_refusal(caps: Caps, need: u32, kept: &Kept) -> Judged
    requires elements { elements_in (all_records kept.now.content.lists) < 2 ^ 32 }
    requires alone { list_any (is_id (write.new_id kept.now.content))
        (all_records kept.now.content.lists) ≡ false }
    ensures { result_err result ≡ elements_refusal caps need (all_records kept.now.content.lists) }
{
    elements_refusal(caps, need, kept, EntryId(kept.next()))
}

ghost use Rattle.list_model.specs.Refusals.{elements_refusal};

/// What the command says of the new record, but for its data.
#[derive(Clone, Copy)]
pub(crate) struct Wanted {
    pub header: u32,
    pub head: bool,
    pub name: Option<Name16>,
    pub key: Option<Key16>,
    pub adj: Option<Adjunct>,
}

/// Why the command is refused.
pub(crate) fn refusal(
    shape: Shape,
    caps: Caps,
    kept: &Kept,
    by: ConnId,
    wanted: Wanted,
    body: &Option<Body>,
    cond: Option<Cond>,
) -> Judged
    requires few { count_of kept.now.content.lists < 2 ^ 32 }
    requires elements { elements_in (all_records kept.now.content.lists) < 2 ^ 32 }
    requires alone { list_any (is_id (write.new_id kept.now.content))
        (all_records kept.now.content.lists) ≡ false }
    ensures { result_err result
        ≡ first_refusal (write.causes shape caps kept.now.content by wanted.header
        wanted.name wanted.key body.now cond) }
{
    let Wanted {
        header,
        name,
        key,
        ..
    } = wanted;
    cond_lock_refusal(locks_of(shape.kind), cond)?;
    cond_refusal(kept, by, cond)?;
    header_refusal(headers_of(shape.kind), header)?;
    reference_refusal(refs_of(shape.kind), name, key)?;
    name_refusal(kept, name)?;
    full_refusal(kept, header)?;
    entries_refusal(caps, kept)?;
    room_refusal(caps, elements_of(body), kept)
}

/// The reply where the command isn't refused.
pub(crate) fn reply(kept: &Kept) -> ListReply
    ensures { result ≡ write.reply kept.now.content }
{
    ListReply::Id {
        id: EntryId(kept.next()),
    }
}

/// Does the command.
pub(crate) fn act(kept: &mut Kept, wanted: Wanted, body: &Option<Body>, out: &mut Effects)
    requires room { IsRoomy kept.old out.old.bits.room }
    requires header { wanted.header < length kept.old.content.lists }
    requires alone { list_any (is_id (write.new_id kept.old.content))
        (all_records kept.old.content.lists) ≡ false }
    requires orderly { IsOrderly kept.old.elements (write.after kept.old.content wanted.header
        wanted.head wanted.name wanted.key body.now wanted.adj).lists }
    ensures content { kept.new.content ≡ write.after kept.old.content wanted.header wanted.head
        wanted.name wanted.key body.now wanted.adj }
    ensures elements { kept.new.elements ≡ kept.old.elements }
    ensures vector { kept.new.vector ≡ kept.old.vector }
    ensures bits { Gains (stands kept.old.content) (stands kept.new.content) out.old.bits.items
        out.new.bits.items }
    ensures mail { out.new.mail ≡ out.old.mail }
{
    let Wanted {
        header,
        head,
        name,
        key,
        adj,
    } = wanted;
    let bare = Bare {
        id: EntryId(kept.next()),
        version: 1,
        name,
        key,
        adj,
    };
    kept.write(header, head, bare, body, out);
}
