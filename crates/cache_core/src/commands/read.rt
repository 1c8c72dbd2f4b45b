//! READ_DATA of IXLCACHE: registers the caller for a name, and answers the data of its row.
ghost use Rattle.std.specs.Prelude.{◌≡◌, ◌+◌, ◌^◌, ◌<◌, ◌≤◌, false, IfOk, length};
ghost use Rattle.std.specs.Result.{result_err};
ghost use Rattle.cf_types.specs.Forms.{IsCaller};
ghost use Rattle.cf_types.specs.Gains.{Gains};
ghost use Rattle.engine_api.specs.Meaning.{first_refusal};
ghost use Rattle.cache_model.specs.CacheRegs.Registrations.{stands, regs_with};
ghost use Rattle.cache_model.specs.Rows.{elements_in};
ghost use Rattle.cache_model.specs.Contents.{is_among, regs_spared};
ghost use Rattle.cache_model.specs.Commands.Read as read;

use super::end_regs;
use crate::refusals::{Judged, index_refusal, storage_refusal};
use crate::room::room_refusal;
use cache_model::Request;
use cache_model::registrations::Regs;
use cache_rows::{Row, Rows};
use cf_types::{CacheReply, Caps, ConnId, Effects, Name16, NoMemory};
use std::alloc::Global;

/// The command: a name, the index at which the caller is registered for it, the name that it gives
/// up, and the storage class of a new row.
#[derive(Clone, Copy)]
pub(crate) struct Read<'a> {
    pub name: &'a Name16,
    pub index: u32,
    pub old: Option<Name16>,
    pub stg: u32,
}

/// What the command asks room for.
pub(crate) fn request(name: &Name16, stg: u32) -> Request
    ensures { result ≡ read.request name.now stg }
{
    Request {
        name: *name,
        elements: 0,
        stg,
    }
}

/// Why the command is refused.
pub(crate) fn refusal(
    vector: u32,
    caps: Caps,
    rows: &Rows,
    regs: &Regs,
    by: ConnId,
    cmd: &Read<'_>,
) -> Judged
    requires { elements_in rows.now.rows < 2 ^ 32 }
    ensures { result_err result ≡ first_refusal (read.causes vector caps
        (record { rows = rows.now.rows; regs = regs.now.regs })
        by cmd.now.name.now cmd.now.index cmd.now.old cmd.now.stg) }
{
    index_refusal(vector, regs, by, cmd.name, cmd.index, cmd.old)?;
    storage_refusal(cmd.stg)?;
    room_refusal(caps, rows, &request(cmd.name, cmd.stg))
}

// The answer to a row.
fn data_reply(alloc: Global, row: &Row<'_>) -> Result<CacheReply, NoMemory>
    ensures { IfOk result (λ reply. reply ≡ read.data_reply row.now row.now.body) }
{
    match row.body(alloc)? {
        None => Ok(CacheReply::NoData),
        Some(body) => Ok(CacheReply::Data {
            body,
            adj: row.adj(),
            changed: row.class().is_some(),
        }),
    }
}

/// The reply where the command isn't refused.
pub(crate) fn reply(
    alloc: Global,
    rows: &Rows,
    name: &Name16,
    stg: u32,
) -> Result<CacheReply, NoMemory>
    ensures { IfOk result (λ reply. reply ≡ read.reply rows.now.rows name.now stg) }
{
    match rows.row(name) {
        Some(row) => data_reply(alloc, &row),
        None => Ok(CacheReply::NoData),
    }
}

// The caller is registered for the name, and the registrations for other names end.
#[tactic(auto, using(crate::proofs::EndLaws::gains_registered))]
fn register(
    regs: &mut Regs,
    gone: &[Name16],
    by: ConnId,
    name: &Name16,
    index: u32,
    out: &mut Effects,
)
    requires caller { IsCaller by }
    requires index { index < regs.old.len }
    requires place { 1 ≤ regs.old.room }
    requires room { length regs.old.regs + 3 ≤ out.old.bits.room }
    requires spared { is_among gone.now name.now ≡ false }
    ensures regs { regs.new.regs
        ≡ regs_spared gone.now (regs_with by index name.now regs.old.regs) }
    ensures bits { Gains (stands regs.old.regs) (stands regs.new.regs) out.old.bits.items
        out.new.bits.items }
    ensures mail { out.new.mail ≡ out.old.mail }
    ensures len { regs.new.len ≡ regs.old.len }
{
    regs.set(by, index, *name, out);
    end_regs(regs, gone, out);
}

/// Does the command, where the rows of these names are reclaimed for it.
pub(crate) fn act(
    rows: &mut Rows,
    regs: &mut Regs,
    gone: &[Name16],
    by: ConnId,
    cmd: &Read<'_>,
    out: &mut Effects,
)
    requires caller { IsCaller by }
    requires index { cmd.now.index < regs.old.len }
    requires row_room { 1 ≤ rows.old.room }
    requires reg_room { 1 ≤ regs.old.room }
    requires bit_room { length regs.old.regs + 3 ≤ out.old.bits.room }
    requires spared { is_among gone.now cmd.now.name.now ≡ false }
    ensures content { record { rows = rows.new.rows; regs = regs.new.regs }
        ≡ read.after gone.now (record { rows = rows.old.rows; regs = regs.old.regs }) by
        cmd.now.name.now cmd.now.index cmd.now.stg }
    ensures bits { Gains (stands regs.old.regs) (stands regs.new.regs) out.old.bits.items
        out.new.bits.items }
    ensures mail { out.new.mail ≡ out.old.mail }
    ensures len { regs.new.len ≡ regs.old.len }
    ensures entries { rows.new.entries ≡ rows.old.entries }
    ensures elements { rows.new.elements ≡ rows.old.elements }
{
    rows.read(gone, cmd.name, cmd.stg);
    register(regs, gone, by, cmd.name, cmd.index, out);
}
