//! WRITE_DATA of IXLCACHE: replaces data, adjunct and class of a row, registers the caller for it,
//! and ends the registrations of all others.
ghost use Rattle.std.specs.Prelude.{◌≡◌, ◌+◌, ◌^◌, ◌<◌, ◌≤◌, false, Some, length};
ghost use Rattle.std.specs.Result.{result_err};
ghost use Rattle.cf_types.specs.Forms.{IsCaller};
ghost use Rattle.cf_types.specs.Gains.{Gains};
ghost use Rattle.engine_api.specs.Meaning.{first_refusal};
ghost use Rattle.cache_model.specs.CacheRegs.Registrations.{stands, regs_with, regs_without_name};
ghost use Rattle.cache_model.specs.Rows.{elements_in};
ghost use Rattle.cache_model.specs.Contents.{is_among, regs_spared};
ghost use Rattle.cache_model.specs.Commands.Write as write;

use super::end_regs;
use crate::refusals::{
    Judged, castout_refusal, change_refusal, index_refusal, registration_refusal, storage_refusal,
};
use crate::room::room_refusal;
use cache_model::Request;
use cache_model::registrations::Regs;
use cache_rows::Rows;
use cf_types::{Adjunct, Body, Caps, ConnId, Effects, Name16};

/// The command: a name with its data, castout class, adjunct and storage class, the index at which
/// the caller is registered for it, the name that it gives up, and whether only a caller that is
/// registered may write.
#[derive(Clone, Copy)]
pub(crate) struct Write<'a> {
    pub name: &'a Name16,
    pub index: u32,
    pub body: &'a Body,
    pub class: Option<u32>,
    pub adj: Option<Adjunct>,
    pub old: Option<Name16>,
    pub stg: u32,
    pub when_reg: bool,
}

/// What the command asks room for.
pub(crate) fn request(name: &Name16, body: &Body, stg: u32) -> Request
    ensures { result ≡ write.request name.now body.now stg }
{
    Request {
        name: *name,
        elements: body.elements(),
        stg,
    }
}

/// Why the command is refused.
pub(crate) fn refusal(
    vector: u32,
    caps: Caps,
    rows: &Rows,
    regs: &Regs,
    by: ConnId,
    cmd: &Write<'_>,
) -> Judged
    requires { elements_in rows.now.rows < 2 ^ 32 }
    ensures { result_err result ≡ first_refusal (write.causes vector caps
        (record { rows = rows.now.rows; regs = regs.now.regs })
        by cmd.now.name.now cmd.now.index cmd.now.body.now cmd.now.class cmd.now.old cmd.now.stg
        cmd.now.when_reg) }
{
    index_refusal(vector, regs, by, cmd.name, cmd.index, cmd.old)?;
    castout_refusal(cmd.class)?;
    storage_refusal(cmd.stg)?;
    registration_refusal(regs, by, cmd.name, cmd.when_reg)?;
    change_refusal(rows, cmd.name, cmd.class)?;
    room_refusal(caps, rows, &request(cmd.name, cmd.body, cmd.stg))
}

// The caller is registered for the name, and the registrations of all others for it and for other
// names end.
fn register_alone(
    regs: &mut Regs,
    gone: &[Name16],
    by: ConnId,
    name: &Name16,
    index: u32,
    out: &mut Effects,
)
    requires caller { IsCaller by }
    requires index { index < regs.old.len }
    requires place { 1 ≤ regs.old.room }
    requires room { length regs.old.regs + 3 ≤ out.old.bits.room }
    requires spared { is_among gone.now name.now ≡ false }
    ensures regs { regs.new.regs
        ≡ regs_spared gone.now (regs_without_name name.now (Some by)
        (regs_with by index name.now regs.old.regs)) }
    ensures bits { Gains (stands regs.old.regs) (stands regs.new.regs) out.old.bits.items
        out.new.bits.items }
    ensures mail { out.new.mail ≡ out.old.mail }
    ensures len { regs.new.len ≡ regs.old.len }
{
    regs.set(by, index, *name, out);
    let _ = regs.drop_name(name, Some(by), out);
    end_regs(regs, gone, out);
}

/// Does the command, where the rows of these names are reclaimed for it.
pub(crate) fn act(
    rows: &mut Rows,
    regs: &mut Regs,
    gone: &[Name16],
    by: ConnId,
    cmd: &Write<'_>,
    out: &mut Effects,
)
    requires caller { IsCaller by }
    requires index { cmd.now.index < regs.old.len }
    requires row_room { 1 ≤ rows.old.room }
    requires reg_room { 1 ≤ regs.old.room }
    requires bit_room { length regs.old.regs + 3 ≤ out.old.bits.room }
    requires spared { is_among gone.now cmd.now.name.now ≡ false }
    requires fits { elements_in (write.after gone.now
        (record { rows = rows.old.rows; regs = regs.old.regs }) by cmd.now.name.now cmd.now.index
        cmd.now.body.now cmd.now.class cmd.now.adj cmd.now.stg).rows ≤ rows.old.elements }
    ensures content { record { rows = rows.new.rows; regs = regs.new.regs }
        ≡ write.after gone.now (record { rows = rows.old.rows; regs = regs.old.regs }) by
        cmd.now.name.now cmd.now.index cmd.now.body.now cmd.now.class cmd.now.adj cmd.now.stg }
    ensures bits { Gains (stands regs.old.regs) (stands regs.new.regs) out.old.bits.items
        out.new.bits.items }
    ensures mail { out.new.mail ≡ out.old.mail }
    ensures len { regs.new.len ≡ regs.old.len }
    ensures entries { rows.new.entries ≡ rows.old.entries }
    ensures elements { rows.new.elements ≡ rows.old.elements }
{
    rows.write(gone, cmd.name, cmd.body, cmd.class, cmd.adj, cmd.stg);
    register_alone(regs, gone, by, cmd.name, cmd.index, out);
}
