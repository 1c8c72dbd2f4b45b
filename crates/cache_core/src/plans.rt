//! What is got ready for a command, and what is done then.
ghost use Rattle.std.specs.Prelude.{◌≡◌, ◌+◌, ◌^◌, ◌<◌, ◌≤◌, IfOk, length};
ghost use Rattle.std.specs.Result.{result_err};
ghost use Rattle.cf_types.specs.Forms.{IsCaller};
ghost use Rattle.cf_types.specs.Gains.{Gains};
ghost use Rattle.cache_model.specs.CacheRegs.Registrations.{stands};
ghost use Rattle.cache_model.specs.Rows.{elements_in};
ghost use Rattle.cache_model.specs.Step.{cause, reply, victims, after};

use crate::commands::read::Read;
use crate::commands::write::Write;
use crate::commands::{
    castout, co_class, co_stats, cross_inval, delete, dir_info, read, reg_list, stg_stats, unlock,
    write,
};
use crate::refusals::Judged;
use crate::room::victims;
use cache_model::registrations::Regs;
use cache_rows::Rows;
use cf_types::{CacheCmd, CacheReply, Caps, ConnId, Effects, Listing, Name16, NoMemory, Refusal};
use std::alloc::Global;

/// What is got ready for a command: its reply, and the names of the rows that are reclaimed for it.
#[derive(Drop)]
pub(crate) struct Plan {
    pub reply: Result<CacheReply, Refusal>,
    pub gone: Listing<Name16>,
}

// Why a command is refused.
fn refusal(vector: u32, caps: Caps, rows: &Rows, regs: &Regs, by: ConnId, cmd: &CacheCmd) -> Judged
    requires { elements_in rows.now.rows < 2 ^ 32 }
    ensures { result_err result
        ≡ cause vector caps (record { rows = rows.now.rows; regs = regs.now.regs }) by
        cmd.now }
{
    match cmd {
        CacheCmd::Read {
            name,
            index,
            old,
            stg,
        } => {
            let asked = Read {
                name,
                index: *index,
                old: *old,
                stg: *stg,
            };
            read::refusal(vector, caps, rows, regs, by, &asked)
        }
        CacheCmd::Write {
            name,
            index,
            body,
            class,
            adj,
            old,
            stg,
            when_reg,
        } => {
            let asked = Write {
                name,
                index: *index,
                body,
                class: *class,
                adj: *adj,
                old: *old,
                stg: *stg,
                when_reg: *when_reg,
            };
            write::refusal(vector, caps, rows, regs, by, &asked)
        }
        CacheCmd::CrossInval { name } => cross_inval::refusal(rows, name),
        CacheCmd::RegList => Ok(()),
        CacheCmd::Castout { name } => castout::refusal(rows, name),
        CacheCmd::Unlock { name } => unlock::refusal(rows, by, name),
        CacheCmd::CoClass { class } => co_class::refusal(*class),
        CacheCmd::CoStats => Ok(()),
        CacheCmd::DirInfo { name } => dir_info::refusal(rows, name),
        CacheCmd::Delete { name } => delete::refusal(rows, by, name),
        CacheCmd::StgStats { stg } => stg_stats::refusal(*stg),
    }
}

// The reply to a command that isn't refused.
fn reply(
    alloc: Global,
    rows: &Rows,
    regs: &Regs,
    by: ConnId,
    cmd: &CacheCmd,
) -> Result<CacheReply, NoMemory>
    requires { length rows.now.rows < 2 ^ 32 }
    ensures { IfOk result (λ told. told
        ≡ reply (record { rows = rows.now.rows; regs = regs.now.regs }) by cmd.now) }
{
    match cmd {
        CacheCmd::Read { name, stg, .. } => read::reply(alloc, rows, name, *stg),
        CacheCmd::Write { .. } => Ok(CacheReply::Ok),
        CacheCmd::CrossInval { name } => Ok(cross_inval::reply(regs, by, name)),
        CacheCmd::RegList => reg_list::reply(alloc, regs, by),
        CacheCmd::Castout { name } => castout::reply(alloc, rows, name),
        CacheCmd::Unlock { name } => Ok(unlock::reply(rows, name)),
        CacheCmd::CoClass { class } => co_class::reply(alloc, rows, *class),
        CacheCmd::CoStats => co_stats::reply(alloc, rows),
        CacheCmd::DirInfo { name } => Ok(dir_info::reply(rows, regs, name)),
        CacheCmd::Delete { .. } => Ok(CacheReply::Ok),
        CacheCmd::StgStats { stg } => Ok(stg_stats::reply(rows, *stg)),
    }
}

// The names of the rows that are reclaimed for a command.
fn gone(alloc: Global, caps: Caps, rows: &Rows, cmd: &CacheCmd) -> Result<Vec<Name16>, NoMemory>
    requires few { length rows.now.rows < 2 ^ 32 }
    requires elements { elements_in rows.now.rows < 2 ^ 32 }
    ensures { IfOk result (λ names. names.items ≡ victims caps rows.now.rows cmd.now) }
{
    match cmd {
        CacheCmd::Read { name, stg, .. } => victims(alloc, caps, rows, &read::request(name, *stg)),
        CacheCmd::Write {
            name,
            body,
            stg,
            ..
        } => victims(alloc, caps, rows, &write::request(name, body, *stg)),
        _ => Ok(Vec::new(alloc)),
    }
}

// What is got ready for a command that isn't refused.
fn plan_done(
    alloc: Global,
    caps: Caps,
    rows: &Rows,
    regs: &Regs,
    by: ConnId,
    cmd: &CacheCmd,
) -> Result<Plan, NoMemory>
    requires few { length rows.now.rows < 2 ^ 32 }
    requires elements { elements_in rows.now.rows < 2 ^ 32 }
    ensures { IfOk result (λ plan. plan ≡ plan_unless None caps
        (record { rows = rows.now.rows; regs = regs.now.regs }) by cmd.now) }
{
    let told = reply(alloc, rows, regs, by, cmd)?;
    let names = gone(alloc, caps, rows, cmd)?;
    Ok(Plan {
        reply: Ok(told),
        gone: Listing::from_vec(names),
    })
}

ghost use Rattle.std.specs.Prelude.{None};
ghost use Rattle.cache_core.specs.Plans.{plan_unless, plan_for, IsSpared, IsIndexed};

/// What is got ready for a command.
pub(crate) fn make_plan(
    alloc: Global,
    vector: u32,
    caps: Caps,
    rows: &Rows,
    regs: &Regs,
    by: ConnId,
    cmd: &CacheCmd,
) -> Result<Plan, NoMemory>
    requires few { length rows.now.rows < 2 ^ 32 }
    requires elements { elements_in rows.now.rows < 2 ^ 32 }
    ensures { IfOk result (λ plan. plan ≡ plan_for vector caps
        (record { rows = rows.now.rows; regs = regs.now.regs }) by cmd.now) }
{
    match refusal(vector, caps, rows, regs, by, cmd) {
        Err(refusal) => Ok(Plan {
            reply: Err(refusal),
            gone: Listing::from_vec(Vec::new(alloc)),
        }),
        Ok(()) => plan_done(alloc, caps, rows, regs, by, cmd),
    }
}

/// Does a command that isn't refused, where the rows of these names are reclaimed for it. It takes
/// no memory.
pub(crate) fn act(
    rows: &mut Rows,
    regs: &mut Regs,
    gone: &[Name16],
    by: ConnId,
    cmd: &CacheCmd,
    out: &mut Effects,
)
    requires caller { IsCaller by }
    requires index { IsIndexed regs.old.len cmd.now }
    requires row_room { 1 ≤ rows.old.room }
    requires reg_room { 1 ≤ regs.old.room }
    requires bit_room { length regs.old.regs + 3 ≤ out.old.bits.room }
    requires spared { IsSpared gone.now cmd.now }
    requires fits { elements_in (after gone.now
        (record { rows = rows.old.rows; regs = regs.old.regs }) by cmd.now).rows
        ≤ rows.old.elements }
    ensures content { record { rows = rows.new.rows; regs = regs.new.regs }
        ≡ after gone.now (record { rows = rows.old.rows; regs = regs.old.regs }) by cmd.now }
    ensures bits { Gains (stands regs.old.regs) (stands regs.new.regs) out.old.bits.items
        out.new.bits.items }
    ensures mail { out.new.mail ≡ out.old.mail }
    ensures len { regs.new.len ≡ regs.old.len }
    ensures entries { rows.new.entries ≡ rows.old.entries }
    ensures elements { rows.new.elements ≡ rows.old.elements }
{
    match cmd {
        CacheCmd::Read {
            name,
            index,
            old,
            stg,
        } => {
            let asked = Read {
                name,
                index: *index,
                old: *old,
                stg: *stg,
            };
            read::act(rows, regs, gone, by, &asked, out);
        }
        CacheCmd::Write {
            name,
            index,
            body,
            class,
            adj,
            old,
            stg,
            when_reg,
        } => {
            let asked = Write {
                name,
                index: *index,
                body,
                class: *class,
                adj: *adj,
                old: *old,
                stg: *stg,
                when_reg: *when_reg,
            };
            write::act(rows, regs, gone, by, &asked, out);
        }
        CacheCmd::CrossInval { name } => cross_inval::act(regs, by, name, out),
        CacheCmd::RegList => {}
        CacheCmd::Castout { name } => castout::act(rows, by, name),
        CacheCmd::Unlock { name } => unlock::act(rows, name),
        CacheCmd::CoClass { .. } => {}
        CacheCmd::CoStats => {}
        CacheCmd::DirInfo { .. } => {}
        CacheCmd::Delete { name } => delete::act(rows, regs, name, out),
        CacheCmd::StgStats { .. } => {}
    }
}
