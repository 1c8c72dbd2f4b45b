//! What is got ready for a command, and what is done then.
ghost use Rattle.std.specs.Prelude.{◌≡◌, ◌^◌, ◌<◌, IfOk, None, false};
ghost use Rattle.std.specs.Result.{result_err};
ghost use Rattle.std.specs.List.{list_any};
ghost use Rattle.cf_types.specs.Forms.{IsCaller};
ghost use Rattle.cf_types.specs.Gains.{Gains};
ghost use Rattle.list_model.specs.ListStore.Lists.{all_records, count_of, is_id};
ghost use Rattle.list_model.specs.Records.{elements_in};
ghost use Rattle.list_model.specs.Contents.{stands};
ghost use Rattle.list_model.specs.Commands.Write as write;
ghost use Rattle.list_model.specs.Step.{cause, reply, after};
ghost use Rattle.list_kept.specs.ContentView.{IsRoomy};
ghost use Rattle.list_kept.specs.Orderly.{IsOrderly};
ghost use Rattle.list_core.specs.Plans.{plan_unless, plan_for, IsPossible};

use crate::commands::write::Wanted;
use crate::commands::{
    Asked, delete, l_controls, lock_reset, lock_set, lock_test, monitor, move_record, read,
    read_list, set_limit, unmonitor, update, write,
};
use crate::refusals::Judged;
use cf_types::{At, Caps, Cond, ConnId, Effects, ListCmd, ListReply, NoMemory, Refusal};
use engine_api::Shape;
use list_kept::Kept;
use std::alloc::Global;

/// What is got ready for a command: its reply.
#[derive(Drop)]
pub(crate) struct Plan {
    pub reply: Result<ListReply, Refusal>,
}

// What a command asks of a record.
fn asked(at: &At, version: &Option<u32>, cond: &Option<Cond>) -> Asked
    ensures { result ≡ record { at = at.now; version = version.now; cond = cond.now } }
{
    Asked {
        at: *at,
        version: *version,
        cond: *cond,
    }
}

// Why a command is refused.
fn refusal(shape: Shape, caps: Caps, kept: &Kept, by: ConnId, cmd: &ListCmd) -> Judged
    requires few { count_of kept.now.content.lists < 2 ^ 32 }
    requires elements { elements_in (all_records kept.now.content.lists) < 2 ^ 32 }
    requires alone { list_any (is_id (write.new_id kept.now.content))
        (all_records kept.now.content.lists) ≡ false }
    ensures { result_err result ≡ cause shape caps kept.now.content by cmd.now }
{
    match cmd {
        ListCmd::Write {
            header,
            head,
            name,
            key,
            body,
            adj,
            cond,
        } => {
            let wanted = Wanted {
                header: *header,
                head: *head,
                name: *name,
                key: *key,
                adj: *adj,
            };
            write::refusal(shape, caps, kept, by, wanted, body, *cond)
        }
        ListCmd::Update {
            at,
            body,
            adj: _,
            version,
            cond,
        } => update::refusal(shape, caps, kept, by, asked(at, version, cond), body),
        ListCmd::Read { at, cond } => read::refusal(shape, kept, by, *at, *cond),
        ListCmd::Move {
            at,
            header,
            head: _,
            key,
            version,
            cond,
        } => move_record::refusal(shape, kept, by, asked(at, version, cond), *header, *key),
        ListCmd::Delete { at, version, cond } => {
            delete::refusal(shape, kept, by, asked(at, version, cond))
        }
        ListCmd::ReadList { header } => read_list::refusal(shape, *header),
        ListCmd::LockSet { lock } => lock_set::refusal(shape, kept, *lock),
        ListCmd::LockReset { lock } => lock_reset::refusal(shape, kept, by, *lock),
        ListCmd::LockTest { lock } => lock_test::refusal(shape, *lock),
        ListCmd::LControls { header } => read_list::refusal(shape, *header),
        ListCmd::SetLimit { header, n: _ } => read_list::refusal(shape, *header),
        ListCmd::Monitor { header, index } => monitor::refusal(shape, kept, by, *header, *index),
        ListCmd::Unmonitor { header } => read_list::refusal(shape, *header),
    }
}

// The reply to a command that isn't refused.
fn reply(alloc: Global, kept: &Kept, by: ConnId, cmd: &ListCmd) -> Result<ListReply, NoMemory>
    ensures { IfOk result (λ told. told ≡ reply kept.now.content by cmd.now) }
{
    match cmd {
        ListCmd::Write { .. } => Ok(write::reply(kept)),
        ListCmd::Update { at, .. } => Ok(update::reply(kept, *at)),
        ListCmd::Read { at, .. } => read::reply(alloc, kept, *at),
        ListCmd::Move { .. } => Ok(ListReply::Ok),
        ListCmd::Delete { at, .. } => Ok(delete::reply(kept, *at)),
        ListCmd::ReadList { header } => read_list::reply(alloc, kept, *header),
        ListCmd::LockSet { .. } => Ok(ListReply::Ok),
        ListCmd::LockReset { .. } => Ok(ListReply::Ok),
        ListCmd::LockTest { lock } => Ok(lock_test::reply(kept, *lock)),
        ListCmd::LControls { header } => Ok(l_controls::reply(kept, *header)),
        ListCmd::SetLimit { .. } => Ok(ListReply::Ok),
        ListCmd::Monitor { header, .. } => Ok(monitor::reply(kept, *header)),
        ListCmd::Unmonitor { header } => Ok(unmonitor::reply(kept, by, *header)),
    }
}

// What is got ready for a command that isn't refused.
fn plan_done(alloc: Global, kept: &Kept, by: ConnId, cmd: &ListCmd) -> Result<Plan, NoMemory>
    ensures { IfOk result (λ plan. plan ≡ plan_unless None kept.now.content by cmd.now) }
{
    let told = reply(alloc, kept, by, cmd)?;
    Ok(Plan { reply: Ok(told) })
}

/// What is got ready for a command.
pub(crate) fn make_plan(
    alloc: Global,
    shape: Shape,
    caps: Caps,
    kept: &Kept,
    by: ConnId,
    cmd: &ListCmd,
) -> Result<Plan, NoMemory>
    requires few { count_of kept.now.content.lists < 2 ^ 32 }
    requires elements { elements_in (all_records kept.now.content.lists) < 2 ^ 32 }
    requires alone { list_any (is_id (write.new_id kept.now.content))
        (all_records kept.now.content.lists) ≡ false }
    ensures { IfOk result (λ plan. plan ≡ plan_for shape caps kept.now.content by cmd.now) }
{
    match refusal(shape, caps, kept, by, cmd) {
        Err(refusal) => Ok(Plan {
            reply: Err(refusal),
        }),
        Ok(()) => plan_done(alloc, kept, by, cmd),
    }
}

/// Does a command that isn't refused.
pub(crate) fn act(kept: &mut Kept, by: ConnId, cmd: &ListCmd, out: &mut Effects)
    requires caller { IsCaller by }
    requires room { IsRoomy kept.old out.old.bits.room }
    requires possible { IsPossible kept.old.vector kept.old.content cmd.now }
    requires orderly { IsOrderly kept.old.elements (after kept.old.content by cmd.now).lists }
    ensures content { kept.new.content ≡ after kept.old.content by cmd.now }
    ensures elements { kept.new.elements ≡ kept.old.elements }
    ensures vector { kept.new.vector ≡ kept.old.vector }
    ensures bits { Gains (stands kept.old.content) (stands kept.new.content) out.old.bits.items
        out.new.bits.items }
    ensures mail { out.new.mail ≡ out.old.mail }
{
    match cmd {
        ListCmd::Write {
            header,
            head,
            name,
            key,
            body,
            adj,
            cond: _,
        } => {
            let wanted = Wanted {
                header: *header,
                head: *head,
                name: *name,
                key: *key,
                adj: *adj,
            };
            write::act(kept, wanted, body, out)
        }
        ListCmd::Update { at, body, adj, .. } => update::act(kept, *at, body, *adj),
        ListCmd::Read { .. } => {}
        ListCmd::Move {
            at,
            header,
            head,
            key,
            version: _,
            cond: _,
        } => move_record::act(kept, *at, *header, *head, *key, out),
        ListCmd::Delete { at, .. } => delete::act(kept, *at, out),
        ListCmd::ReadList { .. } => {}
        ListCmd::LockSet { lock } => lock_set::act(kept, by, *lock),
        ListCmd::LockReset { lock } => lock_reset::act(kept, *lock),
        ListCmd::LockTest { .. } => {}
        ListCmd::LControls { .. } => {}
        ListCmd::SetLimit { header, n } => set_limit::act(kept, *header, *n),
        ListCmd::Monitor { header, index } => monitor::act(kept, by, *header, *index, out),
        ListCmd::Unmonitor { header } => unmonitor::act(kept, by, *header, out),
    }
}
