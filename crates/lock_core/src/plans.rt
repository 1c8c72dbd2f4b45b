//! What is got ready for a command, and what is done then.
ghost use Rattle.std.specs.Prelude.{◌≡◌, ◌+◌, ◌≤◌, ◌++◌, IfOk, length};
ghost use Rattle.std.specs.Result.{result_err};
ghost use Rattle.lock_model.specs.Step.{cause, reply, after};
ghost use Rattle.lock_core.specs.Plans.{read_by, plan_for};
ghost use Rattle.lock_core.specs.Stock.{HasRoom};

use crate::commands::{alter, decide, obtain, release, rt_delete, rt_read};
use crate::locks::Locks;
use crate::refusals::Judged;
use cf_types::{
    Adjunct, Caps, ConnId, Effects, Listing, LockCmd, LockReply, NoMemory, Refusal, Resource,
};
use lock_interests::Interests;
use std::alloc::Global;

/// What is got ready for a command: whether it is refused, and the record data that it reads.
#[derive(Drop)]
pub(crate) struct Plan {
    pub refusal: Option<Refusal>,
    pub records: Listing<(Resource, bool, Adjunct)>,
}

// Why a command is refused.
fn refusal(caps: Caps, locks: &Locks, by: ConnId, cmd: &LockCmd) -> Judged
    ensures { result_err result ≡ cause caps locks.now.content by cmd.now }
{
    match cmd {
        LockCmd::Obtain { r, excl, rec } => {
            obtain::refusal(caps, locks, &obtain::request(by, *r, *excl, *rec))
        }
        LockCmd::Alter { r, excl, rec } => {
            alter::refusal(caps, locks, &alter::request(by, *r, *excl, *rec))
        }
        LockCmd::Release { r } => release::refusal(locks, by, r),
        LockCmd::Decide { r, conn, how: _ } => decide::refusal(locks, by, r, *conn),
        LockCmd::RtRead { conn } => rt_read::refusal(&locks.interests, *conn),
        LockCmd::RtDelete { conn, r } => rt_delete::refusal(&locks.interests, r, *conn),
    }
}

// The record data that a command reads.
fn read(
    alloc: Global,
    interests: &Interests,
    cmd: &LockCmd,
) -> Result<Listing<(Resource, bool, Adjunct)>, NoMemory>
    ensures { IfOk result (λ list. list ≡ read_by cmd.now interests.now.interests) }
{
    match cmd {
        LockCmd::RtRead { conn } => interests.read(alloc, *conn),
        _ => Ok(Listing::new(alloc)),
    }
}

/// What is got ready for a command.
pub(crate) fn make_plan(
    alloc: Global,
    caps: Caps,
    locks: &Locks,
    by: ConnId,
    cmd: &LockCmd,
) -> Result<Plan, NoMemory>
    ensures { IfOk result (λ plan. plan ≡ plan_for caps locks.now.content by cmd.now) }
{
    let records = read(alloc, &locks.interests, cmd)?;
    Ok(Plan {
        refusal: refusal(caps, locks, by, cmd).err(),
        records,
    })
}

/// Does a command that isn't refused, with the record data that it reads.
pub(crate) fn act(
    locks: &mut Locks,
    records: Listing<(Resource, bool, Adjunct)>,
    by: ConnId,
    cmd: &LockCmd,
    out: &mut Effects,
) -> LockReply
    requires room { HasRoom 1 locks.old }
    requires waiter { 1 ≤ locks.old.waiter_room }
    requires letters { length (after locks.old.content by cmd.now).letters ≤ out.old.mail.room }
    requires read { records ≡ read_by cmd.now locks.old.content.interests }
    ensures reply { result ≡ reply locks.old.content by cmd.now }
    ensures content { locks.new.content ≡ (after locks.old.content by cmd.now).content }
    ensures mail { out.new.mail.items ≡ out.old.mail.items
        ++ (after locks.old.content by cmd.now).letters }
    ensures letters { out.new.mail.room + length (after locks.old.content by cmd.now).letters ≡
        out.old.mail.room }
    ensures bits { out.new.bits ≡ out.old.bits }
    ensures limit { locks.new.limit ≡ locks.old.limit }
{
    match cmd {
        LockCmd::Obtain { r, excl, rec } => {
            obtain::act(locks, &obtain::request(by, *r, *excl, *rec), out)
        }
        LockCmd::Alter { r, excl, rec } => {
            alter::act(locks, &alter::request(by, *r, *excl, *rec), out)
        }
        LockCmd::Release { r } => {
            release::act(locks, by, r, out);
            LockReply::Ok
        }
        LockCmd::Decide { r, conn, how } => {
            decide::act(locks, *how, r, *conn, out);
            LockReply::Ok
        }
        LockCmd::RtRead { .. } => LockReply::Records(records),
        LockCmd::RtDelete { conn, r } => {
            rt_delete::act(locks, r, *conn, out);
            LockReply::Ok
        }
    }
}
