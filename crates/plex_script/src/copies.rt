ghost use Rattle.std.specs.Prelude.{◌≡◌, IfOk};

use crate::scripts::AnyAsk;
use cf_types::{AlterCmd, CacheCmd, ListCmd, NoMemory, QueueCmd, copy_body, copy_data};
use engine_api::Ask;
use std::alloc::Global;

fn copy_cache(alloc: Global, cmd: &CacheCmd) -> Result<CacheCmd, NoMemory>
    ensures { IfOk result (λ copy. copy ≡ cmd.now) }
{
    match cmd {
        CacheCmd::Read {
            name,
            index,
            old,
            stg,
        } => Ok(CacheCmd::Read {
            name: *name,
            index: *index,
            old: *old,
            stg: *stg,
        }),
        CacheCmd::Write {
            name,
            index,
            body,
            class,
            adj,
            old,
            stg,
            when_reg,
        } => Ok(CacheCmd::Write {
            name: *name,
            index: *index,
            body: copy_body(alloc, body)?,
            class: *class,
            adj: *adj,
            old: *old,
            stg: *stg,
            when_reg: *when_reg,
        }),
        CacheCmd::CrossInval { name } => Ok(CacheCmd::CrossInval { name: *name }),
        CacheCmd::RegList => Ok(CacheCmd::RegList),
        CacheCmd::Castout { name } => Ok(CacheCmd::Castout { name: *name }),
        CacheCmd::Unlock { name } => Ok(CacheCmd::Unlock { name: *name }),
        CacheCmd::CoClass { class } => Ok(CacheCmd::CoClass { class: *class }),
        CacheCmd::CoStats => Ok(CacheCmd::CoStats),
        CacheCmd::DirInfo { name } => Ok(CacheCmd::DirInfo { name: *name }),
        CacheCmd::Delete { name } => Ok(CacheCmd::Delete { name: *name }),
        CacheCmd::StgStats { stg } => Ok(CacheCmd::StgStats { stg: *stg }),
    }
}

fn copy_list(alloc: Global, cmd: &ListCmd) -> Result<ListCmd, NoMemory>
    ensures { IfOk result (λ copy. copy ≡ cmd.now) }
{
    match cmd {
        ListCmd::Write {
            header,
            head,
            name,
            key,
            body,
            adj,
            cond,
        } => Ok(ListCmd::Write {
            header: *header,
            head: *head,
            name: *name,
            key: *key,
            body: copy_data(alloc, body)?,
            adj: *adj,
            cond: *cond,
        }),
        ListCmd::Update {
            at,
            body,
            adj,
            version,
            cond,
        } => Ok(ListCmd::Update {
            at: *at,
            body: copy_data(alloc, body)?,
            adj: *adj,
            version: *version,
            cond: *cond,
        }),
        ListCmd::Read { at, cond } => Ok(ListCmd::Read {
            at: *at,
            cond: *cond,
        }),
        ListCmd::Move {
            at,
            header,
            head,
            key,
            version,
            cond,
        } => Ok(ListCmd::Move {
            at: *at,
            header: *header,
            head: *head,
            key: *key,
            version: *version,
            cond: *cond,
        }),
        ListCmd::Delete { at, version, cond } => Ok(ListCmd::Delete {
            at: *at,
            version: *version,
            cond: *cond,
        }),
        ListCmd::ReadList { header } => Ok(ListCmd::ReadList { header: *header }),
        ListCmd::LockSet { lock } => Ok(ListCmd::LockSet { lock: *lock }),
        ListCmd::LockReset { lock } => Ok(ListCmd::LockReset { lock: *lock }),
        ListCmd::LockTest { lock } => Ok(ListCmd::LockTest { lock: *lock }),
        ListCmd::LControls { header } => Ok(ListCmd::LControls { header: *header }),
        ListCmd::SetLimit { header, n } => Ok(ListCmd::SetLimit {
            header: *header,
            n: *n,
        }),
        ListCmd::Monitor { header, index } => Ok(ListCmd::Monitor {
            header: *header,
            index: *index,
        }),
        ListCmd::Unmonitor { header } => Ok(ListCmd::Unmonitor { header: *header }),
    }
}

fn copy_alter(alloc: Global, cmd: &AlterCmd<CacheCmd>) -> Result<AlterCmd<CacheCmd>, NoMemory>
    ensures { IfOk result (λ copy. copy ≡ cmd.now) }
{
    match cmd {
        AlterCmd::Inner(cmd) => Ok(AlterCmd::Inner(copy_cache(alloc, cmd)?)),
        AlterCmd::Start { caps } => Ok(AlterCmd::Start { caps: *caps }),
        AlterCmd::Step { n } => Ok(AlterCmd::Step { n: *n }),
        AlterCmd::Stop => Ok(AlterCmd::Stop),
    }
}

fn copy_queue(alloc: Global, cmd: &QueueCmd) -> Result<QueueCmd, NoMemory>
    ensures { IfOk result (λ copy. copy ≡ cmd.now) }
{
    match cmd {
        QueueCmd::List(cmd) => Ok(QueueCmd::List(copy_list(alloc, cmd)?)),
        QueueCmd::MonSub { header, key } => Ok(QueueCmd::MonSub {
            header: *header,
            key: *key,
        }),
        QueueCmd::UnmonSub { header, key } => Ok(QueueCmd::UnmonSub {
            header: *header,
            key: *key,
        }),
        QueueCmd::Deq => Ok(QueueCmd::Deq),
    }
}

/// A second call, equal to the first.
pub fn copy_ask(alloc: Global, ask: &AnyAsk) -> Result<AnyAsk, NoMemory>
    ensures { IfOk result (λ copy. copy ≡ ask.now) }
{
    match ask {
        AnyAsk::Cache(Ask::Shell(cmd)) => Ok(AnyAsk::Cache(Ask::Shell(*cmd))),
        AnyAsk::Cache(Ask::Content(cmd)) => {
            Ok(AnyAsk::Cache(Ask::Content(copy_alter(alloc, cmd)?)))
        }
        AnyAsk::List(Ask::Shell(cmd)) => Ok(AnyAsk::List(Ask::Shell(*cmd))),
        AnyAsk::List(Ask::Content(cmd)) => Ok(AnyAsk::List(Ask::Content(copy_queue(alloc, cmd)?))),
        AnyAsk::Lock(Ask::Shell(cmd)) => Ok(AnyAsk::Lock(Ask::Shell(*cmd))),
        AnyAsk::Lock(Ask::Content(cmd)) => Ok(AnyAsk::Lock(Ask::Content(*cmd))),
    }
}
