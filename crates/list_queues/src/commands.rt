//! Commands on sublists, and what those on records do to queues.
ghost use Rattle.std.specs.Prelude.{◌≡◌, ◌≤◌, ◌++◌, IfOk, OnOk, Some, length};
ghost use Rattle.cf_types.specs.Forms.{IsCaller};
ghost use Rattle.cf_types.specs.Gains.{Gains};
ghost use Rattle.cf_types.specs.declared.list_commands.QueueCmd.TheVariants as queue;
ghost use Rattle.engine_api.specs.Meaning.{answer, letters_of, stands_in};
ghost use Rattle.engine_api.specs.Meaning.Wish.{ForCmd};
ghost use Rattle.list_core.specs.EngineView as list;
ghost use Rattle.list_model.specs.Meaning.{list_meaning};
ghost use Rattle.list_model.specs.Sublists.{is_there};
ghost use Rattle.list_queues.specs.EngineView.{held_with, IsRoomy};
ghost use Rattle.queue_model.specs.ListQueues.{queued_lists};
ghost use Rattle.queue_model.specs.Turns.{comers, comers_at, emptied_at, filled_at, turned, turn_for, turning_new, unfilled};

use crate::queues::Queues;
use cf_types::{ConnId, Effects, Key16, ListCmd, NoMemory, QueueReply, Refusal};
use engine_api::Engine;
use list_core::{ListEngine, Sublist, Turning};
use queue_model::Sub;

// Whether a sublist has records.
#[tactic(auto, using(list_model::proofs::SublistLaws::there_count))]
fn is_there(inner: &ListEngine, it: Sublist) -> bool
    ensures { result ≡ is_there inner.now.held.state.lists it.header it.key }
{
    inner.sublist(it.header, &it.key) != 0
}

// A sublist that a command fills, where it has no records yet.
fn unfilled(inner: &ListEngine, it: Option<Sublist>) -> Option<Sublist>
    ensures { result ≡ unfilled inner.now.held.state.lists it }
{
    match it {
        Some(it) => { if is_there(inner, it) { None } else { Some(it) } }
        None => None,
    }
}

// The sublists that a command may turn, where the one that it fills has no records yet.
fn turning_new(inner: &ListEngine, turn: Turning) -> Turning
    ensures { result ≡ turning_new inner.now.held.state.lists turn }
{
    let fills = unfilled(inner, turn.fills);
    Turning {
        empties: turn.empties,
        fills,
    }
}

/// What a command may turn, where there is anything that it could change.
pub(crate) fn turn_for(inner: &ListEngine, queues: &Queues, cmd: &ListCmd) -> Turning
    ensures { result ≡ turn_for queues.now.queued inner.now.held.state cmd.now }
{
    if queues.is_idle() {
        Turning {
            empties: None,
            fills: None,
        }
    } else {
        turning_new(inner, inner.turning(cmd))
    }
}

/// Takes room for the events that a command brings. Want of memory changes nothing.
pub(crate) fn reserve(queues: &mut Queues, turn: &Turning) -> Result<(), NoMemory>
    ensures queued { queues.new.queued ≡ queues.old.queued }
    ensures room { OnOk result (length (comers turn.now queues.old.queued) ≤
        queues.new.event_room) }
{
    match turn.fills {
        Some(it) => queues.reserve(it),
        None => Ok(()),
    }
}

// The sublist that a command may have emptied loses its events if it has no records.
fn empty_at(inner: &ListEngine, queues: &mut Queues, it: Option<Sublist>)
    ensures queued { queues.new.queued
        ≡ emptied_at inner.now.held.state.lists it queues.old.queued }
    ensures monitors { queues.new.queued.monitors ≡ queues.old.queued.monitors }
    ensures room { queues.old.event_room ≤ queues.new.event_room }
{
    if let Some(it) = it
        && !is_there(inner, it)
    {
        queues.empty(it);
    }
}

// Whoever monitors the sublist that a command filled gets an event.
fn fill_at(queues: &mut Queues, it: Option<Sublist>)
    requires { length (comers_at it queues.old.queued.monitors) ≤ queues.old.event_room }
    ensures { queues.new.queued ≡ filled_at it queues.old.queued }
{
    if let Some(it) = it {
        queues.fill(it);
    }
}

// What a command does to queues.
fn turn(inner: &ListEngine, queues: &mut Queues, turn: Turning)
    requires { length (comers turn queues.old.queued) ≤ queues.old.event_room }
    ensures { queues.new.queued ≡ turned inner.now.held.state.lists turn queues.old.queued }
{
    empty_at(inner, queues, turn.empties);
    fill_at(queues, turn.fills);
}

/// Does a command on records that was got ready, with what may turn, or refuses it.
pub(crate) fn act(
    inner: &mut ListEngine,
    queues: &mut Queues,
    planned: Turning,
    by: ConnId,
    cmd: &ListCmd,
    out: &mut Effects,
) -> Result<QueueReply, Refusal>
    requires caller { IsCaller by }
    requires ready { list.IsReady inner.old (ForCmd by cmd.now) out.old }
    requires planned { planned ≡ turn_for queues.old.queued inner.old.held.state cmd.now }
    requires room { length (comers planned queues.old.queued) ≤ queues.old.event_room }
    ensures step { record { reply = result; held = held_with queues.new.queued inner.new.held }
        ≡ answer queued_lists (held_with queues.old.queued inner.old.held) by
        (queue.List cmd.now) }
    ensures bits { Gains (stands_in list_meaning inner.old.held)
        (stands_in list_meaning inner.new.held) out.old.bits.items out.new.bits.items }
    ensures mail { out.new.mail.items ≡ out.old.mail.items ++ letters_of list_meaning
        inner.old.held by cmd.now }
    ensures fits { length (letters_of list_meaning inner.old.held by cmd.now) ≤
        out.old.mail.room }
{
    inner.content_is();
    match inner.apply(by, cmd, out) {
        Ok(reply) => {
            turn(inner, queues, planned);
            Ok(QueueReply::List(reply))
        }
        Err(refusal) => Err(refusal),
    }
}

/// The caller monitors a sublist, or is refused.
pub(crate) fn monitor(
    inner: &ListEngine,
    queues: &mut Queues,
    sub: Sub,
) -> Result<QueueReply, Refusal>
    requires { IsRoomy queues.old }
    ensures { record { reply = result; held = held_with queues.new.queued inner.now.held }
        ≡ answer queued_lists (held_with queues.old.queued inner.now.held) sub.conn
        (queue.MonSub sub.header sub.key) }
{
    match inner.sublist_refusal(sub.header, sub.key) {
        Err(refusal) => Err(refusal),
        Ok(()) => {
            let it = Sublist {
                header: sub.header,
                key: sub.key,
            };
            let full = is_there(inner, it);
            queues.monitor(sub, full);
            Ok(if full {
                QueueReply::NotEmpty
            } else {
                QueueReply::Empty
            })
        }
    }
}

/// The caller monitors a sublist no longer, or is refused.
pub(crate) fn unmonitor(
    inner: &ListEngine,
    queues: &mut Queues,
    sub: Sub,
) -> Result<QueueReply, Refusal>
    ensures { record { reply = result; held = held_with queues.new.queued inner.now.held }
        ≡ answer queued_lists (held_with queues.old.queued inner.now.held) sub.conn
        (queue.UnmonSub sub.header sub.key) }
{
    match inner.sublist_refusal(sub.header, sub.key) {
        Err(refusal) => Err(refusal),
        Ok(()) => {
            let n = if queues.has(sub) { 1 } else { 0 };
            queues.unmonitor(sub);
            Ok(QueueReply::Ok { n })
        }
    }
}

/// The first event of the caller's queue is taken, or the caller is refused.
pub(crate) fn dequeue(
    inner: &ListEngine,
    queues: &mut Queues,
    by: ConnId,
) -> Result<QueueReply, Refusal>
    ensures { record { reply = result; held = held_with queues.new.queued inner.now.held }
        ≡ answer queued_lists (held_with queues.old.queued inner.now.held) by queue.Deq }
{
    match queues.first(by) {
        Some(sub) => {
            queues.take(sub);
            Ok(QueueReply::Sublist {
                header: sub.header,
                key: sub.key,
            })
        }
        None => Err(Refusal::NoQueued),
    }
}
