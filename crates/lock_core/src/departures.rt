//! The resources for which the grant rule runs when a connector departs.
ghost use Rattle.std.specs.Prelude.{◌≡◌, ◌+◌, ◌≤◌, ◌++◌, ◌∷◌, IfOk, OnOk, filter, length, map};
ghost use Rattle.lock_core.specs.Awaited.{is_awaited, awaited_of, begins_with, each_once};
ghost use Rattle.lock_core.specs.Stock.{HasRoom};
ghost use Rattle.lock_model.specs.Departures.{departure_of};
ghost use Rattle.lock_model.specs.Interests.{is_by};
ghost use Rattle.lock_queue.specs.Waiters as queue;

use crate::grants::grant_each;
use crate::locks::Locks;
use cf_types::{ConnId, Effects, NoMemory, Resource};
use lock_queue::Queue;
use std::alloc::Global;

// Those of these resources that anybody waits for, behind others.
fn push_awaited(
    list: &mut Vec<Resource>,
    queue: &Queue,
    resources: &[Resource],
) -> Result<(), NoMemory>
    ensures { OnOk result (list.new.items
        ≡ list.old.items ++ filter (is_awaited queue.now.waiters) resources.now) }
{
    for r in resources {
        if queue.first(r).is_some() {
            list.push(*r)?;
        }
    }
    Ok(())
}

// What a connector owns and then what it waits for, where anybody waits for it.
fn parts_of(alloc: Global, locks: &Locks, conn: ConnId) -> Result<Vec<Resource>, NoMemory>
    ensures { IfOk result (λ list. list.items ≡ filter (is_awaited locks.now.content.waiters)
        (map (λ interest. interest.held.r) (filter (is_by conn) locks.now.content.interests)
        ++ map (λ w. w.r) (filter (queue.is_by conn) locks.now.content.waiters))) }
{
    let owned = locks.interests.of(alloc, conn)?;
    let awaited = locks.queue.of(alloc, conn)?;
    let mut list = Vec::new(alloc);
    push_awaited(&mut list, &locks.queue, &owned)?;
    push_awaited(&mut list, &locks.queue, &awaited)?;
    Ok(list)
}

// Whether these begin with a resource.
fn begins_with(list: &[Resource], r: &Resource) -> bool
    ensures { result ≡ begins_with r.now list.now }
{
    match list.first() {
        Some(first) => *r == *first,
        None => false,
    }
}

// A resource behind others, unless the next one of a sorted list is the same.
#[tactic(auto, unfolding(crate::specs::Awaited::each_once))]
fn note(list: &mut Vec<Resource>, r: &Resource, rest: &[Resource]) -> Result<(), NoMemory>
    ensures { OnOk result (list.new.items ++ each_once rest.now
        ≡ list.old.items ++ each_once (r.now ∷ rest.now)) }
{
    if !begins_with(rest, r) {
        list.push(*r)?;
    }
    Ok(())
}

// A sorted list with each resource once.
#[tactic(auto, using(crate::proofs::OnceLaws::once_told))]
fn each_once(alloc: Global, sorted: &[Resource]) -> Result<Vec<Resource>, NoMemory>
    ensures { IfOk result (λ list. list.items ≡ each_once sorted.now) }
{
    let mut list = Vec::new(alloc);
    for k in 0..sorted.len() {
        note(&mut list, &sorted[k], &sorted[k + 1..])?;
    }
    Ok(list)
}

/// The resources that a connector owns or waits for and that anybody waits for, each once, in their
/// order. The grant rule does nothing for any other one.
pub(crate) fn awaited_of(
    alloc: Global,
    locks: &Locks,
    conn: ConnId,
) -> Result<Vec<Resource>, NoMemory>
    ensures { IfOk result (λ list. list.items ≡ awaited_of conn locks.now.content) }
{
    let mut parts = parts_of(alloc, locks, conn)?;
    parts.sort()?;
    each_once(alloc, &parts)
}

/// A connector departs, and the grant rule runs for its resources that anybody waits for.
pub(crate) fn depart(
    locks: &mut Locks,
    resources: &[Resource],
    conn: ConnId,
    keep: bool,
    out: &mut Effects,
)
    requires resources { resources.now ≡ awaited_of conn locks.old.content }
    requires room { HasRoom 0 locks.old }
    requires letters { length (departure_of conn keep locks.old.content).letters ≤
        out.old.mail.room }
    ensures content { locks.new.content ≡ (departure_of conn keep locks.old.content).content }
    ensures mail { out.new.mail.items ≡ out.old.mail.items
        ++ (departure_of conn keep locks.old.content).letters }
    ensures letters { out.new.mail.room
        + length (departure_of conn keep locks.old.content).letters ≡ out.old.mail.room }
    ensures bits { out.new.bits ≡ out.old.bits }
    ensures limit { locks.new.limit ≡ locks.old.limit }
{
    locks.leave(conn, keep);
    grant_each(locks, resources, out);
}
