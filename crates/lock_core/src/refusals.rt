//! Causes of refusals that commands share.
ghost use Rattle.std.specs.Prelude.{◌≡◌, ◌<◌, Option, Some, None, if◌then◌else◌, option_map, is_some};
ghost use Rattle.std.specs.Result.{result_err};
ghost use Rattle.cf_types.specs.declared.refusals.Refusal.{Refusal};
ghost use Rattle.cf_types.specs.declared.refusals.Refusal.TheVariants.{AlreadyInterested, NotInterested, NoRecord};
ghost use Rattle.lock_model.specs.LockTable.declared.holdings.Held.{Held};
ghost use Rattle.lock_queue.specs.Waiters.{waits};
ghost use Rattle.lock_model.specs.Interests.{interest_of, manager_of};
ghost use Rattle.lock_model.specs.Refusals.{pending_refusal, interested_refusal, interest_refusal, records_refusal, is_manager, manager_refusal, waiter_refusal};
ghost use Rattle.lock_model.specs.Requests as requests;

use crate::locks::Locks;
use cf_types::{Caps, ConnId, Refusal, Resource};
use lock_interests::Interests;
use lock_model::tables::Held;
use lock_queue::{Queue, Waiter};

/// What judging a command comes to: why it is refused, if it is.
pub(crate) type Judged = Result<(), Refusal>;

// Whether a connector waits for a resource.
#[tactic(auto, using(lock_interests::proofs::OwnerLaws::found_any))]
fn waits(queue: &Queue, r: &Resource, conn: ConnId) -> bool
    ensures { result ≡ waits r.now conn queue.now.waiters }
{
    queue.find(r, conn).is_some()
}

/// The connector waits for the resource.
pub(crate) fn pending_refusal(queue: &Queue, r: &Resource, conn: ConnId) -> Judged
    ensures { result_err result ≡ pending_refusal r.now conn queue.now.waiters }
{
    if waits(queue, r, conn) {
        Err(Refusal::StillPending)
    } else {
        Ok(())
    }
}

/// The connector doesn't wait for the resource.
pub(crate) fn waiter_refusal(queue: &Queue, r: &Resource, conn: ConnId) -> Judged
    ensures { result_err result ≡ waiter_refusal r.now conn queue.now.waiters }
{
    if waits(queue, r, conn) {
        Ok(())
    } else {
        Err(Refusal::NoWaiter)
    }
}

// There is an interest.
fn held_refusal(held: Option<&Held>) -> Judged
    ensures { result_err result ≡ option_map (λ (held : Held). AlreadyInterested held.excl)
        (option_map (λ held. held.now) held.entry) }
{
    match held {
        Some(held) => Err(Refusal::AlreadyInterested { excl: held.excl }),
        None => Ok(()),
    }
}

/// The connector has an interest in the resource.
pub(crate) fn interested_refusal(interests: &Interests, r: &Resource, conn: ConnId) -> Judged
    ensures { result_err result
        ≡ interested_refusal (interest_of r.now conn interests.now.interests) }
{
    held_refusal(interests.held_of(r, conn))
}

// There is no interest.
fn no_held_refusal(held: Option<&Held>) -> Judged
    ensures { result_err result
        ≡ (if is_some (option_map (λ held. held.now) held.entry) then None else Some
        NotInterested) }
{
    match held {
        Some(_) => Ok(()),
        None => Err(Refusal::NotInterested),
    }
}

/// The connector has no interest in the resource.
pub(crate) fn interest_refusal(interests: &Interests, r: &Resource, conn: ConnId) -> Judged
    ensures { result_err result
        ≡ interest_refusal (interest_of r.now conn interests.now.interests) }
{
    no_held_refusal(interests.held_of(r, conn))
}

// Whether the caller is the manager.
fn is_manager(by: ConnId, manager: Option<ConnId>) -> bool
    ensures { result ≡ is_manager by manager }
{
    match manager {
        Some(conn) => conn == by,
        None => false,
    }
}

/// The caller isn't the manager of the resource.
pub(crate) fn manager_refusal(interests: &Interests, by: ConnId, r: &Resource) -> Judged
    ensures { result_err result ≡ manager_refusal by (manager_of r.now interests.now.interests) }
{
    let manager = interests.manager_of(r);
    if is_manager(by, manager) {
        Ok(())
    } else {
        Err(Refusal::NotManager { manager })
    }
}

/// There would be more record data than the structure may have, where a request is granted at once
/// or waits.
pub(crate) fn records_refusal(caps: Caps, locks: &Locks, w: &Waiter, at_once: bool) -> Judged
    ensures { result_err result
        ≡ records_refusal caps (requests.content_asked at_once w.now locks.now.content) }
{
    if locks.records_after(w, at_once) <= caps.elements as usize {
        Ok(())
    } else {
        Err(Refusal::RecordsFull {
            limit: caps.elements,
        })
    }
}

/// There is none with such record data.
pub(crate) fn record_refusal(found: bool) -> Judged
    ensures { result_err result ≡ (if found then None else Some NoRecord) }
{
    if found {
        Ok(())
    } else {
        Err(Refusal::NoRecord)
    }
}
