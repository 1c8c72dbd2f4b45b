//! Interests and waiters, and what changes both.
ghost use Rattle.std.specs.Prelude.{◌≡◌, ◌+◌, ◌<◌, ◌≤◌, ◌++◌, ◌∷◌, [], IfOk, OnOk, length};
ghost use Rattle.lock_queue.specs.Waiters.{waits, waiter_of, waiters_with, IsQueue};
ghost use Rattle.lock_model.specs.Contents.{records_of, records_waiting, records_in};
ghost use Rattle.lock_model.specs.Grants.{held_by, content_granted, granted_letter};
ghost use Rattle.lock_model.specs.Requests as requests;
ghost use Rattle.lock_core.specs.Stock.{HasRoom, next_of};
ghost use Rattle.lock_core.specs.Orders.{order_of};

use cf_types::{Adjunct, Caps, ConnId, Effects, Event, Letter, LockReply, NoMemory, Resource};
use lock_interests::{Interests, held_by, records_of};
use lock_model::LockItem;
use lock_model::tables::Held;
use lock_queue::{Queue, Waiter};
use std::alloc::Global;
use std::marker::Model;

/// The interests and the waiters of a lock structure. Contracts see the content that they make, and
/// for how many more there is room.
#[derive(Drop)]
pub(crate) struct Locks {
    pub interests: Interests,
    pub queue: Queue,
}

impl Model for Locks {
    ghost use Rattle.lock_core.specs.Stock.{Stock, stock};

    ghost Value = { Stock };

    ghost view = { stock };
}

/// The resources of all interests and of all waiters, in their order. Contracts see the two lists.
#[derive(Drop)]
pub struct ItemOrder {
    owned: Vec<Resource>,
    awaited: Vec<Resource>,
}

impl Model for ItemOrder {
    ghost use Rattle.lock_core.specs.Orders.{OrderView, order_view};

    ghost Value = { OrderView };

    ghost view = { order_view };
}

// Whether a waiter may own its resource.
fn where_grantable(interests: &Interests, first: Option<&Waiter>) -> Option<Waiter>
    ensures { result ≡ if_grantable interests.now.interests (option_map (λ w. w.now) first.entry) }
{
    match first {
        Some(w) => {
            if interests.may_own(&held_by(w)) {
                Some(*w)
            } else {
                None
            }
        }
        None => None,
    }
}

ghost use Rattle.std.specs.Prelude.{Option, Some, None, true, false, is_some, option_map};
ghost use Rattle.lock_queue.specs.Waiters.{recorded_of, waiters_without_conn};
ghost use Rattle.lock_model.specs.Interests.{interests_without};
ghost use Rattle.lock_model.specs.Departures.{interests_left, with_returned};
ghost use Rattle.lock_model.specs.Commands.Decide as decide;
ghost use Rattle.lock_model.specs.Commands.RtDelete as rt_delete;
ghost use Rattle.std.specs.Prelude.{OnErr, IfErr, slice_get};
ghost use Rattle.lock_model.specs.declared.items.LockItem.TheVariants.{Waits};
ghost use Rattle.lock_model.specs.Interests.{AreInterests, interests_with};
ghost use Rattle.lock_model.specs.Contents.{items, without_last, content_without_last};
ghost use Rattle.lock_core.specs.Stock.{if_grantable, content_placed};

// The manager, if there is one, is told of one that waits.
fn tell_contention(manager: Option<ConnId>, w: &Waiter, out: &mut Effects)
    requires { length (requests.contention w.now manager) ≤ out.old.mail.room }
    ensures mail { out.new.mail.items ≡ out.old.mail.items ++ requests.contention w.now manager }
    ensures letters { out.new.mail.room + length (requests.contention w.now manager) ≡
        out.old.mail.room }
    ensures bits { out.new.bits ≡ out.old.bits }
{
    if let Some(to) = manager {
        out.mail.push(Letter {
            to,
            event: Event::Contention {
                r: w.r,
                conn: w.conn,
            },
        });
    }
}

// The item of a waiter.
fn waiting_item(w: Option<&Waiter>) -> Option<LockItem>
    ensures { result ≡ option_map Waits (option_map (λ w. w.now) w.entry) }
{
    match w {
        Some(w) => Some(LockItem::Waits { w: *w }),
        None => None,
    }
}

// How many waiters have record data.
fn count_waiting(queue: &Queue) -> usize
    ensures count { result ≡ records_waiting queue.now.waiters }
    ensures few { result < 4294967296 }
{
    queue.records() as usize
}

// How many record data a waiter brings, if there is one.
fn records_brought(w: Option<&Waiter>) -> usize
    ensures count { result ≡ recorded_of (option_map (λ w. w.now) w.entry) }
    ensures few { result ≤ 1 }
{
    match w {
        Some(w) => { if w.rec.is_some() { 1 } else { 0 } }
        None => 0,
    }
}

// How many have record data once one more waits.
#[tactic(auto, using(lock_interests::proofs::ReadLaws::records_of_within, crate::proofs::ReadLaws::waiting_told))]
fn count_waiting_with(queue: &Queue, w: &Waiter) -> usize
    ensures count { result ≡ records_waiting (waiters_with w.now queue.now.waiters) }
    ensures few { result ≤ 4294967296 }
{
    let _ = queue.len();
    let had = records_brought(queue.find(&w.r, w.conn));
    count_waiting(queue) - had + records_of(&w.rec)
}

impl Locks {
    /// Nobody owns and nobody waits, in a structure of so many table entries and records.
    pub(crate) fn new(alloc: Global, entries: u32, limit: u32) -> Result<Locks, NoMemory>
        ensures interests { IfOk result (λ made. made.content.interests ≡ []) }
        ensures waiters { IfOk result (λ made. made.content.waiters ≡ []) }
        ensures limit { IfOk result (λ made. made.limit ≡ limit) }
    {
        let interests = Interests::new(alloc, entries, limit)?;
        let queue = Queue::new(alloc, entries)?;
        Ok(Locks { interests, queue })
    }

    /// The same once more.
    pub(crate) fn copy(&self, alloc: Global) -> Result<Locks, NoMemory>
        ensures content { IfOk result (λ copy. copy.content ≡ self.now.content) }
        ensures limit { IfOk result (λ copy. copy.limit ≡ self.now.limit) }
    {
        let interests = self.interests.copy(alloc)?;
        let queue = self.queue.copy(alloc)?;
        Ok(Locks { interests, queue })
    }

    /// The first of those that wait for a resource, where it may own it.
    pub(crate) fn next(&self, r: &Resource) -> Option<Waiter>
        ensures next { result ≡ next_of r.now self.now.content }
        ensures queue { IsQueue self.now.content.waiters }
    {
        where_grantable(&self.interests, self.queue.first(r))
    }

    /// A waiter is granted, and told so.
    #[tactic(auto, using(crate::proofs::GrantLaws::waits_told))]
    pub(crate) fn grant_one(&mut self, w: &Waiter, out: &mut Effects)
        requires waits { waiter_of w.now.r w.now.conn self.old.content.waiters ≡ Some w.now }
        requires queue { IsQueue self.old.content.waiters }
        requires room { HasRoom 0 self.old }
        requires letter { 1 ≤ out.old.mail.room }
        ensures content { self.new.content ≡ content_granted w.now self.old.content }
        ensures mail { out.new.mail.items ≡ out.old.mail.items ++ granted_letter w.now ∷ [] }
        ensures letters { out.new.mail.room + 1 ≡ out.old.mail.room }
        ensures bits { out.new.bits ≡ out.old.bits }
        ensures room { HasRoom 0 self.new }
        ensures fewer { length self.new.content.waiters + 1 ≡ length self.old.content.waiters }
        ensures limit { self.new.limit ≡ self.old.limit }
    {
        self.interests.grant(w);
        let _ = self.queue.remove(&w.r, w.conn);
        out.mail.push(Letter {
            to: w.conn,
            event: Event::Granted {
                r: w.r,
                excl: w.excl,
            },
        });
    }

    /// A request is granted at once.
    pub(crate) fn grant_at_once(&mut self, w: &Waiter)
        requires owner_room { 1 ≤ self.old.owner_room }
        requires record_room { 1 ≤ self.old.record_room }
        ensures content { self.new.content ≡ requests.content_asked true w.now self.old.content }
        ensures room { HasRoom 1 self.old → HasRoom 0 self.new }
        ensures limit { self.new.limit ≡ self.old.limit }
    {
        self.interests.grant(w);
    }

    /// A request waits, and the manager is told.
    pub(crate) fn wait(&mut self, w: &Waiter, out: &mut Effects) -> LockReply
        requires waiter_room { 1 ≤ self.old.waiter_room }
        requires mail_room { length (requests.contention_letters w.now self.old.content) ≤
            out.old.mail.room }
        ensures reply { result ≡ requests.reply false w.now self.old.content }
        ensures content { self.new.content ≡ requests.content_asked false w.now self.old.content }
        ensures mail { out.new.mail.items ≡ out.old.mail.items ++ requests.contention_letters w.now
            self.old.content }
        ensures letters { out.new.mail.room + length
            (requests.contention_letters w.now self.old.content) ≡ out.old.mail.room }
        ensures bits { out.new.bits ≡ out.old.bits }
        ensures limit { self.new.limit ≡ self.old.limit }
    {
        tell_contention(self.interests.manager_of(&w.r), w, out);
        let place = self.queue.push(*w);
        LockReply::Pending { place }
    }

    /// A connector's interest in a resource goes.
    pub(crate) fn give_up(&mut self, conn: ConnId, r: &Resource)
        ensures content { self.new.content ≡ record self.old.content
            { interests = interests_without r.now conn self.old.content.interests } }
        ensures room { HasRoom 1 self.old → HasRoom 0 self.new }
        ensures limit { self.new.limit ≡ self.old.limit }
    {
        self.interests.remove(r, conn);
    }

    /// A waiter is denied, and told so.
    #[tactic(auto, using(crate::proofs::ReadLaws::fewer))]
    pub(crate) fn deny(&mut self, r: &Resource, conn: ConnId, out: &mut Effects)
        requires room { HasRoom 1 self.old }
        requires letter { 1 ≤ out.old.mail.room }
        ensures content { self.new.content ≡ decide.content_denied r.now conn self.old.content }
        ensures mail { out.new.mail.items ≡ out.old.mail.items ++ decide.denied_letter r.now conn ∷
            [] }
        ensures letters { out.new.mail.room + 1 ≡ out.old.mail.room }
        ensures bits { out.new.bits ≡ out.old.bits }
        ensures room { HasRoom 0 self.new }
        ensures limit { self.new.limit ≡ self.old.limit }
    {
        let _ = self.queue.remove(r, conn);
        out.mail.push(Letter {
            to: conn,
            event: Event::Denied { r: *r },
        });
    }

    /// A connector neither owns a resource nor waits for it any more.
    #[tactic(auto, using(crate::proofs::ReadLaws::fewer))]
    pub(crate) fn end_part(&mut self, r: &Resource, conn: ConnId)
        ensures content { self.new.content ≡ rt_delete.content_unowned r.now conn self.old.content }
        ensures room { HasRoom 1 self.old → HasRoom 0 self.new }
        ensures limit { self.new.limit ≡ self.old.limit }
    {
        self.interests.remove(r, conn);
        let _ = self.queue.remove(r, conn);
    }

    /// The record data of a connector's interest in a resource go.
    pub(crate) fn unrecord(&mut self, r: &Resource, conn: ConnId)
        ensures content { self.new.content ≡ rt_delete.content_unrecorded r.now conn
            self.old.content }
        ensures limit { self.new.limit ≡ self.old.limit }
    {
        self.interests.unrecord(r, conn);
    }

    /// A connector departs: with `keep` its interests with record data stay, and are retained.
    pub(crate) fn leave(&mut self, conn: ConnId, keep: bool)
        ensures interests { self.new.content.interests ≡ interests_left conn keep
            self.old.content.interests }
        ensures waiters { self.new.content.waiters ≡ waiters_without_conn conn
            self.old.content.waiters }
        ensures room { HasRoom 0 self.old → HasRoom 0 self.new }
        ensures fewer { length self.new.content.waiters ≤ length self.old.content.waiters }
        ensures limit { self.new.limit ≡ self.old.limit }
    {
        self.interests.leave(conn, keep);
        self.queue.drop_conn(conn);
    }

    /// How many would have record data once a request is granted at once, or waits.
    pub(crate) fn records_after(&self, w: &Waiter, at_once: bool) -> usize
        ensures { result ≡ records_in (requests.content_asked at_once w.now self.now.content) }
    {
        if at_once {
            self.interests.count_records_granted(w) + count_waiting(&self.queue)
        } else {
            self.interests.count_records() + count_waiting_with(&self.queue, w)
        }
    }

    /// How many own and wait.
    pub(crate) fn count(&self) -> u32
        requires { length self.now.content.interests + length self.now.content.waiters <
            4294967296 }
        ensures { result ≡ length self.now.content.interests + length self.now.content.waiters }
    {
        self.interests.len() + self.queue.len()
    }

    /// How many own, and how many that own or wait have record data.
    pub(crate) fn need(&self) -> Caps
        requires { records_in self.now.content < 4294967296 }
        ensures { result ≡ record {
          entries = length self.now.content.interests;
          elements = records_in self.now.content;
        } }
    {
        let records = self.interests.count_records() + count_waiting(&self.queue);
        Caps {
            entries: self.interests.len(),
            elements: records as u32,
        }
    }

    /// Takes room for all that wait to be granted, for one more to own or wait, and for so many
    /// letters.
    pub(crate) fn reserve(&mut self, letters: usize, out: &mut Effects) -> Result<(), NoMemory>
        requires { records_waiting self.old.content.waiters ≤ self.old.limit }
        ensures content { self.new.content ≡ self.old.content }
        ensures limit { self.new.limit ≡ self.old.limit }
        ensures room { OnOk result (HasRoom 1 self.new) }
        ensures waiter { OnOk result (1 ≤ self.new.waiter_room) }
        ensures letters { OnOk result (letters ≤ out.new.mail.room) }
        ensures few { OnOk result (length self.new.content.interests + length
            self.new.content.waiters < 4294967295) }
        ensures bits { out.new.bits ≡ out.old.bits }
        ensures mail { out.new.mail.items ≡ out.old.mail.items }
    {
        let owners = self.interests.len();
        let waiters = self.queue.len();
        if waiters >= u32::MAX - owners {
            return Err(NoMemory::beyond_counts());
        }
        self.interests.reserve(waiters + 1)?;
        self.queue.room()?;
        out.mail.reserve(letters)
    }

    /// The item at a place, from 0: the interests, and then the waiters.
    pub(crate) fn item(&self, k: u32) -> Option<LockItem>
        ensures { result ≡ slice_get (items self.now.content) k }
    {
        let owners = self.interests.len();
        if k < owners {
            self.interests.at(k)
        } else {
            waiting_item(self.queue.at(k - owners))
        }
    }

    /// The order of the items: the resources of the interests, and of the waiters.
    pub(crate) fn order(&self, alloc: Global) -> Result<ItemOrder, NoMemory>
        ensures { IfOk result (λ order. order ≡ order_of self.now.content) }
    {
        let owned = self.interests.order(alloc)?;
        let awaited = self.queue.order(alloc)?;
        Ok(ItemOrder { owned, awaited })
    }

    /// The item at a place, from 0, found by the order of all.
    pub(crate) fn item_in(&self, order: &ItemOrder, k: u32) -> Option<LockItem>
        requires { order.now ≡ order_of self.now.content }
        ensures { result ≡ slice_get (items self.now.content) k }
    {
        let owners = self.interests.len();
        if k < owners {
            self.interests.at_in(&order.owned, k)
        } else {
            waiting_item(self.queue.at_in(&order.awaited, k - owners))
        }
    }

    /// An item more, in its place. Want of memory hands it back, and is told beside it.
    pub(crate) fn place(&mut self, item: LockItem) -> Result<(), (LockItem, NoMemory)>
        ensures ok { OnOk result (self.new.content ≡ content_placed self.old.content item) }
        ensures err { OnErr result (self.new.content ≡ self.old.content) }
        ensures handed_back { IfErr result (λ back. back.0 ≡ item) }
        ensures few { OnOk result (length self.old.content.interests + length
            self.old.content.waiters < 4294967295) }
        ensures limit { self.new.limit ≡ self.old.limit }
    {
        match self.try_place(&item) {
            Ok(()) => Ok(()),
            Err(refused) => Err((item, refused)),
        }
    }

    // An item more, in its place.
    fn try_place(&mut self, item: &LockItem) -> Result<(), NoMemory>
        ensures ok { OnOk result (self.new.content ≡ content_placed self.old.content item.now) }
        ensures err { OnErr result (self.new.content ≡ self.old.content) }
        ensures few { OnOk result (length self.old.content.interests + length
            self.old.content.waiters < 4294967295) }
        ensures limit { self.new.limit ≡ self.old.limit }
    {
        match item {
            LockItem::Owner { held, rec } => self.place_owner(held, rec),
            LockItem::Waits { w } => self.place_waiter(w),
        }
    }

    /// A connector's interests are retained no more.
    pub(crate) fn back(&mut self, conn: ConnId)
        ensures content { self.new.content ≡ with_returned conn self.old.content }
        ensures limit { self.new.limit ≡ self.old.limit }
    {
        self.interests.back(conn);
    }

    // An owner more, as the last of its resource.
    fn place_owner(&mut self, held: &Held, rec: &Option<Adjunct>) -> Result<(), NoMemory>
        ensures ok { OnOk result (self.new.content ≡ record self.old.content {
          interests = interests_with (record { held = held.now; rec = rec.now })
              self.old.content.interests;
        }) }
        ensures err { OnErr result (self.new.content ≡ self.old.content) }
        ensures few { OnOk result (length self.old.content.interests + length
            self.old.content.waiters < 4294967295) }
        ensures limit { self.new.limit ≡ self.old.limit }
    {
        if self.queue.len() >= u32::MAX - self.interests.len() {
            return Err(NoMemory::beyond_counts());
        }
        self.interests.reserve(1)?;
        self.interests.put(*held, *rec);
        Ok(())
    }

    // A waiter more, in its place.
    fn place_waiter(&mut self, w: &Waiter) -> Result<(), NoMemory>
        ensures ok { OnOk result (self.new.content ≡ record self.old.content
            { waiters = waiters_with w.now self.old.content.waiters }) }
        ensures err { OnErr result (self.new.content ≡ self.old.content) }
        ensures few { OnOk result (length self.old.content.interests + length
            self.old.content.waiters < 4294967295) }
        ensures limit { self.new.limit ≡ self.old.limit }
    {
        if self.queue.len() >= u32::MAX - self.interests.len() {
            return Err(NoMemory::beyond_counts());
        }
        self.queue.room()?;
        let _ = self.queue.push(*w);
        Ok(())
    }

    /// The last item goes: the last waiter, or the last owner where nobody waits.
    pub(crate) fn unplace(&mut self)
        requires owners { AreInterests self.old.content.interests }
        requires some { 0 < length self.old.content.interests + length self.old.content.waiters }
        ensures content { self.new.content ≡ content_without_last self.old.content }
        ensures limit { self.new.limit ≡ self.old.limit }
    {
        if self.queue.len() > 0 {
            self.drop_last_waiter();
        } else {
            self.drop_last_owner();
        }
    }

    // The last waiter goes.
    #[tactic(auto, using(crate::proofs::GrantLaws::waits_told))]
    fn drop_last_waiter(&mut self)
        requires { 0 < length self.old.content.waiters }
        ensures content { self.new.content ≡ record self.old.content
            { waiters = without_last self.old.content.waiters } }
        ensures limit { self.new.limit ≡ self.old.limit }
    {
        let _ = self.queue.len();
        if let Some(last) = self.queue.last().copied() {
            let _ = self.queue.remove(&last.r, last.conn);
        }
    }

    // The last owner goes.
    fn drop_last_owner(&mut self)
        requires owners { AreInterests self.old.content.interests }
        requires some { 0 < length self.old.content.interests }
        ensures content { self.new.content ≡ record self.old.content
            { interests = without_last self.old.content.interests } }
        ensures limit { self.new.limit ≡ self.old.limit }
    {
        self.interests.drop_last();
    }
}
