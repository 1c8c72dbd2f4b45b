//! Interests with their record data.
ghost use Rattle.std.specs.Prelude.{◌≡◌, ◌+◌, ◌≤◌, ◌&&◌, ◌||◌, [], IfOk, OnOk, length, filter, ◌==◌, find, map, not, is_some, option_map};
ghost use Rattle.std.specs.List.{list_any, list_all};
ghost use Rattle.lock_table.specs.EntryView.{owners_left};
ghost use Rattle.lock_table.specs.declared.holdings.Held.{Held};
ghost use Rattle.cf_types.specs.declared.resources.Resource.{Resource};
ghost use Rattle.lock_record.specs.declared.recorded.Record.{Record};
ghost use Rattle.cf_lists.specs.Pairwise.{pairwise};
ghost use Rattle.lock_table.specs.Holdings.{are_apart};
ghost use Rattle.lock_model.specs.Interests.{are_compatible, may_own, manager_of, interest_of, has_interest, interests_with, interests_without, interests_changed};
ghost use Rattle.lock_model.specs.Contents.{records_of, records_owned};
ghost use Rattle.lock_model.specs.Commands.RtRead as rt_read;
ghost use Rattle.lock_model.specs.Commands.RtDelete as rt_delete;
ghost use Rattle.lock_model.specs.Grants.{held_by, interests_granted};
ghost use Rattle.lock_interests.specs.InterestsView.{records_put, records_given};

use cf_types::{Adjunct, ConnId, Effects, Event, Letter, Listing, NoMemory, Resource};
use lock_model::LockItem;
use lock_model::queues::Waiter;
use lock_record::Records;
use lock_table::{Held, Owners, Table};
use std::alloc::Global;
use std::marker::Model;

/// The interests of a lock structure with their record data: the owners in a table, and the record
/// data in a list of their own. Contracts see the list of interests, by resource and then in
/// standing order; for how many more interests, and for how many more record data, there is room;
/// and how many record data the structure may have.
#[derive(Drop)]
pub struct Interests {
    owners: Table,
    records: Records,
}

impl Model for Interests {
    ghost use Rattle.lock_interests.specs.InterestsView.{InterestsView, interests_view, AreOwned};

    ghost Value = { InterestsView };

    ghost view = { interests_view };

    ghost invariant = { λ i. AreOwned i.owners.owners i.records.records };
}

// Puts a connector's record data for a resource, or takes them away where none are given.
fn put_record(records: &mut Records, r: &Resource, conn: ConnId, rec: Option<Adjunct>)
    requires { records_of rec ≤ records.old.room }
    ensures records { records.new.records ≡ records_put r.now conn rec records.old.records }
    ensures limit { records.new.limit ≡ records.old.limit }
    ensures room { records.old.room ≤ records.new.room + records_of rec }
{
    match rec {
        Some(rec) => records.put(*r, conn, rec),
        None => {
            let _ = records.remove(r, conn);
        }
    }
}

// Puts a connector's record data for a resource, where they are given.
fn give_record(records: &mut Records, r: &Resource, conn: ConnId, rec: Option<Adjunct>)
    requires { records_of rec ≤ records.old.room }
    ensures records { records.new.records ≡ records_given r.now conn rec records.old.records }
    ensures limit { records.new.limit ≡ records.old.limit }
    ensures room { records.old.room ≤ records.new.room + records_of rec }
{
    if let Some(rec) = rec {
        records.put(*r, conn, rec);
    }
}

impl Interests {
    /// No interests, for a structure of so many table entries, whose number changes no answer, and
    /// of `limit` record data. It takes no memory yet.
    pub fn new(alloc: Global, entries: u32, limit: u32) -> Result<Interests, NoMemory>
        ensures interests { IfOk result (λ made. made.interests ≡ []) }
        ensures limit { IfOk result (λ made. made.limit ≡ limit) }
    {
        let owners = Table::new(alloc, entries)?;
        let records = Records::new(alloc, limit)?;
        Ok(Interests { owners, records })
    }

    /// The same interests and record data once more, with the same limit.
    pub fn copy(&self, alloc: Global) -> Result<Interests, NoMemory>
        ensures interests { IfOk result (λ copy. copy.interests ≡ self.now.interests) }
        ensures limit { IfOk result (λ copy. copy.limit ≡ self.now.limit) }
    {
        let owners = self.owners.copy(alloc)?;
        let records = self.records.copy(alloc)?;
        Ok(Interests { owners, records })
    }

    /// The resources of all interests, in their order: what a copy of all takes once.
    pub fn order(&self, alloc: Global) -> Result<Vec<Resource>, NoMemory>
        ensures { IfOk result (λ order. order.items ≡ map (λ interest. interest.held.r)
            self.now.interests) }
    {
        self.owners.order(alloc)
    }

    /// The resources that a connector has an interest in, in their order.
    #[tactic(auto, using(crate::proofs::OwnerLaws::reads_told))]
    pub fn of(&self, alloc: Global, conn: ConnId) -> Result<Vec<Resource>, NoMemory>
        ensures { IfOk result (λ list. list.items ≡ map (λ interest. interest.held.r)
            (filter (is_by conn) self.now.interests)) }
    {
        self.owners.of(alloc, conn)
    }

    /// Whether a connector may own a resource in a state beside all its owners: each of those is
    /// the connector itself, or both share the resource.
    #[tactic(auto, using(crate::proofs::ReadLaws::may_own_beside))]
    pub fn may_own(&self, held: &Held) -> bool
        ensures { result ≡ may_own held.now self.now.interests }
    {
        are_all_compatible(self.owners.owners(&held.r), held)
    }

    /// The manager of a resource: its first owner that isn't retained. None where there is no such
    /// owner.
    #[tactic(auto, using(crate::proofs::OwnerLaws::reads_told))]
    pub fn manager_of(&self, r: &Resource) -> Option<ConnId>
        ensures { result ≡ manager_of r.now self.now.interests }
    {
        conn_of(first_active(self.owners.owners(r)))
    }

    /// A connector's interest in a resource, without its record data. None where the connector has
    /// no interest in it.
    #[tactic(auto, using(crate::proofs::OwnerLaws::find_both, crate::proofs::OwnerLaws::reads_told))]
    pub fn held_of(&self, r: &Resource, conn: ConnId) -> Option<&Held>
        ensures { option_map (λ held. held.now) result
            ≡ option_map (λ interest. interest.held) (interest_of r.now conn self.now.interests) }
    {
        find_by(self.owners.owners(r), conn)
    }

    /// Whether a connector has an interest with record data, in whatever resource.
    #[tactic(auto, using(crate::proofs::OwnerLaws::records_told))]
    pub fn has_records(&self, conn: ConnId) -> bool
        ensures { result ≡ list_any (rt_read.is_recorded conn) self.now.interests }
    {
        self.records.has_of(conn)
    }

    /// Whether a connector has an interest in a resource, with record data.
    #[tactic(auto, using(crate::proofs::OwnerLaws::record_some, crate::proofs::OwnerLaws::records_told))]
    pub fn has_record(&self, r: &Resource, conn: ConnId) -> bool
        ensures { result ≡ list_any (rt_delete.is_recorded r.now conn) self.now.interests }
    {
        self.records.get(r, conn).is_some()
    }

    /// Whether a connector has a retained interest in a resource.
    pub fn is_retained(&self, r: &Resource, conn: ConnId) -> bool
        ensures { result ≡ rt_delete.is_retained r.now conn self.now.interests }
    {
        let _ = self.owners.len();
        is_held_retained(find_by(self.owners.owners(r), conn))
    }

    /// How many letters `notify` sends.
    #[tactic(auto, using(crate::proofs::OwnerLaws::letters_fewer))]
    pub fn count_told(&self, r: &Resource, conn: ConnId) -> usize
        ensures { result ≡ length (decide.notify_letters r.now conn self.now.interests) }
    {
        let _ = self.owners.len();
        count_told(self.owners.owners(r), r, conn)
    }

    /// Tells each owner of a resource that isn't retained that the connector `conn` waits for it,
    /// by a letter; `conn` itself gets none. `out` must have room for these letters.
    #[tactic(auto, using(crate::proofs::OwnerLaws::letters_fewer))]
    pub fn notify(&self, r: &Resource, conn: ConnId, out: &mut Effects)
        requires { length (decide.notify_letters r.now conn self.now.interests) ≤
            out.old.mail.room }
        ensures mail { out.new.mail.items ≡ out.old.mail.items ++ decide.notify_letters r.now conn
            self.now.interests }
        ensures letters { out.new.mail.room + length
            (decide.notify_letters r.now conn self.now.interests) ≡ out.old.mail.room }
        ensures bits { out.new.bits ≡ out.old.bits }
    {
        notify(self.owners.owners(r), r, conn, out);
    }

    /// A connector's interests with record data, by resource: each resource, whether the connector
    /// owns it exclusively, and the record data.
    #[tactic(auto, using(crate::proofs::OwnerLaws::reads_told))]
    pub fn read(
        &self,
        alloc: Global,
        conn: ConnId,
    ) -> Result<Listing<(Resource, bool, Adjunct)>, NoMemory>
        ensures { IfOk result (λ list. list ≡ filter_map rt_read.record_in
            (filter (is_by conn) self.now.interests)) }
    {
        let _ = self.owners.len();
        let list = read(alloc, &self.owners, &self.records, conn)?;
        Ok(Listing::from_vec(list))
    }

    /// The interest at a place, from 0, with its record data, by resource and then in standing
    /// order. None past the end.
    pub fn at(&self, k: u32) -> Option<LockItem>
        ensures { result ≡ option_map owner (slice_get self.now.interests k) }
    {
        match self.owners.at(k) {
            Some(held) => Some(LockItem::Owner {
                held: *held,
                rec: self.records.get(&held.r, held.conn).copied(),
            }),
            None => None,
        }
    }

    /// The interest at a place, from 0, with its record data, found by the order of all. None past
    /// the end.
    #[tactic(auto, using(crate::proofs::OwnerLaws::reads_told))]
    pub fn at_in(&self, order: &[Resource], k: u32) -> Option<LockItem>
        requires { order.now ≡ map (λ interest. interest.held.r) self.now.interests }
        ensures { result ≡ option_map owner (slice_get self.now.interests k) }
    {
        match self.owners.at_in(order, k) {
            Some(held) => Some(LockItem::Owner {
                held: *held,
                rec: self.records.get(&held.r, held.conn).copied(),
            }),
            None => None,
        }
    }

    /// How many interests have record data.
    #[tactic(auto, using(crate::proofs::CountLaws::records_counted))]
    pub fn count_records(&self) -> usize
        ensures count { result ≡ records_owned self.now.interests }
        ensures few { result < 4294967296 }
    {
        // Each record datum is of one owner, since no two owners are the same.
        let _ = self.owners.len();
        self.records.count() as usize
    }

    /// How many interests would have record data once a waiter is granted.
    pub fn count_records_granted(&self, w: &Waiter) -> usize
        ensures count { result ≡ records_owned (interests_granted w.now self.now.interests) }
        ensures few { result ≤ 4294967296 }
    {
        if w.alter {
            self.count_records_altered(w)
        } else {
            self.count_records_with(w)
        }
    }

    // How many interests would have record data once this waiter is an owner.
    fn count_records_with(&self, w: &Waiter) -> usize
        ensures count { result ≡ records_owned (interests_with
            (record { held = held_by w.now; rec = w.now.rec }) self.now.interests) }
        ensures few { result ≤ 4294967296 }
    {
        let _ = self.owners.len();
        self.records.count_others(&w.r, w.conn) as usize + records_of(&w.rec)
    }

    // How many interests would have record data once this waiter's interest is altered.
    #[tactic(auto, using(crate::proofs::CountLaws::counts_told))]
    fn count_records_altered(&self, w: &Waiter) -> usize
        ensures count { result ≡ records_owned (interests_changed w.now.r w.now.conn
            (with_alteration w.now) self.now.interests) }
        ensures few { result ≤ 4294967296 }
    {
        let _ = self.owners.len();
        if self.is_given(w) {
            self.records.count_others(&w.r, w.conn) as usize + 1
        } else {
            self.records.count() as usize
        }
    }

    // Whether a waiter's interest stands, and is given record data.
    fn is_given(&self, w: &Waiter) -> bool
        ensures { result ≡ is_some w.now.rec && has_interest w.now.r w.now.conn
            self.now.interests }
    {
        w.rec.is_some() && self.has_interest(&w.r, w.conn)
    }

    // Whether a connector has an interest in a resource.
    #[tactic(auto, using(crate::proofs::OwnerLaws::found_any, crate::proofs::OwnerLaws::find_both, crate::proofs::OwnerLaws::reads_told))]
    fn has_interest(&self, r: &Resource, conn: ConnId) -> bool
        ensures { result ≡ has_interest r.now conn self.now.interests }
    {
        find_by(self.owners.owners(r), conn).is_some()
    }

    /// How many interests there are.
    pub fn len(&self) -> u32
        ensures { result ≡ length self.now.interests }
    {
        self.owners.len()
    }

    /// Takes room for so many interests more, and for as many record data as the structure may
    /// have and one more. Want of memory changes no interest.
    pub fn reserve(&mut self, adds: u32) -> Result<(), NoMemory>
        ensures interests { self.new.interests ≡ self.old.interests }
        ensures limit { self.new.limit ≡ self.old.limit }
        ensures owner_room { OnOk result (adds ≤ self.new.owner_room) }
        ensures record_room { OnOk result (self.new.limit + 1 ≤ self.new.record_room) }
    {
        self.owners.room(adds)?;
        self.records.room()
    }

    /// One interest more, as the last of its resource, with record data where they are given. It
    /// takes the place of the connector's own interest in that resource, if there is one, and of
    /// its record data. There must be room for one interest more, and for record data where they
    /// are given.
    #[tactic(auto, using(crate::proofs::CountLaws::changes_told))]
    pub fn put(&mut self, held: Held, rec: Option<Adjunct>)
        requires owner_room { 1 ≤ self.old.owner_room }
        requires record_room { records_of rec ≤ self.old.record_room }
        ensures interests { self.new.interests ≡ interests_with (record { held = held; rec = rec })
            self.old.interests }
        ensures limit { self.new.limit ≡ self.old.limit }
        ensures owner_room { self.old.owner_room ≤ self.new.owner_room + 1 }
        ensures record_room { self.old.record_room ≤ self.new.record_room + records_of rec }
    {
        self.owners.add(held);
        put_record(&mut self.records, &held.r, held.conn, rec);
    }

    /// A connector's interest in a resource takes a state, and record data where they are given.
    #[tactic(auto, using(crate::proofs::JoinLaws::joined_told, crate::proofs::CountLaws::changed_none))]
    fn change(&mut self, w: &Waiter)
        requires { records_of w.now.rec ≤ self.old.record_room }
        ensures interests { self.new.interests ≡ interests_changed w.now.r w.now.conn
            (with_alteration w.now) self.old.interests }
        ensures limit { self.new.limit ≡ self.old.limit }
        ensures owner_room { self.old.owner_room ≤ self.new.owner_room }
        ensures record_room { self.old.record_room ≤ self.new.record_room + records_of w.now.rec }
    {
        if self.has_interest(&w.r, w.conn) {
            self.owners.set(&w.r, w.conn, w.excl);
            give_record(&mut self.records, &w.r, w.conn, w.rec);
        }
    }

    /// A waiter is granted. One that alters has its interest in the resource altered: the interest
    /// takes the state that is waited for, and record data where they are given. Another one
    /// becomes the last owner of the resource. There must be room for one interest more, and for
    /// record data where they are given.
    pub fn grant(&mut self, w: &Waiter)
        requires owner_room { 1 ≤ self.old.owner_room }
        requires record_room { records_of w.now.rec ≤ self.old.record_room }
        ensures interests { self.new.interests ≡ interests_granted w.now self.old.interests }
        ensures limit { self.new.limit ≡ self.old.limit }
        ensures owner_room { self.old.owner_room ≤ self.new.owner_room + 1 }
        ensures record_room { self.old.record_room ≤ self.new.record_room + records_of w.now.rec }
    {
        if w.alter {
            self.change(w);
        } else {
            self.put(held_by(w), w.rec);
        }
    }

    /// A connector's interest in a resource goes, with its record data. Where there is none,
    /// nothing changes.
    #[tactic(auto, using(crate::proofs::CountLaws::changes_told))]
    pub fn remove(&mut self, r: &Resource, conn: ConnId)
        ensures interests { self.new.interests ≡ interests_without r.now conn self.old.interests }
        ensures limit { self.new.limit ≡ self.old.limit }
        ensures owner_room { self.old.owner_room ≤ self.new.owner_room }
        ensures record_room { self.old.record_room ≤ self.new.record_room }
    {
        let _ = self.owners.remove(r, conn);
        let _ = self.records.remove(r, conn);
    }

    /// The last interest goes, with its record data. There must be one.
    pub fn drop_last(&mut self)
        requires interests { AreInterests self.old.interests }
        requires some { 0 < length self.old.interests }
        ensures interests { self.new.interests ≡ without_last self.old.interests }
        ensures limit { self.new.limit ≡ self.old.limit }
    {
        if let Some(last) = self.owners.last().copied() {
            self.remove(&last.r, last.conn);
        }
    }

    /// The record data of a connector's interest in a resource go, and the interest stays. Where
    /// there are none, nothing changes.
    #[tactic(auto, using(crate::proofs::CountLaws::changes_told))]
    pub fn unrecord(&mut self, r: &Resource, conn: ConnId)
        ensures interests { self.new.interests ≡ interests_changed r.now conn without_record
            self.old.interests }
        ensures limit { self.new.limit ≡ self.old.limit }
        ensures owner_room { self.old.owner_room ≤ self.new.owner_room }
        ensures record_room { self.old.record_room ≤ self.new.record_room }
    {
        let _ = self.records.remove(r, conn);
    }

    /// A connector's interests are retained no more, in whatever resource.
    #[tactic(auto, using(crate::proofs::JoinLaws::joined_told))]
    pub fn back(&mut self, conn: ConnId)
        ensures interests { self.new.interests ≡ map (with_retained conn false) self.old.interests }
        ensures limit { self.new.limit ≡ self.old.limit }
    {
        self.owners.set_retained_of(conn, false);
    }

    /// A connector departs. Its interests go with their record data, but with `keep` those that
    /// have record data stay, and are retained.
    pub fn leave(&mut self, conn: ConnId, keep: bool)
        ensures interests { self.new.interests ≡ interests_left conn keep self.old.interests }
        ensures limit { self.new.limit ≡ self.old.limit }
        ensures owner_room { self.old.owner_room ≤ self.new.owner_room }
        ensures record_room { self.old.record_room ≤ self.new.record_room }
    {
        if keep {
            self.leave_recorded(conn);
        } else {
            self.leave_all(conn);
        }
    }

    // A connector's interests go, but those with record data, which are retained.
    fn leave_recorded(&mut self, conn: ConnId)
        ensures interests { self.new.interests ≡ interests_left conn true self.old.interests }
        ensures limit { self.new.limit ≡ self.old.limit }
        ensures owner_room { self.old.owner_room ≤ self.new.owner_room }
        ensures record_room { self.old.record_room ≤ self.new.record_room }
    {
        self.owners.set_retained_of(conn, false);
        retain_recorded(&mut self.owners, &self.records, conn);
        self.owners.end_active(conn);
    }

    // A connector's interests go with their record data.
    fn leave_all(&mut self, conn: ConnId)
        ensures interests { self.new.interests ≡ interests_left conn false self.old.interests }
        ensures limit { self.new.limit ≡ self.old.limit }
        ensures owner_room { self.old.owner_room ≤ self.new.owner_room }
        ensures record_room { self.old.record_room ≤ self.new.record_room }
    {
        self.owners.set_retained_of(conn, false);
        self.owners.end_active(conn);
        self.records.drop_conn(conn);
    }
}

ghost use Rattle.std.specs.Prelude.{true, false, IsTrue, Bool, if◌then◌else◌};
ghost use Rattle.lock_model.specs.Grants.{with_alteration};
ghost use Rattle.lock_model.specs.Departures.{with_retained, interests_left};
ghost use Rattle.lock_model.specs.Commands.RtDelete.{without_record};
ghost use Rattle.lock_interests.specs.InterestsView.{letters_told, record_read, records_read, held_read, read_in, is_held_retained, retained_at, retained_all};
ghost use Rattle.std.specs.Prelude.{◌<◌, ◌++◌, List, option_to_list, slice_get};
ghost use Rattle.std.specs.List.{filter_map};
ghost use Rattle.lock_table.specs.Holdings.{is_on, owners_retained};
ghost use Rattle.lock_model.specs.Interests.{is_by, AreInterests};
ghost use Rattle.lock_model.specs.Contents.{owner, without_last};
ghost use Rattle.lock_model.specs.Commands.Decide as decide;

// Whether two may own a resource together.
fn are_compatible(held: &Held, other: &Held) -> bool
    ensures { result ≡ are_compatible held.now other.now }
{
    !held.excl && !other.excl || held.conn == other.conn
}

/// How many record data these are: 1 where they are given, else 0.
pub fn records_of(rec: &Option<Adjunct>) -> usize
    ensures { result ≡ records_of rec.now }
{
    match rec {
        Some(_) => 1,
        None => 0,
    }
}

// Whether one may own a resource beside each of these.
fn are_all_compatible(owners: Owners<'_>, held: &Held) -> bool
    ensures { result ≡ list_all (are_compatible held.now) (owners_left owners.entry) }
{
    let mut others = owners;
    others.all(|other| are_compatible(held, other))
}

// The first of these that isn't retained.
fn first_active<'a>(owners: Owners<'a>) -> Option<&'a Held>
    ensures { option_map (λ held. held.now) result ≡ find (λ held. not held.retained)
        (owners_left owners.entry) }
{
    let mut others = owners;
    others.find(|held| !held.retained)
}

// Whose interest it is.
fn conn_of(held: Option<&Held>) -> Option<ConnId>
    ensures { result ≡ option_map (λ (held : Held). held.conn)
        (option_map (λ held. held.now) held.entry) }
{
    match held {
        Some(held) => Some(held.conn),
        None => None,
    }
}

// A connector's interest among the owners of a resource.
fn find_by<'a>(owners: Owners<'a>, conn: ConnId) -> Option<&'a Held>
    ensures { option_map (λ held. held.now) result ≡ find (λ held. held.conn.0 == conn.0)
        (owners_left owners.entry) }
{
    let mut others = owners;
    others.find(|held| held.conn == conn)
}

// Whether an interest, if there is one, is retained.
fn is_held_retained(held: Option<&Held>) -> bool
    ensures { result ≡ is_held_retained (option_map (λ held. held.now) held.entry) }
{
    match held {
        Some(held) => held.retained,
        None => false,
    }
}

// An interest is retained, where it is the connector's.
fn retain_one(owners: &mut Table, part: Option<(Resource, ConnId)>, conn: ConnId)
    ensures owners { owners.new.owners ≡ retained_at conn part owners.old.owners }
    ensures room { owners.new.room ≡ owners.old.room }
{
    if let Some((r, by)) = part {
        retain_own(owners, &r, by, conn);
    }
}

// The same of this one.
fn retain_own(owners: &mut Table, r: &Resource, by: ConnId, conn: ConnId)
    ensures owners { owners.new.owners ≡ (if by.0 == conn.0
        then owners_retained r.now conn true owners.old.owners else owners.old.owners) }
    ensures room { owners.new.room ≡ owners.old.room }
{
    if by == conn {
        owners.set_retained(r, conn, true);
    }
}

// A connector's interests with record data are retained.
#[tactic(auto, using(crate::proofs::OwnerLaws::retained_next))]
fn retain_recorded(owners: &mut Table, records: &Records, conn: ConnId)
    ensures owners { owners.new.owners ≡ retained_all conn records.now.entries owners.old.owners }
    ensures room { owners.new.room ≡ owners.old.room }
    ensures alike { (p : Record → Bool) → list_any p records.now.entries
        ≡ list_any p records.now.records }
{
    let count = records.count();
    for k in 0..count {
        retain_one(owners, records.at(k), conn);
    }
}

// Whether an owner is told of a waiter.
fn is_told(held: &Held, r: &Resource, conn: ConnId) -> bool
    ensures { result ≡ (is_on r.now held.now && not held.now.retained)
        && not (held.now.conn.0 == conn.0) }
{
    held.r == *r && !held.retained && held.conn != conn
}

// How many owners are told of a waiter.
fn count_told(owners: Owners<'_>, r: &Resource, conn: ConnId) -> usize
    requires { length (owners_left owners) < 4294967296 }
    ensures { result ≡ length (letters_told r.now conn (owners_left owners.entry)) }
{
    let mut count = 0usize;
    for held in owners {
        if is_told(held, r, conn) {
            count += 1;
        }
    }
    count
}

// Tells the owners that aren't retained of a waiter, but not itself.
fn notify(owners: Owners<'_>, r: &Resource, conn: ConnId, out: &mut Effects)
    requires { length (letters_told r.now conn (owners_left owners)) ≤ out.old.mail.room }
    ensures mail { out.new.mail.items
        ≡ out.old.mail.items ++ letters_told r.now conn (owners_left owners.entry) }
    ensures letters { out.new.mail.room
        + length (letters_told r.now conn (owners_left owners.entry)) ≡ out.old.mail.room }
    ensures bits { out.new.bits ≡ out.old.bits }
{
    for held in owners {
        if is_told(held, r, conn) {
            out.mail.push(Letter {
                to: held.conn,
                event: Event::Notify { r: *r, conn },
            });
        }
    }
}

// One interest with record data more.
fn push_record(
    list: &mut Vec<(Resource, bool, Adjunct)>,
    held: &Held,
    rec: Option<&Adjunct>,
) -> Result<(), NoMemory>
    ensures { OnOk result (list.new.items
        ≡ list.old.items ++ option_to_list (record_read held.now
        (option_map (λ rec. rec.now) rec.entry))) }
{
    if let Some(rec) = rec {
        list.push((held.r, held.excl, *rec))?;
    }
    Ok(())
}

// An interest, if there is one, with its record data, behind others.
fn push_held(
    list: &mut Vec<(Resource, bool, Adjunct)>,
    held: Option<&Held>,
    records: &Records,
) -> Result<(), NoMemory>
    ensures { OnOk result (list.new.items ≡ list.old.items ++ option_to_list
        (held_read records.now.records (option_map (λ held. held.now) held.entry))) }
{
    match held {
        Some(held) => push_record(list, held, records.get(&held.r, held.conn)),
        None => Ok(()),
    }
}

// The interests of a connector with record data, in these resources.
fn read_each(
    alloc: Global,
    owners: &Table,
    records: &Records,
    conn: ConnId,
    resources: &[Resource],
) -> Result<Vec<(Resource, bool, Adjunct)>, NoMemory>
    ensures { IfOk result (λ list. list.items
        ≡ filter_map (read_in conn records.now.records owners.now.owners) resources.now) }
{
    let mut list = Vec::new(alloc);
    for r in resources {
        push_held(&mut list, find_by(owners.owners(r), conn), records)?;
    }
    Ok(list)
}

// The interests of a connector with record data.
#[tactic(auto, using(crate::proofs::OwnerLaws::read_each))]
fn read(
    alloc: Global,
    owners: &Table,
    records: &Records,
    conn: ConnId,
) -> Result<Vec<(Resource, bool, Adjunct)>, NoMemory>
    requires { IsTrue (pairwise are_apart owners.now.owners) }
    ensures { IfOk result (λ list. list.items ≡ records_read conn records.now.records
        owners.now.owners) }
{
    let resources = owners.of(alloc, conn)?;
    read_each(alloc, owners, records, conn, &resources)
}

/// The interest that a waiter waits for, not retained.
pub fn held_by(w: &Waiter) -> Held
    ensures { result ≡ held_by w.now }
{
    Held {
        r: w.r,
        conn: w.conn,
        excl: w.excl,
        retained: false,
    }
}
