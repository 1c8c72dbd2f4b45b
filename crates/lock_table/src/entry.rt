//! A table entry.
ghost use Rattle.std.specs.Prelude.{◌≡◌, ◌+◌, ◌≤◌, ◌<◌, ◌++◌, ◌∷◌, ◌^◌, [], IsTrue, IfOk, MatchOption, not, filter, length, position};
ghost use Rattle.std.specs.Prelude.{Some, ◌&&◌, nat_lt, slice_set, slice_index_or, if◌then◌else◌, cond, drop, option_map};
ghost use Rattle.std.specs.List.{list_any};
ghost use Rattle.std.specs.LinkedList.{linked_list_len};
ghost use Rattle.cf_types.specs.ConnSets.{is_member, with_member, without_member};
ghost use Rattle.std.specs.Iterator.{YieldsFirstRef, item_count};
ghost use Rattle.cf_lists.specs.Pairwise.{pairwise};
ghost use Rattle.lock_table.specs.declared.holdings.Held.{Held};
ghost use Rattle.lock_table.specs.Holdings.{is_by, is_interest, are_apart, owners_of, owners_without, owners_without_active, owners_in_state, owners_retained, owners_retained_of, in_retention_of, has_interest};
ghost use Rattle.cf_types.specs.Resources.{resource_before};
ghost use Rattle.cf_types.specs.declared.limits.TheConstants.{SET_NUMBERS};
ghost use Rattle.lock_table.specs.Tables.{part_of};
ghost use Rattle.cf_lists.specs.Tables.{later_of, last_of};
ghost use Rattle.lock_table.specs.EntryView.{owners_left};
ghost use Rattle.lock_table.specs.Masks.{IsMasked};

use crate::holdings::Held;
use cf_lists::{copy_list, cut, insert, replace, turn};
use cf_types::limits::SET_NUMBERS;
use cf_types::{ConnId, ConnSet, NoMemory, Resource};
use std::alloc::Global;
use std::collections::{LinkedList, linked_list};
use std::marker::Model;

/// Nodes of entries that hold nothing yet.
pub(crate) type Spare = LinkedList<Held>;

/// A table entry: which connectors have an interest in one of its resources, and the owners of
/// these, each resource's in granting order. Contracts see the owners.
#[derive(Drop)]
pub(crate) struct Entry {
    mask: ConnSet,
    owners: LinkedList<Held>,
}

impl Model for Entry {
    ghost use Rattle.std.specs.Prelude.{List};
    ghost use Rattle.lock_table.specs.declared.holdings.Held.{Held};
    ghost use Rattle.lock_table.specs.Masks.{IsMasked};

    ghost Value = { List Held };

    ghost view = { λ entry. entry.owners };

    ghost invariant = { λ entry. IsMasked entry.mask entry.owners };
}

/// The owners of a resource, in standing order.
#[derive(Drop)]
pub struct Owners<'a> {
    rest: linked_list::Iter<'a, Held>,
    r: Resource,
}

impl<'a> Iterator for Owners<'a> {
    type Item = &'a Held;

    ghost next_gives = { YieldsFirstRef owners_left };

    ghost remaining = { item_count owners_left };

    fn next(&mut self) -> Option<&'a Held> {
        next_on(&mut self.rest, &self.r)
    }
}

// The next owner of a resource.
fn next_on<'a>(rest: &mut linked_list::Iter<'a, Held>, r: &Resource) -> Option<&'a Held>
    ensures { MatchOption result ((owners_of r.now rest.old ≡ []) × (owners_of r.now rest.new ≡ []))
        (λ held. owners_of r.now rest.old ≡ held.now ∷ owners_of r.now rest.new) }
{
    while let Some(held) = rest.next() {
        if held.r == *r {
            return Some(held);
        }
    }
    None
}

// Whether an interest is this connector's in this resource.
fn is_interest(held: &Held, r: &Resource, conn: ConnId) -> bool
    ensures { result ≡ is_interest r.now conn held.now }
{
    held.r == *r && held.conn == conn
}

// Whether the mask tells that a connector has no interest here.
fn is_absent(mask: &ConnSet, conn: ConnId) -> bool
    ensures { result ≡ nat_lt conn.0 SET_NUMBERS && not (is_member conn mask.now) }
{
    conn.0 < SET_NUMBERS && !mask.has(conn)
}

// Where a connector's interest in a resource stands, by going over all.
fn search(owners: &LinkedList<Held>, r: &Resource, conn: ConnId) -> Option<usize>
    ensures { result ≡ position (is_interest r.now conn) owners.now }
{
    owners.iter().position(|held| is_interest(held, r, conn))
}

// Where a connector's interest in a resource stands; where the mask has no such connector, none is
// looked at.
#[tactic(auto, using(crate::proofs::EntryLaws::absent))]
fn place_of(mask: &ConnSet, owners: &LinkedList<Held>, r: &Resource, conn: ConnId) -> Option<usize>
    requires { IsMasked mask.now owners.now }
    ensures { result ≡ position (is_interest r.now conn) owners.now }
{
    if is_absent(mask, conn) {
        return None;
    }
    search(owners, r, conn)
}

// The mask with one more connector.
fn marked(mask: ConnSet, conn: ConnId) -> ConnSet
    ensures { result ≡ (if nat_lt conn.0 SET_NUMBERS then with_member conn mask else mask) }
{
    if conn.0 < SET_NUMBERS {
        mask.with(conn)
    } else {
        mask
    }
}

// Whether a connector has an interest in one of an entry's resources.
fn has_any(owners: &LinkedList<Held>, conn: ConnId) -> bool
    ensures { result ≡ list_any (is_by conn) owners.now }
{
    owners.iter().any(|held| held.conn == conn)
}

// The mask once an interest of a connector is gone.
fn unmarked(mask: ConnSet, owners: &LinkedList<Held>, conn: ConnId) -> ConnSet
    ensures { result ≡ (if nat_lt conn.0 SET_NUMBERS && not (list_any (is_by conn) owners.now)
        then without_member conn mask else mask) }
{
    if conn.0 < SET_NUMBERS && !has_any(owners, conn) {
        mask.without(conn)
    } else {
        mask
    }
}

// A connector's interest in a resource goes; answers whether there was one.
#[tactic(auto, using(crate::proofs::EntryLaws::cut_out, cf_lists::proofs::EntrySpotLaws::some_place, cf_lists::proofs::KeyLaws::none_placed, crate::proofs::EntryLaws::none_out))]
fn take_from(
    mask: &mut ConnSet,
    owners: &mut LinkedList<Held>,
    spare: &mut Spare,
    r: &Resource,
    conn: ConnId,
) -> bool
    requires mask { IsMasked mask.old owners.old }
    requires one_each { IsTrue (pairwise are_apart owners.old) }
    ensures mask { IsMasked mask.new owners.new }
    ensures there { result ≡ has_interest r.now conn owners.old }
    ensures owners { owners.new ≡ owners_without r.now conn owners.old }
    ensures spare { linked_list_len spare.old ≤ linked_list_len spare.new }
{
    match place_of(mask, owners, r, conn) {
        Some(at) => {
            cut(owners, spare, at);
            *mask = unmarked(*mask, owners, conn);
            true
        }
        None => false,
    }
}

// The interest at a place takes a state.
fn put_state(owners: &mut LinkedList<Held>, at: usize, excl: bool)
    requires { at < length owners.old }
    ensures { (d : Held) → owners.new ≡ slice_set owners.old at
        (record (slice_index_or owners.old at d) { excl = excl }) }
{
    if let Some(held) = owners.iter().nth(at).copied() {
        replace(owners, at, Held { excl, ..held });
    }
}

// The interest at a place is retained or not.
fn put_retention(owners: &mut LinkedList<Held>, at: usize, retained: bool)
    requires { at < length owners.old }
    ensures { (d : Held) → owners.new ≡ slice_set owners.old at
        (record (slice_index_or owners.old at d) { retained = retained }) }
{
    if let Some(held) = owners.iter().nth(at).copied() {
        replace(owners, at, Held { retained, ..held });
    }
}

// The first interest goes behind all others; it is retained or not, where it is this connector's.
fn turn_one(owners: &mut LinkedList<Held>, conn: ConnId, retained: bool)
    requires { 0 < length owners.old }
    ensures { (d : Held) → owners.new ≡ drop 1 owners.old
        ++ in_retention_of conn retained (slice_index_or owners.old 0 d) ∷ [] }
{
    if let Some(held) = owners.front().copied() {
        let mut held = held;
        if held.conn == conn {
            held.retained = retained;
        }
        turn(owners, held);
    }
}

// All interests of a connector are retained or not.
#[tactic(auto, using(cf_lists::proofs::PassLaws::pass_begins, cf_lists::proofs::PassLaws::mapped_step, cf_lists::proofs::PassLaws::pass_ends))]
fn put_retentions(owners: &mut LinkedList<Held>, conn: ConnId, retained: bool)
    ensures { owners.new ≡ owners_retained_of conn retained owners.old }
{
    for _ in 0..owners.len() {
        turn_one(owners, conn, retained);
    }
}

// The first interest goes where it is this connector's and isn't retained, and else behind all
// others.
fn sift_one(owners: &mut LinkedList<Held>, spare: &mut Spare, conn: ConnId)
    requires { 0 < length owners.old }
    ensures owners { (d : Held) → owners.new ≡ drop 1 owners.old
        ++ cond (not (is_by conn (slice_index_or owners.old 0 d)
        && not (slice_index_or owners.old 0 d).retained)) (slice_index_or owners.old 0 d ∷ []) [] }
    ensures spare { linked_list_len spare.old ≤ linked_list_len spare.new }
{
    if let Some(held) = owners.front().copied() {
        if held.conn == conn && !held.retained {
            cut(owners, spare, 0);
        } else {
            turn(owners, held);
        }
    }
}

// A connector's interests that aren't retained go.
#[tactic(auto, using(cf_lists::proofs::PassLaws::pass_begins, cf_lists::proofs::PassLaws::filtered_step, cf_lists::proofs::PassLaws::pass_ends))]
fn take_all_active(owners: &mut LinkedList<Held>, spare: &mut Spare, conn: ConnId)
    ensures owners { owners.new ≡ owners_without_active conn owners.old }
    ensures spare { linked_list_len spare.old ≤ linked_list_len spare.new }
{
    for _ in 0..owners.len() {
        sift_one(owners, spare, conn);
    }
}

// The same, and the mask with it.
#[tactic(auto, using(crate::proofs::EntryLaws::none_active, crate::proofs::EntryLaws::masked_active))]
fn take_active_from(
    mask: &mut ConnSet,
    owners: &mut LinkedList<Held>,
    spare: &mut Spare,
    conn: ConnId,
)
    requires { IsMasked mask.old owners.old }
    ensures mask { IsMasked mask.new owners.new }
    ensures owners { owners.new ≡ owners_without_active conn owners.old }
    ensures spare { linked_list_len spare.old ≤ linked_list_len spare.new }
{
    if is_absent(mask, conn) {
        return;
    }
    take_all_active(owners, spare, conn);
    *mask = unmarked(*mask, owners, conn);
}

// Of two interests the second, unless it is in a resource before the first's.
fn later_of<'a>(best: Option<&'a Held>, held: &'a Held) -> Option<&'a Held>
    ensures { option_map (λ held. held.now) result
        ≡ later_of part_of (option_map (λ held. held.now) best.entry) (Some held.now) }
{
    match best {
        Some(best) if held.r.cmp(&best.r).is_lt() => Some(best),
        _ => Some(held),
    }
}

// The last interest by resource, of one that is last so far and of these.
fn last_among<'a>(owners: &'a LinkedList<Held>, best: Option<&'a Held>) -> Option<&'a Held>
    ensures { option_map (λ held. held.now) result
        ≡ later_of part_of (option_map (λ held. held.now) best.entry) (last_of part_of owners.now) }
{
    let mut last = best;
    for held in owners.iter() {
        last = later_of(last, held);
    }
    last
}

impl Entry {
    /// Without owners.
    pub(crate) fn new(alloc: Global) -> Entry
        ensures { result ≡ [] }
    {
        Entry {
            mask: ConnSet::none(),
            owners: LinkedList::new(alloc),
        }
    }

    /// The same entry once more.
    pub(crate) fn copy(&self, alloc: Global) -> Result<Entry, NoMemory>
        ensures { IfOk result (λ copy. copy ≡ self.now) }
    {
        let owners = copy_list(alloc, &self.owners)?;
        Ok(Entry {
            mask: self.mask,
            owners,
        })
    }

    /// Whether its mask tells that a connector has no interest here.
    #[tactic(auto, using(crate::proofs::EntryLaws::none_by))]
    pub(crate) fn lacks(&self, conn: ConnId) -> bool
        ensures { IsTrue result → filter (is_by conn) self.now ≡ [] }
    {
        is_absent(&self.mask, conn)
    }

    /// The owners of a resource, in standing order.
    pub(crate) fn owners(&self, r: &Resource) -> Owners<'_>
        ensures { owners_left result ≡ owners_of r.now self.now }
    {
        Owners {
            rest: self.owners.iter(),
            r: *r,
        }
    }

    /// All owners, in the order of the entry.
    pub(crate) fn iter(&self) -> linked_list::Iter<'_, Held>
        ensures { result ≡ self.now }
    {
        self.owners.iter()
    }

    /// One interest more, behind all others, in a spare node.
    #[tactic(auto, using(cf_lists::proofs::NodeLaws::insert_last, crate::proofs::EntryLaws::masked_more))]
    pub(crate) fn put(&mut self, spare: &mut Spare, held: Held)
        requires few { length self.old + 1 < 2 ^ 63 }
        requires spare { 1 ≤ linked_list_len spare.old }
        ensures owners { self.new ≡ self.old ++ held ∷ [] }
        ensures spare { linked_list_len spare.new + 1 ≡ linked_list_len spare.old }
    {
        let last = self.owners.len();
        insert(&mut self.owners, spare, last, held);
        self.mask = marked(self.mask, held.conn);
    }

    /// A connector's interest in a resource goes; answers whether there was one.
    pub(crate) fn take(&mut self, spare: &mut Spare, r: &Resource, conn: ConnId) -> bool
        requires { IsTrue (pairwise are_apart self.old) }
        ensures there { result ≡ has_interest r.now conn self.old }
        ensures owners { self.new ≡ owners_without r.now conn self.old }
        ensures spare { linked_list_len spare.old ≤ linked_list_len spare.new }
    {
        take_from(&mut self.mask, &mut self.owners, spare, r, conn)
    }

    /// A connector's interest in a resource, if there is one, takes a state.
    pub(crate) fn set(&mut self, r: &Resource, conn: ConnId, excl: bool)
        requires { IsTrue (pairwise are_apart self.old) }
        ensures { self.new ≡ owners_in_state r.now conn excl self.old }
    {
        if let Some(at) = place_of(&self.mask, &self.owners, r, conn) {
            put_state(&mut self.owners, at, excl);
        }
    }

    /// A connector's interest in a resource, if there is one, is retained from now on, or is so no
    /// more.
    pub(crate) fn set_retained(&mut self, r: &Resource, conn: ConnId, retained: bool)
        requires { IsTrue (pairwise are_apart self.old) }
        ensures { self.new ≡ owners_retained r.now conn retained self.old }
    {
        if let Some(at) = place_of(&self.mask, &self.owners, r, conn) {
            put_retention(&mut self.owners, at, retained);
        }
    }

    /// All interests of a connector are retained from now on, or are so no more.
    #[tactic(auto, using(crate::proofs::EntryLaws::masked_same, crate::proofs::EntryLaws::none_retained))]
    pub(crate) fn set_retained_of(&mut self, conn: ConnId, retained: bool)
        ensures { self.new ≡ owners_retained_of conn retained self.old }
    {
        if !is_absent(&self.mask, conn) {
            put_retentions(&mut self.owners, conn, retained);
        }
    }

    /// A connector's interests that aren't retained go.
    pub(crate) fn take_active(&mut self, spare: &mut Spare, conn: ConnId)
        ensures owners { self.new ≡ owners_without_active conn self.old }
        ensures spare { linked_list_len spare.old ≤ linked_list_len spare.new }
    {
        take_active_from(&mut self.mask, &mut self.owners, spare, conn);
    }

    /// How many owners there are.
    pub(crate) fn len(&self) -> usize
        ensures { result ≡ length self.now }
    {
        self.owners.len()
    }

    /// How many interests are in resources before one.
    pub(crate) fn count_before(&self, r: &Resource) -> usize
        ensures { result ≡ length (filter (λ held. resource_before held.r r.now) self.now) }
    {
        self.owners
            .iter()
            .filter(|held| held.r.cmp(r).is_lt())
            .count()
    }

    /// The last interest by resource, of one that is last so far and of these.
    pub(crate) fn last<'a>(&'a self, best: Option<&'a Held>) -> Option<&'a Held>
        ensures { option_map (λ held. held.now) result
            ≡ later_of part_of (option_map (λ held. held.now) best.entry)
            (last_of part_of self.now) }
    {
        last_among(&self.owners, best)
    }
}
