//! Monitors of sublists, and the events that wait, as they are kept.
ghost use Rattle.std.specs.Prelude.{◌≡◌, ◌+◌, ◌<◌, ◌≤◌, ◌∷◌, [], IfOk, OnOk, Some, filter, find, fold, length, option_map};
ghost use Rattle.std.specs.List.{list_any, prefix_len, insert};
ghost use Rattle.std.specs.Vec.{vec_len, vec_capacity};
ghost use Rattle.queue_model.specs.Meaning.{is_unmonitored};
ghost use Rattle.queue_model.specs.Queues.{has, is_by, no_queues, same_sub, stands_before, with_event, left_by, monitored, unmonitored, without, first_of, taken, is_of_other, events_if};
ghost use Rattle.queue_model.specs.Turns.{is_of, is_idle, watchers, events_with, events_without, emptied, filled};

use cf_types::{ConnId, Listing, NoMemory};
use list_core::Sublist;
use queue_model::{Queued, Sub};
use std::alloc::Global;
use std::marker::Model;

/// Monitors of sublists, each in the order in which it was made, and the events that wait: by
/// connector, each connector's in the order of its queue. Contracts see both, and for how many more
/// of each there is room.
pub struct Queues {
    monitors: Vec<Sub>,
    events: Vec<Sub>,
}

impl Model for Queues {
    ghost use Rattle.list_queues.specs.QueuesView.{QueuesView, queues_view};

    ghost Value = { QueuesView };

    ghost view = { queues_view };
}

impl Drop for Queues {
    fn drop(self) {
        let Queues {
            monitors: _,
            events: _,
        } = self;
    }
}

// Whether two are the same sublist of one connector.
fn same(sub: &Sub, other: &Sub) -> bool
    ensures { result ≡ same_sub sub.now other.now }
{
    sub.conn == other.conn && (sub.header == other.header && sub.key == other.key)
}

// Whether a connector's sublist is this one.
fn is_of(it: &Sublist, sub: &Sub) -> bool
    ensures { result ≡ is_of it.now sub.now }
{
    it.header == sub.header && it.key == sub.key
}

// Where an event comes to stand: behind those of its connector, and of connectors before it.
fn place_of(events: &[Sub], sub: &Sub) -> usize
    ensures { result ≡ prefix_len (stands_before sub.now) events.now }
{
    events
        .iter()
        .take_while(|other| other.conn.0 <= sub.conn.0)
        .count()
}

// Puts an event at a place, where there is room for it.
fn insert_at(events: &mut Vec<Sub>, at: usize, sub: Sub)
    requires place { at ≤ vec_len events.old }
    requires room { vec_len events.old < vec_capacity events.old }
    ensures items { events.new.items ≡ insert events.old.items at sub }
    ensures len { vec_len events.new ≡ vec_len events.old + 1 }
    ensures capacity { vec_capacity events.old ≤ vec_capacity events.new }
{
    let _ = events.insert(at, sub);
}

// An event comes, where there is room for it.
#[tactic(auto, using(crate::proofs::EventLaws::event_placed))]
fn push_event(events: &mut Vec<Sub>, sub: Sub)
    requires { vec_len events.old < vec_capacity events.old }
    ensures items { events.new.items ≡ with_event events.old.items sub }
    ensures len { vec_len events.new ≡ vec_len events.old + 1 }
    ensures capacity { vec_capacity events.old ≤ vec_capacity events.new }
{
    let at = place_of(events, &sub);
    insert_at(events, at, sub);
}

// An event comes for each monitor of a sublist, where there is room for so many.
fn push_events(events: &mut Vec<Sub>, monitors: &[Sub], it: Sublist)
    requires { vec_len events.old + length (watchers it monitors.now) ≤ vec_capacity events.old }
    ensures { events.new.items ≡ events_with it monitors.now events.old.items }
{
    for monitor in monitors {
        if is_of(&it, monitor) {
            push_event(events, *monitor);
        }
    }
}

// A connector's sublist goes, with nothing else.
fn drop_sub(subs: &mut Vec<Sub>, sub: Sub)
    ensures { subs.new.items ≡ without sub subs.old.items }
{
    subs.retain(|other| !same(&sub, other));
}

// All of a connector's go.
fn drop_conn(subs: &mut Vec<Sub>, conn: ConnId)
    ensures { subs.new.items ≡ filter (is_of_other conn) subs.old.items }
{
    subs.retain(|sub| !(sub.conn == conn));
}

// All events of a sublist go.
fn drop_events(events: &mut Vec<Sub>, it: Sublist)
    ensures items { events.new.items ≡ events_without it events.old.items }
    ensures len { vec_len events.new ≤ vec_len events.old }
    ensures capacity { vec_capacity events.new ≡ vec_capacity events.old }
{
    events.retain(|sub| !is_of(&it, sub));
}

// The first of a connector's.
fn first_by(events: &[Sub], conn: ConnId) -> Option<&Sub>
    ensures { option_map (λ sub. sub.now) result ≡ find (is_by conn) events.now }
{
    events.iter().find(|sub| sub.conn == conn)
}

// How many monitor a sublist.
fn count_watchers(monitors: &[Sub], it: Sublist) -> usize
    ensures { result ≡ length (watchers it monitors.now) }
{
    monitors.iter().filter(|sub| is_of(&it, *sub)).count()
}

impl Queues {
    /// Nothing is monitored, and no event waits. It takes no memory.
    pub fn new(alloc: Global) -> Queues
        ensures { result.queued ≡ no_queues }
    {
        Queues {
            monitors: Vec::new(alloc),
            events: Vec::new(alloc),
        }
    }

    /// The same monitors and events once more.
    pub fn copy(&self, alloc: Global) -> Result<Queues, NoMemory>
        ensures { IfOk result (λ copy. copy.queued ≡ self.now.queued) }
    {
        let monitors = Vec::from_slice(alloc, self.monitors.as_slice())?;
        let events = Vec::from_slice(alloc, self.events.as_slice())?;
        Ok(Queues { monitors, events })
    }

    /// The monitors and the events, as an item of a copy has them.
    pub fn listed(&self, alloc: Global) -> Result<Queued, NoMemory>
        ensures { IfOk result (λ queued. queued ≡ self.now.queued) }
    {
        let monitors = Vec::from_slice(alloc, self.monitors.as_slice())?;
        let events = Vec::from_slice(alloc, self.events.as_slice())?;
        Ok(Queued {
            monitors: Listing::from_vec(monitors),
            events: Listing::from_vec(events),
        })
    }

    /// Whether nothing is monitored.
    pub fn is_unmonitored(&self) -> bool
        ensures { result ≡ is_unmonitored self.now.queued }
    {
        self.monitors.is_empty()
    }

    /// Whether nothing is monitored, and no event waits.
    pub fn is_idle(&self) -> bool
        ensures { result ≡ is_idle self.now.queued }
    {
        self.monitors.is_empty() && self.events.is_empty()
    }

    /// Whether a connector monitors a sublist.
    pub fn has(&self, sub: Sub) -> bool
        ensures { result ≡ has self.now.queued.monitors sub }
    {
        self.monitors.iter().any(|other| same(&sub, other))
    }

    /// The first event of a connector's queue.
    pub fn first(&self, conn: ConnId) -> Option<Sub>
        ensures { result ≡ first_of conn self.now.queued }
    {
        match first_by(&self.events, conn) {
            Some(sub) => Some(*sub),
            None => None,
        }
    }

    /// Takes room for an event of each monitor of a sublist. Want of memory changes nothing.
    pub fn reserve(&mut self, it: Sublist) -> Result<(), NoMemory>
        ensures queued { self.new.queued ≡ self.old.queued }
        ensures room { OnOk result (length (watchers it self.old.queued.monitors)
            ≤ self.new.event_room) }
    {
        let count = count_watchers(&self.monitors, it);
        self.events.reserve(count)?;
        Ok(())
    }

    /// Takes room for one more monitor and its event. Want of memory changes nothing.
    pub fn reserve_one(&mut self) -> Result<(), NoMemory>
        ensures queued { self.new.queued ≡ self.old.queued }
        ensures monitor { OnOk result (1 ≤ self.new.monitor_room) }
        ensures event { OnOk result (1 ≤ self.new.event_room) }
    {
        self.monitors.reserve(1)?;
        self.events.reserve(1)?;
        Ok(())
    }

    /// A sublist has no records any more: its events go.
    pub fn empty(&mut self, it: Sublist)
        ensures queued { self.new.queued ≡ emptied it self.old.queued }
        ensures room { self.old.event_room ≤ self.new.event_room }
    {
        drop_events(&mut self.events, it);
    }

    /// A sublist has records and had none: whoever monitors it gets an event, behind its others.
    pub fn fill(&mut self, it: Sublist)
        requires { length (watchers it self.old.queued.monitors) ≤ self.old.event_room }
        ensures { self.new.queued ≡ filled it self.old.queued }
    {
        push_events(&mut self.events, &self.monitors, it);
    }

    /// A connector monitors a sublist. Where it didn't and the sublist is `full`, that is, has
    /// records, it gets an event, behind its others.
    pub fn monitor(&mut self, sub: Sub, full: bool)
        requires monitor { 1 ≤ self.old.monitor_room }
        requires event { 1 ≤ self.old.event_room }
        ensures { self.new.queued ≡ monitored full sub self.old.queued }
    {
        if !self.has(sub) {
            self.monitors.push_reserved(sub);
            if full {
                push_event(&mut self.events, sub);
            }
        }
    }

    /// A connector no longer monitors a sublist: its event goes, too.
    pub fn unmonitor(&mut self, sub: Sub)
        ensures { self.new.queued ≡ unmonitored sub self.old.queued }
    {
        drop_sub(&mut self.monitors, sub);
        drop_sub(&mut self.events, sub);
    }

    /// A connector's event of a sublist is taken.
    pub fn take(&mut self, sub: Sub)
        ensures { self.new.queued ≡ taken (Some sub) self.old.queued }
    {
        drop_sub(&mut self.events, sub);
    }

    /// A connector departs: its monitors and its events go.
    pub fn leave(&mut self, conn: ConnId)
        ensures { self.new.queued ≡ left_by conn self.old.queued }
    {
        drop_conn(&mut self.monitors, conn);
        drop_conn(&mut self.events, conn);
    }

    /// Takes monitors and events in place of its own.
    pub fn restore(&mut self, queued: Queued)
        ensures { self.new.queued ≡ queued }
    {
        let Queued { monitors, events } = queued;
        self.monitors = monitors.into_vec();
        self.events = events.into_vec();
    }

    /// Ends all monitors and events.
    pub fn clear(&mut self)
        ensures { self.new.queued ≡ no_queues }
    {
        self.monitors.clear();
        self.events.clear();
    }
}
