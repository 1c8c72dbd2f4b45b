ghost use Rattle.std.specs.Prelude.{◌≡◌, ◌+◌, ◌<◌, ◌≤◌, ◌++◌, ◌∷◌, [], drop, OnOk, OnErr, IfOk};
ghost use Rattle.cf_types.specs.Mailboxes.{no_events, owes_response, first_event, box_taken};

use cf_types::{Event, NoMemory};
use std::alloc::Global;
use std::collections::VecDeque;
use std::marker::Model;

/// The events of one connector. Contracts see those that wait and those that are owed, each in
/// order, and for how many more events room is taken.
#[derive(Drop)]
pub struct Letterbox {
    /// The events that are owed, then those that wait.
    events: VecDeque<Event>,
    /// How many are owed.
    owed: usize,
}

impl Model for Letterbox {
    ghost use Rattle.std.specs.Prelude.{◌-◌, ◌≤◌, take, drop};
    ghost use Rattle.std.specs.VecDeque.{deque_len, deque_capacity};
    ghost use Rattle.event_mail.specs.Post.{Box};

    ghost Value = { Box };

    ghost view = { λ b. record {
      mailbox = record {
        waiting = drop b.owed b.events.items;
        owed = take b.owed b.events.items;
      };
      room = deque_capacity b.events - deque_len b.events;
    } };

    ghost invariant = { λ b. b.owed ≤ deque_len b.events };
}

/// Whether an event is to be answered.
fn owes_response(event: &Event) -> bool
    ensures { result ≡ owes_response event.now }
{
    match event {
        Event::DiscFail { .. }
        | Event::Quiesce { .. }
        | Event::Cleanup { .. }
        | Event::Stop { .. } => true,
        _ => false,
    }
}

impl Letterbox {
    /// No events, with room for so many.
    pub fn with_room(alloc: Global, letters: usize) -> Result<Letterbox, NoMemory>
        ensures mailbox { IfOk result (λ b. b.mailbox ≡ no_events) }
        ensures room { IfOk result (λ b. letters ≤ b.room) }
    {
        Ok(Letterbox {
            events: VecDeque::with_capacity(alloc, letters)?,
            owed: 0,
        })
    }

    /// Takes room for so many events more. Want of memory changes nothing.
    pub fn reserve(&mut self, letters: usize) -> Result<(), NoMemory>
        ensures mailbox { self.new.mailbox ≡ self.old.mailbox }
        ensures room { OnOk result (letters ≤ self.new.room) }
        ensures more { self.old.room ≤ self.new.room }
    {
        self.events.reserve(letters)?;
        Ok(())
    }

    /// One event more waits, behind the others.
    pub fn put(&mut self, event: Event)
        requires { 0 < self.old.room }
        ensures mailbox { self.new.mailbox
            ≡ record self.old.mailbox { waiting = self.old.mailbox.waiting ++ event ∷ [] } }
        ensures room { self.new.room + 1 ≡ self.old.room }
    {
        self.events.push_back_reserved(event);
    }

    /// The first event that waits.
    pub fn waiting(&self) -> Option<Event>
        ensures { result ≡ first_event self.now.mailbox.waiting }
    {
        self.events.get(self.owed).copied()
    }

    /// The oldest event that is owed.
    pub fn owed(&self) -> Option<Event>
        ensures { result ≡ first_event self.now.mailbox.owed }
    {
        if self.owed == 0 {
            None
        } else {
            self.events.get(0).copied()
        }
    }

    /// Takes the first event that waits. Where it is to be answered it is owed from now on.
    #[tactic(auto, using(crate::proofs::RemovalLaws::removal))]
    pub fn take(&mut self) -> Option<Event>
        ensures event { result ≡ first_event self.old.mailbox.waiting }
        ensures mailbox { self.new.mailbox ≡ box_taken self.old.mailbox }
        ensures room { self.old.room ≤ self.new.room }
    {
        let event = self.events.get(self.owed).copied()?;
        if owes_response(&event) {
            self.owed += 1;
        } else {
            self.events.remove(self.owed);
        }
        Some(event)
    }

    /// Answers the oldest event that is owed.
    pub fn answer(&mut self) -> Option<Event>
        ensures event { result ≡ first_event self.old.mailbox.owed }
        ensures mailbox { self.new.mailbox
            ≡ record self.old.mailbox { owed = drop 1 self.old.mailbox.owed } }
        ensures room { self.old.room ≤ self.new.room }
    {
        if self.owed == 0 {
            return None;
        }
        self.owed -= 1;
        self.events.pop_front()
    }

    /// Ends the events; the room stays.
    pub fn clear(&mut self)
        ensures mailbox { self.new.mailbox ≡ no_events }
        ensures room { self.old.room ≤ self.new.room }
    {
        self.events.clear();
        self.owed = 0;
    }
}
