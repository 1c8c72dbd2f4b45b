ghost use Rattle.std.specs.Prelude.{◌≡◌, ◌≢◌, ◌+◌, ◌<◌, ◌≤◌, ℕ, OnOk, IfOk, All, length, slice_index_or};
ghost use Rattle.cf_types.specs.declared.limits.TheConstants.{CALLERS, CONNECTORS};
ghost use Rattle.cf_types.specs.Mailboxes.{empty_mail, letters_to, with_letter, with_letters, next_event, owed_event, with_taken, with_response, with_cleared};
ghost use Rattle.event_mail.specs.Callers.{AreCallers};
ghost use Rattle.event_mail.specs.Post.{Box, mailboxes_of};

use crate::letterbox::Letterbox;
use cf_types::limits::{CALLERS, CONNECTORS};
use cf_types::{ConnId, ConnSet, Event, Letter, NoMemory};
use std::alloc::Global;
use std::marker::Model;

/// How many mailboxes there are: the operator's, which stays empty, and one for each connector.
const PLACES: usize = CALLERS as usize;

/// For how many letters a connector's mailbox has room at the start.
const FIRST_LETTERS: usize = 8;

/// The mailboxes of a structure. Contracts see what each has, by the connectors' numbers from 0,
/// and for how many letters to each connector room is taken.
#[derive(Drop)]
pub struct Mail {
    boxes: Vec<Letterbox>,
    room: usize,
}

impl Model for Mail {
    ghost use Rattle.event_mail.specs.Post.{Post, HaveRoom, mailboxes_of};

    ghost Value = { Post };

    ghost view = { λ m. record { boxes = mailboxes_of m.boxes.items; room = m.room } };

    ghost invariant = { λ m. HaveRoom m.boxes.items m.room };
}

/// Takes room for so many letters more in each mailbox. Want of memory leaves what is in them.
fn reserve_each(boxes: &mut [Letterbox], letters: usize) -> Result<(), NoMemory>
    ensures mailboxes { mailboxes_of boxes.new ≡ mailboxes_of boxes.old }
    ensures room { OnOk result (All (λ box. letters ≤ box.room) boxes.new) }
    ensures more { (k : ℕ) (d : Box) → k < length boxes.old
        → (slice_index_or boxes.old k d).room ≤ (slice_index_or boxes.new k d).room }
{
    for mailbox in boxes.iter_mut() {
        mailbox.reserve(letters)?;
    }
    Ok(())
}

/// One event more waits for each member of a set of callers.
fn put_each(boxes: &mut [Letterbox], to: ConnSet, event: Event)
    requires callers { AreCallers to }
    requires places { length boxes.old ≡ CALLERS }
    requires room { All (λ box. 0 < box.room) boxes.old }
    ensures mailboxes { mailboxes_of boxes.new
        ≡ with_letters (mailboxes_of boxes.old) (letters_to to event) }
    ensures room { (k : ℕ) (d : Box) → k < length boxes.old
        → (slice_index_or boxes.old k d).room ≤ (slice_index_or boxes.new k d).room + 1 }
{
    for number in 0..CALLERS {
        let conn = ConnId(number);
        if to.has(conn) {
            put_at(boxes, conn, event);
        }
    }
}

/// One event more waits in a mailbox.
fn put_at(boxes: &mut [Letterbox], conn: ConnId, event: Event)
    requires place { conn.0 < length boxes.old }
    requires room { (d : Box) → 0 < (slice_index_or boxes.old conn.0 d).room }
    ensures mailboxes { mailboxes_of boxes.new
        ≡ with_letter (mailboxes_of boxes.old) (record { to = conn; event = event }) }
    ensures places { length boxes.new ≡ length boxes.old }
    ensures less { (d : Box) → (slice_index_or boxes.old conn.0 d).room
        ≤ (slice_index_or boxes.new conn.0 d).room + 1 }
    ensures others { (k : ℕ) (d : Box) → k ≢ conn.0
        → slice_index_or boxes.new k d ≡ slice_index_or boxes.old k d }
{
    let mailbox = &mut boxes[usize::from(conn.0)];
    mailbox.put(event);
}

impl Mail {
    /// No events. The mailboxes of the connectors up to `conns` have room for a few letters.
    pub fn new(alloc: Global, conns: u8) -> Result<Mail, NoMemory>
        ensures { IfOk result (λ mail. mail.boxes ≡ empty_mail) }
    {
        let mut boxes = Vec::new(alloc);
        for number in 0..PLACES {
            let letters = if number <= usize::from(conns) {
                FIRST_LETTERS
            } else {
                0
            };
            boxes.push(Letterbox::with_room(alloc, letters)?)?;
        }
        Ok(Mail { boxes, room: 0 })
    }

    /// Takes room for so many letters. An event that is taken needs none. Want of memory changes
    /// nothing.
    pub fn room(&mut self, letters: usize) -> Result<(), NoMemory>
        ensures boxes { self.new.boxes ≡ self.old.boxes }
        ensures room { OnOk result (letters ≤ self.new.room) }
        ensures more { self.old.room ≤ self.new.room }
    {
        if self.room < letters {
            reserve_each(&mut self.boxes, letters)?;
            self.room = letters;
        }
        Ok(())
    }

    // A letter waits for its connector, behind the others.
    fn put_letter(&mut self, letter: Letter)
        requires to { letter.to.0 ≤ CONNECTORS }
        requires room { 0 < self.old.room }
        ensures boxes { self.new.boxes ≡ with_letter self.old.boxes letter }
        ensures room { self.new.room + 1 ≡ self.old.room }
    {
        let mailbox = &mut self.boxes[usize::from(letter.to.0)];
        mailbox.put(letter.event);
        self.room -= 1;
    }

    // A letter to a number that is no connector's reaches nobody.
    fn lose_letter(&mut self, letter: Letter)
        requires to { CONNECTORS < letter.to.0 }
        requires room { 0 < self.old.room }
        ensures boxes { self.new.boxes ≡ with_letter self.old.boxes letter }
        ensures room { self.new.room + 1 ≡ self.old.room }
    {
        self.room -= 1;
    }

    /// A letter waits for its connector, behind the others. One to a number that is no connector's
    /// reaches nobody.
    pub fn post(&mut self, letter: Letter)
        requires { 0 < self.old.room }
        ensures boxes { self.new.boxes ≡ with_letter self.old.boxes letter }
        ensures room { self.new.room + 1 ≡ self.old.room }
    {
        if letter.to.0 <= CONNECTORS {
            self.put_letter(letter);
        } else {
            self.lose_letter(letter);
        }
    }

    /// The same event waits for each member of a set, behind the others: one letter to a mailbox at
    /// most.
    pub fn tell(&mut self, to: ConnSet, event: Event)
        requires callers { AreCallers to }
        requires room { 0 < self.old.room }
        ensures boxes { self.new.boxes
            ≡ with_letters self.old.boxes (letters_to to event) }
        ensures room { self.old.room ≤ self.new.room + 1 }
    {
        put_each(&mut self.boxes, to, event);
        self.room -= 1;
    }

    /// The first event that waits for a connector, none exactly where none waits.
    pub fn waiting(&self, conn: ConnId) -> Option<Event>
        requires { conn.0 ≤ CONNECTORS }
        ensures { result ≡ next_event self.now.boxes conn }
    {
        let mailbox = &self.boxes[usize::from(conn.0)];
        mailbox.waiting()
    }

    /// The oldest event that a connector owes, none exactly where it owes none.
    pub fn owed(&self, conn: ConnId) -> Option<Event>
        requires { conn.0 ≤ CONNECTORS }
        ensures { result ≡ owed_event self.now.boxes conn }
    {
        let mailbox = &self.boxes[usize::from(conn.0)];
        mailbox.owed()
    }

    /// Takes the first event that waits for a connector, none exactly where none waits. An event
    /// that is to be answered is owed from now on.
    pub fn next(&mut self, conn: ConnId) -> Option<Event>
        requires { conn.0 ≤ CONNECTORS }
        ensures event { result ≡ next_event self.old.boxes conn }
        ensures boxes { self.new.boxes ≡ with_taken conn self.old.boxes }
        ensures room { self.new.room ≡ self.old.room }
    {
        let mailbox = &mut self.boxes[usize::from(conn.0)];
        mailbox.take()
    }

    /// Answers the oldest event that a connector owes (IXLEERSP), none exactly where it owes none.
    pub fn respond(&mut self, conn: ConnId) -> Option<Event>
        requires { conn.0 ≤ CONNECTORS }
        ensures event { result ≡ owed_event self.old.boxes conn }
        ensures boxes { self.new.boxes ≡ with_response conn self.old.boxes }
        ensures room { self.new.room ≡ self.old.room }
    {
        let mailbox = &mut self.boxes[usize::from(conn.0)];
        mailbox.answer()
    }

    /// Ends a connector's events, those that wait and those that it owes.
    pub fn clear(&mut self, conn: ConnId)
        requires { conn.0 ≤ CONNECTORS }
        ensures boxes { self.new.boxes ≡ with_cleared conn self.old.boxes }
        ensures room { self.new.room ≡ self.old.room }
    {
        self.boxes[usize::from(conn.0)].clear();
    }
}
