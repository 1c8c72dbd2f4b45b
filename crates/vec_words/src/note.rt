//! A note of what a pass knows.
ghost use Rattle.std.specs.Prelude.{◌≡◌, ◌≤◌, []};

use crate::view::View;
use atomic_table::Seat;
use std::marker::Model;

/// A note carries a pass's numbers to another pass.
pub struct Note<D> {
    pub(crate) known: u32,
    pub(crate) sure: u32,
    pub(crate) seat: Seat<u8, View<D>>,
}

impl<D> Model for Note<D> {
    ghost use Rattle.vec_words.specs.Tokens.{NoteSeen, note_seen, IsNote};

    ghost Value = { NoteSeen };

    ghost view = { λ n. note_seen n.seat.table_id n.seat.me.0 };

    ghost invariant = { λ n. IsNote n.known n.sure n.seat.me };
}

impl<D> Drop for Note<D> {
    fn drop(self) {
        let Note {
            known: _,
            sure: _,
            seat: _,
        } = self;
    }
}

impl<D> Note<D> {
    ghost use Rattle.vec_words.specs.Tokens.{note_seen};

    /// The number that the pass knew when the note was made.
    pub fn known(&self) -> u32
        ensures { result ≡ self.now.known }
    {
        self.known
    }

    /// The number of a call that the pass had seen complete when the note was made.
    pub fn sure(&self) -> u32
        ensures sure { result ≡ self.now.sure }
        ensures ordered { result ≤ self.now.known }
    {
        self.sure
    }

    // The seat that has the numbers.
    pub(crate) fn into_seat(self) -> Seat<u8, View<D>>
        ensures seen { note_seen result.table_id result.me.0 ≡ self }
        ensures no_slot { result.me.1 ≡ [] }
    {
        let Note {
            known: _,
            sure: _,
            seat,
        } = self;
        seat
    }
}
