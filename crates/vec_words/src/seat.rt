//! The seat of the engine.
use crate::view::View;
use atomic_table::Seat;
use std::marker::Model;

/// With its seat the engine stores the vectors' words, under the number of the call that it is
/// making. There is one to a word table. Contracts see the number in flight and the log of all
/// stores and commits.
pub struct EngineSeat<D> {
    pub(crate) number: u32,
    pub(crate) seat: Seat<u8, View<D>>,
}

impl<D> Model for EngineSeat<D> {
    ghost use Rattle.vec_words.specs.Tokens.{SeatSeen, seat_seen, IsEngineSeat};

    ghost Value = { SeatSeen D };

    ghost view = { λ s. seat_seen s.seat.table_id s.number s.seat.me.0 };

    ghost invariant = { λ s. IsEngineSeat s.number s.seat.me };
}

impl<D> Drop for EngineSeat<D> {
    fn drop(self) {
        let EngineSeat { number: _, seat: _ } = self;
    }
}
